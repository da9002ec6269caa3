//! Names.
use crate::told::{Told, ok_or_refused, tell};
use calls_syntax::{
    Answer, CallError, Sexpr, compare, copy_of, internal_name, maybe_place, ok, place,
    place_in_text, placed_name, plain, shown,
};
use cedar_names::{Id, InternalName, Name, ReservedNameError, UnreservedId};
use std::alloc::Global;
use std::convert::{AsRef, TryFrom};

/// The answer to a call on names.
pub fn answer(alloc: Global, call: &str, args: &[Sexpr]) -> Result<String, CallError> {
    match args {
        [] => match call {
            "cedar" => shown(alloc, InternalName::cedar(alloc)),
            _ => Err(CallError::UnknownCall),
        },
        [name] => of_one(alloc, call, name),
        [a, b] => match call {
            "cmpname" => compare(alloc, placed_name(alloc, a), placed_name(alloc, b)),
            "cmpplain" => compared_plain(alloc, a, b),
            _ => Err(CallError::UnknownCall),
        },
        [path, basename, at] => match call {
            "newname" => tell(alloc, of_path(alloc, path, basename, at)),
            _ => Err(CallError::UnknownCall),
        },
        _ => Err(CallError::UnknownCall),
    }
}

fn of_one(alloc: Global, call: &str, name: &Sexpr) -> Result<String, CallError> {
    match call {
        "to-name" => to_name(alloc, name),
        "to-id" => to_id(alloc, name),
        "to-uid" => to_unreserved_id(alloc, name),
        "name-to-uid" => plain_to_id(alloc, name),
        "nameof" => of_plain(alloc, name),
        "parts" => components(alloc, name),
        "source" => source(alloc, name),
        _ => Err(CallError::UnknownCall),
    }
}

fn to_name(alloc: Global, sexpr: &Sexpr) -> Result<String, CallError> {
    match Name::try_from(internal_name(alloc, sexpr)?) {
        Ok(name) => ok(alloc, &name),
        Err(e) => refused(alloc, &e),
    }
}

fn refused(alloc: Global, e: &ReservedNameError) -> Result<String, CallError> {
    Answer::new(alloc)
        .labelled("reserved ", e.name())
        .word(e)
        .end()
}

fn to_id(alloc: Global, sexpr: &Sexpr) -> Result<String, CallError> {
    ok_or_refused(alloc, Id::try_from(internal_name(alloc, sexpr)?))
}

fn to_unreserved_id(alloc: Global, sexpr: &Sexpr) -> Result<String, CallError> {
    match Id::try_from(internal_name(alloc, sexpr)?) {
        Ok(id) => ok_or_refused(alloc, UnreservedId::try_from(id)),
        Err(e) => e.told(alloc),
    }
}

fn plain_to_id(alloc: Global, sexpr: &Sexpr) -> Result<String, CallError> {
    match Name::try_from(internal_name(alloc, sexpr)?) {
        Ok(name) => ok_or_refused(alloc, UnreservedId::try_from(name)),
        Err(e) => e.told(alloc),
    }
}

fn of_plain(alloc: Global, sexpr: &Sexpr) -> Result<String, CallError> {
    match Name::try_from(internal_name(alloc, sexpr)?) {
        Ok(name) => told_plain(alloc, &name),
        Err(e) => e.told(alloc),
    }
}

// Its basename twice, whether it stands alone, its place, the name of its basename, and whether it
// comes back as an internal name.
fn told_plain(alloc: Global, name: &Name) -> Result<String, CallError> {
    Answer::new(alloc)
        .word(name.basename_as_ref())
        .allocated(name.basename(alloc))
        .labelled("unqualified=", &name.is_unqualified())
        .labelled_made("loc=", place(alloc, name.loc()))
        .labelled_made("alone=", alone(alloc, name))
        .labelled_made("back=", is_back(alloc, name))
        .end()
}

fn alone(alloc: Global, name: &Name) -> Result<Name, CallError> {
    Ok(Name::unqualified_name(name.basename(alloc)?))
}

fn is_back(alloc: Global, name: &Name) -> Result<bool, CallError> {
    let internal = InternalName::from(name.clone(alloc)?);
    Ok(internal == *name.as_ref())
}

fn components(alloc: Global, sexpr: &Sexpr) -> Result<String, CallError> {
    let name = internal_name(alloc, sexpr)?;
    let mut components = Answer::new(alloc);
    for id in name.namespace_components() {
        components = components.word(id);
    }
    components.end()
}

fn source(alloc: Global, sexpr: &Sexpr) -> Result<String, CallError> {
    let name = internal_name(alloc, sexpr)?;
    told_copy(alloc, &name)
}

/// A copy and its place.
pub fn told_copy(alloc: Global, name: &InternalName) -> Result<String, CallError> {
    let copy = name.clone(alloc)?;
    Answer::new(alloc)
        .word(&copy)
        .labelled_made("loc=", place_in_text(alloc, copy.loc()))
        .end()
}

/// The identifier that a word spells.
pub fn id(alloc: Global, sexpr: &Sexpr) -> Result<Id, CallError> {
    match Id::try_from(internal_name(alloc, sexpr)?) {
        Ok(id) => Ok(id),
        Err(()) => Err(CallError::BadArguments),
    }
}

fn of_path(
    alloc: Global,
    path: &Sexpr,
    basename: &Sexpr,
    at: &Sexpr,
) -> Result<InternalName, CallError> {
    let path = ids(alloc, path.list()?)?;
    let basename = id(alloc, basename)?;
    Ok(InternalName::new(basename, path, maybe_place(alloc, at)?))
}

fn ids(alloc: Global, path: &[Sexpr]) -> Result<Vec<Id>, CallError> {
    let mut ids = Vec::new(alloc);
    for component in path {
        ids.push(id(alloc, component)?)?;
    }
    Ok(ids)
}

// By a copy of the first.
fn compared_plain(alloc: Global, a: &Sexpr, b: &Sexpr) -> Result<String, CallError> {
    compare(
        alloc,
        copy_of(alloc, plain_name(alloc, a)),
        plain_name(alloc, b),
    )
}

fn plain_name(alloc: Global, sexpr: &Sexpr) -> Result<Name, CallError> {
    plain(placed_name(alloc, sexpr)?)
}
