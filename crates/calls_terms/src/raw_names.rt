//! Raw names.
use crate::told::Told;
use calls_syntax::{
    Answer, CallError, Sexpr, compare, internal_name, maybe_place, place, placed_name,
};
use cedar_names::{Id, InternalName, Loc, RawName, UnreservedId};
use std::alloc::Global;
use std::convert::TryFrom;

/// The answer to a call on raw names.
pub fn answer(alloc: Global, call: &str, args: &[Sexpr]) -> Result<String, CallError> {
    let [a, b] = args else {
        return Err(CallError::UnknownCall);
    };
    match call {
        "rawof" => raw_names(alloc, a, b),
        "cmprawname" => compare(alloc, placed_raw(alloc, a), placed_raw(alloc, b)),
        _ => Err(CallError::UnknownCall),
    }
}

fn placed_raw(alloc: Global, sexpr: &Sexpr) -> Result<RawName, CallError> {
    Ok(RawName::from_name(placed_name(alloc, sexpr)?))
}

/// The raw name of this name.
pub fn raw_of_name(alloc: Global, name: &InternalName) -> Result<RawName, CallError> {
    Ok(RawName::from_name(name.clone(alloc)?))
}

fn raw_names(alloc: Global, sexpr: &Sexpr, at: &Sexpr) -> Result<String, CallError> {
    let loc = maybe_place(alloc, at)?;
    let name = internal_name(alloc, sexpr)?;
    each_raw(alloc, &name, loc.as_ref())
}

fn each_raw(alloc: Global, name: &InternalName, loc: Option<&Loc>) -> Result<String, CallError> {
    Answer::new(alloc)
        .made(told_alone(alloc, name))
        .made(told_at(alloc, name.basename(), loc))
        .made(told_unreserved(alloc, name.basename(), loc))
        .end()
}

fn told_alone(alloc: Global, name: &InternalName) -> Result<String, CallError> {
    let raw = raw_of_name(alloc, name)?;
    Answer::new(alloc)
        .word(&raw)
        .labelled("unqualified=", &raw.is_unqualified())
        .end()
}

fn told_at(alloc: Global, id: &Id, loc: Option<&Loc>) -> Result<String, CallError> {
    let id = id.clone(alloc)?;
    told_raw(alloc, &RawName::new(id, Loc::clone_option(alloc, loc)?))
}

fn told_raw(alloc: Global, raw: &RawName) -> Result<String, CallError> {
    Answer::new(alloc)
        .word(raw)
        .labelled_made("loc=", place(alloc, raw.loc()))
        .end()
}

fn told_unreserved(alloc: Global, id: &Id, loc: Option<&Loc>) -> Result<String, CallError> {
    match UnreservedId::try_from(id.clone(alloc)?) {
        Ok(id) => told_unreserved_at(alloc, id, loc),
        Err(e) => e.told(alloc),
    }
}

fn told_unreserved_at(
    alloc: Global,
    id: UnreservedId,
    loc: Option<&Loc>,
) -> Result<String, CallError> {
    let loc = Loc::clone_option(alloc, loc)?;
    told_raw(alloc, &RawName::new_from_unreserved(id, loc))
}
