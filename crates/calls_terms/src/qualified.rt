//! Names within namespaces.
use crate::names::{id, told_copy};
use crate::raw_names::raw_of_name;
use crate::told::Told;
use calls_syntax::{
    Answer, CallError, Sexpr, agreed, internal_name, maybe_place, namespace, place, placed_name,
    plain, shown,
};
use cedar_names::{InternalName, Name, RawName};
use std::alloc::Global;
use std::convert::TryFrom;

/// The answer to a call on names within namespaces.
pub fn answer(alloc: Global, call: &str, args: &[Sexpr]) -> Result<String, CallError> {
    match args {
        [a, b] => match call {
            "qualify" => qualified(alloc, a, b),
            "within" => within(alloc, a, b),
            "typein" => type_in(alloc, a, b),
            _ => Err(CallError::UnknownCall),
        },
        [a, b, at] => match call {
            "typein" => type_in_at(alloc, a, b, at),
            _ => Err(CallError::UnknownCall),
        },
        _ => Err(CallError::UnknownCall),
    }
}

fn qualified(alloc: Global, sexpr: &Sexpr, within: &Sexpr) -> Result<String, CallError> {
    let name = placed_name(alloc, sexpr)?;
    let namespace = namespace(alloc, within)?;
    told_qualified(alloc, &name, namespace.as_ref())
}

fn told_qualified(
    alloc: Global,
    name: &InternalName,
    namespace: Option<&InternalName>,
) -> Result<String, CallError> {
    let raw = raw_of_name(alloc, name)?;
    told(alloc, both_qualified(alloc, name, &raw, namespace))
}

// The internal name and the raw one have to agree.
fn both_qualified(
    alloc: Global,
    name: &InternalName,
    raw: &RawName,
    namespace: Option<&InternalName>,
) -> Result<InternalName, CallError> {
    agreed(
        name.qualify_with(alloc, namespace),
        raw.qualify_with(alloc, namespace),
    )
}

fn told(alloc: Global, qualified: Result<InternalName, CallError>) -> Result<String, CallError> {
    let name = qualified?;
    Answer::new(alloc)
        .word(&name)
        .labelled_made("loc=", place(alloc, name.loc()))
        .end()
}

fn within(alloc: Global, sexpr: &Sexpr, within: &Sexpr) -> Result<String, CallError> {
    let name = internal_name(alloc, sexpr)?;
    match namespace(alloc, within)? {
        None => each_within(alloc, &name, None, None),
        Some(namespace) => within_both(alloc, &name, &namespace),
    }
}

fn within_both(
    alloc: Global,
    name: &InternalName,
    namespace: &InternalName,
) -> Result<String, CallError> {
    let by_name = plain(namespace.clone(alloc)?)?;
    each_within(alloc, name, Some(namespace), Some(&by_name))
}

fn each_within(
    alloc: Global,
    name: &InternalName,
    namespace: Option<&InternalName>,
    by_name: Option<&Name>,
) -> Result<String, CallError> {
    Answer::new(alloc)
        .allocated(name.qualify_with_name(alloc, by_name))
        .made(raw_within(alloc, name, by_name))
        .made(plain_within(alloc, name, namespace, by_name))
        .end()
}

fn raw_within(
    alloc: Global,
    name: &InternalName,
    by_name: Option<&Name>,
) -> Result<String, CallError> {
    let raw = raw_of_name(alloc, name)?;
    shown(alloc, raw.qualify_with_name(alloc, by_name))
}

// Within the plain namespace, and within the internal one.
fn plain_within(
    alloc: Global,
    name: &InternalName,
    namespace: Option<&InternalName>,
    by_name: Option<&Name>,
) -> Result<String, CallError> {
    match Name::try_from(name.clone(alloc)?) {
        Ok(name) => Answer::new(alloc)
            .allocated(name.qualify_with_name(alloc, by_name))
            .allocated(name.qualify_with(alloc, namespace))
            .end(),
        Err(e) => e.told(alloc),
    }
}

fn type_in(alloc: Global, basename: &Sexpr, namespace: &Sexpr) -> Result<String, CallError> {
    let basename = id(alloc, basename)?;
    let namespace = internal_name(alloc, namespace)?;
    shown(
        alloc,
        InternalName::type_in_namespace(alloc, basename, namespace, None),
    )
}

fn type_in_at(
    alloc: Global,
    basename: &Sexpr,
    namespace: &Sexpr,
    at: &Sexpr,
) -> Result<String, CallError> {
    let name = type_at(alloc, basename, namespace, at)?;
    told_copy(alloc, &name)
}

fn type_at(
    alloc: Global,
    basename: &Sexpr,
    namespace: &Sexpr,
    at: &Sexpr,
) -> Result<InternalName, CallError> {
    let basename = id(alloc, basename)?;
    let loc = maybe_place(alloc, at)?;
    let namespace = internal_name(alloc, namespace)?;
    Ok(InternalName::type_in_namespace(alloc, basename, namespace, loc)?)
}
