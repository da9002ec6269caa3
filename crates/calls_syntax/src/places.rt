//! Places, and names at one.
use crate::call_error::CallError;
use crate::sexpr::Sexpr;
use crate::terms::internal_name;
use cedar_names::{Id, InternalName, Loc};
use std::alloc::Global;
use std::rc::RcStr;

/// The number that a word spells.
pub fn count(sexpr: &Sexpr) -> Result<usize, CallError> {
    number(sexpr.word()?)
}

fn number(word: &str) -> Result<usize, CallError> {
    match word.parse() {
        Ok(number) => Ok(number),
        Err(_) => Err(CallError::BadArguments),
    }
}

/// The place from one number to another, in the text `src`.
pub fn loc(alloc: Global, start: &Sexpr, stop: &Sexpr) -> Result<Loc, CallError> {
    in_source(alloc, count(start)?, count(stop)?)
}

fn in_source(alloc: Global, start: usize, stop: usize) -> Result<Loc, CallError> {
    Ok(Loc::new(start, stop, RcStr::from_str(alloc, "src")?))
}

/// The place that a word spells, `3..7` in the text `src`; none for `-`.
pub fn maybe_place(alloc: Global, sexpr: &Sexpr) -> Result<Option<Loc>, CallError> {
    let word = sexpr.word()?;
    if word == "-" {
        return Ok(None);
    }
    match word.split_once("..") {
        None => Err(CallError::BadArguments),
        Some((start, stop)) => Ok(Some(in_source(alloc, number(start)?, number(stop)?)?)),
    }
}

/// The place and what stands there, where an argument is `(@ START STOP INNER)`.
pub fn at_place<'a, 'b>(
    alloc: Global,
    sexpr: &'b Sexpr<'a>,
) -> Result<Option<(Loc, &'b Sexpr<'a>)>, CallError> {
    let Sexpr::List(sexprs) = sexpr else {
        return Ok(None);
    };
    match sexprs.as_slice() {
        [head, start, stop, inner] => match head.word()? {
            "@" => Ok(Some((loc(alloc, start, stop)?, inner))),
            _ => Ok(None),
        },
        _ => Ok(None),
    }
}

/// The name that an argument spells, at its own place where it is `(@ 3 7 N)`.
pub fn placed_name(alloc: Global, sexpr: &Sexpr) -> Result<InternalName, CallError> {
    match at_place(alloc, sexpr)? {
        None => internal_name(alloc, sexpr),
        Some((loc, inner)) => name_at(alloc, &internal_name(alloc, inner)?, loc),
    }
}

/// The name at this place.
pub fn name_at(alloc: Global, name: &InternalName, loc: Loc) -> Result<InternalName, CallError> {
    let path = path_of(alloc, name)?;
    Ok(InternalName::new(name.basename().clone(alloc)?, path, Some(loc)))
}

fn path_of(alloc: Global, name: &InternalName) -> Result<Vec<Id>, CallError> {
    let mut path = Vec::new(alloc);
    for id in name.namespace_components() {
        path.push(id.clone(alloc)?)?;
    }
    Ok(path)
}
