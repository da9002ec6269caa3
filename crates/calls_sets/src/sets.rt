//! Sets of values, by what is in them.
use calls_decode_values::{Keyed, KeyedValue, value, values};
use calls_syntax::{CallError, Sexpr, boolean, holds};
use cedar_values::{Set, ValueKind};
use std::alloc::Global;

/// The answer to a call on sets.
pub fn answer(alloc: Global, call: &str, args: &[Sexpr]) -> Result<String, CallError> {
    match call {
        "kept" => kept(
            alloc,
            values(alloc, args)?.as_slice(),
            &set_of(alloc, args)?,
        ),
        _ => match args {
            [v] => of_one(alloc, call, &value(alloc, v)?),
            [v, w] => of_two(alloc, call, &value(alloc, v)?, &value(alloc, w)?),
            _ => Err(CallError::UnknownCall),
        },
    }
}

fn of_one(alloc: Global, call: &str, v: &KeyedValue) -> Result<String, CallError> {
    match call {
        "members" => members(alloc, v),
        _ => Err(CallError::UnknownCall),
    }
}

fn of_two(alloc: Global, call: &str, v: &KeyedValue, w: &KeyedValue) -> Result<String, CallError> {
    match call {
        "contains" => boolean(alloc, set(v)?.contains(w)),
        "subset" => boolean(alloc, set(v)?.is_subset(set(w)?)),
        "disjoint" => disjoint(alloc, set(v)?, set(w)?),
        _ => Err(CallError::UnknownCall),
    }
}

fn set(v: &KeyedValue) -> Result<&Set<Keyed>, CallError> {
    match v.value_kind() {
        ValueKind::Set(set) => Ok(set),
        _ => Err(CallError::BadArguments),
    }
}

fn disjoint(alloc: Global, a: &Set<Keyed>, b: &Set<Keyed>) -> Result<String, CallError> {
    let answer = a.is_disjoint(b);
    holds(b.is_disjoint(a) == answer, "the two ways round")?;
    boolean(alloc, answer)
}

fn members(alloc: Global, v: &KeyedValue) -> Result<String, CallError> {
    let set = set(v)?;
    let is_well_formed = v.is_well_formed();
    holds(
        set.is_well_formed() == is_well_formed,
        "a value and its set",
    )?;
    holds(
        v.value_kind().is_well_formed() == is_well_formed,
        "a value and its kind",
    )?;
    holds(are_counted(set), "the counts of a set")?;
    listed(alloc, counts(alloc, set, is_well_formed)?, set)
}

fn are_counted(set: &Set<Keyed>) -> bool {
    set.is_empty() == (set.len() == 0) && set.authoritative().len() == set.len()
}

fn counts(alloc: Global, set: &Set<Keyed>, is_well_formed: bool) -> Result<String, CallError> {
    let len = set.len();
    match set.fast() {
        Some(literals) => Ok(format!(in alloc; "{len} {} {is_well_formed}", literals.len())?),
        None => Ok(format!(in alloc; "{len} none {is_well_formed}")?),
    }
}

// The text and then the members' texts.
fn listed(alloc: Global, text: String, set: &Set<Keyed>) -> Result<String, CallError> {
    let mut text = text;
    if set.is_empty() {
        text.push(' ')?;
    }
    for member in set.iter() {
        write!(text, " {member}")?;
    }
    Ok(text)
}

fn set_of(alloc: Global, sexprs: &[Sexpr]) -> Result<Set<Keyed>, CallError> {
    Ok(Set::new(alloc, values(alloc, sexprs)?)?)
}

fn kept(alloc: Global, given: &[KeyedValue], set: &Set<Keyed>) -> Result<String, CallError> {
    let mut are_kept = true;
    for member in set.iter() {
        are_kept = are_kept && is_among(member, given);
    }
    boolean(alloc, are_kept)
}

fn is_among(member: &KeyedValue, given: &[KeyedValue]) -> bool {
    let mut is_among = false;
    for value in given {
        is_among = is_among || member.eq_and_same_source_loc(value);
    }
    is_among
}
