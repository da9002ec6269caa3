//! Places of values, and copies.
use crate::values::called;
use calls_decode_values::{Keyed, KeyedValue, value};
use calls_syntax::{CallError, Sexpr, holds, place};
use cedar_names::Loc;
use cedar_terms::{Escaped, Literal};
use cedar_values::{RepresentableExtensionValue, Set, ValueKind};
use std::alloc::{AllocError, Global};
use std::collections::BTreeMap;
use std::rc::RcStr;

/// The answer to a call on the places of values.
pub fn answer(alloc: Global, call: &str, args: &[Sexpr]) -> Result<String, CallError> {
    match args {
        [v] => of_one(alloc, call, &value(alloc, v)?),
        _ => Err(CallError::UnknownCall),
    }
}

fn of_one(alloc: Global, call: &str, v: &KeyedValue) -> Result<String, CallError> {
    match call {
        "placedval" => placed_value(alloc, v),
        "copyval" => copied(alloc, v),
        _ => Err(CallError::UnknownCall),
    }
}

fn copied(alloc: Global, v: &KeyedValue) -> Result<String, CallError> {
    copied_kind(alloc, v.value_kind())?;
    same(alloc, &v.clone(alloc)?, v)
}

fn same(alloc: Global, copy: &KeyedValue, v: &KeyedValue) -> Result<String, CallError> {
    holds(copy.eq_and_same_source_loc(v), "a value and its copy")?;
    placed_value(alloc, copy)
}

fn copied_kind(alloc: Global, kind: &ValueKind<Keyed>) -> Result<(), CallError> {
    is_same(kind.clone(alloc), kind, "a kind and its copy")?;
    match kind {
        ValueKind::Set(set) => copied_set(alloc, set),
        _ => Ok(()),
    }
}

/// Refuses what was made, where there was memory for it, and is not the same as another.
pub fn is_same<T: PartialEq + Drop>(
    made: Result<T, AllocError>,
    other: &T,
    what: &'static str,
) -> Result<(), CallError> {
    holds(made? == *other, what)
}

fn copied_set(alloc: Global, set: &Set<Keyed>) -> Result<(), CallError> {
    same_set(&set.clone(alloc)?, set)
}

fn same_set(copy: &Set<Keyed>, set: &Set<Keyed>) -> Result<(), CallError> {
    holds(*copy == *set, "a set and its copy")?;
    let is_fast = copy.fast().is_some();
    holds(
        is_fast == set.fast().is_some(),
        "the forms of a set and its copy",
    )
}

/// The text of a value with the place of each value inside.
pub fn placed_value(alloc: Global, v: &KeyedValue) -> Result<String, CallError> {
    let mut text = String::new(alloc);
    write_placed(alloc, &mut text, v)?;
    Ok(text)
}

#[cycle(placed)]
fn write_placed(alloc: Global, text: &mut String, v: &KeyedValue) -> Result<(), CallError> {
    let written = match v.value_kind() {
        ValueKind::Lit(literal) => write_literal(text, literal),
        ValueKind::Set(set) => write_members(alloc, text, set),
        ValueKind::Record(pairs) => write_pairs(alloc, text, pairs),
        ValueKind::ExtensionValue(x) => write_call(alloc, text, x),
    };
    written?;
    write_place(alloc, text, v.source_loc())
}

fn write_literal(text: &mut String, literal: &Literal) -> Result<(), CallError> {
    write!(text, "{literal}")?;
    Ok(())
}

fn write_call(
    alloc: Global,
    text: &mut String,
    x: &RepresentableExtensionValue<Keyed>,
) -> Result<(), CallError> {
    text.push_str(called(alloc, x)?.as_str())?;
    Ok(())
}

fn write_place(alloc: Global, text: &mut String, loc: Option<&Loc>) -> Result<(), CallError> {
    let place = place(alloc, loc)?;
    write!(text, "@{place}")?;
    Ok(())
}

#[cycle(placed)]
#[inline(never)]
#[tactic(auto, unfolding(cedar_values::specs::Sets::members))]
fn write_members(alloc: Global, text: &mut String, set: &Set<Keyed>) -> Result<(), CallError> {
    text.push('[')?;
    let mut is_first = true;
    for member in set.authoritative() {
        if !is_first {
            text.push_str(", ")?;
        }
        is_first = false;
        write_placed(alloc, text, member)?;
    }
    text.push(']')?;
    Ok(())
}

#[cycle(placed)]
#[inline(never)]
fn write_pairs(
    alloc: Global,
    text: &mut String,
    pairs: &BTreeMap<RcStr, KeyedValue>,
) -> Result<(), CallError> {
    text.push('{')?;
    let mut is_first = true;
    for (key, bound) in pairs.iter() {
        if !is_first {
            text.push_str(", ")?;
        }
        is_first = false;
        write_key(text, key.as_str())?;
        write_placed(alloc, text, bound)?;
    }
    text.push('}')?;
    Ok(())
}

fn write_key(text: &mut String, key: &str) -> Result<(), CallError> {
    write!(text, "\"{}\": ", Escaped(key))?;
    Ok(())
}
