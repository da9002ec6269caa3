//! Sets of values that are ordered in reverse.
use crate::flip::Flip;
use calls_decode_values::number;
use calls_syntax::{Answer, CallError, Sexpr, boolean, holds, join};
use cedar_values::{RepresentableExtensionValue, Set, Value, ValueKind};
use std::alloc::Global;
use std::rc::Rc;

/// The answer to a call on values that are ordered in reverse.
pub fn answer(alloc: Global, call: &str, args: &[Sexpr]) -> Result<String, CallError> {
    match (call, args) {
        ("flips", [a, b]) => compared(alloc, &set(alloc, a)?, &set(alloc, b)?),
        ("flipin", [k, a]) => found(alloc, number(alloc, k)?, &set(alloc, a)?),
        _ => Err(CallError::UnknownCall),
    }
}

fn flip(alloc: Global, number: i64) -> Result<Value<Flip>, CallError> {
    let x = RepresentableExtensionValue::new_lazy(Flip::new(number));
    Ok(Value::new(ValueKind::ExtensionValue(Rc::new(alloc, x)?), None))
}

// The set of these, which those gathered twice have to make too.
fn set(alloc: Global, sexpr: &Sexpr) -> Result<Set<Flip>, CallError> {
    let sexprs = sexpr.list()?;
    let set = Set::new(alloc, flips(alloc, sexprs, 1)?)?;
    is_gathered(alloc, sexprs, &set)?;
    Ok(set)
}

fn is_gathered(alloc: Global, sexprs: &[Sexpr], set: &Set<Flip>) -> Result<(), CallError> {
    let gathered = Set::from_values(alloc, flips(alloc, sexprs, 2)?)?;
    holds(gathered == *set, "sets made and gathered")
}

// The values of the numbers, each so many times.
fn flips(alloc: Global, sexprs: &[Sexpr], times: usize) -> Result<Vec<Value<Flip>>, CallError> {
    let mut flips = Vec::new(alloc);
    for _ in 0..times {
        for sexpr in sexprs {
            flips.push(flip(alloc, number(alloc, sexpr)?)?)?;
        }
    }
    Ok(flips)
}

fn compared(alloc: Global, a: &Set<Flip>, b: &Set<Flip>) -> Result<String, CallError> {
    Answer::new(alloc)
        .made(listed(alloc, a))
        .labelled("subset=", &a.is_subset(b))
        .labelled("disjoint=", &a.is_disjoint(b))
        .labelled("equal=", &(*a == *b))
        .end()
}

// The numbers of the members, in their order, and whether the set is well formed.
fn listed(alloc: Global, set: &Set<Flip>) -> Result<String, CallError> {
    let mut text = String::new(alloc);
    for member in set.authoritative() {
        if let ValueKind::ExtensionValue(x) = member.value_kind() {
            join(&mut text, ",", &x.value().number())?;
        }
    }
    let is_well_formed = set.is_well_formed();
    write!(text, " {is_well_formed}")?;
    Ok(text)
}

// Whether it is in the set, and its number as a literal is not.
fn found(alloc: Global, number: i64, set: &Set<Flip>) -> Result<String, CallError> {
    holds(
        !set.contains(&Value::from(number)),
        "numbers and values that are made of them",
    )?;
    boolean(alloc, set.contains(&flip(alloc, number)?))
}
