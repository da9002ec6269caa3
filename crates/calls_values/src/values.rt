//! Comparisons of values, what is inside them, and what they say of themselves.
use crate::copies::is_same;
use calls_decode::sketch;
use calls_decode_values::{Keyed, KeyedValue, value};
use calls_syntax::{Answer, CallError, Sexpr, boolean, holds, join, sign};
use cedar_exprs::SubstituteValue;
use cedar_terms::{EntityUID, StaticallyTyped};
use cedar_values::{ExtensionValue, RepresentableExtensionValue, ValueKind};
use std::alloc::{AllocError, Global};
use std::cmp::Ordering;
use std::collections::HashSet;
use std::fmt::Display;

/// The answer to a call on values.
pub fn answer(alloc: Global, call: &str, args: &[Sexpr]) -> Result<String, CallError> {
    match args {
        [v] => of_one(alloc, call, &value(alloc, v)?),
        [v, w] => of_two(alloc, call, &value(alloc, v)?, &value(alloc, w)?),
        _ => Err(CallError::UnknownCall),
    }
}

fn of_one(alloc: Global, call: &str, v: &KeyedValue) -> Result<String, CallError> {
    match call {
        "valtype" => typed(alloc, v),
        "uids" => uids(alloc, v),
        "extval" => said(alloc, v),
        _ => Err(CallError::UnknownCall),
    }
}

fn of_two(alloc: Global, call: &str, v: &KeyedValue, w: &KeyedValue) -> Result<String, CallError> {
    match call {
        "cmpval" => compared(alloc, v, w),
        "eqval" => boolean(alloc, *v == *w),
        "eqloc" => boolean(alloc, v.eq_and_same_source_loc(w)),
        _ => Err(CallError::UnknownCall),
    }
}

fn compared(alloc: Global, v: &KeyedValue, w: &KeyedValue) -> Result<String, CallError> {
    let order = ordered(v, w)?;
    holds(
        v.value_kind().cmp(w.value_kind()) == order,
        "values and kinds",
    )?;
    sign(alloc, order)
}

// The order, with which the other comparisons agree.
fn ordered<T: Ord>(a: &T, b: &T) -> Result<Ordering, CallError> {
    let order = a.cmp(b);
    holds((*a == *b) == order.is_eq(), "equality and order")?;
    holds(b.cmp(a) == order.reverse(), "the order and its reverse")?;
    holds(a.partial_cmp(b) == Some(order), "the orders")?;
    Ok(order)
}

fn typed(alloc: Global, v: &KeyedValue) -> Result<String, CallError> {
    let of_kind = v.value_kind().type_of(alloc);
    type_text(alloc, v.type_of(alloc), of_kind, v.value_type(alloc))
}

// The text of a type, where those of the kind and of what is substituted are the same.
fn type_text<T: PartialEq + Display + Drop>(
    alloc: Global,
    ty: Result<T, AllocError>,
    of_kind: Result<T, AllocError>,
    substituted: Result<T, AllocError>,
) -> Result<String, CallError> {
    let ty = ty?;
    is_same(of_kind, &ty, "values and kinds")?;
    is_same(substituted, &ty, "the types")?;
    Ok(format!(in alloc; "{ty}")?)
}

fn uids(alloc: Global, v: &KeyedValue) -> Result<String, CallError> {
    let uids = sorted(alloc, v.all_literal_uids(alloc)?)?;
    let of_kind = sorted(alloc, v.value_kind().all_literal_uids(alloc)?)?;
    holds(uids == of_kind, "values and kinds")?;
    uid_texts(alloc, uids.as_slice())
}

fn uid_texts(alloc: Global, uids: &[EntityUID]) -> Result<String, CallError> {
    let mut text = String::new(alloc);
    for uid in uids {
        join(&mut text, " ", uid)?;
    }
    Ok(text)
}

fn sorted(alloc: Global, found: HashSet<EntityUID>) -> Result<Vec<EntityUID>, CallError> {
    let mut uids = Vec::new(alloc);
    for uid in found {
        uids.push(uid)?;
    }
    uids.sort()?;
    Ok(uids)
}

fn said(alloc: Global, v: &KeyedValue) -> Result<String, CallError> {
    match v.value_kind() {
        ValueKind::ExtensionValue(x) => said_by(alloc, x),
        _ => Err(CallError::BadArguments),
    }
}

fn said_by(alloc: Global, x: &RepresentableExtensionValue<Keyed>) -> Result<String, CallError> {
    let own = x.value();
    Answer::new(alloc)
        .allocated(x.typename(alloc))
        .allocated(x.type_of(alloc))
        .word(&own.text())
        .labelled("overloaded=", &own.supports_operator_overloading())
        .made(called(alloc, x))
        .end()
}

/// The call that stands for an extension value.
pub fn called(alloc: Global, x: &RepresentableExtensionValue<Keyed>) -> Result<String, CallError> {
    let call = x.to_restricted_expr(alloc)?;
    sketch(alloc, call.as_expr())
}
