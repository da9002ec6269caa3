//! The plain values that arguments stand for: those without extension values.
use calls_decode_values::{KeyedValue, value_pairs};
use calls_syntax::{CallError, Sexpr};
use cedar_exprs::Expr;
use cedar_values::{NoExtension, NotValue, Value};
use std::alloc::Global;
use std::collections::HashMap;
use std::rc::RcStr;

/// A value without extension values.
pub type PlainValue = Value<NoExtension>;

/// The values that unknowns are bound to.
pub type PlainValues = HashMap<RcStr, PlainValue>;

/// What unknowns are bound to: `(("x" V) ..)`; of equal names the last stands.
pub fn plain_bindings(alloc: Global, sexpr: &Sexpr) -> Result<PlainValues, CallError> {
    let mut values = HashMap::new(alloc);
    for (name, bound) in value_pairs(alloc, sexpr.list()?)? {
        bind_value(alloc, &mut values, name, &bound)?;
    }
    Ok(values)
}

fn bind_value(
    alloc: Global,
    values: &mut PlainValues,
    name: RcStr,
    bound: &KeyedValue,
) -> Result<(), CallError> {
    let value = plain(alloc, bound.to_expr(alloc)?)?;
    drop(values.insert(name, value)?);
    Ok(())
}

// The value of a value's expression, in which no extension value may be.
fn plain(alloc: Global, e: Expr) -> Result<PlainValue, CallError> {
    match PlainValue::try_from_expr(alloc, e) {
        Ok(value) => Ok(value),
        Err(NotValue::NotValue { .. }) => Err(CallError::BadArguments),
        Err(NotValue::Memory) => Err(CallError::Memory),
    }
}
