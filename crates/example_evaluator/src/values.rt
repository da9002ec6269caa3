//! Values: made, read, and known in part.

use cedar_ast::either::Either;
use cedar_ast::{PartialValue, Value, ValueKind, split};
use std::alloc::{AllocError, Global};
use std::rc::RcStr;

/// The set of these numbers. It has each of them once.
pub fn numbers(alloc: Global, numbers: &[i64]) -> Result<Value, AllocError> {
    let mut members = Vec::new(alloc);
    for number in numbers {
        members.push(Value::from(*number))?;
    }
    Value::set(alloc, members, None)
}

/// The record of a name and of the hours at work.
pub fn worker(alloc: Global, name: &str, hours: Value) -> Result<Value, AllocError> {
    let name = Value::from(RcStr::from_str(alloc, name)?);
    let pairs = vec![in alloc;
        (RcStr::from_str(alloc, "name")?, name),
        (RcStr::from_str(alloc, "hours")?, hours),
    ]?;
    Value::record(alloc, pairs, None)
}

/// Whether the value is a set that has the number.
pub fn has_number(value: &Value, number: i64) -> bool {
    match value.value_kind() {
        ValueKind::Set(set) => set.contains(&Value::from(number)),
        _ => false,
    }
}

/// How many answers there are, and whether each of them is a value.
pub fn count_answers(
    alloc: Global,
    answers: Vec<PartialValue>,
) -> Result<(usize, bool), AllocError> {
    match split(alloc, answers)? {
        Either::Left(values) => Ok((values.count(), true)),
        Either::Right(exprs) => Ok((exprs.count(), false)),
    }
}
