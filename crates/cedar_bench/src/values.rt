//! The cases of values as expressions, of their texts, and of values put for unknowns.
use crate::fault::CaseFault;
use crate::sets::literals;
use crate::trees::{bound_to, unknown};
use cedar_bench_runner::Stopwatch;
use cedar_exprs::Expr;
use cedar_terms::Literal;
use cedar_values::{BoundedToString as _, NotValue, Value};
use std::alloc::{AllocError, Global};
use std::time::Duration;

// How often the unknown stands in the set of `subst-values`.
const UNKNOWNS: usize = 100;

/// Makes the expression of a set of so many numbers.
pub fn time_to_expr(rt: &HostRuntime, count: usize) -> Result<Duration, CaseFault> {
    let value = set_of_longs(rt.alloc(), count)?;
    let watch = Stopwatch::start(rt);
    watch.stop(value.to_expr(rt.alloc()))
}

/// Makes the value of that expression.
pub fn time_from_expr(rt: &HostRuntime, count: usize) -> Result<Duration, CaseFault> {
    let expr = expr_of_longs(rt.alloc(), count)?;
    let watch = Stopwatch::start(rt);
    let value: Result<Value, NotValue> = Value::try_from_expr(rt.alloc(), expr);
    watch.stop(value)
}

/// Writes a set of so many numbers.
pub fn time_text(rt: &HostRuntime, count: usize) -> Result<Duration, CaseFault> {
    let value = set_of_longs(rt.alloc(), count)?;
    let watch = Stopwatch::start(rt);
    watch.stop(value.to_string_unbounded(rt.alloc()))
}

/// Writes so many sets inside one another.
pub fn time_deep_text(rt: &HostRuntime, levels: usize) -> Result<Duration, CaseFault> {
    let value = sets_in_sets(rt.alloc(), levels)?;
    let watch = Stopwatch::start(rt);
    watch.stop(value.to_string_unbounded(rt.alloc()))
}

/// Puts sets, of so many numbers in all, for the unknowns in a set.
pub fn time_substitute(rt: &HostRuntime, count: usize) -> Result<Duration, CaseFault> {
    let values = bound_to(rt.alloc(), set_of_first(rt.alloc(), count / UNKNOWNS)?)?;
    let expr = set_of_unknowns(rt.alloc())?;
    let watch = Stopwatch::start(rt);
    watch.stop(expr.substitute(rt.alloc(), &values))
}

fn set_of_longs(alloc: Global, count: usize) -> Result<Value, AllocError> {
    Value::set_of_lits(alloc, literals(alloc, count)?, None)
}

fn expr_of_longs(alloc: Global, count: usize) -> Result<Expr, AllocError> {
    set_of_longs(alloc, count)?.to_expr(alloc)
}

// A set of a set of a set, and so on.
fn sets_in_sets(alloc: Global, levels: usize) -> Result<Value, AllocError> {
    let mut value = Value::empty_set(alloc, None)?;
    for _ in 0..levels {
        value = Value::set(alloc, vec![in alloc; value]?, None)?;
    }
    Ok(value)
}

fn set_of_unknowns(alloc: Global) -> Result<Expr, AllocError> {
    let mut members = Vec::new(alloc);
    for _ in 0..UNKNOWNS {
        members.push(unknown(alloc, false)?)?;
    }
    Expr::set(alloc, members)
}

// The set of the numbers from 0 on.
fn set_of_first(alloc: Global, count: usize) -> Result<Value, AllocError> {
    Value::set_of_lits(alloc, first(alloc, count)?, None)
}

fn first(alloc: Global, count: usize) -> Result<Vec<Literal>, AllocError> {
    let mut numbers = Vec::new(alloc);
    let mut number: i64 = 0;
    for _ in 0..count {
        numbers.push(Literal::Long(number))?;
        number = number.saturating_add(1);
    }
    Ok(numbers)
}
