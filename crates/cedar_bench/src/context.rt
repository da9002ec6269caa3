//! The cases of conditions that read attributes of a bound record.
use crate::fault::{CaseFault, expect};
use crate::trees::{attribute_sums, bound_to, key, unknown};
use cedar_bench_runner::Stopwatch;
use cedar_evaluator::{Outcome, evaluate_shared};
use cedar_exprs::Expr;
use cedar_simplifier::{Simplified, simplify_shared};
use cedar_terms::Literal;
use cedar_values::{Value, WellFormedValue};
use std::alloc::{AllocError, Global};
use std::collections::HashMap;
use std::rc::RcStr;
use std::time::Duration;

// How often a condition reads an attribute.
const READS: usize = 64;

// How many members the record has that many conditions read.
const MEMBERS: usize = 10;

/// Evaluates a condition that reads attributes of the record x, which has so many members.
pub fn time_evaluate(rt: &HostRuntime, members: usize) -> Result<Duration, CaseFault> {
    let values = bound_to(rt.alloc(), context(rt.alloc(), members)?)?;
    let expr = attribute_sums(rt.alloc(), READS)?;
    let watch = Stopwatch::start(rt);
    watch.stop(evaluated(rt.alloc(), &expr, &values))
}

/// Simplifies that condition.
pub fn time_simplify(rt: &HostRuntime, members: usize) -> Result<Duration, CaseFault> {
    let values = bound_to(rt.alloc(), context(rt.alloc(), members)?)?;
    let expr = attribute_sums(rt.alloc(), READS)?;
    let watch = Stopwatch::start(rt);
    watch.stop(simplified(rt.alloc(), &expr, &values))
}

/// Evaluates so many conditions of ten nodes each, which read attributes of the record x.
pub fn time_policies(rt: &HostRuntime, count: usize) -> Result<Duration, CaseFault> {
    let values = bound_to(rt.alloc(), context(rt.alloc(), MEMBERS)?)?;
    let policies = policies(rt.alloc(), count)?;
    let watch = Stopwatch::start(rt);
    watch.stop(all_evaluated(rt.alloc(), &policies, &values))
}

// The record of so many numbers.
fn context(alloc: Global, members: usize) -> Result<WellFormedValue, CaseFault> {
    let mut pairs = Vec::new(alloc);
    let mut number: i64 = 0;
    for index in 0..members {
        pairs.push((key(alloc, index)?, Value::from(number)))?;
        number = number.wrapping_add(1);
    }
    match WellFormedValue::new(Value::record(alloc, pairs, None)?) {
        Ok(record) => Ok(record),
        Err(_) => Err(CaseFault::Answer),
    }
}

fn policies(alloc: Global, count: usize) -> Result<Vec<Expr>, AllocError> {
    let mut policies = Vec::with_capacity(alloc, count)?;
    let mut number: i64 = 0;
    for _ in 0..count {
        policies.push(policy(alloc, number)?)?;
        number = number.wrapping_add(1);
    }
    Ok(policies)
}

// The condition `x.k3 < NUMBER && !(x.k5 == 0)`.
fn policy(alloc: Global, number: i64) -> Result<Expr, AllocError> {
    let third = Expr::get_attr(alloc, unknown(alloc, false)?, key(alloc, 3)?)?;
    let fifth = Expr::get_attr(alloc, unknown(alloc, false)?, key(alloc, 5)?)?;
    let is_less = Expr::less(alloc, third, Expr::val(Literal::Long(number)))?;
    let is_zero = Expr::is_eq(alloc, fifth, Expr::val(Literal::Long(0)))?;
    Expr::and(alloc, is_less, Expr::not(alloc, is_zero)?)
}

// The outcome, which has to be a value.
fn evaluated(
    alloc: Global,
    expr: &Expr,
    values: &HashMap<RcStr, WellFormedValue>,
) -> Result<Outcome, CaseFault> {
    let outcome = evaluate_shared(alloc, expr, values)?;
    expect(outcome.as_result().is_ok())?;
    Ok(outcome)
}

fn all_evaluated(
    alloc: Global,
    policies: &[Expr],
    values: &HashMap<RcStr, WellFormedValue>,
) -> Result<(), CaseFault> {
    for policy in policies {
        drop(evaluated(alloc, policy, values)?);
    }
    Ok(())
}

// What is made, which has to be a value.
fn simplified(
    alloc: Global,
    expr: &Expr,
    values: &HashMap<RcStr, WellFormedValue>,
) -> Result<Simplified, CaseFault> {
    let simplified = simplify_shared(alloc, expr, values)?;
    expect(simplified.is_known())?;
    Ok(simplified)
}
