//! The cases of the evaluator.
use crate::fault::{CaseFault, expect};
use crate::sets::literals;
use crate::trees::{additions, bound_to, comparisons, questions, unknown};
use cedar_bench_runner::Stopwatch;
use cedar_evaluator::{Outcome, evaluate};
use cedar_exprs::Expr;
use cedar_values::Value;
use std::alloc::{AllocError, Global};
use std::collections::HashMap;
use std::rc::RcStr;
use std::time::Duration;

/// What is evaluated.
#[derive(Clone, Copy)]
pub enum Rule {
    /// Sums and comparisons, in a full tree.
    Balanced,
    /// A chain of sums.
    Deep,
    /// Attributes of records.
    Records,
    /// Tests of sets.
    Sets,
}

/// Evaluates an expression of this size, in which the unknown x is bound to 7.
pub fn time_evaluate(rt: &HostRuntime, rule: Rule, size: usize) -> Result<Duration, CaseFault> {
    let expr = rule.expr(rt.alloc(), size)?;
    let values = bound_to(rt.alloc(), Value::from(7))?;
    let watch = Stopwatch::start(rt);
    watch.stop(evaluated(rt.alloc(), &expr, &values))
}

impl Rule {
    fn expr(self, alloc: Global, size: usize) -> Result<Expr, CaseFault> {
        match self {
            Rule::Balanced => comparisons(alloc, size),
            Rule::Deep => Ok(additions(alloc, size)?),
            Rule::Records => questions(alloc, size),
            Rule::Sets => Ok(set_tests(alloc, size)?),
        }
    }
}

// The outcome, which has to be a value.
fn evaluated(
    alloc: Global,
    expr: &Expr,
    values: &HashMap<RcStr, Value>,
) -> Result<Outcome, CaseFault> {
    let outcome = evaluate(alloc, expr, values)?;
    expect(outcome.as_result().is_ok())?;
    Ok(outcome)
}

// Whether the set of so many numbers has all of every other one, and x.
fn set_tests(alloc: Global, count: usize) -> Result<Expr, AllocError> {
    let set = set_of_numbers(alloc, count, false)?;
    let part = set_of_numbers(alloc, count, true)?;
    let has_part = Expr::contains_all(alloc, set.clone(alloc)?, part)?;
    let has_x = Expr::contains(alloc, set, unknown(alloc, false)?)?;
    Expr::and(alloc, has_part, has_x)
}

fn set_of_numbers(alloc: Global, count: usize, is_every_other: bool) -> Result<Expr, AllocError> {
    let mut members = Vec::new(alloc);
    let mut is_left_out = false;
    for number in literals(alloc, count)? {
        if !is_left_out {
            members.push(Expr::val(number))?;
        }
        is_left_out = is_every_other && !is_left_out;
    }
    Expr::set(alloc, members)
}
