//! What expressions are simplified to.
use crate::plain_values::{PlainValues, plain_bindings};
use calls_decode::{expr, sketch};
use calls_syntax::{CallError, Sexpr, holds};
use cedar_builders::BuildFault;
use cedar_evaluator::evaluate;
use cedar_exprs::Expr;
use cedar_simplifier::{Simplified, Simplifier};
use std::alloc::Global;
use std::collections::HashMap;

/// What is made of an expression with its unknowns bound: `known V` or `left E`.
///
/// First to substitute and then to simplify has to give the same, and so has to simplify again; the
/// expression of what is made has to have the outcome of the expression.
pub fn simplify(alloc: Global, e: &Sexpr, env: &Sexpr) -> Result<String, CallError> {
    let values = plain_bindings(alloc, env)?;
    answered(alloc, &expr(alloc, e)?, &values)
}

fn answered(alloc: Global, e: &Expr, values: &PlainValues) -> Result<String, CallError> {
    let text = text_of(alloc, at_once(alloc, e, values)?)?;
    holds(
        text == text_of(alloc, in_turn(alloc, e, values)?)?,
        "at once and in turn",
    )?;
    let residual = at_once(alloc, e, values)?.into_expr(alloc)?;
    holds(
        text == text_of(alloc, by_itself(alloc, &residual)?)?,
        "simplified once and twice",
    )?;
    holds(
        outcome(alloc, e, values)? == outcome(alloc, &residual, &HashMap::new(alloc))?,
        "what it means and what the residual means",
    )?;
    Ok(text)
}

fn at_once(alloc: Global, e: &Expr, values: &PlainValues) -> Result<Simplified, CallError> {
    Ok(cedar_simplifier::simplify(alloc, e, values)?)
}

fn in_turn(alloc: Global, e: &Expr, values: &PlainValues) -> Result<Simplified, CallError> {
    by_itself(alloc, &e.substitute(alloc, values)?)
}

// What an expression is made where nothing is bound.
fn by_itself(alloc: Global, e: &Expr) -> Result<Simplified, CallError> {
    Ok(e.into_expr::<Simplifier>(alloc)?)
}

fn text_of(alloc: Global, simplified: Simplified) -> Result<String, CallError> {
    if let Some(value) = simplified.as_value() {
        return Ok(format!(in alloc; "known {value}")?);
    }
    let residual = sketch(alloc, &simplified.into_expr(alloc)?)?;
    Ok(format!(in alloc; "left {residual}")?)
}

// The outcome, or the call that is refused, as a text.
fn outcome(alloc: Global, e: &Expr, values: &PlainValues) -> Result<String, CallError> {
    match evaluate(alloc, e, values) {
        Ok(outcome) => Ok(outcome.to_string(alloc)?),
        Err(BuildFault::Build(refused)) => Ok(refused.to_string(alloc)?),
        Err(BuildFault::Memory) => Err(CallError::Memory),
    }
}
