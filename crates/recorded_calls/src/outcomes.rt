//! Outcomes of expressions.
use crate::plain_values::{PlainValue, PlainValues, plain_bindings};
use calls_decode::expr;
use calls_syntax::{CallError, Sexpr, holds};
use cedar_builders::BuildFault;
use cedar_evaluator::{CallRefused, Evaluator, Outcome, evaluate};
use cedar_exprs::Expr;
use std::alloc::Global;

/// The outcome of an expression with its unknowns bound: a value, a fault or a refused call.
///
/// First to substitute and then to evaluate has to give the same, also by the one call that does
/// both, and the expression of the value has to evaluate to the value.
pub fn eval(alloc: Global, e: &Sexpr, env: &Sexpr) -> Result<String, CallError> {
    evaluated(alloc, &expr(alloc, e)?, &plain_bindings(alloc, env)?)
}

fn evaluated(alloc: Global, e: &Expr, values: &PlainValues) -> Result<String, CallError> {
    let at_once = at_once(alloc, e, values)?;
    holds(
        are_same(&at_once, &in_turn(alloc, e, values)?),
        "at once and in turn",
    )?;
    holds(
        are_same(&at_once, &by_one_call(alloc, e, values)?),
        "at once and by one call",
    )?;
    is_kept(alloc, &at_once)?;
    answer_text(alloc, &at_once)
}

// An outcome, or the call that is refused.
type Evaluated = Result<Outcome, CallRefused>;

fn at_once(alloc: Global, e: &Expr, values: &PlainValues) -> Result<Evaluated, CallError> {
    ended(evaluate(alloc, e, values))
}

fn in_turn(alloc: Global, e: &Expr, values: &PlainValues) -> Result<Evaluated, CallError> {
    as_it_stands(alloc, &e.substitute(alloc, values)?)
}

fn by_one_call(alloc: Global, e: &Expr, values: &PlainValues) -> Result<Evaluated, CallError> {
    ended(e.substitute_into_expr::<Evaluator, PlainValue>(alloc, values))
}

// That of an expression with nothing bound.
fn as_it_stands(alloc: Global, e: &Expr) -> Result<Evaluated, CallError> {
    ended(e.try_into_expr::<Evaluator>(alloc))
}

// What a builder gives, where there was memory for it.
fn ended<M: Drop, R: Drop>(built: Result<M, BuildFault<R>>) -> Result<Result<M, R>, CallError> {
    match built {
        Ok(made) => Ok(Ok(made)),
        Err(BuildFault::Build(refused)) => Ok(Err(refused)),
        Err(BuildFault::Memory) => Err(CallError::Memory),
    }
}

fn are_same(a: &Evaluated, b: &Evaluated) -> bool {
    match (a, b) {
        (Ok(a), Ok(b)) => *a.as_result() == *b.as_result(),
        (Err(a), Err(b)) => *a == *b,
        _ => false,
    }
}

// Refuses a value that is not that of its own expression.
fn is_kept(alloc: Global, evaluated: &Evaluated) -> Result<(), CallError> {
    match value_of(evaluated) {
        Some(value) => holds(
            are_same(&again(alloc, value)?, evaluated),
            "a value and its expression",
        ),
        None => Ok(()),
    }
}

fn value_of(evaluated: &Evaluated) -> Option<&PlainValue> {
    match evaluated {
        Ok(outcome) => outcome.as_result().as_ref().ok(),
        Err(_) => None,
    }
}

// What the expression of a value evaluates to.
fn again(alloc: Global, value: &PlainValue) -> Result<Evaluated, CallError> {
    as_it_stands(alloc, &value.to_expr(alloc)?)
}

fn answer_text(alloc: Global, evaluated: &Evaluated) -> Result<String, CallError> {
    match evaluated {
        Ok(outcome) => Ok(outcome.to_string(alloc)?),
        Err(refused) => Ok(format!(in alloc; "refused {}", refused.name)?),
    }
}
