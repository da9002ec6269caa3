//! What is known of an expression by a table of functions.
use crate::stored::table;
use calls_decode::expr;
use calls_exprs::validation_text;
use calls_syntax::{CallError, Sexpr, holds};
use cedar_exprs::{Expr, ExprValidationError};
use cedar_terms::Type;
use std::alloc::Global;

/// The answer to a call that asks the table about an expression.
pub fn answer(alloc: Global, call: &str, args: &[Sexpr]) -> Result<String, CallError> {
    match args {
        [e] => of_expr(alloc, call, expr(alloc, e)?),
        _ => Err(CallError::UnknownCall),
    }
}

fn of_expr(alloc: Global, call: &str, e: Expr) -> Result<String, CallError> {
    match call {
        "trytype" => known_type(alloc, &e),
        _ => validate(alloc, e),
    }
}

// The type that is known of it.
fn known_type(alloc: Global, e: &Expr) -> Result<String, CallError> {
    match type_of(alloc, e)? {
        Some(ty) => Ok(format!(in alloc; "{ty}")?),
        None => Ok(format!(in alloc; "none")?),
    }
}

fn type_of(alloc: Global, e: &Expr) -> Result<Option<Type>, CallError> {
    let table = table(alloc)?;
    Ok(e.try_type_of(alloc, &table)?)
}

// Whether it passes validation, and then is as it was.
fn validate(alloc: Global, e: Expr) -> Result<String, CallError> {
    let copy = e.clone(alloc)?;
    match validated(alloc, e)? {
        Ok(e) => same(alloc, &e, &copy),
        Err(ExprValidationError::Memory) => Err(CallError::Memory),
        Err(e) => validation_text(alloc, &e),
    }
}

fn same(alloc: Global, e: &Expr, copy: &Expr) -> Result<String, CallError> {
    holds(*e == *copy, "an expression and what validation gives back")?;
    Ok(format!(in alloc; "ok")?)
}

fn validated(alloc: Global, e: Expr) -> Result<Result<Expr, ExprValidationError>, CallError> {
    let table = table(alloc)?;
    Ok(e.try_validate(alloc, &table))
}
