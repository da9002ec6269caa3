//! Substitution, untyped and typed.
use calls_decode::{expr, placed, sketch};
use calls_decode_values::{KeyedValue, bindings};
use calls_exprs::substitution_text;
use calls_syntax::{CallError, Sexpr, ok};
use cedar_exprs::{Expr, SubstitutionError};
use cedar_terms::Type;
use std::alloc::Global;
use std::collections::HashMap;
use std::rc::RcStr;

type Values = HashMap<RcStr, KeyedValue>;

/// The answer to a call that substitutes.
pub fn answer(alloc: Global, call: &str, args: &[Sexpr]) -> Result<String, CallError> {
    match args {
        [e, env] => with_values(alloc, call, &expr(alloc, e)?, &bindings(alloc, env)?),
        _ => Err(CallError::UnknownCall),
    }
}

fn with_values(alloc: Global, call: &str, e: &Expr, values: &Values) -> Result<String, CallError> {
    match call {
        "subst" => sketch(alloc, &e.substitute(alloc, values)?),
        "subst-placed" => placed(alloc, &e.substitute(alloc, values)?),
        "typed" => typed(alloc, e, values),
        "clash" => clash(alloc, e, values),
        _ => Err(CallError::UnknownCall),
    }
}

// The tree after typed substitution, or the types that clash.
fn typed(alloc: Global, e: &Expr, values: &Values) -> Result<String, CallError> {
    match e.substitute_typed(alloc, values) {
        Ok(e) => ok(alloc, &sketch(alloc, &e)?),
        Err(error) => refusal_of(alloc, &error),
    }
}

/// The types that clash, if that is why.
pub fn refusal_of(alloc: Global, error: &SubstitutionError) -> Result<String, CallError> {
    match error {
        SubstitutionError::TypeError { expected, actual } => clash_text(alloc, expected, actual),
        SubstitutionError::Memory => Err(CallError::Memory),
    }
}

// What the error of typed substitution says.
fn clash(alloc: Global, e: &Expr, values: &Values) -> Result<String, CallError> {
    match e.substitute_typed(alloc, values) {
        Ok(_) => Ok(format!(in alloc; "none")?),
        Err(SubstitutionError::Memory) => Err(CallError::Memory),
        Err(e) => substitution_text(alloc, &e),
    }
}

/// The types that clash.
pub fn clash_text(alloc: Global, expected: &Type, actual: &Type) -> Result<String, CallError> {
    Ok(format!(in alloc; "type-clash {expected} | {actual}")?)
}
