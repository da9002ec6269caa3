//! What a builder gets where values are put for unknowns.
use crate::substitution::clash_text;
use calls_decode::{expr, placed, sketch};
use calls_decode_values::{Keyed, KeyedValue, bindings};
use calls_syntax::{CallError, Sexpr, ok};
use cedar_exprs::{Expr, ExprBuilder, TypedBuildFault};
use cedar_values::{
    substitute_typed_values_into_expr, substitute_values_into_expr, try_into_expr_with_values,
};
use std::alloc::Global;
use std::collections::HashMap;
use std::rc::RcStr;

type Values = HashMap<RcStr, KeyedValue>;

/// The answer to a call that builds with values put for unknowns.
pub fn answer(alloc: Global, call: &str, args: &[Sexpr]) -> Result<String, CallError> {
    match args {
        [e, env] => with_values(alloc, call, &expr(alloc, e)?, &bindings(alloc, env)?),
        _ => Err(CallError::UnknownCall),
    }
}

fn with_values(alloc: Global, call: &str, e: &Expr, values: &Values) -> Result<String, CallError> {
    match call {
        "valuesinto" => built(alloc, e, values),
        "valuesinto-placed" => built_placed(alloc, e, values),
        "valueswith-placed" => at_once_placed(alloc, e, values),
        "typedvaluesinto" => built_typed(alloc, e, values),
        _ => Err(CallError::UnknownCall),
    }
}

fn built(alloc: Global, e: &Expr, values: &Values) -> Result<String, CallError> {
    sketch(alloc, &by_struct::<()>(alloc, e, values)?)
}

fn built_placed(alloc: Global, e: &Expr, values: &Values) -> Result<String, CallError> {
    placed(alloc, &by_struct::<()>(alloc, e, values)?)
}

fn at_once_placed(alloc: Global, e: &Expr, values: &Values) -> Result<String, CallError> {
    placed(alloc, &at_once_by_struct::<()>(alloc, e, values)?)
}

fn built_typed(alloc: Global, e: &Expr, values: &Values) -> Result<String, CallError> {
    match typed_by_struct::<()>(alloc, e, values)? {
        Ok(made) => ok(alloc, &sketch(alloc, &made)?),
        Err(clash) => Ok(clash),
    }
}

// The struct refuses nothing, so only memory can run out. The type of data is
// a parameter: at a concrete one the check of the call's bound takes long.
fn by_struct<T: Default + Copy>(
    alloc: Global,
    e: &Expr,
    values: &Values,
) -> Result<Expr<T>, CallError> {
    let made = substitute_values_into_expr::<ExprBuilder<T>, Keyed>(alloc, e, values);
    made.ok().ok_or(CallError::Memory)
}

fn at_once_by_struct<T: Default + Copy>(
    alloc: Global,
    e: &Expr,
    values: &Values,
) -> Result<Expr<T>, CallError> {
    let made = try_into_expr_with_values::<ExprBuilder<T>, Keyed>(alloc, e, values);
    made.ok().ok_or(CallError::Memory)
}

fn typed_by_struct<T: Default + Copy>(
    alloc: Global,
    e: &Expr,
    values: &Values,
) -> Result<Result<Expr<T>, String>, CallError> {
    match substitute_typed_values_into_expr::<ExprBuilder<T>, Keyed>(alloc, e, values) {
        Ok(made) => Ok(Ok(made)),
        Err(TypedBuildFault::TypeError { expected, actual }) => {
            Ok(Err(clash_text(alloc, &expected, &actual)?))
        }
        Err(TypedBuildFault::Build(never)) => match never {},
        Err(TypedBuildFault::Memory) => Err(CallError::Memory),
    }
}
