//! Restricted expressions.
use crate::arguments::function;
use calls_decode::{expr, placed, restricted_expr, sketch};
use calls_syntax::{Answer, CallError, Sexpr, ok, place};
use cedar_exprs::{Expr, RestrictedExpr, RestrictedExprError};
use std::alloc::Global;

/// The expression where it is restricted, else where it is not.
pub fn restricted(alloc: Global, e: Expr) -> Result<String, CallError> {
    match RestrictedExpr::new(alloc, e) {
        Ok(e) => ok(alloc, &sketch(alloc, e.as_expr())?),
        Err(error) => refusal(alloc, &error),
    }
}

fn refusal(alloc: Global, error: &RestrictedExprError) -> Result<String, CallError> {
    match error {
        RestrictedExprError::NotRestricted { loc } => Answer::new(alloc)
            .labelled_made("not-restricted ", place(alloc, loc.as_ref()))
            .end(),
        RestrictedExprError::Memory => Err(CallError::Memory),
    }
}

/// Each position with its place where it is restricted, else the error's text.
pub fn restricted_placed(alloc: Global, e: Expr) -> Result<String, CallError> {
    match RestrictedExpr::new(alloc, e) {
        Ok(e) => ok(alloc, &placed(alloc, &Expr::from(e))?),
        Err(RestrictedExprError::Memory) => Err(CallError::Memory),
        Err(e) => Ok(format!(in alloc; "{e}")?),
    }
}

/// The call of restricted expressions.
pub fn call(alloc: Global, args: &[Sexpr]) -> Result<String, CallError> {
    match args {
        [f, args @ ..] => {
            let fn_name = function(alloc, f)?;
            let args = all(alloc, args)?;
            let call = RestrictedExpr::call_extension_fn(alloc, fn_name, args)?;
            sketch(alloc, call.as_expr())
        }
        [] => Err(CallError::BadArguments),
    }
}

fn all(alloc: Global, sexprs: &[Sexpr]) -> Result<Vec<RestrictedExpr>, CallError> {
    let mut all = Vec::new(alloc);
    for sexpr in sexprs {
        all.push(restricted_expr(alloc, expr(alloc, sexpr)?)?)?;
    }
    Ok(all)
}
