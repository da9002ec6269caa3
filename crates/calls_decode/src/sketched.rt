//! How answers write expressions.
use calls_syntax::{CallError, join, place};
use cedar_exprs::Expr;
use cedar_sketch::Sketch;
use std::alloc::Global;

/// The text that the sketch makes.
pub fn sketch<T>(alloc: Global, expr: &Expr<T>) -> Result<String, CallError> {
    Ok(expr.into_expr::<Sketch>(alloc)?.to_text(alloc)?)
}

/// Each position with its place, in the iterator's order.
pub fn placed(alloc: Global, expr: &Expr) -> Result<String, CallError> {
    let mut text = String::new(alloc);
    for position in expr.subexpressions(alloc)? {
        let loc = place(alloc, position.source_loc())?;
        let position = sketch(alloc, position)?;
        join(&mut text, " | ", &format!(in alloc; "{position} @{loc}")?)?;
    }
    Ok(text)
}
