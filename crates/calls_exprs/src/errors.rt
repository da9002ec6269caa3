//! What the errors of the layer say.
use calls_syntax::{Answer, CallError, holds};
use cedar_builders::ExpressionConstructionError;
use cedar_exprs::{ExprValidationError, RestrictedExprError, SubstitutionError};
use std::alloc::Global;
use std::fmt::Display;

/// The text of a fault of validation, which a copy has too.
pub fn validation_text(alloc: Global, e: &ExprValidationError) -> Result<String, CallError> {
    let copy = e.clone(alloc)?;
    holds(copy == *e, "the copy of an error")?;
    shown(alloc, &copy)
}

/// The text of an error of substitution, which a copy has too.
pub fn substitution_text(alloc: Global, e: &SubstitutionError) -> Result<String, CallError> {
    let copy = e.clone(alloc)?;
    shown_alike(alloc, e, &copy)
}

fn shown_alike<E: Display>(alloc: Global, e: &E, copy: &E) -> Result<String, CallError> {
    let text = shown(alloc, e)?;
    holds(
        shown(alloc, copy)?.as_str() == text.as_str(),
        "the copy of an error",
    )?;
    Ok(text)
}

fn shown<E: Display>(alloc: Global, e: &E) -> Result<String, CallError> {
    Ok(format!(in alloc; "{e}")?)
}

/// What each error says of want of memory.
pub fn no_memory(alloc: Global) -> Result<String, CallError> {
    let validation = validation_text(alloc, &ExprValidationError::Memory);
    let substitution = substitution_text(alloc, &SubstitutionError::Memory);
    Answer::new(alloc)
        .word(&ExpressionConstructionError::Memory)
        .labelled_made("| ", validation)
        .labelled_made("| ", substitution)
        .labelled("| ", &RestrictedExprError::Memory)
        .end()
}
