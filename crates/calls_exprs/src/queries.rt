//! What an expression answers about itself.
use calls_syntax::{Answer, CallError};
use cedar_exprs::Expr;
use std::alloc::Global;

/// The five queries.
pub fn queries(alloc: Global, e: &Expr) -> Result<String, CallError> {
    Answer::new(alloc)
        .labelled("ref=", &e.is_ref())
        .labelled("slot=", &e.is_slot())
        .labelled("refset=", &e.is_ref_set())
        .labelled_allocated("projectable=", e.is_projectable(alloc))
        .labelled_allocated("unknown=", e.contains_unknown(alloc))
        .end()
}
