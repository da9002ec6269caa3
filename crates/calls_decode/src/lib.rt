//! The expressions that the arguments of recorded calls stand for, and how answers write
//! expressions. `docs/CALLS.md` describes the language.
#![tactic(auto)]

mod expr_arguments;
mod sketched;

pub use crate::expr_arguments::{attributes, binary, expr, exprs, record, restricted_expr, unary};
pub use crate::sketched::{placed, sketch};
