//! The closed evaluator, as a builder: what it makes of an expression is the expression's outcome.
#![tactic(auto)]

mod attributes;
mod compact;
mod compact_evaluator;
mod evaluation;
mod evaluator;
mod fault;
mod fields;
mod kinds;
pub mod laws;
pub mod operations;
mod operators;
mod outcome;
mod rows;
mod sets;
mod shared_value;

pub use evaluation::{evaluate, evaluate_shared};
pub use evaluator::Evaluator;
pub use fault::{CallRefused, EvalFault, EvaluationFault};
pub use outcome::Outcome;
pub use shared_value::SharedValue;
