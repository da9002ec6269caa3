//! The partial evaluator, as a builder: what it makes of an expression is a known value, or a
//! residual that means the same.
#![tactic(auto)]

mod boolean;
mod children;
mod kind;
mod operations;
mod residual;
mod shared_value;
mod simplification;
mod simplified;
mod simplifier;
mod simplifier_of;
mod tree;

pub use shared_value::SharedValue;
pub use simplification::{simplify, simplify_shared};
pub use simplified::Simplified;
pub use simplifier::Simplifier;
pub use simplifier_of::SimplifierOf;
