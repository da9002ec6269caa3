//! The partial evaluator: what it makes of an expression is a known value, or a residual that means
//! the same.
pub use cedar_simplifier::{SharedValue, Simplified, Simplifier, simplify, simplify_shared};
pub use semantics_simplify::laws;
