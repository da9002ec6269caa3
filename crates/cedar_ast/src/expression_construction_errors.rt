//! Why an expression is not made.
pub use cedar_builders::{DuplicateKeyError, ExpressionConstructionError};
