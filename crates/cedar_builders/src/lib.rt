//! Builders of expressions, by what they mean: abstract operations, one for each kind of
//! expression.
#![tactic(auto)]

pub mod expr_builder;
pub mod expression_construction_errors;
pub mod keys;
pub mod laws;
mod rope;
mod substitution_error;

pub use expr_builder::{BuildFault, ExprBuilder, ExprBuilderInfallibleBuild, LawfulExprBuilder};
pub use expression_construction_errors::{DuplicateKeyError, ExpressionConstructionError};
pub use rope::Rope;
pub use substitution_error::SubstitutionError;
