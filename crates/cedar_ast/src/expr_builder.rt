//! The traits of what makes expressions; at the root the name of the first is that of the struct.
pub use cedar_builders::{ExprBuilder, ExprBuilderInfallibleBuild};
