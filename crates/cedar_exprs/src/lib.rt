//! Expression trees, the builder that makes them, building by any builder, and substitution that is
//! a fold over bare trees.
#![tactic(auto)]

mod builder;
mod building;
mod constructors;
mod drop;
mod expr;
pub mod laws;
mod queries;
mod restricted_expr;
mod shapes;
mod substitution;
mod types;
mod validation;
mod walks;

pub use builder::ExprBuilder;
pub use building::bound::BoundBuilding;
pub use building::build::Building;
pub use building::typed_build::TypedBuildFault;
pub use building::value_builder::{ThroughExpr, ValueBuilder};
pub use cedar_builders::SubstitutionError;
pub use cedar_validation::{CallStyle, ExprValidationError, FunctionTable};
pub use expr::{Expr, ExprKind, KindOf};
pub use restricted_expr::{RestrictedExpr, RestrictedExprError, SubstituteValue};
pub use shapes::expr_shape_only::ExprShapeOnly;
pub use walks::expr_iterator::{ExprIterator, SlotRef, Slots, Unknowns};
pub use walks::post_order::{PostOrder, PostOrderFault};
pub use walks::results::{keyed, push_item, take_many, take_two};
