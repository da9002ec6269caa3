//! How a builder makes an expression of a value that an unknown is bound to.
ghost use Rattle.cedar_builders.specs.Answers.{Gives};
ghost use Rattle.cedar_builders.specs.Environment.{empty, fold};

use crate::building::build::{Building, build_by};
use crate::restricted_expr::SubstituteValue;
use cedar_builders::{BuildFault, ExprBuilder};
use std::alloc::Global;
use std::marker::PhantomData;

/// What the builder `B` makes of a value of the type `V`, for `Expr::try_into_expr_by`.
///
/// A builder whose expressions are values, as an evaluator is, takes a value as it is: it is not
/// written out as an expression and evaluated back at each unknown that it is bound to. Cedar's
/// evaluator takes the value of a variable in this way (`Evaluator::interpret` of `evaluator.rs`).
pub trait ValueBuilder<B: ExprBuilder, V: SubstituteValue> {
    /// What the builder makes of a value: it means what is built of the value's expression. The
    /// error is one that building the expression may give, or memory ran out.
    fn build_value(alloc: Global, value: &V) -> Result<B::Expr, BuildFault<B::BuildError>>
        ensures { Gives B.meaning_of B.fault_of
            (fold B.ops empty (V.bare_expr_of value.now)) result };
}

/// Each value is built from its expression: by any builder, and whatever the type of values.
pub struct ThroughExpr;

impl<B: ExprBuilder, V: SubstituteValue> ValueBuilder<B, V> for ThroughExpr {
    fn build_value(alloc: Global, value: &V) -> Result<B::Expr, BuildFault<B::BuildError>> {
        let expr = value.value_expr(alloc)?;
        build_by(alloc, &Building::<B>::new(), expr.as_expr())
    }
}
