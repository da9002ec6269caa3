//! Values as what unknowns are bound to.
ghost use Rattle.cedar_builders.specs.Answers.{Gives};
ghost use Rattle.cedar_builders.specs.Environment.{fold};
ghost use Rattle.cedar_builders.specs.TypeClash.{clash};
ghost use Rattle.cedar_exprs.specs.BareExpr.{bare_expr};
ghost use Rattle.cedar_exprs.specs.TypedAnswers.{GivesTyped};
ghost use Rattle.cedar_values.specs.ValueMaps.{values_env};

use crate::extension_value::ExtensionValue;
use crate::value::Value;
use cedar_builders::{BuildFault, ExprBuilder, LawfulExprBuilder};
use cedar_exprs::{Expr, RestrictedExpr, SubstituteValue, TypedBuildFault};
use cedar_terms::{StaticallyTyped, Type};
use std::alloc::{AllocError, Global};
use std::collections::HashMap;
use std::rc::RcStr;

impl<X: ExtensionValue + Ord> SubstituteValue for Value<X> {
    ghost use Rattle.semantics_values.specs.ValueExpr.{value_expr};
    ghost use Rattle.semantics_values.specs.ValueTypes.{value_type};
    ghost use Rattle.cedar_values.specs.BareValues.{bare_value};

    ghost bare_type_of = { λ v. value_type X.type_name (bare_value v) };

    ghost bare_expr_of = { λ v. value_expr X.canonical (bare_value v) };

    fn value_type(&self, alloc: Global) -> Result<Type, AllocError> {
        self.type_of(alloc)
    }

    fn value_expr(&self, alloc: Global) -> Result<RestrictedExpr, AllocError> {
        Ok(RestrictedExpr::new_unchecked(self.to_expr(alloc)?))
    }
}

/// What a builder makes of an expression with values put for its unknowns, in one walk: an unknown
/// that `values` binds is built from its value's expression, and any other node as `try_into_expr`
/// builds it. The first error ends it.
pub fn try_into_expr_with_values<B: ExprBuilder, X: ExtensionValue + Ord>(
    alloc: Global,
    expr: &Expr,
    values: &HashMap<RcStr, Value<X>>,
) -> Result<B::Expr, BuildFault<B::BuildError>>
    ensures { Gives B.meaning_of B.fault_of
        (fold B.ops (values_env X.type_name X.canonical values.now) (bare_expr expr.now))
        result }
{
    expr.try_into_expr_with::<B, Value<X>>(alloc, values)
}

/// What a builder makes of an expression after substitution: what it makes of the expression itself
/// where each unknown that `values` binds is built from its value's expression, its first error
/// included.
pub fn substitute_values_into_expr<B: LawfulExprBuilder, X: ExtensionValue + Ord>(
    alloc: Global,
    expr: &Expr,
    values: &HashMap<RcStr, Value<X>>,
) -> Result<B::Expr, BuildFault<B::BuildError>>
    ensures { Gives B.meaning_of B.fault_of
        (fold B.ops (values_env X.type_name X.canonical values.now) (bare_expr expr.now))
        result }
{
    expr.substitute_into_expr::<B, Value<X>>(alloc, values)
}

/// The same, where each value has the type that the unknown which it replaces is annotated with, if
/// it is; else the two types at the leftmost unknown at which they differ, and nothing is built.
pub fn substitute_typed_values_into_expr<B: LawfulExprBuilder, X: ExtensionValue + Ord>(
    alloc: Global,
    expr: &Expr,
    values: &HashMap<RcStr, Value<X>>,
) -> Result<B::Expr, TypedBuildFault<B::BuildError>>
    ensures { GivesTyped B.meaning_of B.fault_of
        (clash (values_env X.type_name X.canonical values.now) (bare_expr expr.now))
        (fold B.ops (values_env X.type_name X.canonical values.now) (bare_expr expr.now))
        result }
{
    expr.substitute_typed_into_expr::<B, Value<X>>(alloc, values)
}
