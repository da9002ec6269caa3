//! Simplification in one pass.
ghost use Rattle.std.specs.Prelude.{◌≡◌, IfOk};
ghost use Rattle.cedar_exprs.specs.BareExpr.{bare_expr};
ghost use Rattle.cedar_values.specs.Holders.{held_call, plain_env};
ghost use Rattle.cedar_values.specs.WellFormedValues.{well_formed_env};
ghost use Rattle.semantics_simplify.specs.Simplifier.{simplified_in};
ghost use Rattle.cedar_simplifier.specs.Simplified.{meaning_of};
ghost use Rattle.cedar_simplifier.specs.Promises.{AsksNoMore, KnownStays, MeansTheSame};

use crate::shared_value::SharedValue;
use crate::simplified::Simplified;
use crate::simplifier::Simplifier;
use cedar_builders::BuildFault;
use cedar_exprs::Expr;
use cedar_values::laws::{
    maps_bind_plain_values, no_extension_values, well_formed_maps_bind_plain_values,
};
use cedar_values::{NoExtension, Value, WellFormedValue, try_into_expr_with_values};
use semantics_simplify::laws::{asks_no_more, known_stays, one_pass, partial_evaluation_is_sound};
use std::alloc::{AllocError, Global};
use std::collections::HashMap;
use std::rc::RcStr;

/// Simplifies an expression, where the unknowns that `values` binds are these values, to a known
/// value or a residual.
///
/// Wherever further unknowns are bound, the residual has the outcome that the expression has, or is
/// refused by the same call; a known value is that outcome. The residual asks for no variable,
/// slot, unknown or call that the expression does not ask for, and for no unknown that `values`
/// binds.
///
/// Each value is written out as an expression and simplified at each unknown that it is bound to:
/// take `simplify_shared` where values are not small.
///
/// ```rust
/// fn at(alloc: Global, policy: &Expr, now: &HashMap<RcStr, Value>) -> Result<Expr, AllocError> {
///     simplify(alloc, policy, now)?.into_expr(alloc)
/// }
/// ```
pub fn simplify(
    alloc: Global,
    expr: &Expr,
    values: &HashMap<RcStr, Value<NoExtension>>,
) -> Result<Simplified, AllocError>
    ensures simplified { IfOk result (λ s. meaning_of s
        ≡ simplified_in ⟦<NoExtension as Ord>⟧.cmp ⟦<NoExtension as PartialEq>⟧.eq held_call
        (plain_env values.now) (bare_expr expr.now)) }
    ensures means_the_same { IfOk result (λ s.
        MeansTheSame ⟦<NoExtension as Ord>⟧.cmp ⟦<NoExtension as PartialEq>⟧.eq plain_env
        (plain_env values.now) (bare_expr expr.now) (meaning_of s)) }
    ensures known_stays { IfOk result (λ s.
        KnownStays ⟦<NoExtension as Ord>⟧.cmp ⟦<NoExtension as PartialEq>⟧.eq plain_env
        (plain_env values.now) (bare_expr expr.now) (meaning_of s)) }
    ensures asks_no_more { IfOk result (λ s.
        AsksNoMore (plain_env values.now) (bare_expr expr.now) (meaning_of s)) }
{
    maps_bind_plain_values::<NoExtension>();
    no_extension_values();
    one_pass::<NoExtension>();
    partial_evaluation_is_sound::<NoExtension>();
    known_stays::<NoExtension>();
    asks_no_more::<NoExtension>();
    match try_into_expr_with_values::<Simplifier, NoExtension>(alloc, expr, values) {
        Ok(simplified) => Ok(simplified),
        Err(BuildFault::Build(never)) => match never {},
        Err(BuildFault::Memory) => Err(AllocError),
    }
}

/// The same, where each value is shared: an unknown costs the same whatever the size of its value.
///
/// ```rust
/// let residual = simplify_shared(alloc, &policy, &values)?.into_expr(alloc)?;
/// ```
pub fn simplify_shared(
    alloc: Global,
    expr: &Expr,
    values: &HashMap<RcStr, WellFormedValue>,
) -> Result<Simplified, AllocError>
    ensures simplified { IfOk result (λ s. meaning_of s
        ≡ simplified_in ⟦<NoExtension as Ord>⟧.cmp ⟦<NoExtension as PartialEq>⟧.eq held_call
        (well_formed_env values.now) (bare_expr expr.now)) }
    ensures means_the_same { IfOk result (λ s.
        let R = ⟦<NoExtension as Ord>⟧.cmp in let E = ⟦<NoExtension as PartialEq>⟧.eq in
        let P = ⟦<NoExtension as PartialOrd>⟧.partial_cmp in
        MeansTheSame R E (well_formed_env {R = R} {E = E} {P = P})
        (well_formed_env values.now) (bare_expr expr.now) (meaning_of s)) }
    ensures known_stays { IfOk result (λ s.
        let R = ⟦<NoExtension as Ord>⟧.cmp in let E = ⟦<NoExtension as PartialEq>⟧.eq in
        let P = ⟦<NoExtension as PartialOrd>⟧.partial_cmp in
        KnownStays R E (well_formed_env {R = R} {E = E} {P = P})
        (well_formed_env values.now) (bare_expr expr.now) (meaning_of s)) }
    ensures asks_no_more { IfOk result (λ s.
        AsksNoMore (well_formed_env values.now) (bare_expr expr.now) (meaning_of s)) }
{
    well_formed_maps_bind_plain_values();
    one_pass::<NoExtension>();
    partial_evaluation_is_sound::<NoExtension>();
    known_stays::<NoExtension>();
    asks_no_more::<NoExtension>();
    match expr.try_into_expr_by::<Simplifier, WellFormedValue, SharedValue>(alloc, values) {
        Ok(simplified) => Ok(simplified),
        Err(BuildFault::Build(never)) => match never {},
        Err(BuildFault::Memory) => Err(AllocError),
    }
}
