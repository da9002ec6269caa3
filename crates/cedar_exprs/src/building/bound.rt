//! Building with values put for unknowns, as one walk.
ghost use Rattle.std.specs.Prelude.{◌≡◌, option_map};
ghost use Rattle.cedar_builders.specs.Answers.{Gives};
ghost use Rattle.cedar_builders.specs.Environment.{bound, empty, fold};
ghost use Rattle.cedar_builders.specs.NodeByNode.{IsBuiltOf, fold_by_nodes};
ghost use Rattle.cedar_exprs.specs.BareExpr.{bare_expr};
ghost use Rattle.cedar_exprs.specs.BoundWalks.{values_of};
ghost use Rattle.cedar_exprs.specs.PostOrder.{IsPut};
ghost use Rattle.cedar_exprs.specs.RestrictedExprs.{binding_of, env_of};

use crate::building::build::{Building, build_by};
use crate::building::value_builder::{ThroughExpr, ValueBuilder};
use crate::expr::{Expr, ExprKind};
use crate::restricted_expr::SubstituteValue;
use crate::walks::post_order::{PostOrder, PostOrderFault};
use crate::walks::results::push_item;
use cedar_builders::{BuildFault, ExprBuilder};
use std::alloc::Global;
use std::collections::HashMap;
use std::marker::PhantomData;
use std::rc::RcStr;

impl<T> Expr<T> {
    /// What a builder makes of the expression with values put for its unknowns: an unknown that
    /// `values` binds is built from its value's expression, and any other node as `try_into_expr`
    /// builds it. The first error ends it.
    ///
    /// It is one walk, and makes no substituted expression; the nodes that are built have their own
    /// places. For a lawful builder it means what `substitute_into_expr` means.
    pub fn try_into_expr_with<B: ExprBuilder, V: SubstituteValue>(
        &self,
        alloc: Global,
        values: &HashMap<RcStr, V>,
    ) -> Result<B::Expr, BuildFault<B::BuildError>>
        ensures { Gives B.meaning_of B.fault_of
            (fold B.ops (env_of V.bare_type_of V.bare_expr_of values.now) (bare_expr self.now))
            result }
    {
        self.try_into_expr_by::<B, V, ThroughExpr>(alloc, values)
    }

    /// The same, where `W` says what the builder makes of a value. So a builder may take the values
    /// that unknowns are bound to as they are: `ThroughExpr` builds each from its expression, at
    /// each unknown anew.
    ///
    /// ```rust
    /// expr.try_into_expr_by::<Evaluator, WellFormedValue, SharedValue>(alloc, values)
    /// ```
    pub fn try_into_expr_by<B: ExprBuilder, V: SubstituteValue, W: ValueBuilder<B, V>>(
        &self,
        alloc: Global,
        values: &HashMap<RcStr, V>,
    ) -> Result<B::Expr, BuildFault<B::BuildError>>
        ensures { Gives B.meaning_of B.fault_of
            (fold B.ops (env_of V.bare_type_of V.bare_expr_of values.now) (bare_expr self.now))
            result }
    {
        build_by(alloc, &BoundBuilding::<B, V, W>::new(values), self)
    }
}

/// The walk of a builder with values put for unknowns: each node by a new builder, but for unknowns
/// that are bound, which `W` builds from their values.
#[derive(Drop)]
pub struct BoundBuilding<'a, B, V, W> {
    values: &'a HashMap<RcStr, V>,
    of: PhantomData<B>,
    by: PhantomData<W>,
}

impl<'a, B, V, W> BoundBuilding<'a, B, V, W> {
    /// The walk with these values.
    pub fn new(values: &'a HashMap<RcStr, V>) -> BoundBuilding<'a, B, V, W>
        ensures { values_of result ≡ values.now }
    {
        BoundBuilding {
            values,
            of: PhantomData,
            by: PhantomData,
        }
    }
}

impl<T, B: ExprBuilder, V: SubstituteValue, W: ValueBuilder<B, V>> PostOrder<T>
    for BoundBuilding<'_, B, V, W> {
    type Out = B::Expr;

    type Refusal = B::BuildError;

    ghost Meaning = { B.Meaning };

    ghost Fault = { B.Fault };

    ghost meaning_of = { B.meaning_of };

    ghost fault_of = { B.fault_of };

    ghost answer = { λ w e. fold B.ops (env_of V.bare_type_of V.bare_expr_of (values_of w)) e };

    ghost is_made_of = { λ w e. IsBuiltOf B.ops
        (λ n t. bound B.ops (env_of V.bare_type_of V.bare_expr_of (values_of w) n) n t) e };

    #[inline(always)]
    fn make(
        &self,
        alloc: Global,
        node: &Expr<T>,
        done: &mut Vec<B::Expr>,
    ) -> Result<(), PostOrderFault<B::BuildError>> {
        match binding(self.values, node) {
            Some(value) => put_value::<B, V, W>(alloc, value, done),
            None => { Building::<B>::new().make(alloc, node, done) }
        }
    }

    ghost by_nodes = { λ w. fold_by_nodes B.ops
        (λ n t. bound B.ops (env_of V.bare_type_of V.bare_expr_of (values_of w) n) n t) };
}

// The value that a node is bound to, where it is an unknown.
#[inline(always)]
fn binding<'a, T, V: SubstituteValue>(
    values: &'a HashMap<RcStr, V>,
    node: &Expr<T>,
) -> Option<&'a V>
    ensures { option_map (λ v. (V.bare_type_of v.now, V.bare_expr_of v.now)) result
        ≡ binding_of (env_of V.bare_type_of V.bare_expr_of values.now) (bare_expr node.now) }
{
    match node.expr_kind() {
        ExprKind::Unknown(unknown) => values.get(unknown.name.as_str()),
        _ => None,
    }
}

// Puts what is built of a value.
#[inline(never)]
fn put_value<B: ExprBuilder, V: SubstituteValue, W: ValueBuilder<B, V>>(
    alloc: Global,
    value: &V,
    done: &mut Vec<B::Expr>,
) -> Result<(), PostOrderFault<B::BuildError>>
    ensures { IsPut B.meaning_of B.fault_of
        (λ ms r. r ≡ fold B.ops empty (V.bare_expr_of value.now)) 0
        done.old.items done.new.items result }
{
    match W::build_value(alloc, value) {
        Ok(built) => Ok(push_item(done, built)?),
        Err(BuildFault::Build(error)) => Err(PostOrderFault::Refused(error)),
        Err(BuildFault::Memory) => Err(PostOrderFault::Memory),
    }
}
