//! Building by any builder, as a walk.
//!
//! `make` has a small function for each kind: one function would keep room for the locals of all
//! kinds.
ghost use Rattle.std.specs.Prelude.{◌≡◌, ◌≤◌, Ok, IfOk, length, vec_len};
ghost use Rattle.std.specs.Rc.{rc_str_bytes};
ghost use Rattle.cedar_names.specs.PlainNames.{bare_name};
ghost use Rattle.cedar_terms.specs.Entities.{bare_entity_type};
ghost use Rattle.cedar_terms.specs.Literals.{bare_literal};
ghost use Rattle.cedar_terms.specs.Unknowns.{bare_unknown};
ghost use Rattle.cedar_builders.specs.Answers.{Gives};
ghost use Rattle.cedar_builders.specs.Environment.{empty, fold, own};
ghost use Rattle.cedar_builders.specs.NodeByNode.{OfOne, OfTwo, OfThree, IsBuiltOf, keyed};
ghost use Rattle.cedar_builders.specs.NodeByNode.{fold_by_nodes};
ghost use Rattle.cedar_exprs.specs.BareExpr.{bare_expr, bare_fields, further};
ghost use Rattle.cedar_exprs.specs.PostOrder.{IsPut};

use crate::expr::{Expr, ExprKind};
use crate::walks::post_order::{PostOrder, PostOrderFault, run};
use crate::walks::results::{keyed, push_item, take_many, take_three, take_two};
use cedar_builders::{
    BuildFault, ExprBuilder, ExprBuilderInfallibleBuild, ExpressionConstructionError,
};
use cedar_names::{Loc, Name, NonEmpty, SlotId};
use cedar_terms::{BinaryOp, EntityType, Literal, Pattern, UnaryOp, Unknown, Var};
use std::alloc::{AllocError, Global};
use std::collections::BTreeMap;
use std::marker::PhantomData;
use std::rc::RcStr;

impl<T> Expr<T> {
    /// What a builder makes of the expression: its children first, in field order and those of a
    /// record in the order of their keys, and each node by a new builder with the node's place. The
    /// first error ends it.
    ///
    /// ```rust
    /// let sum = Expr::add(alloc, Expr::val(Literal::Long(1)), Expr::var(Var::Context))?;
    /// match sum.try_into_expr::<Sketch>(alloc) {
    ///     Ok(text) => text.to_text(alloc), // (+ 1 context)
    ///     Err(BuildFault::Build(never)) => match never {},
    ///     Err(BuildFault::Memory) => Err(AllocError),
    /// }
    /// ```
    ///
    /// To build by the struct `ExprBuilder<T>`, call this in a function that is generic in `T`, as
    /// at `into_expr`: at a concrete type the check does not come to its end.
    pub fn try_into_expr<B: ExprBuilder>(
        &self,
        alloc: Global,
    ) -> Result<B::Expr, BuildFault<B::BuildError>>
        ensures { Gives B.meaning_of B.fault_of (fold B.ops empty (bare_expr self.now)) result }
    {
        build_by(alloc, &Building::<B>::new(), self)
    }

    /// What a builder makes of the expression, if none of the builder's calls is refused for a
    /// reason of its own.
    ///
    /// To build by the struct `ExprBuilder<T>`, call this in a function that is generic in `T`, and
    /// that function at the type that is wanted: at a concrete type, as in
    /// `into_expr::<ExprBuilder<()>>`, the check does not come to its end.
    ///
    /// ```rust
    /// fn rebuild<T: Default + Copy>(
    ///     alloc: Global,
    ///     expr: &Expr<T>,
    /// ) -> Result<Expr<T>, AllocError> {
    ///     expr.into_expr::<ExprBuilder<T>>(alloc)
    /// }
    /// ```
    pub fn into_expr<B: ExprBuilderInfallibleBuild>(
        &self,
        alloc: Global,
    ) -> Result<B::Expr, AllocError>
        ensures { IfOk result (λ e. fold B.ops empty (bare_expr self.now) ≡ Ok (B.meaning_of e)) }
    {
        match self.try_into_expr::<B>(alloc) {
            Ok(built) => Ok(built),
            Err(BuildFault::Build(never)) => match never {},
            Err(BuildFault::Memory) => Err(AllocError),
        }
    }
}

// What a walk builds.
pub(crate) fn build_by<T, W: PostOrder<T>>(
    alloc: Global,
    walk: &W,
    expr: &Expr<T>,
) -> Result<W::Out, BuildFault<W::Refusal>>
    ensures { Gives W.meaning_of W.fault_of (W.answer walk.now (bare_expr expr.now)) result }
{
    match run(alloc, walk, expr) {
        Ok(built) => Ok(built),
        Err(PostOrderFault::Refused(error)) => Err(BuildFault::Build(error)),
        Err(PostOrderFault::Memory) => Err(BuildFault::Memory),
    }
}

/// The walk of a builder: each node by a new one, with the node's place.
#[derive(Drop)]
pub struct Building<B> {
    of: PhantomData<B>,
}

impl<B> Building<B> {
    /// The walk of this builder.
    pub fn new() -> Building<B> {
        Building { of: PhantomData }
    }
}

impl<T, B: ExprBuilder> PostOrder<T> for Building<B> {
    type Out = B::Expr;

    type Refusal = B::BuildError;

    ghost Meaning = { B.Meaning };

    ghost Fault = { B.Fault };

    ghost meaning_of = { B.meaning_of };

    ghost fault_of = { B.fault_of };

    ghost answer = { λ _ e. fold B.ops empty e };

    ghost is_made_of = { λ _ e. IsBuiltOf B.ops (own B.ops) e };

    #[inline(always)]
    fn make(
        &self,
        alloc: Global,
        node: &Expr<T>,
        done: &mut Vec<B::Expr>,
    ) -> Result<(), PostOrderFault<B::BuildError>> {
        let builder = builder_at::<B>(alloc, node.source_loc())?;
        match node.expr_kind() {
            ExprKind::Lit(literal) => build_literal(alloc, builder, literal, done),
            ExprKind::Var(var) => build_var(alloc, builder, *var, done),
            ExprKind::Slot(slot) => build_slot(alloc, builder, *slot, done),
            ExprKind::Unknown(unknown) => build_unknown(alloc, builder, unknown, done),
            ExprKind::If { .. } => build_if(alloc, builder, done),
            ExprKind::And { .. } => build_and(alloc, builder, done),
            ExprKind::Or { .. } => build_or(alloc, builder, done),
            ExprKind::UnaryApp { op, .. } => build_unary(alloc, builder, *op, done),
            ExprKind::BinaryApp { op, .. } => build_binary(alloc, builder, *op, done),
            ExprKind::ExtensionFunctionApp { fn_name, args } => {
                build_call(alloc, builder, fn_name, args.len(), done)
            }
            ExprKind::GetAttr { attr, .. } => build_get(alloc, builder, attr, done),
            ExprKind::HasAttr { attrs, .. } => build_has(alloc, builder, attrs, done),
            ExprKind::Like { pattern, .. } => build_like(alloc, builder, pattern, done),
            ExprKind::Set(members) => build_set(alloc, builder, members.len(), done),
            ExprKind::Record(pairs) => build_record(alloc, builder, pairs, done),
            ExprKind::Is { entity_type, .. } => build_is(alloc, builder, entity_type, done),
        }
    }

    ghost by_nodes = { λ _. fold_by_nodes B.ops (own B.ops) };
}

// A new builder with a copy of this place.
fn builder_at<B: ExprBuilder>(alloc: Global, loc: Option<&Loc>) -> Result<B, AllocError>
    ensures { IfOk result B.is_new }
{
    Ok(B::new().with_maybe_source_loc(Loc::clone_option(alloc, loc)?))
}

#[inline(never)]
fn build_literal<B: ExprBuilder>(
    alloc: Global,
    builder: B,
    literal: &Literal,
    done: &mut Vec<B::Expr>,
) -> Result<(), PostOrderFault<B::BuildError>>
    requires { B.is_new builder }
    ensures { IsPut B.meaning_of B.fault_of
        (λ ms r. r ≡ Ok (B.ops.lit_of (bare_literal literal.now))) 0
        done.old.items done.new.items result }
{
    let built = builder.val(alloc, literal.clone(alloc)?)?;
    Ok(push_item(done, built)?)
}

#[inline(never)]
fn build_var<B: ExprBuilder>(
    alloc: Global,
    builder: B,
    var: Var,
    done: &mut Vec<B::Expr>,
) -> Result<(), PostOrderFault<B::BuildError>>
    requires { B.is_new builder }
    ensures { IsPut B.meaning_of B.fault_of (λ ms r. r ≡ Ok (B.ops.var_of var)) 0
        done.old.items done.new.items result }
{
    let built = builder.var(alloc, var)?;
    Ok(push_item(done, built)?)
}

#[inline(never)]
fn build_slot<B: ExprBuilder>(
    alloc: Global,
    builder: B,
    slot: SlotId,
    done: &mut Vec<B::Expr>,
) -> Result<(), PostOrderFault<B::BuildError>>
    requires { B.is_new builder }
    ensures { IsPut B.meaning_of B.fault_of (λ ms r. r ≡ Ok (B.ops.slot_of slot)) 0
        done.old.items done.new.items result }
{
    let built = builder.slot(alloc, slot)?;
    Ok(push_item(done, built)?)
}

#[inline(never)]
fn build_unknown<B: ExprBuilder>(
    alloc: Global,
    builder: B,
    unknown: &Unknown,
    done: &mut Vec<B::Expr>,
) -> Result<(), PostOrderFault<B::BuildError>>
    requires { B.is_new builder }
    ensures { IsPut B.meaning_of B.fault_of
        (λ ms r. r ≡ Ok (B.ops.unknown_of (bare_unknown unknown.now).name
        (bare_unknown unknown.now).annotation)) 0 done.old.items done.new.items result }
{
    let built = builder.unknown(alloc, unknown.clone(alloc)?)?;
    Ok(push_item(done, built)?)
}

#[inline(never)]
fn build_if<B: ExprBuilder>(
    alloc: Global,
    builder: B,
    done: &mut Vec<B::Expr>,
) -> Result<(), PostOrderFault<B::BuildError>>
    requires new { B.is_new builder }
    requires room { 3 ≤ vec_len done.old }
    ensures { IsPut B.meaning_of B.fault_of (OfThree B.ops.if_of) 3
        done.old.items done.new.items result }
{
    let (test_expr, then_expr, else_expr) = take_three(done);
    let built = builder.ite(alloc, test_expr, then_expr, else_expr)?;
    Ok(push_item(done, built)?)
}

#[inline(never)]
fn build_and<B: ExprBuilder>(
    alloc: Global,
    builder: B,
    done: &mut Vec<B::Expr>,
) -> Result<(), PostOrderFault<B::BuildError>>
    requires new { B.is_new builder }
    requires room { 2 ≤ vec_len done.old }
    ensures { IsPut B.meaning_of B.fault_of (OfTwo B.ops.and_of) 2
        done.old.items done.new.items result }
{
    let (left, right) = take_two(done);
    let built = builder.and(alloc, left, right)?;
    Ok(push_item(done, built)?)
}

#[inline(never)]
fn build_or<B: ExprBuilder>(
    alloc: Global,
    builder: B,
    done: &mut Vec<B::Expr>,
) -> Result<(), PostOrderFault<B::BuildError>>
    requires new { B.is_new builder }
    requires room { 2 ≤ vec_len done.old }
    ensures { IsPut B.meaning_of B.fault_of (OfTwo B.ops.or_of) 2
        done.old.items done.new.items result }
{
    let (left, right) = take_two(done);
    let built = builder.or(alloc, left, right)?;
    Ok(push_item(done, built)?)
}

#[inline(never)]
fn build_unary<B: ExprBuilder>(
    alloc: Global,
    builder: B,
    op: UnaryOp,
    done: &mut Vec<B::Expr>,
) -> Result<(), PostOrderFault<B::BuildError>>
    requires new { B.is_new builder }
    requires room { 1 ≤ vec_len done.old }
    ensures { IsPut B.meaning_of B.fault_of (OfOne (B.ops.unary_of op)) 1
        done.old.items done.new.items result }
{
    let child = done.take_last();
    let built = builder.unary_app(alloc, op, child)?;
    Ok(push_item(done, built)?)
}

#[inline(never)]
fn build_binary<B: ExprBuilder>(
    alloc: Global,
    builder: B,
    op: BinaryOp,
    done: &mut Vec<B::Expr>,
) -> Result<(), PostOrderFault<B::BuildError>>
    requires new { B.is_new builder }
    requires room { 2 ≤ vec_len done.old }
    ensures { IsPut B.meaning_of B.fault_of (OfTwo (B.ops.binary_of op)) 2
        done.old.items done.new.items result }
{
    let (arg1, arg2) = take_two(done);
    let built = builder.binary_app(alloc, op, arg1, arg2)?;
    Ok(push_item(done, built)?)
}

#[inline(never)]
fn build_call<B: ExprBuilder>(
    alloc: Global,
    builder: B,
    fn_name: &Name,
    count: usize,
    done: &mut Vec<B::Expr>,
) -> Result<(), PostOrderFault<B::BuildError>>
    requires new { B.is_new builder }
    requires room { count ≤ vec_len done.old }
    ensures { IsPut B.meaning_of B.fault_of
        (λ ms r. r ≡ B.ops.call_of (bare_name fn_name.now) ms) count
        done.old.items done.new.items result }
{
    let args = take_many(done, count)?;
    match builder.call_extension_fn(alloc, fn_name.clone(alloc)?, args) {
        Ok(call) => Ok(push_item(done, call)?),
        Err(BuildFault::Build(error)) => Err(PostOrderFault::Refused(error)),
        Err(BuildFault::Memory) => Err(PostOrderFault::Memory),
    }
}

#[inline(never)]
fn build_get<B: ExprBuilder>(
    alloc: Global,
    builder: B,
    attr: &RcStr,
    done: &mut Vec<B::Expr>,
) -> Result<(), PostOrderFault<B::BuildError>>
    requires new { B.is_new builder }
    requires room { 1 ≤ vec_len done.old }
    ensures { IsPut B.meaning_of B.fault_of (OfOne (λ m. B.ops.get_of m (rc_str_bytes attr.now))) 1
        done.old.items done.new.items result }
{
    let child = done.take_last();
    let built = builder.get_attr(alloc, child, attr.clone()?)?;
    Ok(push_item(done, built)?)
}

#[inline(never)]
fn build_has<B: ExprBuilder>(
    alloc: Global,
    builder: B,
    attrs: &NonEmpty<RcStr>,
    done: &mut Vec<B::Expr>,
) -> Result<(), PostOrderFault<B::BuildError>>
    requires new { B.is_new builder }
    requires room { 1 ≤ vec_len done.old }
    ensures { IsPut B.meaning_of B.fault_of
        (OfOne (λ m. B.ops.has_of m (rc_str_bytes attrs.now.head) (further attrs.now))) 1
        done.old.items done.new.items result }
{
    let child = done.take_last();
    let built = builder.extended_has_attr(alloc, child, attrs.clone(alloc)?)?;
    Ok(push_item(done, built)?)
}

#[inline(never)]
fn build_like<B: ExprBuilder>(
    alloc: Global,
    builder: B,
    pattern: &Pattern,
    done: &mut Vec<B::Expr>,
) -> Result<(), PostOrderFault<B::BuildError>>
    requires new { B.is_new builder }
    requires room { 1 ≤ vec_len done.old }
    ensures { IsPut B.meaning_of B.fault_of (OfOne (λ m. B.ops.like_of m pattern.now)) 1
        done.old.items done.new.items result }
{
    let child = done.take_last();
    let built = builder.like(alloc, child, pattern.clone(alloc)?)?;
    Ok(push_item(done, built)?)
}

#[inline(never)]
fn build_set<B: ExprBuilder>(
    alloc: Global,
    builder: B,
    count: usize,
    done: &mut Vec<B::Expr>,
) -> Result<(), PostOrderFault<B::BuildError>>
    requires new { B.is_new builder }
    requires room { count ≤ vec_len done.old }
    ensures { IsPut B.meaning_of B.fault_of (λ ms r. r ≡ Ok (B.ops.set_of ms)) count
        done.old.items done.new.items result }
{
    let members = take_many(done, count)?;
    let built = builder.set(alloc, members)?;
    Ok(push_item(done, built)?)
}

#[inline(never)]
fn build_record<B: ExprBuilder, T>(
    alloc: Global,
    builder: B,
    pairs: &BTreeMap<RcStr, Expr<T>>,
    done: &mut Vec<B::Expr>,
) -> Result<(), PostOrderFault<B::BuildError>>
    requires new { B.is_new builder }
    requires room { length pairs.now.entries ≤ vec_len done.old }
    ensures { IsPut B.meaning_of B.fault_of
        (λ ms r. r ≡ Ok (B.ops.record_of (keyed (bare_fields pairs.now.entries) ms)))
        (length pairs.now.entries) done.old.items done.new.items result }
{
    let values = take_many(done, pairs.len())?;
    match builder.record(alloc, keyed(alloc, pairs, values)?) {
        Ok(record) => Ok(push_item(done, record)?),
        Err(ExpressionConstructionError::Memory) => Err(PostOrderFault::Memory),
        // The keys of a map ascend, and the builder accepts such pairs.
        Err(ExpressionConstructionError::DuplicateKey(_)) => unreachable!(),
    }
}

#[inline(never)]
fn build_is<B: ExprBuilder>(
    alloc: Global,
    builder: B,
    entity_type: &EntityType,
    done: &mut Vec<B::Expr>,
) -> Result<(), PostOrderFault<B::BuildError>>
    requires new { B.is_new builder }
    requires room { 1 ≤ vec_len done.old }
    ensures { IsPut B.meaning_of B.fault_of
        (OfOne (λ m. B.ops.is_of m (bare_entity_type entity_type.now))) 1
        done.old.items done.new.items result }
{
    let child = done.take_last();
    let built = builder.is_entity_type(alloc, child, entity_type.clone(alloc)?)?;
    Ok(push_item(done, built)?)
}
