//! Walks in which unknowns are bound to values: what the value of a name gives is made once.
ghost use Rattle.std.specs.Prelude.{◌≡◌, IfOk, IfSome, Ok};
ghost use Rattle.std.specs.Option.{option_copied};
ghost use Rattle.std.specs.Rc.{rc_str_bytes};
ghost use Rattle.cedar_builders.specs.Environment.{empty, fold, own};
ghost use Rattle.cedar_builders.specs.Fold.{fold_with};
ghost use Rattle.cedar_builders.specs.NodeByNode.{IsBuiltOf, fold_by_nodes};
ghost use Rattle.cedar_exprs.specs.BareExpr.{bare_expr};
ghost use Rattle.cedar_exprs.specs.PostOrder.{IsAnswer, IsPut};
ghost use Rattle.cedar_values.specs.BareValues.{bare_value};
ghost use Rattle.cedar_values.specs.Holders.{held_call};
ghost use Rattle.cedar_values.specs.WellFormedValues.{tree_of, value_of, well_formed_env};
ghost use Rattle.cedar_request_evaluator.specs.Bound.{
  AreKept,
  IsPutAt,
  at_name,
  given_by,
  kept_in,
  of_unknown,
};

use cedar_exprs::{Expr, ExprKind, PostOrder, PostOrderFault, SubstituteValue, push_item};
use cedar_values::WellFormedValue;
use std::alloc::{AllocError, Global};
use std::collections::HashMap;
use std::marker::PhantomData;
use std::rc::RcStr;

/// A walk that makes nodes by the operations of a builder, and some of whose results are values. It
/// binds no unknown.
pub trait ValueWalk<X: Ord> {
    ghost use Rattle.std.specs.Prelude.{◌≡◌, ◌≤◌, IfOk, IfSome, length, vec_len};
    ghost use Rattle.cedar_builders.specs.Environment.{own};
    ghost use Rattle.cedar_builders.specs.NodeByNode.{IsBuiltOf};
    ghost use Rattle.cedar_builders.specs.Ops.{Ops};
    ghost use Rattle.cedar_builders.specs.Walks.{children};
    ghost use Rattle.cedar_exprs.specs.BareExpr.{bare_expr};
    ghost use Rattle.cedar_exprs.specs.PostOrder.{IsPut};
    ghost use Rattle.semantics_values.specs.BareValue.{BareValue};
    ghost use Rattle.cedar_values.specs.BareValues.{bare_value};
    ghost use Rattle.cedar_values.specs.WellFormedValues.{value_of};

    /// What a node gives.
    type Out: Drop;

    /// Why a node gives nothing.
    type Refusal: Drop;

    ghost Meaning: { Type 0 };

    ghost Fault: { Type 0 };

    ghost meaning_of: { Self.Out → Meaning };

    ghost fault_of: { Self.Refusal → Fault };

    // The operations by which nodes are made.
    ghost ops: { Self → Ops Meaning Fault };

    // What a value means.
    ghost value_meaning: { BareValue X → Meaning };

    /// Puts what a node gives in the place of what its children gave, as `PostOrder` does.
    fn make(
        &self,
        alloc: Global,
        node: &Expr,
        done: &mut Vec<Self::Out>,
    ) -> Result<(), PostOrderFault<Self::Refusal>>
        requires { length (children (bare_expr node.now)) ≤ vec_len done.old }
        ensures { IsPut meaning_of fault_of
            (IsBuiltOf (ops self.now) (own (ops self.now)) (bare_expr node.now))
            (length (children (bare_expr node.now))) done.old.items done.new.items result };

    /// The value that a result is, if it is one.
    fn into_value(out: Self::Out) -> Option<WellFormedValue<X>>
        ensures { IfSome result (λ w. meaning_of out ≡ value_meaning (bare_value (value_of w))) };

    /// A value as a result: a copy, which shares what is inside and takes no memory.
    fn share(alloc: Global, value: &WellFormedValue<X>) -> Result<Self::Out, AllocError>
        ensures { IfOk result (λ out.
            meaning_of out ≡ value_meaning (bare_value (value_of value.now))) };
}

/// What a walk gives where unknowns are bound to values: each gives what its value's expression
/// gives. That is made once for each name, and shared by all its unknowns.
pub fn post_order_with_values<X: Ord + Drop, W: ValueWalk<X>>(
    alloc: Global,
    walk: &W,
    values: &HashMap<RcStr, WellFormedValue>,
    expr: &Expr,
) -> Result<W::Out, PostOrderFault<W::Refusal>>
    ensures { IsAnswer W.meaning_of W.fault_of
        (fold (W.ops walk.now) (well_formed_env values.now) (bare_expr expr.now)) result }
{
    let kept = values_by_name::<X, W>(alloc, walk, values, expr)?;
    let bound = BoundWalk { walk, values, kept };
    expr.post_order(alloc, &bound)
}

// The values that the bound unknowns of an expression give, by name.
#[tactic(auto, using(crate::proofs::Kept::new_kept))]
fn values_by_name<X: Ord + Drop, W: ValueWalk<X>>(
    alloc: Global,
    walk: &W,
    values: &HashMap<RcStr, WellFormedValue>,
    expr: &Expr,
) -> Result<HashMap<RcStr, WellFormedValue<X>>, AllocError>
    ensures { IfOk result (λ kept. AreKept (W.ops walk.now) W.value_meaning
        (well_formed_env values.now) (kept_in kept)) }
{
    let mut kept = HashMap::new(alloc);
    if values.is_empty() {
        return Ok(kept);
    }
    for unknown in expr.unknowns(alloc)? {
        keep_value::<X, W>(alloc, walk, values, &unknown.name, &mut kept)?;
    }
    Ok(kept)
}

// Keeps the value that a name gives, if it is bound, and no value is kept for it yet.
fn keep_value<X: Ord + Drop, W: ValueWalk<X>>(
    alloc: Global,
    walk: &W,
    values: &HashMap<RcStr, WellFormedValue>,
    name: &RcStr,
    kept: &mut HashMap<RcStr, WellFormedValue<X>>,
) -> Result<(), AllocError>
    ensures { AreKept (W.ops walk.now) W.value_meaning (well_formed_env values.now)
        (kept_in kept.old)
        → IfOk result (λ _. AreKept (W.ops walk.now) W.value_meaning
        (well_formed_env values.now) (kept_in kept.new)) }
{
    if kept.contains_key(name.as_str()) {
        return Ok(());
    }
    match values.get(name.as_str()) {
        Some(value) => match value_given::<X, W>(alloc, walk, value)? {
            Some(given) => put_at(kept, name, given),
            None => Ok(()),
        },
        None => Ok(()),
    }
}

// Puts what a map has at a name, in place of what it had.
fn put_at<V: Drop>(map: &mut HashMap<RcStr, V>, name: &RcStr, value: V) -> Result<(), AllocError>
    ensures { IfOk result (λ _. IsPutAt map.old (rc_str_bytes name.now) value map.new) }
{
    drop(map.insert(name.clone()?, value)?);
    Ok(())
}

// The value that a value's expression gives, if it gives one. A refusal is left to the walk, which
// meets it again in its place.
fn value_given<X: Ord + Drop, W: ValueWalk<X>>(
    alloc: Global,
    walk: &W,
    value: &WellFormedValue,
) -> Result<Option<WellFormedValue<X>>, AllocError>
    ensures { IfOk result (λ given. IfSome given (λ w.
        fold (W.ops walk.now) empty (tree_of held_call value.now)
        ≡ Ok (W.value_meaning (bare_value (value_of w))))) }
{
    match through_expr::<X, W>(alloc, walk, value) {
        Ok(out) => Ok(W::into_value(out)),
        Err(PostOrderFault::Refused(_)) => Ok(None),
        Err(PostOrderFault::Memory) => Err(AllocError),
    }
}

// What a value's expression gives.
fn through_expr<X: Ord + Drop, W: ValueWalk<X>>(
    alloc: Global,
    walk: &W,
    value: &WellFormedValue,
) -> Result<W::Out, PostOrderFault<W::Refusal>>
    ensures { IsAnswer W.meaning_of W.fault_of
        (fold (W.ops walk.now) empty (tree_of held_call value.now)) result }
{
    let expr = value.value_expr(alloc)?;
    let unbound = UnboundWalk::<X, W> {
        walk,
        of: PhantomData,
    };
    expr.as_expr().post_order(alloc, &unbound)
}

// A walk in which no unknown is bound.
#[derive(Drop)]
struct UnboundWalk<'a, X, W> {
    walk: &'a W,
    of: PhantomData<X>,
}

impl<X: Ord + Drop, W: ValueWalk<X>> PostOrder<()> for UnboundWalk<'_, X, W> {
    type Out = W::Out;

    type Refusal = W::Refusal;

    ghost Meaning = { W.Meaning };

    ghost Fault = { W.Fault };

    ghost meaning_of = { W.meaning_of };

    ghost fault_of = { W.fault_of };

    ghost answer = { λ u e. fold (W.ops u.walk.now) empty e };

    ghost is_made_of = { λ u e. IsBuiltOf (W.ops u.walk.now) (own (W.ops u.walk.now)) e };

    fn make(
        &self,
        alloc: Global,
        node: &Expr,
        done: &mut Vec<W::Out>,
    ) -> Result<(), PostOrderFault<W::Refusal>> {
        self.walk.make(alloc, node, done)
    }

    ghost by_nodes = { λ u. fold_by_nodes (W.ops u.walk.now) (own (W.ops u.walk.now)) };
}

// A walk with what unknowns are bound to, and the values that some of these give, by name.
#[derive(Drop)]
struct BoundWalk<'a, X: Ord, W> {
    walk: &'a W,
    values: &'a HashMap<RcStr, WellFormedValue>,
    kept: HashMap<RcStr, WellFormedValue<X>>,
}

// An unknown gives a copy of the value that is kept, else what its value's expression gives, if it
// is bound; any other node is made as where nothing is bound.
impl<X: Ord + Drop, W: ValueWalk<X>> PostOrder<()> for BoundWalk<'_, X, W> {
    type Out = W::Out;

    type Refusal = W::Refusal;

    ghost Meaning = { W.Meaning };

    ghost Fault = { W.Fault };

    ghost meaning_of = { W.meaning_of };

    ghost fault_of = { W.fault_of };

    ghost answer = { λ b e. fold_with (W.ops b.walk.now)
        (given_by (W.ops b.walk.now) W.value_meaning (well_formed_env b.values.now)
        (kept_in b.kept)) e };

    ghost is_made_of = { λ b e. IsBuiltOf (W.ops b.walk.now)
        (given_by (W.ops b.walk.now) W.value_meaning (well_formed_env b.values.now)
        (kept_in b.kept)) e };

    fn make(
        &self,
        alloc: Global,
        node: &Expr,
        done: &mut Vec<W::Out>,
    ) -> Result<(), PostOrderFault<W::Refusal>> {
        match found_at(&self.kept, node) {
            Some(value) => put_shared::<X, W>(alloc, value, done),
            None => match found_at(self.values, node) {
                Some(value) => put_value::<X, W>(alloc, self.walk, value, done),
                None => self.walk.make(alloc, node, done),
            },
        }
    }

    ghost by_nodes = { λ b. fold_by_nodes (W.ops b.walk.now)
        (given_by (W.ops b.walk.now) W.value_meaning (well_formed_env b.values.now)
        (kept_in b.kept)) };
}

// What a map has of the name of a node, where that is an unknown.
fn found_at<'a, V>(map: &'a HashMap<RcStr, V>, node: &Expr) -> Option<&'a V>
    ensures { option_copied result ≡ of_unknown (at_name map.now) (bare_expr node.now) }
{
    match node.expr_kind() {
        ExprKind::Unknown(unknown) => map.get(unknown.name.as_str()),
        _ => None,
    }
}

// Puts a copy of a value.
fn put_shared<X: Ord + Drop, W: ValueWalk<X>>(
    alloc: Global,
    value: &WellFormedValue<X>,
    done: &mut Vec<W::Out>,
) -> Result<(), PostOrderFault<W::Refusal>>
    ensures { IsPut W.meaning_of W.fault_of
        (λ ms r. r ≡ Ok (W.value_meaning (bare_value (value_of value.now)))) 0
        done.old.items done.new.items result }
{
    let out = W::share(alloc, value)?;
    Ok(push_item(done, out)?)
}

// Puts what a value's expression gives.
fn put_value<X: Ord + Drop, W: ValueWalk<X>>(
    alloc: Global,
    walk: &W,
    value: &WellFormedValue,
    done: &mut Vec<W::Out>,
) -> Result<(), PostOrderFault<W::Refusal>>
    ensures { IsPut W.meaning_of W.fault_of
        (λ ms r. r ≡ fold (W.ops walk.now) empty (tree_of held_call value.now)) 0
        done.old.items done.new.items result }
{
    match through_expr::<X, W>(alloc, walk, value) {
        Ok(out) => Ok(push_item(done, out)?),
        Err(fault) => Err(fault),
    }
}
