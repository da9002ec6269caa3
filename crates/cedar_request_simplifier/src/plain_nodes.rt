//! The nodes that ask nothing of what is known, each put in the place of what its children gave: as
//! the simplifier makes them.
ghost use Rattle.std.specs.Prelude.{◌≡◌, ◌≤◌, Ok, length, vec_len};
ghost use Rattle.cedar_names.specs.PlainNames.{bare_name};
ghost use Rattle.cedar_terms.specs.Entities.{bare_entity_type};
ghost use Rattle.cedar_terms.specs.Literals.{bare_literal};
ghost use Rattle.cedar_terms.specs.Unknowns.{bare_unknown};
ghost use Rattle.cedar_builders.specs.Answers.{never};
ghost use Rattle.cedar_builders.specs.NodeByNode.{OfOne, OfThree, OfTwo, keyed};
ghost use Rattle.cedar_exprs.specs.BareExpr.{bare_fields};
ghost use Rattle.cedar_exprs.specs.PostOrder.{IsPut};
ghost use Rattle.semantics_simplify.specs.Simplifier.{simplifier_ops};
ghost use Rattle.cedar_simplifier.specs.Simplified.{meaning_of};

use cedar_builders::{BuildFault, ExprBuilder};
use cedar_exprs::{Expr, PostOrderFault, keyed, push_item, take_many, take_two};
use cedar_names::{Name, SlotId};
use cedar_simplifier::{Simplified, SimplifierOf};
use cedar_terms::{EntityType, Literal, Pattern, UnaryOp, Unknown};
use cedar_values::ExtensionValue;
use std::alloc::Global;
use std::collections::BTreeMap;
use std::convert::Infallible;
use std::rc::RcStr;

// A literal.
pub(crate) fn put_literal<X: ExtensionValue + Ord>(
    alloc: Global,
    builder: SimplifierOf<X>,
    literal: &Literal,
    done: &mut Vec<Simplified<X>>,
) -> Result<(), PostOrderFault<Infallible>>
    ensures { let B = simplifier_ops X.cmp X.eq X.canonical in
        IsPut meaning_of never (λ ms r. r ≡ Ok (B.lit_of (bare_literal literal.now))) 0
        done.old.items done.new.items result }
{
    let made = builder.val(alloc, literal.clone(alloc)?)?;
    Ok(push_item(done, made)?)
}

// A slot.
pub(crate) fn put_slot<X: ExtensionValue + Ord>(
    alloc: Global,
    builder: SimplifierOf<X>,
    slot: SlotId,
    done: &mut Vec<Simplified<X>>,
) -> Result<(), PostOrderFault<Infallible>>
    ensures { let B = simplifier_ops X.cmp X.eq X.canonical in
        IsPut meaning_of never (λ ms r. r ≡ Ok (B.slot_of slot)) 0
        done.old.items done.new.items result }
{
    let made = builder.slot(alloc, slot)?;
    Ok(push_item(done, made)?)
}

// An unknown that is not bound.
pub(crate) fn put_unknown<X: ExtensionValue + Ord>(
    alloc: Global,
    builder: SimplifierOf<X>,
    unknown: &Unknown,
    done: &mut Vec<Simplified<X>>,
) -> Result<(), PostOrderFault<Infallible>>
    ensures { let B = simplifier_ops X.cmp X.eq X.canonical in
        let u = bare_unknown unknown.now in
        IsPut meaning_of never (λ ms r. r ≡ Ok (B.unknown_of u.name u.annotation)) 0
        done.old.items done.new.items result }
{
    let made = builder.unknown(alloc, unknown.clone(alloc)?)?;
    Ok(push_item(done, made)?)
}

// A choice.
pub(crate) fn put_if<X: ExtensionValue + Ord>(
    alloc: Global,
    builder: SimplifierOf<X>,
    done: &mut Vec<Simplified<X>>,
) -> Result<(), PostOrderFault<Infallible>>
    requires { 3 ≤ vec_len done.old }
    ensures { let B = simplifier_ops X.cmp X.eq X.canonical in
        IsPut meaning_of never (OfThree B.if_of) 3 done.old.items done.new.items result }
{
    let else_expr = done.take_last();
    let (test_expr, then_expr) = take_two(done);
    let made = builder.ite(alloc, test_expr, then_expr, else_expr)?;
    Ok(push_item(done, made)?)
}

// A conjunction.
pub(crate) fn put_and<X: ExtensionValue + Ord>(
    alloc: Global,
    builder: SimplifierOf<X>,
    done: &mut Vec<Simplified<X>>,
) -> Result<(), PostOrderFault<Infallible>>
    requires { 2 ≤ vec_len done.old }
    ensures { let B = simplifier_ops X.cmp X.eq X.canonical in
        IsPut meaning_of never (OfTwo B.and_of) 2 done.old.items done.new.items result }
{
    let (left, right) = take_two(done);
    let made = builder.and(alloc, left, right)?;
    Ok(push_item(done, made)?)
}

// A disjunction.
pub(crate) fn put_or<X: ExtensionValue + Ord>(
    alloc: Global,
    builder: SimplifierOf<X>,
    done: &mut Vec<Simplified<X>>,
) -> Result<(), PostOrderFault<Infallible>>
    requires { 2 ≤ vec_len done.old }
    ensures { let B = simplifier_ops X.cmp X.eq X.canonical in
        IsPut meaning_of never (OfTwo B.or_of) 2 done.old.items done.new.items result }
{
    let (left, right) = take_two(done);
    let made = builder.or(alloc, left, right)?;
    Ok(push_item(done, made)?)
}

// An operator on one value.
pub(crate) fn put_unary<X: ExtensionValue + Ord>(
    alloc: Global,
    builder: SimplifierOf<X>,
    op: UnaryOp,
    done: &mut Vec<Simplified<X>>,
) -> Result<(), PostOrderFault<Infallible>>
    requires { 1 ≤ vec_len done.old }
    ensures { let B = simplifier_ops X.cmp X.eq X.canonical in
        IsPut meaning_of never (OfOne (B.unary_of op)) 1 done.old.items done.new.items result }
{
    let child = done.take_last();
    let made = builder.unary_app(alloc, op, child)?;
    Ok(push_item(done, made)?)
}

// A call, which stays.
pub(crate) fn put_call<X: ExtensionValue + Ord>(
    alloc: Global,
    builder: SimplifierOf<X>,
    fn_name: &Name,
    count: usize,
    done: &mut Vec<Simplified<X>>,
) -> Result<(), PostOrderFault<Infallible>>
    requires { count ≤ vec_len done.old }
    ensures { let B = simplifier_ops X.cmp X.eq X.canonical in
        IsPut meaning_of never (λ ms r. r ≡ B.call_of (bare_name fn_name.now) ms) count
        done.old.items done.new.items result }
{
    let args = take_many(done, count)?;
    match builder.call_extension_fn(alloc, fn_name.clone(alloc)?, args) {
        Ok(made) => Ok(push_item(done, made)?),
        Err(BuildFault::Build(never)) => match never {},
        Err(BuildFault::Memory) => Err(PostOrderFault::Memory),
    }
}

// Whether a pattern matches a text.
pub(crate) fn put_like<X: ExtensionValue + Ord>(
    alloc: Global,
    builder: SimplifierOf<X>,
    pattern: &Pattern,
    done: &mut Vec<Simplified<X>>,
) -> Result<(), PostOrderFault<Infallible>>
    requires { 1 ≤ vec_len done.old }
    ensures { let B = simplifier_ops X.cmp X.eq X.canonical in
        IsPut meaning_of never (OfOne (λ m. B.like_of m pattern.now)) 1
        done.old.items done.new.items result }
{
    let child = done.take_last();
    let made = builder.like(alloc, child, pattern.clone(alloc)?)?;
    Ok(push_item(done, made)?)
}

// A set.
pub(crate) fn put_set<X: ExtensionValue + Ord>(
    alloc: Global,
    builder: SimplifierOf<X>,
    count: usize,
    done: &mut Vec<Simplified<X>>,
) -> Result<(), PostOrderFault<Infallible>>
    requires { count ≤ vec_len done.old }
    ensures { let B = simplifier_ops X.cmp X.eq X.canonical in
        IsPut meaning_of never (λ ms r. r ≡ Ok (B.set_of ms)) count
        done.old.items done.new.items result }
{
    let members = take_many(done, count)?;
    let made = builder.set(alloc, members)?;
    Ok(push_item(done, made)?)
}

// A record.
pub(crate) fn put_record<X: ExtensionValue + Ord>(
    alloc: Global,
    builder: SimplifierOf<X>,
    pairs: &BTreeMap<RcStr, Expr>,
    done: &mut Vec<Simplified<X>>,
) -> Result<(), PostOrderFault<Infallible>>
    requires { length pairs.now.entries ≤ vec_len done.old }
    ensures { let B = simplifier_ops X.cmp X.eq X.canonical in
        IsPut meaning_of never
        (λ ms r. r ≡ Ok (B.record_of (keyed (bare_fields pairs.now.entries) ms)))
        (length pairs.now.entries) done.old.items done.new.items result }
{
    let values = take_many(done, pairs.len())?;
    match builder.record(alloc, keyed(alloc, pairs, values)?) {
        Ok(made) => Ok(push_item(done, made)?),
        // The keys of a map ascend, so only memory is refused.
        Err(_) => Err(PostOrderFault::Memory),
    }
}

// Whether an entity is of a type.
pub(crate) fn put_is<X: ExtensionValue + Ord>(
    alloc: Global,
    builder: SimplifierOf<X>,
    entity_type: &EntityType,
    done: &mut Vec<Simplified<X>>,
) -> Result<(), PostOrderFault<Infallible>>
    requires { 1 ≤ vec_len done.old }
    ensures { let B = simplifier_ops X.cmp X.eq X.canonical in
        IsPut meaning_of never (OfOne (λ m. B.is_of m (bare_entity_type entity_type.now))) 1
        done.old.items done.new.items result }
{
    let child = done.take_last();
    let made = builder.is_entity_type(alloc, child, entity_type.clone(alloc)?)?;
    Ok(push_item(done, made)?)
}
