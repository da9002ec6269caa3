//! The nodes that what is known may answer, each put in the place of what its children gave: a
//! known value, or the node as a residual.
ghost use Rattle.std.specs.Prelude.{◌≡◌, ◌≤◌, IfOk, Ok, vec_len};
ghost use Rattle.std.specs.Rc.{rc_str_bytes};
ghost use Rattle.cedar_builders.specs.Answers.{never};
ghost use Rattle.cedar_builders.specs.NodeByNode.{OfOne, OfTwo};
ghost use Rattle.cedar_exprs.specs.BareExpr.{further};
ghost use Rattle.cedar_exprs.specs.PostOrder.{IsPut};
ghost use Rattle.semantics_request.specs.Residuals.{residual_ops};
ghost use Rattle.cedar_request_evaluator.specs.Knowledge.{knowledge_of};
ghost use Rattle.cedar_simplifier.specs.Simplified.{meaning_of};

use crate::known::{attribute, operator, variable};
use crate::paths::path;
use cedar_builders::ExprBuilder;
use cedar_exprs::{PostOrderFault, push_item, take_two};
use cedar_names::NonEmpty;
use cedar_request::{CallableFunctions, EntityStore};
use cedar_request_evaluator::RequestEvaluator;
use cedar_simplifier::{Simplified, SimplifierOf};
use cedar_terms::{BinaryOp, Literal, Var};
use cedar_values::ExtensionValue;
use std::alloc::{AllocError, Global};
use std::convert::Infallible;
use std::rc::RcStr;

// A variable.
pub(crate) fn put_variable<X: ExtensionValue + Ord, S: EntityStore<X>, T: CallableFunctions<X>>(
    alloc: Global,
    evaluator: &RequestEvaluator<'_, X, S, T>,
    builder: SimplifierOf<X>,
    var: Var,
    done: &mut Vec<Simplified<X>>,
) -> Result<(), PostOrderFault<Infallible>>
    ensures { IsPut meaning_of never
        (λ ms r. r ≡ Ok ((residual_ops X.cmp X.eq X.canonical
        (knowledge_of S.bare_entities evaluator.now)).var_of var)) 0
        done.old.items done.new.items result }
{
    let made = variable_node(alloc, evaluator, builder, var)?;
    Ok(push_item(done, made)?)
}

#[tactic(auto, using(cedar_simplifier::proofs::Made::known, cedar_simplifier::proofs::Made::residual))]
fn variable_node<X: ExtensionValue + Ord, S: EntityStore<X>, T: CallableFunctions<X>>(
    alloc: Global,
    evaluator: &RequestEvaluator<'_, X, S, T>,
    builder: SimplifierOf<X>,
    var: Var,
) -> Result<Simplified<X>, AllocError>
    ensures { IfOk result (λ s. meaning_of s
        ≡ (residual_ops X.cmp X.eq X.canonical
        (knowledge_of S.bare_entities evaluator.now)).var_of var) }
{
    match variable(alloc, evaluator.request(), var)? {
        Some(value) => Ok(Simplified::known(value)),
        None => builder.var(alloc, var),
    }
}

// An operator on two values.
pub(crate) fn put_operator<X: ExtensionValue + Ord, S: EntityStore<X>, T: CallableFunctions<X>>(
    alloc: Global,
    evaluator: &RequestEvaluator<'_, X, S, T>,
    builder: SimplifierOf<X>,
    op: BinaryOp,
    done: &mut Vec<Simplified<X>>,
) -> Result<(), PostOrderFault<Infallible>>
    requires { 2 ≤ vec_len done.old }
    ensures { IsPut meaning_of never
        (OfTwo ((residual_ops X.cmp X.eq X.canonical
        (knowledge_of S.bare_entities evaluator.now)).binary_of op)) 2
        done.old.items done.new.items result }
{
    let (left, right) = take_two(done);
    let made = operator_node(alloc, evaluator, builder, op, left, right)?;
    Ok(push_item(done, made)?)
}

#[tactic(auto, using(cedar_simplifier::proofs::Made::known, cedar_simplifier::proofs::Made::residual))]
fn operator_node<X: ExtensionValue + Ord, S: EntityStore<X>, T: CallableFunctions<X>>(
    alloc: Global,
    evaluator: &RequestEvaluator<'_, X, S, T>,
    builder: SimplifierOf<X>,
    op: BinaryOp,
    left: Simplified<X>,
    right: Simplified<X>,
) -> Result<Simplified<X>, AllocError>
    ensures { IfOk result (λ s. meaning_of s
        ≡ (residual_ops X.cmp X.eq X.canonical
        (knowledge_of S.bare_entities evaluator.now)).binary_of op (meaning_of left)
        (meaning_of right)) }
{
    match operator(alloc, evaluator.entities(), op, &left, &right)? {
        Some(value) => Ok(Simplified::known(value)),
        None => {
            let residual = builder.residual_binary(alloc, op, left, right)?;
            Ok(residual)
        }
    }
}

// The value of an attribute.
pub(crate) fn put_attribute<X: ExtensionValue + Ord, S: EntityStore<X>, T: CallableFunctions<X>>(
    alloc: Global,
    evaluator: &RequestEvaluator<'_, X, S, T>,
    builder: SimplifierOf<X>,
    attr: &RcStr,
    done: &mut Vec<Simplified<X>>,
) -> Result<(), PostOrderFault<Infallible>>
    requires { 1 ≤ vec_len done.old }
    ensures { IsPut meaning_of never
        (OfOne (λ m. (residual_ops X.cmp X.eq X.canonical
        (knowledge_of S.bare_entities evaluator.now)).get_of m (rc_str_bytes attr.now))) 1
        done.old.items done.new.items result }
{
    let child = done.take_last();
    let made = attribute_node(alloc, evaluator, builder, child, attr)?;
    Ok(push_item(done, made)?)
}

#[tactic(auto, using(cedar_simplifier::proofs::Made::known, cedar_simplifier::proofs::Made::residual))]
fn attribute_node<X: ExtensionValue + Ord, S: EntityStore<X>, T: CallableFunctions<X>>(
    alloc: Global,
    evaluator: &RequestEvaluator<'_, X, S, T>,
    builder: SimplifierOf<X>,
    child: Simplified<X>,
    attr: &RcStr,
) -> Result<Simplified<X>, AllocError>
    ensures { IfOk result (λ s. meaning_of s
        ≡ (residual_ops X.cmp X.eq X.canonical
        (knowledge_of S.bare_entities evaluator.now)).get_of (meaning_of child)
        (rc_str_bytes attr.now)) }
{
    match attribute(alloc, evaluator.entities(), &child, attr)? {
        Some(value) => Ok(Simplified::known(value)),
        None => builder.residual_get(alloc, child, attr.clone()?),
    }
}

// Whether a path of attributes is there.
pub(crate) fn put_path<X: ExtensionValue + Ord, S: EntityStore<X>, T: CallableFunctions<X>>(
    alloc: Global,
    evaluator: &RequestEvaluator<'_, X, S, T>,
    builder: SimplifierOf<X>,
    attrs: &NonEmpty<RcStr>,
    done: &mut Vec<Simplified<X>>,
) -> Result<(), PostOrderFault<Infallible>>
    requires { 1 ≤ vec_len done.old }
    ensures { IsPut meaning_of never
        (OfOne (λ m. (residual_ops X.cmp X.eq X.canonical
        (knowledge_of S.bare_entities evaluator.now)).has_of m (rc_str_bytes attrs.now.head)
        (further attrs.now))) 1 done.old.items done.new.items result }
{
    let child = done.take_last();
    let made = path_node(alloc, evaluator, builder, child, attrs)?;
    Ok(push_item(done, made)?)
}

#[tactic(auto, using(cedar_simplifier::proofs::Made::known, cedar_simplifier::proofs::Made::residual))]
fn path_node<X: ExtensionValue + Ord, S: EntityStore<X>, T: CallableFunctions<X>>(
    alloc: Global,
    evaluator: &RequestEvaluator<'_, X, S, T>,
    builder: SimplifierOf<X>,
    child: Simplified<X>,
    attrs: &NonEmpty<RcStr>,
) -> Result<Simplified<X>, AllocError>
    ensures { IfOk result (λ s. meaning_of s
        ≡ (residual_ops X.cmp X.eq X.canonical
        (knowledge_of S.bare_entities evaluator.now)).has_of (meaning_of child)
        (rc_str_bytes attrs.now.head) (further attrs.now)) }
{
    match path(alloc, evaluator.entities(), &child, attrs)? {
        Some(truth) => Ok(Simplified::lit(Literal::Bool(truth))),
        None => {
            let residual = builder.residual_has(alloc, child, attrs.clone(alloc)?)?;
            Ok(residual)
        }
    }
}
