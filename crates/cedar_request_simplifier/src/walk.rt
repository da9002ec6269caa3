//! The walk that simplifies by what is known.
ghost use Rattle.std.specs.Prelude.{◌≡◌, IfOk};
ghost use Rattle.cedar_builders.specs.Answers.{never};
ghost use Rattle.cedar_exprs.specs.BareExpr.{expr_place};
ghost use Rattle.semantics_simplify.specs.Simplified as meant;
ghost use Rattle.semantics_request.specs.Residuals.{residual_ops};
ghost use Rattle.cedar_request_evaluator.specs.Knowledge.{knowledge_of};
ghost use Rattle.cedar_simplifier.specs.Simplified.{meaning_of};

use crate::nodes::{put_attribute, put_operator, put_path, put_variable};
use crate::plain_nodes::{
    put_and, put_call, put_if, put_is, put_like, put_literal, put_or, put_record, put_set,
    put_slot, put_unary, put_unknown,
};
use cedar_builders::ExprBuilder;
use cedar_exprs::{Expr, ExprKind, PostOrderFault};
use cedar_names::Loc;
use cedar_request::{CallableFunctions, EntityStore};
use cedar_request_evaluator::RequestEvaluator;
use cedar_request_evaluator::operations::ValueWalk;
use cedar_simplifier::{Simplified, SimplifierOf};
use cedar_values::{ExtensionValue, WellFormedValue};
use std::alloc::{AllocError, Global};
use std::convert::Infallible;

// What an evaluator knows of a request and of entities.
#[derive(Drop)]
pub(crate) struct RequestSimplifier<'a, 'b, X: Ord, S, T> {
    pub(crate) evaluator: &'a RequestEvaluator<'b, X, S, T>,
}

// Each node by what its children gave.
impl<X: ExtensionValue + Ord, S: EntityStore<X>, T: CallableFunctions<X>> ValueWalk<X>
    for RequestSimplifier<'_, '_, X, S, T> {
    type Out = Simplified<X>;

    type Refusal = Infallible;

    ghost Meaning = { meant.Simplified X };

    ghost Fault = { ⊥ };

    ghost meaning_of = { meaning_of };

    ghost fault_of = { never };

    ghost ops = { λ w. residual_ops X.cmp X.eq X.canonical
        (knowledge_of S.bare_entities w.evaluator.now) };

    ghost value_meaning = { meant.Known };

    fn make(
        &self,
        alloc: Global,
        node: &Expr,
        done: &mut Vec<Simplified<X>>,
    ) -> Result<(), PostOrderFault<Infallible>> {
        let builder = builder_at(alloc, node)?;
        match node.expr_kind() {
            ExprKind::Lit(literal) => put_literal(alloc, builder, literal, done),
            ExprKind::Var(var) => put_variable(alloc, self.evaluator, builder, *var, done),
            ExprKind::Slot(slot) => put_slot(alloc, builder, *slot, done),
            ExprKind::Unknown(unknown) => put_unknown(alloc, builder, unknown, done),
            ExprKind::If { .. } => put_if(alloc, builder, done),
            ExprKind::And { .. } => put_and(alloc, builder, done),
            ExprKind::Or { .. } => put_or(alloc, builder, done),
            ExprKind::UnaryApp { op, .. } => put_unary(alloc, builder, *op, done),
            ExprKind::BinaryApp { op, .. } => {
                put_operator(alloc, self.evaluator, builder, *op, done)
            }
            ExprKind::ExtensionFunctionApp { fn_name, args } => {
                put_call(alloc, builder, fn_name, args.len(), done)
            }
            ExprKind::GetAttr { attr, .. } => {
                put_attribute(alloc, self.evaluator, builder, attr, done)
            }
            ExprKind::HasAttr { attrs, .. } => {
                put_path(alloc, self.evaluator, builder, attrs, done)
            }
            ExprKind::Like { pattern, .. } => put_like(alloc, builder, pattern, done),
            ExprKind::Set(members) => put_set(alloc, builder, members.len(), done),
            ExprKind::Record(pairs) => put_record(alloc, builder, pairs, done),
            ExprKind::Is { entity_type, .. } => put_is(alloc, builder, entity_type, done),
        }
    }

    fn into_value(made: Simplified<X>) -> Option<WellFormedValue<X>> {
        match made.into_value() {
            Some(value) => Some(WellFormedValue::new_unchecked(value)),
            None => None,
        }
    }

    fn share(alloc: Global, value: &WellFormedValue<X>) -> Result<Simplified<X>, AllocError> {
        Ok(Simplified::known(value.clone(alloc)?.into_value()))
    }
}

// A builder of residuals with the place of a node.
fn builder_at<X: ExtensionValue + Ord>(
    alloc: Global,
    node: &Expr,
) -> Result<SimplifierOf<X>, AllocError>
    ensures { IfOk result (λ b.
        ⟦<SimplifierOf<X> as ExprBuilder>⟧.place_of b ≡ expr_place node.now) }
{
    Ok(SimplifierOf::new().with_maybe_source_loc(Loc::clone_option(alloc, node.source_loc())?))
}
