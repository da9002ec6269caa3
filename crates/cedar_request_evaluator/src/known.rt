//! What an evaluator knows of a request, of entities and of functions, where no unknown is bound.
ghost use Rattle.std.specs.Prelude.{Ok};
ghost use Rattle.cedar_names.specs.Names.{BareName};
ghost use Rattle.semantics_eval.specs.Outcomes as meant;
ghost use Rattle.semantics_request.specs.Evaluator.{request_ops};
ghost use Rattle.cedar_evaluator.specs.Outcomes.{meaning_of};
ghost use Rattle.cedar_request_evaluator.specs.Refusals.{refused_name};
ghost use Rattle.cedar_request_evaluator.specs.Known.{functions_known_to, known_to};

use crate::bound::ValueWalk;
use crate::nodes::{put_binary, put_call, put_get, put_has, put_var};
use crate::plain_nodes::{
    put_and, put_if, put_is, put_like, put_literal, put_open, put_or, put_record, put_set,
    put_unary,
};
use cedar_evaluator::{CallRefused, Outcome};
use cedar_exprs::{Expr, ExprKind, PostOrderFault};
use cedar_names::Loc;
use cedar_request::{CallableFunctions, EntityStore, Request};
use cedar_values::WellFormedValue;
use std::alloc::{AllocError, Global};

// The request, the entities and the functions.
#[derive(Drop)]
pub(crate) struct Known<'a, X: Ord, S, T> {
    pub(crate) request: &'a Request<X>,
    pub(crate) entities: &'a S,
    pub(crate) functions: &'a T,
}

// Each node by what its children gave.
impl<X: Ord + Drop, S: EntityStore<X>, T: CallableFunctions<X>> ValueWalk<X>
    for Known<'_, X, S, T> {
    type Out = Outcome<X>;

    type Refusal = CallRefused;

    ghost Meaning = { meant.Outcome X };

    ghost Fault = { BareName };

    ghost meaning_of = { meaning_of };

    ghost fault_of = { refused_name };

    ghost ops = { λ w. request_ops X.cmp X.eq (functions_known_to T.bare_functions w)
        (known_to S.bare_entities w).request (known_to S.bare_entities w).entities };

    ghost value_meaning = { λ t. Ok t };

    fn make(
        &self,
        alloc: Global,
        node: &Expr,
        done: &mut Vec<Outcome<X>>,
    ) -> Result<(), PostOrderFault<CallRefused>> {
        let place = Loc::clone_option(alloc, node.source_loc())?;
        match node.expr_kind() {
            ExprKind::Lit(literal) => put_literal(alloc, literal, done),
            ExprKind::Var(var) => put_var(alloc, self.request, *var, place, done),
            ExprKind::Slot(_) => put_open(place, done),
            ExprKind::Unknown(_) => put_open(place, done),
            ExprKind::If { .. } => put_if(place, done),
            ExprKind::And { .. } => put_and(place, done),
            ExprKind::Or { .. } => put_or(place, done),
            ExprKind::UnaryApp { op, .. } => put_unary(*op, place, done),
            ExprKind::BinaryApp { op, .. } => {
                put_binary(alloc, self.entities, self.functions, *op, place, done)
            }
            ExprKind::ExtensionFunctionApp { fn_name, args } => {
                put_call(alloc, self.functions, fn_name, args.len(), place, done)
            }
            ExprKind::GetAttr { attr, .. } => put_get(alloc, self.entities, attr, place, done),
            ExprKind::HasAttr { attrs, .. } => put_has(self.entities, attrs, place, done),
            ExprKind::Like { pattern, .. } => put_like(pattern, place, done),
            ExprKind::Set(members) => put_set(alloc, members.len(), done),
            ExprKind::Record(pairs) => put_record(alloc, pairs, done),
            ExprKind::Is { entity_type, .. } => put_is(entity_type, place, done),
        }
    }

    fn into_value(outcome: Outcome<X>) -> Option<WellFormedValue<X>> {
        outcome.into_value().ok()
    }

    fn share(alloc: Global, value: &WellFormedValue<X>) -> Result<Outcome<X>, AllocError> {
        Ok(Outcome::of_value(value.clone(alloc)?.into_value()))
    }
}
