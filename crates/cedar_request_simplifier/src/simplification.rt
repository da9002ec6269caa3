//! Simplification by what is known.
ghost use Rattle.std.specs.Prelude.{◌≡◌, IfOk};
ghost use Rattle.cedar_exprs.specs.BareExpr.{bare_expr};
ghost use Rattle.semantics_request.specs.Residuals.{residual};
ghost use Rattle.cedar_request_evaluator.specs.Knowledge.{knowledge_of};
ghost use Rattle.cedar_simplifier.specs.Simplified.{meaning_of};
ghost use Rattle.cedar_request_simplifier.specs.Promises.{
  AsksNoMore,
  KnownStaysLater,
  MeansTheSameLater,
};

use crate::laws::maps_bind_plain_values;
use crate::walk::RequestSimplifier;
use cedar_exprs::{Expr, PostOrderFault};
use cedar_request::{CallableFunctions, EntityStore};
use cedar_request_evaluator::RequestEvaluator;
use cedar_request_evaluator::operations::post_order_with_values;
use cedar_simplifier::Simplified;
use cedar_values::ExtensionValue;
use semantics_request::laws::{residual_asks_no_more, residual_first};
use std::alloc::{AllocError, Global};

/// Simplifies a condition by what an evaluator knows of the request, of entities and of unknowns,
/// to a known value or a residual.
///
/// Wherever more is known, the residual has the outcome that the condition has, or is refused by
/// the same call; a known value is that outcome. The residual asks for no variable, slot, unknown
/// or call that the condition does not ask for, and for nothing that is known. Calls stay, whatever
/// the table of functions: an operand with an extension value inside is as one that is not known.
///
/// ```rust
/// let evaluator = RequestEvaluator::new(&request, &entities, &functions, &values);
/// let residual = simplify(alloc, &evaluator, &condition)?.into_expr(alloc)?;
/// ```
pub fn simplify<X: ExtensionValue + Ord, S: EntityStore<X>, T: CallableFunctions<X>>(
    alloc: Global,
    evaluator: &RequestEvaluator<'_, X, S, T>,
    condition: &Expr,
) -> Result<Simplified<X>, AllocError>
    ensures residual { IfOk result (λ s. meaning_of s
        ≡ residual X.cmp X.eq X.canonical (knowledge_of S.bare_entities evaluator.now)
        (bare_expr condition.now)) }
    ensures means_the_same { IfOk result (λ s.
        MeansTheSameLater X.cmp X.eq X.canonical (knowledge_of S.bare_entities evaluator.now)
        (bare_expr condition.now) (meaning_of s)) }
    ensures known_stays { IfOk result (λ s.
        KnownStaysLater X.cmp X.eq X.canonical (knowledge_of S.bare_entities evaluator.now)
        (bare_expr condition.now) (meaning_of s)) }
    ensures asks_no_more { IfOk result (λ s.
        AsksNoMore X.cmp X.eq X.canonical (knowledge_of S.bare_entities evaluator.now)
        (bare_expr condition.now) (meaning_of s)) }
{
    residual_first::<X>();
    residual_asks_no_more::<X>();
    maps_bind_plain_values::<X>();
    let walk = RequestSimplifier { evaluator };
    match post_order_with_values(alloc, &walk, evaluator.values(), condition) {
        Ok(simplified) => Ok(simplified),
        Err(PostOrderFault::Refused(never)) => match never {},
        Err(PostOrderFault::Memory) => Err(AllocError),
    }
}
