//! What is decided of a request while not all is known, by the policies of a text.
ghost use Rattle.std.specs.Prelude.{◌≡◌, IfErr, IfOk, MatchResult};
ghost use Rattle.cedar_lexer.specs.declared.error.ParseError.TheVariants.{Memory};
ghost use Rattle.cedar_parser.specs.Refused.{IsToldIn};
ghost use Rattle.cedar_request_evaluator.specs.Knowledge.{functions_of, knowledge_of};
ghost use Rattle.cedar_decisions.specs.Decisions.{IfPolicies};
ghost use Rattle.cedar_decisions.specs.Partial.{IsPartlyDecided, IsPartlyDecidedBy};

use crate::deciding::deciding_policies;
use cedar_authorizer::{PartialResponse, is_authorized_partial};
use cedar_parser::ParseError;
use cedar_policy_parser::parse_policies;
use cedar_request::{CallableFunctions, EntityStore};
use cedar_request_evaluator::RequestEvaluator;
use std::alloc::Global;

/// The decision of a request by what is known and by the policies of a text, or the residual
/// policies, which have the response of all of them wherever more is known.
pub fn decide_partial<X: Ord + Drop, S: EntityStore<X>, T: CallableFunctions<X>>(
    alloc: Global,
    text: &str,
    evaluator: &RequestEvaluator<'_, X, S, T>,
) -> Result<PartialResponse, ParseError>
    ensures decided { IfOk result (IsPartlyDecidedBy X.cmp X.eq
        (functions_of T.bare_functions evaluator.now)
        (knowledge_of S.bare_entities evaluator.now) text.now) }
    ensures complete { IfPolicies text.now (λ ps. MatchResult result
        (IsPartlyDecided X.cmp X.eq (functions_of T.bare_functions evaluator.now)
        (knowledge_of S.bare_entities evaluator.now) ps) (λ e. e ≡ Memory)) }
    ensures told { IfErr result (IsToldIn text.now) }
{
    let set = parse_policies(alloc, text)?;
    let policies = deciding_policies(alloc, &set)?;
    Ok(is_authorized_partial(alloc, evaluator, &policies)?)
}
