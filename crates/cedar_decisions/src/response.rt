//! The response to a request, by the policies of a text.
ghost use Rattle.std.specs.Prelude.{◌≡◌, IfErr, IfOk, MatchResult};
ghost use Rattle.cedar_lexer.specs.declared.error.ParseError.TheVariants.{Memory};
ghost use Rattle.cedar_parser.specs.Refused.{IsToldIn};
ghost use Rattle.semantics_authorize.specs.Authorization.{authorized};
ghost use Rattle.cedar_policies.specs.PolicySets.{policies_of};
ghost use Rattle.cedar_request_evaluator.specs.Knowledge.{functions_of, knowledge_of};
ghost use Rattle.cedar_authorizer.specs.Responses.{bare_response};
ghost use Rattle.cedar_decisions.specs.Decisions.{IfPolicies, IsDecidedBy};
ghost use Rattle.cedar_decisions.specs.Sets.{deciding_in};

use crate::deciding::deciding_policies;
use cedar_authorizer::{Response, is_authorized};
use cedar_parser::ParseError;
use cedar_policies::PolicySet;
use cedar_policy_parser::parse_policies;
use cedar_request::{CallableFunctions, EntityStore};
use cedar_request_evaluator::RequestEvaluator;
use std::alloc::{AllocError, Global};

/// The response to a request, by what is known and by the policies of a text in Cedar's syntax.
/// Templates do not decide, until they are linked. Refuses a text that is no policies, or has two
/// with the same identifier.
///
/// ```rust
/// let evaluator = RequestEvaluator::new(&request, &entities, &BuiltinFunctions, &values);
/// let response = decide(alloc, "permit(principal, action, resource);", &evaluator)?;
/// ```
#[tactic(auto, using(crate::proofs::Decided::decided, crate::proofs::Decided::response_by))]
pub fn decide<X: Ord + Drop, S: EntityStore<X>, T: CallableFunctions<X>>(
    alloc: Global,
    text: &str,
    evaluator: &RequestEvaluator<'_, X, S, T>,
) -> Result<Response, ParseError>
    ensures decided { IfOk result (λ response. IsDecidedBy X.cmp X.eq
        (functions_of T.bare_functions evaluator.now)
        (knowledge_of S.bare_entities evaluator.now) text.now (bare_response response)) }
    ensures complete { IfPolicies text.now (λ ps. MatchResult result (λ response.
        bare_response response ≡ authorized X.cmp X.eq (functions_of T.bare_functions evaluator.now)
        (knowledge_of S.bare_entities evaluator.now) ps) (λ e. e ≡ Memory)) }
    ensures told { IfErr result (IsToldIn text.now) }
{
    let set = parse_policies(alloc, text)?;
    Ok(decide_by(alloc, &set, evaluator)?)
}

/// The same by the policies of a set, which may decide many requests.
pub fn decide_by<X: Ord + Drop, S: EntityStore<X>, T: CallableFunctions<X>>(
    alloc: Global,
    set: &PolicySet,
    evaluator: &RequestEvaluator<'_, X, S, T>,
) -> Result<Response, AllocError>
    ensures { IfOk result (λ response. bare_response response
        ≡ authorized X.cmp X.eq (functions_of T.bare_functions evaluator.now)
        (knowledge_of S.bare_entities evaluator.now) (deciding_in (policies_of set.now))) }
{
    let policies = deciding_policies(alloc, set)?;
    is_authorized(alloc, evaluator, &policies)
}
