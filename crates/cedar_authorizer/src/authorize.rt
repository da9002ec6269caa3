//! The response to a request, over a list of policies (Cedar's `Authorizer`).
ghost use Rattle.std.specs.Prelude.{◌≡◌, IfOk, map};
ghost use Rattle.semantics_authorize.specs.Authorization.{authorized, evaluated_by};
ghost use Rattle.cedar_request_evaluator.specs.Knowledge.{functions_of, knowledge_of};
ghost use Rattle.cedar_authorizer.specs.Policies.{bare_policy};
ghost use Rattle.cedar_authorizer.specs.Responses.{bare_response};
ghost use Rattle.cedar_authorizer.specs.Tallies.{IsTally};

use crate::policy::Policy;
use crate::response::Response;
use crate::tally::Tally;
use crate::verdict::Judge;
use cedar_request::{CallableFunctions, EntityStore};
use cedar_request_evaluator::RequestEvaluator;
use std::alloc::{AllocError, Global};

/// The response to a request by what is known: each condition is evaluated once.
///
/// ```rust
/// let evaluator = RequestEvaluator::new(&request, &entities, &NoFunctions, &values);
/// let response = is_authorized(alloc, &evaluator, &policies)?;
/// ```
pub fn is_authorized<X: Ord + Drop, S: EntityStore<X>, T: CallableFunctions<X>>(
    alloc: Global,
    evaluator: &RequestEvaluator<'_, X, S, T>,
    policies: &[Policy],
) -> Result<Response, AllocError>
    ensures { IfOk result (λ response. bare_response response
        ≡ authorized X.cmp X.eq (functions_of T.bare_functions evaluator.now)
        (knowledge_of S.bare_entities evaluator.now) (map bare_policy policies.now)) }
{
    Ok(tally_of(alloc, evaluator, policies)?.into_response())
}

// What is counted over the policies, by what a judge says of their conditions.
fn tally_of<J: Judge>(alloc: Global, judge: &J, policies: &[Policy]) -> Result<Tally, AllocError>
    ensures { IfOk result (λ tally. IsTally tally
        (map (evaluated_by (J.verdict_by judge.now)) (map bare_policy policies.now))) }
{
    let mut tally = Tally::new(alloc);
    for policy in policies {
        let verdict = judge.verdict(alloc, policy.condition())?;
        tally.add(policy, verdict)?;
    }
    Ok(tally)
}
