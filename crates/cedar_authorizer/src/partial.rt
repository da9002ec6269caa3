//! Decisions while not all is known (Cedar's `PartialResponse`).
ghost use Rattle.std.specs.Prelude.{◌≡◌, ◌++◌, [], IfOk, List, map};
ghost use Rattle.std.specs.List.{cons_option};
ghost use Rattle.semantics_request.specs.Evaluator.{evaluated};
ghost use Rattle.semantics_authorize.specs.Authorization.{authorized, evaluated_by};
ghost use Rattle.semantics_authorize.specs.Policies.{verdict};
ghost use Rattle.semantics_authorize.specs.Decisions.{EvaluatedPolicy, decision};
ghost use Rattle.semantics_authorize.specs.ResidualPolicies.{residual_policies, residual_policy};
ghost use Rattle.cedar_request_evaluator.specs.Knowledge.{functions_of, knowledge_of};
ghost use Rattle.cedar_authorizer.specs.PartialResponses.{IfResidual, RespondLaterAs, decision_in};
ghost use Rattle.cedar_authorizer.specs.Policies.{bare_policy};
ghost use Rattle.cedar_authorizer.specs.Tallies.{IsTally};
ghost use Rattle.cedar_authorizer.specs.Verdicts.{bare_verdict};

use crate::policy::Policy;
use crate::response::Decision;
use crate::tally::Tally;
use crate::verdict::{Judge, Verdict};
use cedar_exprs::Expr;
use cedar_request::{CallableFunctions, EntityStore};
use cedar_request_evaluator::RequestEvaluator;
use cedar_terms::Literal;
use semantics_authorize::laws::residual_policies_first;
use std::alloc::{AllocError, Global};

/// What is decided of a request by what is known.
#[derive(Debug, Drop)]
pub enum PartialResponse {
    /// It is allowed, whatever else comes to be known.
    Allow,
    /// It is denied, whatever else comes to be known.
    Deny,
    /// It may still come to be either. The residual policies have the response of all the policies
    /// wherever more is known: those whose conditions are false are left out, those whose
    /// conditions are true have the condition `true`, and the others are as they were.
    Residual(Vec<Policy>),
}

/// The decision of a request by what is known, or the residual policies: each condition is
/// evaluated once.
pub fn is_authorized_partial<X: Ord + Drop, S: EntityStore<X>, T: CallableFunctions<X>>(
    alloc: Global,
    evaluator: &RequestEvaluator<'_, X, S, T>,
    policies: &[Policy],
) -> Result<PartialResponse, AllocError>
    ensures decision { IfOk result (λ r. decision_in r
        ≡ (authorized X.cmp X.eq (functions_of T.bare_functions evaluator.now)
        (knowledge_of S.bare_entities evaluator.now) (map bare_policy policies.now)).decision) }
    ensures residual { IfOk result (IfResidual (λ qs. qs
        ≡ residual_policies (λ e. verdict (evaluated X.cmp X.eq
        (functions_of T.bare_functions evaluator.now) (knowledge_of S.bare_entities evaluator.now)
        e)) (map bare_policy policies.now))) }
    ensures later { IfOk result (IfResidual (RespondLaterAs X.cmp X.eq
        (functions_of T.bare_functions evaluator.now) (knowledge_of S.bare_entities evaluator.now)
        (map bare_policy policies.now))) }
{
    residual_policies_first::<X>();
    Ok(judge_all(alloc, evaluator, policies)?.into_response())
}

// What is counted over policies, and the residual ones.
#[derive(Drop)]
struct Judged {
    tally: Tally,
    residual: Vec<Policy>,
}

impl Judged {
    // The decision, or the residual policies.
    fn into_response(self) -> PartialResponse
        ensures decision { (js : List EvaluatedPolicy) → IsTally self.tally js
            → decision_in result ≡ decision js }
        ensures residual { IfResidual (λ qs. qs ≡ map bare_policy self.residual.items) result }
    {
        match self.tally.decision() {
            Some(Decision::Allow) => PartialResponse::Allow,
            Some(Decision::Deny) => PartialResponse::Deny,
            None => PartialResponse::Residual(self.residual),
        }
    }
}

// The policies by what a judge says of their conditions.
fn judge_all<J: Judge>(alloc: Global, judge: &J, policies: &[Policy]) -> Result<Judged, AllocError>
    ensures tally { IfOk result (λ j. IsTally j.tally
        (map (evaluated_by (J.verdict_by judge.now)) (map bare_policy policies.now))) }
    ensures residual { IfOk result (λ j. map bare_policy j.residual.items
        ≡ residual_policies (J.verdict_by judge.now) (map bare_policy policies.now)) }
{
    let mut tally = Tally::new(alloc);
    let mut residual = Vec::new(alloc);
    for policy in policies {
        let verdict = judge.verdict(alloc, policy.condition())?;
        leave(alloc, &mut residual, policy, &verdict)?;
        tally.add(policy, verdict)?;
    }
    Ok(Judged { tally, residual })
}

// Adds the residual of a policy, if it has one.
fn leave(
    alloc: Global,
    residual: &mut Vec<Policy>,
    policy: &Policy,
    verdict: &Verdict,
) -> Result<(), AllocError>
    ensures { IfOk result (λ _. map bare_policy residual.new.items
        ≡ map bare_policy residual.old.items
        ++ cons_option (residual_policy (bare_policy policy.now) (bare_verdict verdict.now)) []) }
{
    match verdict {
        Verdict::Satisfied => {
            residual.push(policy.with_condition(Expr::val(Literal::Bool(true)))?)?;
            Ok(())
        }
        Verdict::Unsatisfied => Ok(()),
        Verdict::Failed(_) => {
            residual.push(policy.with_condition(policy.condition().clone(alloc)?)?)?;
            Ok(())
        }
        Verdict::Undecided => {
            residual.push(policy.with_condition(policy.condition().clone(alloc)?)?)?;
            Ok(())
        }
    }
}
