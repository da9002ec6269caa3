//! What is counted over the policies.
ghost use Rattle.std.specs.Prelude.{◌≡◌, ◌++◌, [], ◌∷◌, IfOk, List, option_map};
ghost use Rattle.semantics_authorize.specs.Decisions.{EvaluatedPolicy, decision, response};
ghost use Rattle.cedar_authorizer.specs.Policies.{bare_policy};
ghost use Rattle.cedar_authorizer.specs.Responses.{
  bare_decision,
  bare_errors,
  bare_response,
  texts,
};
ghost use Rattle.cedar_authorizer.specs.Tallies.{
  IsTally,
  IsTallyWith,
  decided,
  determined_by,
  is_nil,
  with_verdict,
};
ghost use Rattle.cedar_authorizer.specs.Verdicts.{bare_error, bare_verdict};

use crate::fault::PolicyError;
use crate::policy::Policy;
use crate::response::{Decision, Response};
use crate::verdict::Verdict;
use cedar_policies::Effect;
use std::alloc::{AllocError, Global};
use std::rc::RcStr;

// The permits and the forbids that apply, whether more of either may, and the errors.
#[derive(Drop)]
pub(crate) struct Tally {
    permits: Vec<RcStr>,
    forbids: Vec<RcStr>,
    may_permit: bool,
    may_forbid: bool,
    errors: Vec<(RcStr, PolicyError)>,
}

impl Tally {
    // That of no policy.
    pub(crate) fn new(alloc: Global) -> Tally
        ensures { IsTally result [] }
    {
        Tally {
            permits: Vec::new(alloc),
            forbids: Vec::new(alloc),
            may_permit: false,
            may_forbid: false,
            errors: Vec::new(alloc),
        }
    }

    // That of one more policy.
    pub(crate) fn add(&mut self, policy: &Policy, verdict: Verdict) -> Result<(), AllocError>
        ensures { IfOk result (λ _. IsTallyWith self.old self.new
            (with_verdict (bare_policy policy.now) (bare_verdict verdict))) }
    {
        match (verdict, policy.effect()) {
            (Verdict::Satisfied, Effect::Permit) => {
                self.may_permit = true;
                note(&mut self.permits, policy)?;
                Ok(())
            }
            (Verdict::Satisfied, Effect::Forbid) => {
                self.may_forbid = true;
                note(&mut self.forbids, policy)?;
                Ok(())
            }
            (Verdict::Undecided, Effect::Permit) => {
                self.may_permit = true;
                Ok(())
            }
            (Verdict::Undecided, Effect::Forbid) => {
                self.may_forbid = true;
                Ok(())
            }
            (Verdict::Failed(error), _) => {
                note_error(&mut self.errors, policy, error)?;
                Ok(())
            }
            (Verdict::Unsatisfied, _) => Ok(()),
        }
    }

    // The decision, if it is known yet.
    #[tactic(auto, using(crate::proofs::Tallies::decision_of_tally))]
    pub(crate) fn decision(&self) -> Option<Decision>
        ensures { (js : List EvaluatedPolicy) → IsTally self.now js
            → option_map bare_decision result ≡ decision js }
    {
        decided(
            !are_none(&self.forbids),
            !are_none(&self.permits),
            self.may_forbid,
            self.may_permit,
        )
    }

    // The response.
    #[tactic(auto, using(crate::proofs::Tallies::response_of_tally))]
    pub(crate) fn into_response(self) -> Response
        ensures { (js : List EvaluatedPolicy) → IsTally self js
            → bare_response result ≡ response js }
    {
        let decision = self.decision();
        let Tally {
            permits,
            forbids,
            may_permit: _,
            may_forbid: _,
            errors,
        } = self;
        Response {
            decision,
            determining: determining_of(forbids, permits),
            errors,
        }
    }
}

// The decision by what is counted: whether some forbid applies, whether some permit does, and
// whether more of either may.
fn decided(forbids: bool, permits: bool, may_forbid: bool, may_permit: bool) -> Option<Decision>
    ensures { option_map bare_decision result ≡ decided forbids permits may_forbid may_permit }
{
    if forbids || !may_permit {
        Some(Decision::Deny)
    } else if permits && !may_forbid {
        Some(Decision::Allow)
    } else {
        None
    }
}

// The determining policies: the forbids that apply, if any do, else the permits.
fn determining_of(forbids: Vec<RcStr>, permits: Vec<RcStr>) -> Vec<RcStr>
    ensures { texts result.items
        ≡ determined_by (texts forbids.items) (texts permits.items) }
{
    if are_none(&forbids) { permits } else { forbids }
}

// Whether there are no identifiers.
#[tactic(auto, using(crate::proofs::Tallies::none_of_them))]
fn are_none(ids: &[RcStr]) -> bool
    ensures { result ≡ is_nil (texts ids.now) }
{
    ids.is_empty()
}

// Adds the identifier of a policy.
fn note(ids: &mut Vec<RcStr>, policy: &Policy) -> Result<(), AllocError>
    ensures { IfOk result (λ _. texts ids.new.items
        ≡ texts ids.old.items ++ (bare_policy policy.now).id ∷ []) }
{
    ids.push(policy.id().clone()?)?;
    Ok(())
}

// Adds the error of a policy.
fn note_error(
    errors: &mut Vec<(RcStr, PolicyError)>,
    policy: &Policy,
    error: PolicyError,
) -> Result<(), AllocError>
    ensures { IfOk result (λ _. bare_errors errors.new.items
        ≡ bare_errors errors.old.items ++ ((bare_policy policy.now).id, bare_error error) ∷ []) }
{
    errors.push((policy.id().clone()?, error))?;
    Ok(())
}
