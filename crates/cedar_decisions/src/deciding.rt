//! The policies that decide.
ghost use Rattle.std.specs.Prelude.{◌≡◌, ◌++◌, IfOk, map};
ghost use Rattle.std.specs.Rc.{rc_str_bytes};
ghost use Rattle.cedar_policies.specs.Policies as meant;
ghost use Rattle.cedar_policies.specs.PolicySets.{policies_of};
ghost use Rattle.cedar_authorizer.specs.Policies.{bare_policy};
ghost use Rattle.cedar_decisions.specs.Decisions.{if_deciding, policy_of};
ghost use Rattle.cedar_decisions.specs.Sets.{deciding_in};

use cedar_authorizer::Policy;
use cedar_policies::PolicySet;
use std::alloc::{AllocError, Global};

// The policies of a set that decide.
pub(crate) fn deciding_policies(alloc: Global, set: &PolicySet) -> Result<Vec<Policy>, AllocError>
    ensures { IfOk result (λ ps.
        map bare_policy ps.items ≡ deciding_in (policies_of set.now)) }
{
    let mut deciding = Vec::new(alloc);
    for policy in set.policies() {
        add_deciding(alloc, &mut deciding, policy)?;
    }
    Ok(deciding)
}

// Adds a policy if it decides.
fn add_deciding(
    alloc: Global,
    deciding: &mut Vec<Policy>,
    policy: &cedar_policies::Policy,
) -> Result<(), AllocError>
    ensures { IfOk result (λ _. map bare_policy deciding.new.items
        ≡ map bare_policy deciding.old.items ++ if_deciding (rc_str_bytes policy.now.id)
        (meant.bare_policy policy.now.template)) }
{
    if policy.template.is_template() {
        return Ok(());
    }
    deciding.push(policy_with_condition(alloc, policy)?)?;
    Ok(())
}

// A policy as it decides.
#[tactic(auto, using(crate::proofs::Decided::policy_made))]
fn policy_with_condition(
    alloc: Global,
    policy: &cedar_policies::Policy,
) -> Result<Policy, AllocError>
    ensures { IfOk result (λ p. bare_policy p
        ≡ policy_of (rc_str_bytes policy.now.id) (meant.bare_policy policy.now.template)) }
{
    let condition = policy.template.condition(alloc)?;
    Ok(Policy::new(policy.id.clone()?, policy.template.effect, condition))
}
