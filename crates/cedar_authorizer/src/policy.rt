//! Policies (Cedar's `Policy`).
ghost use Rattle.std.specs.Prelude.{◌≡◌, IfOk};
ghost use Rattle.std.specs.Rc.{rc_str_bytes};
ghost use Rattle.cedar_exprs.specs.BareExpr.{bare_expr};
ghost use Rattle.semantics_authorize.specs.Authorization.{with_condition};
ghost use Rattle.cedar_authorizer.specs.Policies.{bare_effect, bare_policy};

use cedar_exprs::Expr;
use cedar_policies::Effect;
use std::alloc::AllocError;
use std::rc::RcStr;

/// A policy: its condition is its scope and its clauses as one expression.
#[derive(Debug, Drop)]
pub struct Policy {
    id: RcStr,
    effect: Effect,
    condition: Expr,
}

impl Policy {
    /// The policy of these parts.
    pub fn new(id: RcStr, effect: Effect, condition: Expr) -> Policy
        ensures id { (bare_policy result).id ≡ rc_str_bytes id }
        ensures effect { (bare_policy result).effect ≡ bare_effect effect }
        ensures condition { (bare_policy result).condition ≡ bare_expr condition }
    {
        Policy {
            id,
            effect,
            condition,
        }
    }

    /// The identifier.
    pub fn id(&self) -> &RcStr
        ensures { rc_str_bytes result.now ≡ (bare_policy self.now).id }
    {
        &self.id
    }

    /// What it does if its condition is true.
    pub fn effect(&self) -> Effect
        ensures { bare_effect result ≡ (bare_policy self.now).effect }
    {
        self.effect
    }

    /// The condition.
    pub fn condition(&self) -> &Expr
        ensures { bare_expr result.now ≡ (bare_policy self.now).condition }
    {
        &self.condition
    }

    // The policy with another condition.
    pub(crate) fn with_condition(&self, condition: Expr) -> Result<Policy, AllocError>
        ensures { IfOk result (λ p. bare_policy p
            ≡ with_condition (λ _. bare_expr condition) (bare_policy self.now)) }
    {
        Ok(Policy::new(self.id.clone()?, self.effect, condition))
    }
}
