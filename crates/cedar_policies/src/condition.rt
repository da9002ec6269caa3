//! The condition of a policy as one expression.
ghost use Rattle.std.specs.Prelude.{◌≡◌, IfOk, map};
ghost use Rattle.cedar_terms.specs.Entities.{bare_entity_type, bare_entity_uid};
ghost use Rattle.cedar_builders.specs.BareExpr.{Set, trees_of};
ghost use Rattle.cedar_builders.specs.Trees.{and_made};
ghost use Rattle.cedar_exprs.specs.BareExpr.{bare_expr};
ghost use Rattle.semantics_policies.specs.Conditions.{
  action_tree,
  clause_tree,
  condition,
  entity_tree,
  operand_tree,
  scope_of,
  scope_tree,
};
ghost use Rattle.cedar_policies.specs.Policies.{
  bare_action,
  bare_clause,
  bare_operand,
  bare_policy,
  bare_scope,
};

use crate::policy::{ActionConstraint, Clause, EntityOrSlot, ScopeConstraint, Template};
use cedar_exprs::Expr;
use cedar_names::SlotId;
use cedar_terms::{EntityType, EntityUID, Literal, Var};
use std::alloc::{AllocError, Global};
use std::rc::Rc;

impl Template {
    /// The condition: what the scope says of principal, action and resource, and then each clause,
    /// with `&&` between; `unless` is negated. It shares the clauses' expressions. Slots stay.
    ///
    /// `permit(principal == User::"ann", action, resource) unless { resource.private };` has the
    /// condition `principal == User::"ann" && true && true && !resource.private`.
    pub fn condition(&self, alloc: Global) -> Result<Expr, AllocError>
        ensures { IfOk result (λ e. bare_expr e ≡ condition (bare_policy self.now)) }
    {
        let mut condition = self.scope(alloc)?;
        for clause in &self.clauses {
            condition = Expr::and(alloc, condition, clause.expr(alloc)?)?;
        }
        Ok(condition)
    }

    // What the scope says.
    fn scope(&self, alloc: Global) -> Result<Expr, AllocError>
        ensures { IfOk result (λ e. bare_expr e ≡ scope_of (bare_policy self.now)) }
    {
        let principal = self
            .principal
            .expr(alloc, Var::Principal, SlotId::Principal)?;
        let before = Expr::and(alloc, principal, self.action.expr(alloc)?)?;
        let resource = self.resource.expr(alloc, Var::Resource, SlotId::Resource)?;
        Expr::and(alloc, before, resource)
    }
}

impl Clause {
    // What it says.
    fn expr(&self, alloc: Global) -> Result<Expr, AllocError>
        ensures { IfOk result (λ e. bare_expr e ≡ clause_tree (bare_clause self.now)) }
    {
        match self {
            Clause::When(expr) => expr.clone(alloc),
            Clause::Unless(expr) => Expr::not(alloc, expr.clone(alloc)?),
        }
    }
}

impl ScopeConstraint {
    // What it says of a variable, whose slot this is.
    fn expr(&self, alloc: Global, var: Var, slot: SlotId) -> Result<Expr, AllocError>
        ensures { IfOk result (λ e. bare_expr e ≡ scope_tree var slot (bare_scope self.now)) }
    {
        match self {
            ScopeConstraint::Any => Ok(Expr::val(Literal::Bool(true))),
            ScopeConstraint::Eq(operand) => {
                Expr::is_eq(alloc, Expr::var(var), operand.expr(slot)?)
            }
            ScopeConstraint::In(operand) => {
                Expr::is_in(alloc, Expr::var(var), operand.expr(slot)?)
            }
            ScopeConstraint::Is(ty) => {
                Expr::is_entity_type(alloc, Expr::var(var), ty.clone(alloc)?)
            }
            ScopeConstraint::IsIn(ty, operand) => {
                let is = Expr::is_entity_type(alloc, Expr::var(var), ty.clone(alloc)?)?;
                let within = Expr::is_in(alloc, Expr::var(var), operand.expr(slot)?)?;
                Expr::and(alloc, is, within)
            }
        }
    }
}

impl EntityOrSlot {
    // The entity, or this slot.
    fn expr(&self, slot: SlotId) -> Result<Expr, AllocError>
        ensures { IfOk result (λ e. bare_expr e ≡ operand_tree slot (bare_operand self.now)) }
    {
        match self {
            EntityOrSlot::Entity(uid) => entity_expr(uid),
            EntityOrSlot::Slot => Ok(Expr::slot(slot)),
        }
    }
}

impl ActionConstraint {
    // What it says.
    fn expr(&self, alloc: Global) -> Result<Expr, AllocError>
        ensures { IfOk result (λ e. bare_expr e ≡ action_tree (bare_action self.now)) }
    {
        match self {
            ActionConstraint::Any => Ok(Expr::val(Literal::Bool(true))),
            ActionConstraint::Eq(uid) => {
                Expr::is_eq(alloc, Expr::var(Var::Action), entity_expr(uid)?)
            }
            ActionConstraint::In(uid) => {
                Expr::is_in(alloc, Expr::var(Var::Action), entity_expr(uid)?)
            }
            ActionConstraint::InSet(uids) => {
                let members = entities_expr(alloc, uids)?;
                Expr::is_in(alloc, Expr::var(Var::Action), members)
            }
        }
    }
}

// The entity.
fn entity_expr(uid: &Rc<EntityUID>) -> Result<Expr, AllocError>
    ensures { IfOk result (λ e. bare_expr e ≡ entity_tree (bare_entity_uid uid.now.value)) }
{
    Ok(Expr::val(Literal::EntityUID(uid.clone()?)))
}

// The set of these entities.
fn entities_expr(alloc: Global, uids: &[Rc<EntityUID>]) -> Result<Expr, AllocError>
    ensures { IfOk result (λ e. bare_expr e
        ≡ Set (trees_of (map entity_tree (map (λ u. bare_entity_uid u.value) uids.now)))) }
{
    let members = entity_exprs(alloc, uids)?;
    Expr::set(alloc, members)
}

// The entities, one by one.
fn entity_exprs(alloc: Global, uids: &[Rc<EntityUID>]) -> Result<Vec<Expr>, AllocError>
    ensures { IfOk result (λ es.
        map bare_expr es.items ≡ map entity_tree (map (λ u. bare_entity_uid u.value) uids.now)) }
{
    let mut exprs = Vec::with_capacity(alloc, uids.len())?;
    for uid in uids {
        exprs.push(entity_expr(uid)?)?;
    }
    Ok(exprs)
}
