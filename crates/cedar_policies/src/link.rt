//! Templates, and their slots filled.
ghost use Rattle.std.specs.Prelude.{◌≡◌, IfErr, IfOk, MatchResult, None, false, map};
ghost use Rattle.cedar_terms.specs.Entities.{bare_entity_uid};
ghost use Rattle.semantics_policies.specs.Linking.{
  filled,
  filled_operand,
  filled_scope,
  has_slot,
  is_slot,
  is_template,
};
ghost use Rattle.cedar_policies.specs.declared.link.LinkError.TheVariants.{Memory};
ghost use Rattle.cedar_policies.specs.Links.{IsFillError, IsLinkErrorOf, value_of};
ghost use Rattle.cedar_policies.specs.Policies.{
  bare_action,
  bare_annotation,
  bare_clause,
  bare_operand,
  bare_policy,
  bare_scope,
};

use crate::policy::{
    ActionConstraint, Annotation, Clause, EntityOrSlot, ScopeConstraint, Template,
};
use cedar_names::SlotId;
use cedar_terms::EntityUID;
use std::alloc::{AllocError, Global};
use std::rc::Rc;
use thiserror::Error;

/// Why a template is not linked.
#[derive(Debug, Drop, Error)]
pub enum LinkError {
    /// It has no slot: it is a policy already.
    #[error("a policy without slots is not linked")]
    NoSlot,
    /// It has this slot, and no value is given for it.
    #[error("no value is given for `{0}`")]
    Missing(SlotId),
    /// A value is given for this slot, and it has no such slot.
    #[error("a value is given for `{0}`, which the template does not have")]
    Extra(SlotId),
    /// Memory was wanted, and none was given.
    #[error("no memory")]
    Memory,
}

impl From<AllocError> for LinkError {
    ghost from_gives = { λ _ e. e ≡ Memory };

    fn from(_error: AllocError) -> LinkError {
        LinkError::Memory
    }
}

/// The entities that stand for the slots of a template.
#[derive(Debug, Drop)]
pub struct SlotValues {
    /// What stands for `?principal`.
    pub principal: Option<Rc<EntityUID>>,
    /// What stands for `?resource`.
    pub resource: Option<Rc<EntityUID>>,
}

impl Template {
    /// Whether it has a slot.
    pub fn is_template(&self) -> bool
        ensures { result ≡ is_template (bare_policy self.now) }
    {
        self.principal.has_slot() || self.resource.has_slot()
    }

    /// The policy that the template is with these entities in place of its slots. It is refused if
    /// it has no slot, if a slot is left, or if an entity is given for a slot that it lacks.
    #[tactic(auto, using(crate::proofs::Linked::linked, crate::proofs::Linked::whole, crate::proofs::Linked::principal_refused, crate::proofs::Linked::resource_refused))]
    pub fn link(&self, alloc: Global, values: &SlotValues) -> Result<Template, LinkError>
        ensures linked { IfOk result (λ p. bare_policy p
            ≡ filled (value_of values.now.principal) (value_of values.now.resource)
            (bare_policy self.now)) }
        ensures whole { IfOk result (λ p. is_template (bare_policy p) ≡ false) }
        ensures refused { IfErr result (IsLinkErrorOf (bare_policy self.now)
            (value_of values.now.principal) (value_of values.now.resource)) }
    {
        if !self.is_template() {
            return Err(LinkError::NoSlot);
        }
        let principal = self
            .principal
            .filled(alloc, SlotId::Principal, &values.principal)?;
        let resource = self
            .resource
            .filled(alloc, SlotId::Resource, &values.resource)?;
        Ok(Template {
            annotations: copied_annotations(alloc, &self.annotations)?,
            effect: self.effect,
            principal,
            action: self.action.copied(alloc)?,
            resource,
            clauses: copied_clauses(alloc, &self.clauses)?,
        })
    }
}

impl ScopeConstraint {
    // Whether it has a slot.
    fn has_slot(&self) -> bool
        ensures { result ≡ has_slot (bare_scope self.now) }
    {
        match self {
            ScopeConstraint::Any | ScopeConstraint::Is(_) => false,
            ScopeConstraint::Eq(operand)
            | ScopeConstraint::In(operand)
            | ScopeConstraint::IsIn(_, operand) => operand.is_slot(),
        }
    }

    // The same with an entity in place of this slot, if it has one.
    fn filled(
        &self,
        alloc: Global,
        slot: SlotId,
        value: &Option<Rc<EntityUID>>,
    ) -> Result<ScopeConstraint, LinkError>
        ensures filled { IfOk result (λ scope.
            bare_scope scope ≡ filled_scope (value_of value.now) (bare_scope self.now)) }
        ensures whole { IfOk result (λ scope. has_slot (bare_scope scope) ≡ false) }
        ensures refused { IfErr result
            (IsFillError slot (has_slot (bare_scope self.now)) (value_of value.now)) }
    {
        match self {
            ScopeConstraint::Any => {
                no_value(slot, value)?;
                Ok(ScopeConstraint::Any)
            }
            ScopeConstraint::Eq(operand) => Ok(ScopeConstraint::Eq(operand.filled(slot, value)?)),
            ScopeConstraint::In(operand) => Ok(ScopeConstraint::In(operand.filled(slot, value)?)),
            ScopeConstraint::Is(ty) => {
                no_value(slot, value)?;
                Ok(ScopeConstraint::Is(ty.clone(alloc)?))
            }
            ScopeConstraint::IsIn(ty, operand) => {
                let operand = operand.filled(slot, value)?;
                Ok(ScopeConstraint::IsIn(ty.clone(alloc)?, operand))
            }
        }
    }
}

impl EntityOrSlot {
    // Whether it is the slot.
    fn is_slot(&self) -> bool
        ensures { result ≡ is_slot (bare_operand self.now) }
    {
        match self {
            EntityOrSlot::Entity(_) => false,
            EntityOrSlot::Slot => true,
        }
    }

    // The entity itself, for which no value may be given, or the value in place of this slot.
    fn filled(&self, slot: SlotId, value: &Option<Rc<EntityUID>>) -> Result<EntityOrSlot, LinkError>
        ensures filled { IfOk result (λ operand.
            bare_operand operand ≡ filled_operand (value_of value.now) (bare_operand self.now)) }
        ensures whole { IfOk result (λ operand. is_slot (bare_operand operand) ≡ false) }
        ensures refused { IfErr result
            (IsFillError slot (is_slot (bare_operand self.now)) (value_of value.now)) }
    {
        match self {
            EntityOrSlot::Entity(uid) => {
                no_value(slot, value)?;
                Ok(EntityOrSlot::Entity(uid.clone()?))
            }
            EntityOrSlot::Slot => match value {
                Some(uid) => Ok(EntityOrSlot::Entity(uid.clone()?)),
                None => Err(LinkError::Missing(slot)),
            },
        }
    }
}

// Refuses a value for this slot, which the template does not have.
fn no_value(slot: SlotId, value: &Option<Rc<EntityUID>>) -> Result<(), LinkError>
    ensures { MatchResult result
        (λ _. value_of value.now ≡ None)
        (IsFillError slot false (value_of value.now)) }
{
    match value {
        Some(_) => Err(LinkError::Extra(slot)),
        None => Ok(()),
    }
}

impl ActionConstraint {
    // A copy, which shares the entities.
    fn copied(&self, alloc: Global) -> Result<ActionConstraint, AllocError>
        ensures { IfOk result (λ action. bare_action action ≡ bare_action self.now) }
    {
        match self {
            ActionConstraint::Any => Ok(ActionConstraint::Any),
            ActionConstraint::Eq(uid) => Ok(ActionConstraint::Eq(uid.clone()?)),
            ActionConstraint::In(uid) => Ok(ActionConstraint::In(uid.clone()?)),
            ActionConstraint::InSet(uids) => {
                Ok(ActionConstraint::InSet(copied_entities(alloc, uids)?))
            }
        }
    }
}

// Copies of the references to these entities.
fn copied_entities(alloc: Global, uids: &[Rc<EntityUID>]) -> Result<Vec<Rc<EntityUID>>, AllocError>
    ensures { IfOk result (λ copies. map (λ u. bare_entity_uid u.value) copies.items
        ≡ map (λ u. bare_entity_uid u.value) uids.now) }
{
    let mut copies = Vec::with_capacity(alloc, uids.len())?;
    for uid in uids {
        copies.push(uid.clone()?)?;
    }
    Ok(copies)
}

// Copies of annotations, which share their texts.
fn copied_annotations(
    alloc: Global,
    annotations: &[Annotation],
) -> Result<Vec<Annotation>, AllocError>
    ensures { IfOk result (λ copies.
        map bare_annotation copies.items ≡ map bare_annotation annotations.now) }
{
    let mut copies = Vec::with_capacity(alloc, annotations.len())?;
    for annotation in annotations {
        copies.push(Annotation {
            key: annotation.key.clone()?,
            value: annotation.value.clone()?,
        })?;
    }
    Ok(copies)
}

// Copies of clauses, which share their expressions' children.
fn copied_clauses(alloc: Global, clauses: &[Clause]) -> Result<Vec<Clause>, AllocError>
    ensures { IfOk result (λ copies.
        map bare_clause copies.items ≡ map bare_clause clauses.now) }
{
    let mut copies = Vec::with_capacity(alloc, clauses.len())?;
    for clause in clauses {
        copies.push(clause.copied(alloc)?)?;
    }
    Ok(copies)
}

impl Clause {
    // A copy, which shares the children of its expression.
    fn copied(&self, alloc: Global) -> Result<Clause, AllocError>
        ensures { IfOk result (λ clause. bare_clause clause ≡ bare_clause self.now) }
    {
        match self {
            Clause::When(expr) => Ok(Clause::When(expr.clone(alloc)?)),
            Clause::Unless(expr) => Ok(Clause::Unless(expr.clone(alloc)?)),
        }
    }
}
