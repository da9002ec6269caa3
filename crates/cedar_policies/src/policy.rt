//! Policies and templates (Cedar's `TemplateBody` and what it is made of, in its file `policy.rs`).
ghost use Rattle.std.specs.Prelude.{◌≡◌, map};
ghost use Rattle.std.specs.Option.{option_copied, option_map};
ghost use Rattle.std.specs.Rc.{rc_str_bytes};
ghost use Rattle.semantics_policies.specs.Identifiers.{annotation_of};
ghost use Rattle.cedar_policies.specs.Policies.{bare_annotation};

use cedar_exprs::Expr;
use cedar_terms::{EntityType, EntityUID};
use std::rc::{Rc, RcStr};

/// What a policy does if its condition is true.
#[derive(Clone, Copy, Debug, PartialEq, Eq)]
pub enum Effect {
    /// It permits the request.
    Permit,
    /// It forbids the request.
    Forbid,
}

/// What stands behind `==` or `in` for the principal or the resource.
#[derive(Debug, Drop)]
pub enum EntityOrSlot {
    /// An entity.
    Entity(Rc<EntityUID>),
    /// The slot `?principal` for the principal, `?resource` for the resource.
    Slot,
}

/// Which principals, or which resources, a policy is about.
#[derive(Debug, Drop)]
pub enum ScopeConstraint {
    /// All.
    Any,
    /// `== E`
    Eq(EntityOrSlot),
    /// `in E`
    In(EntityOrSlot),
    /// `is T`
    Is(EntityType),
    /// `is T in E`
    IsIn(EntityType, EntityOrSlot),
}

/// Which actions a policy is about.
#[derive(Debug, Drop)]
pub enum ActionConstraint {
    /// All.
    Any,
    /// `== E`
    Eq(Rc<EntityUID>),
    /// `in E`
    In(Rc<EntityUID>),
    /// `in [E, ..]`, also without an entity
    InSet(Vec<Rc<EntityUID>>),
}

/// A further condition of a policy.
#[derive(Debug, Drop)]
pub enum Clause {
    /// `when { E }`
    When(Expr),
    /// `unless { E }`
    Unless(Expr),
}

/// `@key("value")`; the value of `@key` is empty.
#[derive(Debug, Drop)]
pub struct Annotation {
    /// What it is called.
    pub key: RcStr,
    /// What it says.
    pub value: RcStr,
}

/// A policy's text as data: a template if it has a slot, else a static policy.
#[derive(Debug, Drop)]
pub struct Template {
    /// Its annotations, as they stand in the text.
    pub annotations: Vec<Annotation>,
    /// What it does if its condition is true.
    pub effect: Effect,
    /// The principals that it is about.
    pub principal: ScopeConstraint,
    /// The actions that it is about.
    pub action: ActionConstraint,
    /// The resources that it is about.
    pub resource: ScopeConstraint,
    /// Its further conditions, as they stand in the text.
    pub clauses: Vec<Clause>,
}

impl Template {
    /// The value of the annotation with this key, if there is one.
    pub fn annotation(&self, key: &str) -> Option<&RcStr>
        ensures { option_map rc_str_bytes (option_copied result)
            ≡ annotation_of key.now (map bare_annotation self.now.annotations.items) }
    {
        for annotation in &self.annotations {
            if annotation.key.as_str() == key {
                return Some(&annotation.value);
            }
        }
        None
    }
}
