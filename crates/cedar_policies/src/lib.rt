//! Policies and templates: what they say, their conditions, slots filled, and their texts.
#![tactic(auto)]

mod condition;
mod link;
mod policy;
mod policy_set;
mod text;

pub use link::{LinkError, SlotValues};
pub use policy::{
    ActionConstraint, Annotation, Clause, Effect, EntityOrSlot, ScopeConstraint, Template,
};
pub use policy_set::{Policy, PolicySet};
