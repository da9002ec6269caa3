//! Links a template: entities in place of its slots.
use crate::failure::Failure;
use crate::inputs;
use crate::status::Status;
use cedar_inputs::slots_from_json;
use cedar_policies::{Annotation, Policy, PolicySet, SlotValues, Template};
use clap::ArgMatches;
use std::alloc::{AllocError, Global};
use std::rc::RcStr;

/// Prints the policy that a template is with entities in place of its slots.
pub fn run(rt: &HostRuntime, options: &ArgMatches<'_>) -> Result<Status, Failure> {
    let source = inputs::read_source(rt, options, "policies")?;
    let set = inputs::policies(rt, &source)?;
    let id = options.get_str("template-id").unwrap_or("");
    let Some(policy) = policy_with_id(&set, id) else {
        return Err(Failure::of_template(source.file, id));
    };
    let values = slot_values(rt, options)?;
    let new_id = options.get_str("new-id").unwrap_or("");
    let text = linked_text(rt.alloc(), policy, &values, new_id)?;
    print!(rt; "{text}")?;
    Ok(Status::Success)
}

fn policy_with_id<'a>(set: &'a PolicySet, id: &str) -> Option<&'a Policy> {
    set.policies()
        .iter()
        .find(|policy| policy.id.as_str() == id)
}

// The entities that stand for the slots.
fn slot_values(rt: &HostRuntime, options: &ArgMatches<'_>) -> Result<SlotValues, Failure> {
    let text = options.get_str("arguments").unwrap_or("{}");
    match slots_from_json(rt.alloc(), text) {
        Ok(values) => Ok(values),
        Err(error) => Err(Failure::of_input("--arguments", &error)),
    }
}

// The text of the policy, which has a new identifier.
fn linked_text(
    alloc: Global,
    policy: &Policy,
    values: &SlotValues,
    new_id: &str,
) -> Result<String, Failure> {
    match policy.template.link(alloc, values) {
        Ok(mut linked) => {
            set_id(alloc, &mut linked, new_id)?;
            Ok(linked.to_text(alloc)?)
        }
        Err(error) => Err(Failure::of_link(&policy.id, &error)),
    }
}

// Puts the annotation `@id` with this text in place of the one that a policy has.
fn set_id(alloc: Global, policy: &mut Template, id: &str) -> Result<(), AllocError> {
    let mut annotations = Vec::with_capacity(alloc, policy.annotations.len().saturating_add(1))?;
    annotations.push(Annotation {
        key: RcStr::from_str(alloc, "id")?,
        value: RcStr::from_str(alloc, id)?,
    })?;
    for annotation in &policy.annotations {
        if annotation.key.as_str() != "id" {
            annotations.push(Annotation {
                key: annotation.key.clone()?,
                value: annotation.value.clone()?,
            })?;
        }
    }
    policy.annotations = annotations;
    Ok(())
}
