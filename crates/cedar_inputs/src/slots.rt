//! What stands for the slots of a template.
use crate::input_error::InputError;
use crate::request::entity_of;
use cedar_json::{JsonError, NoValue, parse_json};
use cedar_policies::SlotValues;
use cedar_terms::EntityUID;
use serde_json::Value;
use std::alloc::Global;
use std::rc::Rc;

/// The entities that a JSON object names for slots, as
/// `{"?principal": "User::\"alice\"", "?resource": {"type": "Photo", "id": "beach.jpg"}}`. A slot
/// may be left out.
pub fn slots_from_json(alloc: Global, text: &str) -> Result<SlotValues, InputError> {
    let json = parse_json(alloc, text)?;
    check_slots(alloc, &json)?;
    Ok(SlotValues {
        principal: slot(alloc, "?principal", "principal", &json)?,
        resource: slot(alloc, "?resource", "resource", &json)?,
    })
}

// Refuses what is no object, and a member that is no slot.
fn check_slots(alloc: Global, json: &Value) -> Result<(), InputError> {
    let Some(members) = json.as_object() else {
        return Err(InputError::Json(JsonError::NoObject));
    };
    for name in members.keys() {
        if !["?principal", "?resource"].contains(&name.as_str()) {
            let problem = format!(in alloc;
                "{name:?} is no slot: \"?principal\" and \"?resource\" are"
            )?;
            let failure = NoValue::because(alloc, &problem);
            return Err(InputError::of_part(alloc, "slots", failure));
        }
    }
    Ok(())
}

// The entity of a slot, if there is one.
fn slot(
    alloc: Global,
    slot: &str,
    name: &str,
    json: &Value,
) -> Result<Option<Rc<EntityUID>>, InputError> {
    match json.get(slot) {
        Some(value) => Ok(Some(entity_of(alloc, name, value)?)),
        None => Ok(None),
    }
}
