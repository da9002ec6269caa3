//! Stores of entities and requests, from JSON in Cedar's forms.
#![tactic(auto)]

mod entities;
mod input_error;
mod no_entities;
mod request;
mod slots;
mod values;

pub use entities::{Store, entities_from_json};
pub use input_error::InputError;
pub use request::{RequestParts, context_from_json, entity_from_text};
pub use slots::slots_from_json;
