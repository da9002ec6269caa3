//! Stores of entities: attributes, tags and ancestors, by type and identifier.
#![tactic(auto)]

mod entities;
mod entities_error;
mod entity;
mod entity_store;
pub mod laws;
#[cfg(test)]
mod tests;

pub use entities::Entities;
pub use entities_error::EntitiesError;
pub use entity::Entity;
