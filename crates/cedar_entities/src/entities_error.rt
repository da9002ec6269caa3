//! Why there is no store of entities.
ghost use Rattle.std.specs.Prelude.{◌≡◌};
ghost use Rattle.cedar_entities.specs.Errors.{error_of};

use cedar_ancestors::StoreError;
use cedar_terms::EntityUID;
use thiserror::Error;

/// Why there is no store of the entities that are given.
#[derive(Debug, Drop, Error)]
pub enum EntitiesError {
    /// Two entities have this type and identifier, and differ.
    #[error("duplicate entity entry `{0}`")]
    Duplicate(EntityUID),
    /// The entity is its own ancestor.
    #[error("entity hierarchy has a cycle through `{0}`")]
    Cycle(EntityUID),
    /// The entity is a parent in a part of a store, and is not in that part.
    #[error("part of a store lacks the parent `{0}`")]
    MissingParent(EntityUID),
    /// There was too little memory.
    #[error("no memory")]
    Memory,
}

impl From<StoreError<EntityUID>> for EntitiesError {
    ghost from_gives = { λ error e. e ≡ error_of error };

    fn from(error: StoreError<EntityUID>) -> EntitiesError {
        match error {
            StoreError::Duplicate(uid) => EntitiesError::Duplicate(uid),
            StoreError::Cycle(uid) => EntitiesError::Cycle(uid),
            StoreError::MissingParent(uid) => EntitiesError::MissingParent(uid),
            StoreError::Memory => EntitiesError::Memory,
        }
    }
}
