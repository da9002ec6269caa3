//! The store that has no entity.
use cedar_request::{Dereference, EntityData, EntityStore};
use cedar_terms::EntityUID;
use cedar_values::WellFormedValue;
use std::alloc::{AllocError, Global};

// The store that has no entity.
#[derive(Debug, Drop)]
pub(crate) struct NoEntities;

// An entity of the empty store, which hands out none.
#[derive(Debug, Drop)]
pub(crate) struct NoEntity;

impl<X: Ord> EntityData<X> for NoEntity {
    ghost use Rattle.semantics_values.specs.BareValue.{no_pairs};

    ghost bare_attributes = { λ _. no_pairs };

    ghost bare_tags = { λ _. no_pairs };

    fn attribute(&self, _key: &str) -> Option<&WellFormedValue<X>> {
        None
    }

    fn tag(&self, _key: &str) -> Option<&WellFormedValue<X>> {
        None
    }
}

impl<X: Ord> EntityStore<X> for NoEntities {
    ghost use Rattle.semantics_request.specs.Entities.{NoSuchEntity};

    type Entity = NoEntity;

    ghost bare_entities = { λ _ _. NoSuchEntity };

    fn entity(&self, _uid: &EntityUID) -> Dereference<'_, NoEntity> {
        Dereference::NoSuchEntity
    }

    fn is_descendant_of(
        &self,
        _alloc: Global,
        _uid: &EntityUID,
        _ancestor: &EntityUID,
    ) -> Result<bool, AllocError> {
        Ok(false)
    }
}
