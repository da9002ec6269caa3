//! Stores of entities as evaluators ask them.
use crate::entities::Entities;
use crate::entity::Entity;
use cedar_request::{Dereference, EntityData, EntityStore};
use cedar_terms::EntityUID;
use cedar_values::WellFormedValue;
use std::alloc::{AllocError, Global};

impl<X: Ord> EntityData<X> for Entity<WellFormedValue<X>> {
    ghost use Rattle.cedar_request.specs.Values.{tree_of};
    ghost use Rattle.cedar_entities.specs.Parts.{attributes_of, named_pairs, tags_of};

    ghost bare_attributes = { λ entity. named_pairs tree_of (attributes_of entity) };

    ghost bare_tags = { λ entity. named_pairs tree_of (tags_of entity) };

    fn attribute(&self, key: &str) -> Option<&WellFormedValue<X>> {
        self.get(key)
    }

    fn tag(&self, key: &str) -> Option<&WellFormedValue<X>> {
        self.get_tag(key)
    }
}

impl<X: Ord> EntityStore<X> for Entities<WellFormedValue<X>> {
    ghost use Rattle.cedar_request.specs.Values.{tree_of};
    ghost use Rattle.cedar_entities.specs.Stores.{bare_entities};

    type Entity = Entity<WellFormedValue<X>>;

    ghost bare_entities = { bare_entities tree_of };

    #[tactic(auto, using(crate::proofs::Answered::of_entity, crate::proofs::Answered::of_other))]
    fn entity(&self, uid: &EntityUID) -> Dereference<'_, Entity<WellFormedValue<X>>> {
        match self.get(uid) {
            Some(entity) => Dereference::Data(entity),
            None => {
                if self.is_part() {
                    Dereference::NotKnown
                } else {
                    Dereference::NoSuchEntity
                }
            }
        }
    }

    fn is_descendant_of(
        &self,
        alloc: Global,
        uid: &EntityUID,
        ancestor: &EntityUID,
    ) -> Result<bool, AllocError> {
        Entities::is_descendant_of(self, alloc, uid, ancestor)
    }
}
