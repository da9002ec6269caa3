//! Stores of entities, and parts of stores (Cedar's `Entities`).
ghost use Rattle.std.specs.Prelude.{◌≡◌, [], false, true, IfErr, IfOk, IsTrue};
ghost use Rattle.std.specs.Option.{option_copied};
ghost use Rattle.cedar_ancestors.specs.Hierarchies.{HasNoCycle};
ghost use Rattle.cedar_ancestors.specs.Stores.{HasMore};
ghost use Rattle.cedar_terms.specs.Entities.{bare_entity_uid};
ghost use Rattle.cedar_entities.specs.Listings.{EntitiesStay, HasAllParents, entity_at};
ghost use Rattle.cedar_entities.specs.Listings.{is_ancestor_in};
ghost use Rattle.cedar_entities.specs.Parts.{parents_of, uid_of};
ghost use Rattle.cedar_entities.specs.Stores.{
  IsRefused,
  entities_of,
  is_part,
  listing,
};

use crate::entities_error::EntitiesError;
use crate::entity::Entity;
use cedar_ancestors::Store;
use cedar_terms::EntityUID;
use std::alloc::{AllocError, Global};

// A store keeps the ancestors of its entities if these are at most so many together: their indexes
// then take at most 128 MiB. Else it walks from parent to parent for each question.
const MOST_ANCESTORS: usize = 1 << 24;

/// A store of entities, or a part of one, which says nothing of the entities that it does not have.
#[derive(Drop)]
pub struct Entities<V> {
    store: Store<EntityUID, Entity<V>>,
    is_part: bool,
}

impl<V: Eq + Drop> Entities<V> {
    /// The store of these entities: others do not exist. A parent need not be among them.
    ///
    /// It is refused if two of them are called the same and differ, or if one is its own ancestor.
    pub fn from_entities(
        alloc: Global,
        entities: Vec<Entity<V>>,
    ) -> Result<Entities<V>, EntitiesError>
        ensures added { IfOk result (λ store. HasMore ⟦<EntityUID as Ord>⟧.cmp
            ⟦<Entity<V> as PartialEq>⟧.eq uid_of [] (entities_of store) entities.items) }
        ensures whole { IfOk result (λ store. is_part store ≡ false) }
        ensures acyclic { IfOk result
            (λ store. HasNoCycle ⟦<EntityUID as Ord>⟧.cmp parents_of (entities_of store)) }
        ensures refusal { IfErr result
            (IsRefused ⟦<Entity<V> as PartialEq>⟧.eq [] entities.items) }
    {
        let store = Store::of(alloc, entities, false, MOST_ANCESTORS)?;
        Ok(Entities {
            store,
            is_part: false,
        })
    }

    /// The part of a store that has these entities, and each parent of one: of others nothing is
    /// known.
    ///
    /// It is refused as a store is, or if a parent is not among the entities.
    pub fn part_from_entities(
        alloc: Global,
        entities: Vec<Entity<V>>,
    ) -> Result<Entities<V>, EntitiesError>
        ensures added { IfOk result (λ store. HasMore ⟦<EntityUID as Ord>⟧.cmp
            ⟦<Entity<V> as PartialEq>⟧.eq uid_of [] (entities_of store) entities.items) }
        ensures part { IfOk result (λ store. is_part store ≡ true) }
        ensures parents { IfOk result (λ store. HasAllParents (listing store)) }
        ensures acyclic { IfOk result
            (λ store. HasNoCycle ⟦<EntityUID as Ord>⟧.cmp parents_of (entities_of store)) }
        ensures refusal { IfErr result
            (IsRefused ⟦<Entity<V> as PartialEq>⟧.eq [] entities.items) }
    {
        let store = Store::of(alloc, entities, true, MOST_ANCESTORS)?;
        Ok(Entities {
            store,
            is_part: true,
        })
    }

    /// The store, or the part, with these entities too. It is refused as by the call that made it.
    pub fn add_entities(
        self,
        alloc: Global,
        more: Vec<Entity<V>>,
    ) -> Result<Entities<V>, EntitiesError>
        ensures added { IfOk result (λ store. HasMore ⟦<EntityUID as Ord>⟧.cmp
            ⟦<Entity<V> as PartialEq>⟧.eq uid_of (entities_of self) (entities_of store)
            more.items) }
        ensures stays { IfOk result
            (λ store. EntitiesStay (listing self) (listing store)) }
        ensures part { IfOk result (λ store. is_part store ≡ is_part self) }
        ensures parents { IfOk result
            (λ store. IsTrue (is_part self) → HasAllParents (listing store)) }
        ensures acyclic { IfOk result
            (λ store. HasNoCycle ⟦<EntityUID as Ord>⟧.cmp parents_of (entities_of store)) }
        ensures refusal { IfErr result
            (IsRefused ⟦<Entity<V> as PartialEq>⟧.eq (entities_of self) more.items) }
    {
        let Entities { store, is_part } = self;
        let store = store.with(alloc, more, is_part, MOST_ANCESTORS)?;
        Ok(Entities { store, is_part })
    }
}

impl<V> Entities<V> {
    /// The store that has the entities of a part, and no others.
    pub fn complete(self) -> Entities<V>
        ensures entities { entities_of result ≡ entities_of self }
        ensures whole { is_part result ≡ false }
    {
        Entities {
            store: self.store,
            is_part: false,
        }
    }

    /// Whether it is a part of a store.
    pub fn is_part(&self) -> bool
        ensures { result ≡ is_part self.now }
    {
        self.is_part
    }

    /// The entity of a type and an identifier, if it is there: one look-up by hash.
    pub fn get(&self, uid: &EntityUID) -> Option<&Entity<V>>
        ensures { option_copied result
            ≡ entity_at (listing self.now) (bare_entity_uid uid.now) }
    {
        self.store.get(uid)
    }

    /// Whether an entity is reached from another by one or more steps from child to parent: one
    /// search among the ancestors that are kept, or a walk, which takes memory.
    pub fn is_descendant_of(
        &self,
        alloc: Global,
        child: &EntityUID,
        ancestor: &EntityUID,
    ) -> Result<bool, AllocError>
        ensures { IfOk result (λ b. b ≡ is_ancestor_in (listing self.now)
            (bare_entity_uid child.now) (bare_entity_uid ancestor.now)) }
    {
        self.store.is_descendant_of(alloc, child, ancestor)
    }
}
