//! Entities as they are given to a store (Cedar's `Entity`).
ghost use Rattle.std.specs.Prelude.{◌≡◌};
ghost use Rattle.std.specs.Option.{option_copied};
ghost use Rattle.cedar_sorted_slices.specs.Classes.{IsClassesOf};
ghost use Rattle.cedar_entities.specs.Parts.{
  attributes_of,
  parents_of,
  tags_of,
  uid_of,
  value_named,
};

use cedar_ancestors::{HasKey, HasParents};
use cedar_sorted_slices::into_ascending;
use cedar_terms::EntityUID;
use std::collections::BTreeMap;
use std::rc::RcStr;

/// An entity with its attributes, its tags and its parents.
///
/// Two entities are equal if all four are; places and the order of the parents do not count.
#[derive(Debug, PartialEq, Eq, Drop)]
pub struct Entity<V> {
    uid: EntityUID,
    attributes: BTreeMap<RcStr, V>,
    tags: BTreeMap<RcStr, V>,
    parents: Vec<EntityUID>,
}

impl<V> Entity<V> {
    /// The entity of these parts. A parent that is given twice counts once.
    pub fn new(
        uid: EntityUID,
        attributes: BTreeMap<RcStr, V>,
        tags: BTreeMap<RcStr, V>,
        parents: Vec<EntityUID>,
    ) -> Entity<V>
        ensures uid { uid_of result ≡ uid }
        ensures attributes { attributes_of result ≡ attributes }
        ensures tags { tags_of result ≡ tags }
        ensures parents { IsClassesOf ⟦<EntityUID as Ord>⟧.cmp (parents_of result) parents.items }
    {
        let parents = into_ascending(parents);
        Entity {
            uid,
            attributes,
            tags,
            parents,
        }
    }

    /// Its type and identifier.
    pub fn uid(&self) -> &EntityUID
        ensures { result.now ≡ uid_of self.now }
    {
        &self.uid
    }

    /// The attributes, by name.
    pub fn attributes(&self) -> &BTreeMap<RcStr, V>
        ensures { result.now ≡ attributes_of self.now }
    {
        &self.attributes
    }

    /// The tags, by name.
    pub fn tags(&self) -> &BTreeMap<RcStr, V>
        ensures { result.now ≡ tags_of self.now }
    {
        &self.tags
    }

    /// The parents, each once, in ascending order.
    pub fn parents(&self) -> &[EntityUID]
        ensures { result.now ≡ parents_of self.now }
    {
        &self.parents
    }

    /// The value of an attribute, if the entity has it.
    pub fn get(&self, name: &str) -> Option<&V>
        ensures { option_copied result ≡ value_named name.now (attributes_of self.now) }
    {
        named(&self.attributes, name)
    }

    /// The value of a tag, if the entity has it.
    pub fn get_tag(&self, name: &str) -> Option<&V>
        ensures { option_copied result ≡ value_named name.now (tags_of self.now) }
    {
        named(&self.tags, name)
    }
}

// The value of a name, if it has one.
fn named<'a, V>(values: &'a BTreeMap<RcStr, V>, name: &str) -> Option<&'a V>
    ensures { option_copied result ≡ value_named name.now values.now }
{
    values.get(name)
}

impl<V> HasParents<EntityUID> for Entity<V> {
    ghost use Rattle.cedar_entities.specs.Parts.{parents_of};

    ghost parents_of = { λ entity. parents_of entity };

    fn parents(&self) -> &[EntityUID] {
        &self.parents
    }
}

impl<V> HasKey<EntityUID> for Entity<V> {
    ghost use Rattle.cedar_entities.specs.Parts.{uid_of};

    ghost key_of = { λ entity. uid_of entity };

    fn key(&self) -> &EntityUID {
        &self.uid
    }
}
