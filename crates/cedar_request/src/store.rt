//! Stores of entities, as the evaluator asks them (Cedar's `Entities` and `Dereference`).
use cedar_terms::EntityUID;
use cedar_values::WellFormedValue;
use std::alloc::{AllocError, Global};

/// What a store knows of an entity.
#[derive(Drop)]
pub enum Dereference<'a, E> {
    /// Nothing yet: the store is given in parts, and another part may have it.
    NotKnown,
    /// It is not in the store.
    NoSuchEntity,
    /// What it is.
    Data(&'a E),
}

/// An entity of a store: its attributes and its tags.
pub trait EntityData<X: Ord> {
    ghost use Rattle.std.specs.Prelude.{◌≡◌, option_map};
    ghost use Rattle.semantics_values.specs.BareValue.{BarePairs};
    ghost use Rattle.semantics_eval.specs.Attributes.{value_at};
    ghost use Rattle.cedar_request.specs.Values.{tree_of};

    // The attributes that it means.
    ghost bare_attributes: { Self → BarePairs X };

    // The tags that it means.
    ghost bare_tags: { Self → BarePairs X };

    /// The value of an attribute, if it has the attribute.
    fn attribute(&self, key: &str) -> Option<&WellFormedValue<X>>
        ensures { option_map (λ w. tree_of w.now) result
            ≡ value_at key.now (bare_attributes self.now) };

    /// The value of a tag, if it has the tag.
    fn tag(&self, key: &str) -> Option<&WellFormedValue<X>>
        ensures { option_map (λ w. tree_of w.now) result
            ≡ value_at key.now (bare_tags self.now) };
}

/// A store of entities.
pub trait EntityStore<X: Ord> {
    ghost use Rattle.std.specs.Prelude.{◌≡◌, IfOk};
    ghost use Rattle.cedar_terms.specs.Entities.{bare_entity_uid};
    ghost use Rattle.semantics_request.specs.Entities.{Entities};
    ghost use Rattle.cedar_request.specs.Stores.{dereferenced, is_descendant_in};

    /// What it holds of an entity.
    type Entity: EntityData<X>;

    // What it means.
    ghost bare_entities: { Self → Entities X };

    /// What is known of an entity.
    fn entity(&self, uid: &EntityUID) -> Dereference<'_, Self::Entity>
        ensures { let known = bare_entities self.now (bare_entity_uid uid.now) in
            dereferenced Self.Entity.bare_attributes Self.Entity.bare_tags
            (is_descendant_in known) result ≡ known };

    /// Whether an entity is a descendant of another: false of one that is not known or not there.
    ///
    /// A store may walk over its hierarchy for the answer, and then takes memory.
    fn is_descendant_of(
        &self,
        alloc: Global,
        uid: &EntityUID,
        ancestor: &EntityUID,
    ) -> Result<bool, AllocError>
        ensures { IfOk result (λ b. b
            ≡ is_descendant_in (bare_entities self.now (bare_entity_uid uid.now))
            (bare_entity_uid ancestor.now)) };
}
