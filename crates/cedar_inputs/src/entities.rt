//! Stores of entities.
ghost use Rattle.std.specs.Prelude.{IfOk};
ghost use Rattle.cedar_inputs.specs.Entities.{AreEntitiesOf, HasListed, IsEntityOf, IsStoreOf};

use crate::input_error::InputError;
use crate::values::named_values;
use cedar_entities::{Entities, Entity};
use cedar_exprs::push_item;
use cedar_functions::BuiltinExtension;
use cedar_json::{EntityJson, entities_of, parse_json};
use cedar_values::WellFormedValue;
use std::alloc::Global;

/// A store of entities whose attributes may be extension values.
pub type Store = Entities<WellFormedValue<BuiltinExtension>>;

/// The store of the entities that a JSON text lists:
/// `[{"uid": .., "attrs": .., "parents": ..}, ..]`, maybe with `"tags"`.
///
/// The error names the path to what has the wrong form, the attribute that has no value, or the
/// entity that is there twice or is its own ancestor.
pub fn entities_from_json(alloc: Global, text: &str) -> Result<Store, InputError>
    ensures { IfOk result (IsStoreOf
        ⟦<Entity<WellFormedValue<BuiltinExtension>> as PartialEq>⟧.eq text.now) }
{
    let json = parse_json(alloc, text)?;
    match entities_of(alloc, &json) {
        Ok(listed) => store_of(alloc, listed),
        Err(failure) => Err(InputError::of_part(alloc, "entities", failure)),
    }
}

// The store of these entities.
fn store_of(alloc: Global, listed: Vec<EntityJson>) -> Result<Store, InputError>
    ensures { IfOk result (HasListed
        ⟦<Entity<WellFormedValue<BuiltinExtension>> as PartialEq>⟧.eq listed.items) }
{
    let entities = each_entity(alloc, listed)?;
    match Entities::from_entities(alloc, entities) {
        Ok(entities) => Ok(entities),
        Err(error) => Err(InputError::from(error)),
    }
}

// The entities one by one.
fn each_entity(
    alloc: Global,
    listed: Vec<EntityJson>,
) -> Result<Vec<Entity<WellFormedValue<BuiltinExtension>>>, InputError>
    ensures { IfOk result (λ xs. AreEntitiesOf listed.items xs.items) }
{
    let mut entities = Vec::with_capacity(alloc, listed.len())?;
    for json in listed {
        push_item(&mut entities, entity_of(alloc, json)?)?;
    }
    Ok(entities)
}

// An entity.
fn entity_of(
    alloc: Global,
    json: EntityJson,
) -> Result<Entity<WellFormedValue<BuiltinExtension>>, InputError>
    ensures { IfOk result (IsEntityOf json) }
{
    let EntityJson {
        uid,
        attributes,
        parents,
        tags,
    } = json;
    let holder = format!(in alloc; "{uid}, attribute")?;
    let attributes = named_values(alloc, &holder, attributes)?;
    let holder = format!(in alloc; "{uid}, tag")?;
    let tags = named_values(alloc, &holder, tags)?;
    Ok(Entity::new(uid, attributes, tags, parents))
}
