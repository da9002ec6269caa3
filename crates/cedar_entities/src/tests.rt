//! Stores and parts, worked by hand.
use crate::entities::Entities;
use crate::entities_error::EntitiesError;
use crate::entity::Entity;
use cedar_terms::EntityUID;
use std::alloc::{AllocError, Global};
use std::collections::BTreeMap;
use std::rc::RcStr;
use std::test::Fail;

// An entity with an attribute.
fn entity(alloc: Global, eid: &str, age: u32, parents: &[&str]) -> Result<Entity<u32>, AllocError> {
    let mut attributes = BTreeMap::new(alloc);
    attributes.insert(RcStr::from_str(alloc, "age")?, age)?;
    let mut above = Vec::new(alloc);
    for parent in parents {
        above.push(EntityUID::with_eid(alloc, parent)?)?;
    }
    let uid = EntityUID::with_eid(alloc, eid)?;
    Ok(Entity::new(uid, attributes, BTreeMap::new(alloc), above))
}

// Alice is in a group, which is in all.
fn alice_and_group(alloc: Global) -> Result<Vec<Entity<u32>>, Fail> {
    let alice = entity(alloc, "alice", 30, &["group", "group"])?;
    let group = entity(alloc, "group", 0, &["all"])?;
    Ok(vec![in alloc; alice, group]?)
}

fn is_below(alloc: Global, store: &Entities<u32>, below: &str, above: &str) -> Result<bool, Fail> {
    let below = EntityUID::with_eid(alloc, below)?;
    let above = EntityUID::with_eid(alloc, above)?;
    Ok(store.is_descendant_of(alloc, &below, &above)?)
}

fn age(alloc: Global, store: &Entities<u32>, eid: &str) -> Result<Option<u32>, Fail> {
    let uid = EntityUID::with_eid(alloc, eid)?;
    match store.get(&uid) {
        Some(entity) => Ok(entity.get("age").copied()),
        None => Ok(None),
    }
}

#[test]
fn whole_store(rt: HostRuntime) -> Result<(), Fail> {
    let store = Entities::from_entities(rt.alloc(), alice_and_group(rt.alloc())?)?;
    assert!(rt; is_below(rt.alloc(), &store, "alice", "all")?);
    assert!(rt; !is_below(rt.alloc(), &store, "all", "alice")?);
    assert!(rt; age(rt.alloc(), &store, "alice")? == Some(30));
    assert!(rt; age(rt.alloc(), &store, "all")?.is_none());
    Ok(())
}

#[test]
fn part_lacks_a_parent(rt: HostRuntime) -> Result<(), Fail> {
    let made = Entities::part_from_entities(rt.alloc(), alice_and_group(rt.alloc())?);
    let Err(error) = made else {
        return Err(Fail::new("a part was made"));
    };
    let text = format!(in rt.alloc(); "{error}")?;
    assert!(rt; text.as_str() == "part of a store lacks the parent `test_entity_type::\"all\"`");
    Ok(())
}

#[test]
fn fuller_store(rt: HostRuntime) -> Result<(), Fail> {
    let store = Entities::from_entities(rt.alloc(), alice_and_group(rt.alloc())?)?;
    let more = vec![in rt.alloc(); entity(rt.alloc(), "all", 7, &["world"])?]?;
    let store = store.add_entities(rt.alloc(), more)?;
    assert!(rt; is_below(rt.alloc(), &store, "alice", "world")?);
    let cycle = vec![in rt.alloc(); entity(rt.alloc(), "world", 1, &["group"])?]?;
    let refused = store.add_entities(rt.alloc(), cycle);
    assert!(rt; matches!(refused, Err(EntitiesError::Cycle(_))));
    Ok(())
}
