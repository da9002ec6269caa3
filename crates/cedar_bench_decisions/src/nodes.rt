//! The entities that cases work on: nodes, each with a number, which is its age.
use crate::fault::CaseFault;
use cedar_entities::{Entities, Entity};
use cedar_functions::BuiltinExtension;
use cedar_names::Name;
use cedar_terms::{EntityType, EntityUID, Literal};
use cedar_values::{Value, WellFormedValue};
use std::alloc::Global;
use std::collections::BTreeMap;
use std::rc::{Rc, RcStr};

/// An entity.
pub type Node = Entity<WellFormedValue<BuiltinExtension>>;

/// A store of entities.
pub type Store = Entities<WellFormedValue<BuiltinExtension>>;

/// How many children a node of a usual tree has.
pub const CHILDREN: usize = 10;

/// A tree of so many nodes, with so many children each; a chain if there is one child each.
pub fn tree(alloc: Global, count: usize, children: usize) -> Result<Vec<Node>, CaseFault> {
    let mut nodes = Vec::new(alloc);
    for number in 0..count {
        nodes.push(node(alloc, number, children)?)?;
    }
    Ok(nodes)
}

/// The store of that tree.
pub fn store(alloc: Global, count: usize, children: usize) -> Result<Store, CaseFault> {
    Ok(Entities::from_entities(alloc, tree(alloc, count, children)?)?)
}

fn node(alloc: Global, number: usize, children: usize) -> Result<Node, CaseFault> {
    let uid = uid(alloc, "Node", number)?;
    let ages = ages(alloc, number)?;
    let parents = parents(alloc, number, children)?;
    Ok(Entity::new(uid, ages, BTreeMap::new(alloc), parents))
}

// The first node has no parent, and is that of the next ones.
fn parents(alloc: Global, number: usize, children: usize) -> Result<Vec<EntityUID>, CaseFault> {
    let mut parents = Vec::new(alloc);
    if let Some(before) = number.checked_sub(1) {
        parents.push(uid(alloc, "Node", before.checked_div(children).unwrap_or(0))?)?;
    }
    Ok(parents)
}

// The attribute `age`.
fn ages(
    alloc: Global,
    number: usize,
) -> Result<BTreeMap<RcStr, WellFormedValue<BuiltinExtension>>, CaseFault> {
    let mut ages = BTreeMap::new(alloc);
    let age = i64::try_from(number).unwrap_or(i64::MAX);
    let age = well_formed(Value::from(Literal::Long(age)))?;
    drop(ages.insert(RcStr::from_str(alloc, "age")?, age)?);
    Ok(ages)
}

/// A value, which has to be well formed.
pub fn well_formed(
    value: Value<BuiltinExtension>,
) -> Result<WellFormedValue<BuiltinExtension>, CaseFault> {
    match WellFormedValue::new(value) {
        Ok(value) => Ok(value),
        Err(_) => Err(CaseFault::Answer),
    }
}

/// The identifier of a number, as `Node::"7"`.
pub fn uid(alloc: Global, ty: &str, number: usize) -> Result<EntityUID, CaseFault> {
    let ty = EntityType::from(Name::parse_unqualified_name(alloc, ty)?);
    let eid = RcStr::from_string(format!(in alloc; "{number}")?)?;
    Ok(EntityUID::new(ty, eid))
}

/// That identifier, shared.
pub fn shared_uid(alloc: Global, ty: &str, number: usize) -> Result<Rc<EntityUID>, CaseFault> {
    Ok(Rc::new(alloc, uid(alloc, ty, number)?)?)
}
