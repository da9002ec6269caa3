//! Entities, from JSON in Cedar's form (its file `entities/json/entities.rs`).
ghost use Rattle.std.specs.Prelude.{◌≡◌, IfOk, List, Some, codes, map, option_map, true};
ghost use Rattle.serde_json.specs.Find.{as_array, as_object, get};
ghost use Rattle.serde_json.specs.Data.{Items};
ghost use Rattle.serde_json.specs.View.{items_view, members_view, view};
ghost use Rattle.cedar_terms.specs.Entities.{BareEntityUID, bare_entity_uid};
ghost use Rattle.cedar_builders.specs.Keys.{meant_pairs};
ghost use Rattle.cedar_exprs.specs.BareExpr.{bare_expr};
ghost use Rattle.cedar_json.specs.Entities.{
  AreAttributes,
  AreEntities,
  AreParents,
  AreUids,
  EntityParts,
  Has,
  IsEntityJson,
  IsUid,
  MayHave,
  are_named,
  is_member_name as is_named_member,
  parts_of,
};
ghost use Rattle.cedar_json.specs.Refusals.{Gives, IsHandedOn, Reads};

use crate::near_names::nearest;
use crate::no_value::NoValue;
use crate::values::{item_step, pairs_of, step, typed_uid};
use cedar_exprs::{Expr, push_item};
use cedar_names::laws::name_texts_differ;
use cedar_terms::EntityUID;
use serde_json::{Map, Value};
use std::alloc::{AllocError, Global};
use std::rc::RcStr;

/// An entity as it is given in JSON.
#[derive(Debug, Drop)]
pub struct EntityJson {
    /// What it is called.
    pub uid: EntityUID,
    /// Its attributes by name, each an expression of literals, sets, records and calls.
    pub attributes: Vec<(RcStr, Expr)>,
    /// Its parents.
    pub parents: Vec<EntityUID>,
    /// Its tags by name, as its attributes.
    pub tags: Vec<(RcStr, Expr)>,
}

/// The entities of an array: objects with `uid`, `attrs`, `parents` and maybe `tags`.
///
/// Entities are written `{"type": "User", "id": "alice"}`, with or without `{"__entity": ..}`
/// around it. A member that is missing, or that has another name, is refused.
pub fn entities_of(alloc: Global, json: &Value) -> Result<Vec<EntityJson>, NoValue>
    ensures stand { IfOk result (λ es. (ds : Items)
        × (as_array (view json.now) ≡ Some ds) × AreEntities ds (map parts_of es.items)) }
    ensures complete { (ds : Items) (es : List EntityParts) → as_array (view json.now) ≡ Some ds
        → AreEntities ds es → Gives (λ made. map parts_of made.items) es result }
{
    name_texts_differ();
    match json.as_array() {
        Some(items) => each_entity(alloc, items),
        None => Err(NoValue::because(alloc, "an array of entities is wanted")),
    }
}

fn each_entity(alloc: Global, items: &[Value]) -> Result<Vec<EntityJson>, NoValue>
    ensures { Reads (AreEntities (items_view items.now)) (λ es. map parts_of es.items) result }
{
    let mut entities = Vec::with_capacity(alloc, items.len())?;
    for item in items {
        match entity_of(alloc, item) {
            Ok(entity) => push_item(&mut entities, entity)?,
            Err(failure) => return Err(failure.behind(item_step(alloc, entities.len())?)),
        }
    }
    Ok(entities)
}

fn entity_of(alloc: Global, json: &Value) -> Result<EntityJson, NoValue>
    ensures { Reads (IsEntityJson (view json.now)) parts_of result }
{
    check_names(alloc, json)?;
    let uid = uid_in(alloc, json)?;
    let attributes = attributes_in(alloc, json)?;
    let parents = parents_in(alloc, json)?;
    let tags = tags_in(alloc, json)?;
    Ok(EntityJson {
        uid,
        attributes,
        parents,
        tags,
    })
}

fn uid_in(alloc: Global, json: &Value) -> Result<EntityUID, NoValue>
    ensures { Reads (Has IsUid (get (codes "uid") (view json.now))) bare_entity_uid result }
{
    match json.get("uid") {
        Some(uid) => behind(alloc, "uid", meant_uid(alloc, uid)),
        None => Err(missing(alloc, "uid")),
    }
}

fn attributes_in(alloc: Global, json: &Value) -> Result<Vec<(RcStr, Expr)>, NoValue>
    ensures { Reads (Has AreAttributes (get (codes "attrs") (view json.now)))
        (λ ps. meant_pairs bare_expr ps.items) result }
{
    match json.get("attrs") {
        Some(attrs) => behind(alloc, "attrs", attributes_of(alloc, attrs)),
        None => Err(missing(alloc, "attrs")),
    }
}

fn parents_in(alloc: Global, json: &Value) -> Result<Vec<EntityUID>, NoValue>
    ensures { Reads (Has AreParents (get (codes "parents") (view json.now)))
        (λ us. map bare_entity_uid us.items) result }
{
    match json.get("parents") {
        Some(parents) => behind(alloc, "parents", parents_of(alloc, parents)),
        None => Err(missing(alloc, "parents")),
    }
}

fn tags_in(alloc: Global, json: &Value) -> Result<Vec<(RcStr, Expr)>, NoValue>
    ensures { Reads (MayHave AreAttributes (get (codes "tags") (view json.now)))
        (λ ps. meant_pairs bare_expr ps.items) result }
{
    match json.get("tags") {
        Some(tags) => behind(alloc, "tags", attributes_of(alloc, tags)),
        None => Ok(Vec::new(alloc)),
    }
}

// What was made of a member, whose name leads to what is wrong with it.
fn behind<T>(alloc: Global, name: &str, made: Result<T, NoValue>) -> Result<T, NoValue>
    ensures { IsHandedOn made result }
{
    match made {
        Ok(made) => Ok(made),
        Err(failure) => match step(alloc, name) {
            Ok(step) => Err(failure.behind(step)),
            Err(_) => Err(NoValue::Memory),
        },
    }
}

fn missing(alloc: Global, name: &str) -> NoValue {
    match format!(in alloc; "an entity has a member {name:?}") {
        Ok(problem) => NoValue::because(alloc, &problem),
        Err(_) => NoValue::Memory,
    }
}

const NAMES: [&str; 4] = ["uid", "attrs", "parents", "tags"];

// Refuses what is no object, and a member that no entity has.
fn check_names(alloc: Global, json: &Value) -> Result<(), NoValue>
    ensures { Reads (λ _. option_map are_named (as_object (view json.now)) ≡ Some true)
        (λ u. u) result }
{
    match json {
        Value::Object(members) => check_members(alloc, members),
        Value::Null | Value::Bool(_) | Value::Number(_) | Value::String(_) | Value::Array(_) => {
            Err(NoValue::because(alloc, "an entity is an object"))
        }
    }
}

fn check_members(alloc: Global, members: &Map<String, Value>) -> Result<(), NoValue>
    ensures { Reads (λ _. are_named (members_view members.now.entries) ≡ true) (λ u. u) result }
{
    for (name, _member) in members {
        if !is_member_name(name) {
            let problem = unknown_member(alloc, name)?;
            return Err(NoValue::because(alloc, &problem));
        }
    }
    Ok(())
}

fn is_member_name(name: &str) -> bool
    ensures { result ≡ is_named_member name.now }
{
    name == "uid" || name == "attrs" || name == "parents" || name == "tags"
}

fn unknown_member(alloc: Global, name: &str) -> Result<String, AllocError> {
    match nearest(alloc, name, &NAMES)? {
        Some(near) => {
            format!(in alloc; "an entity has no member {name:?}: did you mean {near:?}?")
        }
        None => format!(in alloc;
            "an entity has no member {name:?}, but \"uid\", \"attrs\", \"parents\" and \"tags\""
        ),
    }
}

/// The entity that an object is, maybe in `__entity`.
pub fn uid_of(alloc: Global, json: &Value) -> Result<EntityUID, NoValue>
    ensures stands { IfOk result (λ u. IsUid (view json.now) (bare_entity_uid u)) }
    ensures complete { (u : BareEntityUID) → IsUid (view json.now) u
        → Gives bare_entity_uid u result }
{
    name_texts_differ();
    meant_uid(alloc, json)
}

fn meant_uid(alloc: Global, json: &Value) -> Result<EntityUID, NoValue>
    ensures { Reads (IsUid (view json.now)) bare_entity_uid result }
{
    typed_uid(alloc, json.get("__entity").unwrap_or(json))
}

fn attributes_of(alloc: Global, json: &Value) -> Result<Vec<(RcStr, Expr)>, NoValue>
    ensures { Reads (AreAttributes (view json.now)) (λ ps. meant_pairs bare_expr ps.items) result }
{
    match json {
        Value::Object(members) => pairs_of(alloc, members),
        Value::Null | Value::Bool(_) | Value::Number(_) | Value::String(_) | Value::Array(_) => {
            Err(NoValue::because(alloc, "an object of names and values is wanted"))
        }
    }
}

fn parents_of(alloc: Global, json: &Value) -> Result<Vec<EntityUID>, NoValue>
    ensures { Reads (AreParents (view json.now)) (λ us. map bare_entity_uid us.items) result }
{
    match json {
        Value::Array(items) => each_uid(alloc, items),
        Value::Null | Value::Bool(_) | Value::Number(_) | Value::String(_) | Value::Object(_) => {
            Err(NoValue::because(alloc, "an array of entities is wanted"))
        }
    }
}

fn each_uid(alloc: Global, items: &[Value]) -> Result<Vec<EntityUID>, NoValue>
    ensures { Reads (AreUids (items_view items.now)) (λ us. map bare_entity_uid us.items) result }
{
    let mut uids = Vec::with_capacity(alloc, items.len())?;
    for item in items {
        match meant_uid(alloc, item) {
            Ok(uid) => push_item(&mut uids, uid)?,
            Err(failure) => return Err(failure.behind(item_step(alloc, uids.len())?)),
        }
    }
    Ok(uids)
}
