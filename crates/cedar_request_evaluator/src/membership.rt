//! `in`: whether an entity is another, or among its descendants.
ghost use Rattle.std.specs.Prelude.{◌≡◌, ◌||◌, [], ◌∷◌, IfOk, map};
ghost use Rattle.std.specs.List.{list_all, list_any};
ghost use Rattle.cedar_terms.specs.Entities.{bare_entity_uid};
ghost use Rattle.cedar_terms.specs.EntityOrder.{entity_uid_eq};
ghost use Rattle.semantics_values.specs.BareValue.{values_of};
ghost use Rattle.semantics_request.specs.Entities.{
  entities_in,
  is_under,
  is_under_listed,
  member_entities,
  under,
};
ghost use Rattle.cedar_values.specs.BareValues.{bare_value};
ghost use Rattle.cedar_evaluator.specs.Outcomes.{faulted, literal_outcome};
ghost use Rattle.cedar_request_evaluator.specs.Membership.{is_entity, is_entity_with};
ghost use Rattle.cedar_request.specs.Stores.{is_descendant_in};

use cedar_evaluator::EvalFault;
use cedar_evaluator::operations::{as_entity, as_set};
use cedar_request::{Dereference, EntityStore};
use cedar_terms::{EntityUID, Literal};
use cedar_values::Value;
use std::alloc::{AllocError, Global};

// Whether an entity is in an entity or in a set of entities.
#[tactic(auto, using(crate::proofs::Members::in_laws))]
pub(crate) fn is_in<X: Ord + Drop, S: EntityStore<X>>(
    alloc: Global,
    entities: &S,
    left: &Value<X>,
    right: &Value<X>,
) -> Result<Result<Literal, EvalFault>, AllocError>
    ensures { IfOk result (λ answer. literal_outcome (faulted answer)
        ≡ under (S.bare_entities entities.now) (bare_value left.now) (bare_value right.now)) }
{
    match as_entity(left) {
        Some(uid) => is_in_value(alloc, entities, uid, right),
        None => Ok(Err(EvalFault::WrongType)),
    }
}

// The same, where it is known which entity.
#[tactic(auto, using(crate::proofs::Members::listed_laws))]
fn is_in_value<X: Ord + Drop, S: EntityStore<X>>(
    alloc: Global,
    entities: &S,
    uid: &EntityUID,
    right: &Value<X>,
) -> Result<Result<Literal, EvalFault>, AllocError>
    ensures { let u = bare_entity_uid uid.now in
        IfOk result (λ answer. literal_outcome (faulted answer)
        ≡ is_under_listed u (S.bare_entities entities.now u)
        (entities_in (bare_value right.now))) }
{
    match as_entity(right) {
        Some(other) => is_in_entity(alloc, entities, uid, other),
        None => match as_set(right) {
            Some(set) => is_in_some(alloc, entities, uid, set.authoritative()),
            None => Ok(Err(EvalFault::WrongType)),
        },
    }
}

// Whether an entity is another, or a descendant of it.
fn is_in_entity<X: Ord + Drop, S: EntityStore<X>>(
    alloc: Global,
    entities: &S,
    uid: &EntityUID,
    other: &EntityUID,
) -> Result<Result<Literal, EvalFault>, AllocError>
    ensures { let u = bare_entity_uid uid.now in
        IfOk result (λ answer. literal_outcome (faulted answer)
        ≡ is_under u (S.bare_entities entities.now u) (bare_entity_uid other.now ∷ [])) }
{
    match entities.entity(uid) {
        Dereference::NotKnown => Ok(Err(EvalFault::Open)),
        Dereference::NoSuchEntity => Ok(Ok(Literal::Bool(uid == other))),
        Dereference::Data(_) => { Ok(Ok(Literal::Bool(is_below(alloc, entities, uid, other)?))) }
    }
}

// Whether an entity is some of these, or a descendant of some, if all are entities.
#[tactic(auto, using(crate::proofs::Members::some_laws))]
fn is_in_some<X: Ord + Drop, S: EntityStore<X>>(
    alloc: Global,
    entities: &S,
    uid: &EntityUID,
    others: &[Value<X>],
) -> Result<Result<Literal, EvalFault>, AllocError>
    ensures { let u = bare_entity_uid uid.now in
        IfOk result (λ answer. literal_outcome (faulted answer)
        ≡ is_under_listed u (S.bare_entities entities.now u)
        (member_entities (values_of (map bare_value others.now)))) }
{
    if !are_entities(others) {
        return Ok(Err(EvalFault::WrongType));
    }
    match entities.entity(uid) {
        Dereference::NotKnown => Ok(Err(EvalFault::Open)),
        Dereference::NoSuchEntity => Ok(Ok(Literal::Bool(is_some_of(uid, others)))),
        Dereference::Data(_) => {
            Ok(Ok(Literal::Bool(is_below_some(alloc, entities, uid, others)?)))
        }
    }
}

// Whether all values are entities.
fn are_entities<X>(values: &[Value<X>]) -> bool
    ensures { result ≡ list_all (λ v. is_entity (bare_value v)) values.now }
{
    values.iter().all(|value| names_entity(value))
}

// Whether a value is an entity.
fn names_entity<X>(value: &Value<X>) -> bool
    ensures { result ≡ is_entity (bare_value value.now) }
{
    match as_entity(value) {
        Some(_) => true,
        None => false,
    }
}

// Whether an entity is some of these.
fn is_some_of<X>(uid: &EntityUID, others: &[Value<X>]) -> bool
    ensures { result
        ≡ list_any (λ v. is_entity_with (entity_uid_eq (bare_entity_uid uid.now)) (bare_value v))
        others.now }
{
    others.iter().any(|other| is_same(uid, other))
}

// Whether an entity is a value.
fn is_same<X>(uid: &EntityUID, other: &Value<X>) -> bool
    ensures { result
        ≡ is_entity_with (entity_uid_eq (bare_entity_uid uid.now)) (bare_value other.now) }
{
    match as_entity(other) {
        Some(other) => uid == other,
        None => false,
    }
}

// Whether an entity is some of these, or a descendant of some.
fn is_below_some<X: Ord + Drop, S: EntityStore<X>>(
    alloc: Global,
    entities: &S,
    uid: &EntityUID,
    others: &[Value<X>],
) -> Result<bool, AllocError>
    ensures { let u = bare_entity_uid uid.now in
        IfOk result (λ b. b
        ≡ list_any (λ v. is_entity_with (λ w. entity_uid_eq u w
        || is_descendant_in (S.bare_entities entities.now u) w) (bare_value v)) others.now) }
{
    for other in others {
        if is_below_value(alloc, entities, uid, other)? {
            return Ok(true);
        }
    }
    Ok(false)
}

// Whether an entity is a value, or a descendant of it.
fn is_below_value<X: Ord + Drop, S: EntityStore<X>>(
    alloc: Global,
    entities: &S,
    uid: &EntityUID,
    other: &Value<X>,
) -> Result<bool, AllocError>
    ensures { let u = bare_entity_uid uid.now in
        IfOk result (λ b. b
        ≡ is_entity_with (λ w. entity_uid_eq u w
        || is_descendant_in (S.bare_entities entities.now u) w) (bare_value other.now)) }
{
    match as_entity(other) {
        Some(other) => is_below(alloc, entities, uid, other),
        None => Ok(false),
    }
}

// Whether an entity is another, or a descendant of it, where it is there.
fn is_below<X: Ord + Drop, S: EntityStore<X>>(
    alloc: Global,
    entities: &S,
    uid: &EntityUID,
    other: &EntityUID,
) -> Result<bool, AllocError>
    ensures { let u = bare_entity_uid uid.now in
        IfOk result (λ b. b
        ≡ (entity_uid_eq u (bare_entity_uid other.now)
        || is_descendant_in (S.bare_entities entities.now u) (bare_entity_uid other.now))) }
{
    if uid == other {
        return Ok(true);
    }
    entities.is_descendant_of(alloc, uid, other)
}
