//! Attributes and tags, where a store answers for entities.
ghost use Rattle.std.specs.Prelude.{◌≡◌, IfErr, IfOk, IfSome, IsTrue, Ok, map, ok_or, option_map};
ghost use Rattle.std.specs.Rc.{rc_str_bytes};
ghost use Rattle.cedar_terms.specs.Entities.{bare_entity_uid};
ghost use Rattle.cedar_builders.specs.Fold.{and_then, on_one};
ghost use Rattle.cedar_exprs.specs.BareExpr.{further};
ghost use Rattle.cedar_values.specs.BareValues.{bare_value};
ghost use Rattle.cedar_values.specs.WellFormed.{well_formed};
ghost use Rattle.semantics_eval.specs.Outcomes.{Missing, settled, truth};
ghost use Rattle.semantics_request.specs.Entities as store;
ghost use Rattle.semantics_request.specs.Evaluator.{path_by};
ghost use Rattle.cedar_evaluator.specs.Outcomes.{
  faulted,
  literal_outcome,
  meaning_of,
  place_in,
  placed_result_of,
};
ghost use Rattle.cedar_request_evaluator.specs.Attributes.{found_by};
ghost use Rattle.cedar_request.specs.Values.{tree_of};

use cedar_evaluator::operations::{as_entity, attribute};
use cedar_evaluator::{EvalFault, Outcome};
use cedar_names::{Loc, NonEmpty};
use cedar_request::{Dereference, EntityData, EntityStore};
use cedar_terms::{EntityUID, Literal};
use cedar_values::{Value, WellFormedValue};
use std::alloc::{AllocError, Global};
use std::rc::RcStr;

// The value of an attribute.
#[tactic(auto, using(crate::proofs::ByKind::attribute_laws))]
pub(crate) fn get_attribute<X: Ord + Drop, S: EntityStore<X>>(
    alloc: Global,
    entities: &S,
    outcome: Outcome<X>,
    key: &RcStr,
    source_loc: Option<Loc>,
) -> Result<Outcome<X>, AllocError>
    ensures { IfOk result (λ m. meaning_of m
        ≡ and_then (store.attribute (S.bare_entities entities.now) (rc_str_bytes key.now))
        (meaning_of outcome)) }
{
    match outcome.as_result() {
        Ok(value) => match as_entity(value) {
            Some(uid) => entity_attribute(alloc, entities, uid, key.as_str(), source_loc),
            None => outcome.get(alloc, key, source_loc),
        },
        Err(_) => Ok(outcome),
    }
}

// The value of an attribute of an entity.
fn entity_attribute<X: Ord + Drop, S: EntityStore<X>>(
    alloc: Global,
    entities: &S,
    uid: &EntityUID,
    key: &str,
    source_loc: Option<Loc>,
) -> Result<Outcome<X>, AllocError>
    ensures meaning { IfOk result (λ m. meaning_of m
        ≡ store.found_at (λ d. d.attributes) key.now
        (S.bare_entities entities.now (bare_entity_uid uid.now))) }
    ensures place { IfOk result (λ m. IfErr (placed_result_of m) (λ f. place_in f ≡ source_loc)) }
{
    match entities.entity(uid) {
        Dereference::NotKnown => Ok(Outcome::fail(EvalFault::Open, source_loc)),
        Dereference::NoSuchEntity => Ok(Outcome::fail(EvalFault::Store, source_loc)),
        Dereference::Data(entity) => found(alloc, entity.attribute(key), source_loc),
    }
}

// The value of a tag of an entity.
pub(crate) fn entity_tag<X: Ord + Drop, S: EntityStore<X>>(
    alloc: Global,
    entities: &S,
    uid: &EntityUID,
    key: &str,
    source_loc: Option<Loc>,
) -> Result<Outcome<X>, AllocError>
    ensures meaning { IfOk result (λ m. meaning_of m
        ≡ store.found_at (λ d. d.tags) key.now
        (S.bare_entities entities.now (bare_entity_uid uid.now))) }
    ensures place { IfOk result (λ m. IfErr (placed_result_of m) (λ f. place_in f ≡ source_loc)) }
{
    match entities.entity(uid) {
        Dereference::NotKnown => Ok(Outcome::fail(EvalFault::Open, source_loc)),
        Dereference::NoSuchEntity => Ok(Outcome::fail(EvalFault::Store, source_loc)),
        Dereference::Data(entity) => found(alloc, entity.tag(key), source_loc),
    }
}

// Whether an entity has a tag: one that is not there has none.
pub(crate) fn has_entity_tag<X: Ord + Drop, S: EntityStore<X>>(
    entities: &S,
    uid: &EntityUID,
    key: &str,
) -> Result<Literal, EvalFault>
    ensures { literal_outcome (faulted result)
        ≡ store.is_found_at (λ d. d.tags) key.now
        (S.bare_entities entities.now (bare_entity_uid uid.now)) }
{
    match entities.entity(uid) {
        Dereference::NotKnown => Err(EvalFault::Open),
        Dereference::NoSuchEntity => Ok(Literal::Bool(false)),
        Dereference::Data(entity) => Ok(Literal::Bool(entity.tag(key).is_some())),
    }
}

// The value that was found, or that there is none.
fn found<X: Ord + Drop>(
    alloc: Global,
    value: Option<&WellFormedValue<X>>,
    source_loc: Option<Loc>,
) -> Result<Outcome<X>, AllocError>
    ensures meaning { IfOk result (λ m. meaning_of m
        ≡ settled (ok_or (option_map (λ w. tree_of w.now) value.entry) Missing)) }
    ensures place { IfOk result (λ m. IfErr (placed_result_of m) (λ f. place_in f ≡ source_loc)) }
{
    match value {
        Some(value) => Ok(Outcome::of_value(value.clone(alloc)?.into_value())),
        None => Ok(Outcome::fail(EvalFault::Missing, source_loc)),
    }
}

// Whether a path of attributes is there.
#[tactic(auto, using(crate::proofs::Paths::fault_path))]
pub(crate) fn has_attributes<X: Ord + Drop, S: EntityStore<X>>(
    entities: &S,
    outcome: Outcome<X>,
    attrs: &NonEmpty<RcStr>,
    source_loc: Option<Loc>,
) -> Outcome<X>
    ensures { let s = S.bare_entities entities.now in
        meaning_of result
        ≡ path_by (store.has_attribute s) (store.attribute s) (meaning_of outcome)
        (rc_str_bytes attrs.now.head) (further attrs.now) }
{
    match outcome.as_result() {
        Ok(value) => {
            Outcome::settle(
                has_path(entities, value, &attrs.head, &attrs.tail),
                source_loc,
            )
        }
        Err(_) => outcome,
    }
}

// Whether a path of attributes is there, from a value on.
#[tactic(auto, using(crate::proofs::Paths::path_laws))]
fn has_path<X: Ord + Drop, S: EntityStore<X>>(
    entities: &S,
    value: &Value<X>,
    first: &RcStr,
    rest: &[RcStr],
) -> Result<Literal, EvalFault>
    ensures { let s = S.bare_entities entities.now in
        literal_outcome (faulted result)
        ≡ path_by (store.has_attribute s) (store.attribute s) (Ok (bare_value value.now))
        (rc_str_bytes first.now) (map rc_str_bytes rest.now) }
{
    let mut here = value;
    let mut key = first;
    for next in rest {
        match find_attribute(entities, here, key) {
            Ok(Some(inner)) => {
                here = inner;
                key = next;
            }
            Ok(None) => return Ok(Literal::Bool(false)),
            Err(fault) => return Err(fault),
        }
    }
    match find_attribute(entities, here, key) {
        Ok(found) => Ok(Literal::Bool(found.is_some())),
        Err(fault) => Err(fault),
    }
}

/// The value of an attribute, if there is one: an entity that is not in the store has none. The
/// fault is `Open` for an entity that is not known, and `WrongType` for what is no record.
#[tactic(auto, using(crate::proofs::ByKind::found_laws))]
pub fn find_attribute<'a, X: Ord + Drop, S: EntityStore<X>>(
    entities: &'a S,
    value: &'a Value<X>,
    key: &RcStr,
) -> Result<Option<&'a Value<X>>, EvalFault>
    ensures found { on_one (λ o. option_map (λ v. bare_value v.now) o) (faulted result)
        ≡ found_by (S.bare_entities entities.now) (rc_str_bytes key.now) (bare_value value.now) }
    ensures well_formed { IsTrue (well_formed X.cmp value.now)
        → IfOk result (λ o. IfSome o (λ v. IsTrue (well_formed X.cmp v.now))) }
{
    match as_entity(value) {
        Some(uid) => match entities.entity(uid) {
            Dereference::NotKnown => Err(EvalFault::Open),
            Dereference::NoSuchEntity => Ok(None),
            Dereference::Data(entity) => Ok(plain(entity.attribute(key.as_str()))),
        },
        None => attribute(value, key),
    }
}

// A value, if there is one.
fn plain<X: Ord + Drop>(value: Option<&WellFormedValue<X>>) -> Option<&Value<X>>
    ensures same { option_map (λ v. bare_value v.now) result
        ≡ option_map (λ w. tree_of w.now) value.entry }
    ensures well_formed { IfSome result (λ v. IsTrue (well_formed X.cmp v.now)) }
{
    match value {
        Some(value) => Some(value.as_value()),
        None => None,
    }
}
