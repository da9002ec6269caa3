//! Operators on two values, where a store answers `in`, `getTag` and `hasTag`, and a table of
//! functions compares extension values.
ghost use Rattle.std.specs.Ordering.{is_le, is_lt};
ghost use Rattle.std.specs.Prelude.{◌≡◌, IfErr, IfOk, IsTrue};
ghost use Rattle.cedar_terms.specs.declared.ops.BinaryOp.TheVariants as binary;
ghost use Rattle.semantics_eval.specs.Operators.{apply_two};
ghost use Rattle.semantics_eval.specs.Outcomes.{settled};
ghost use Rattle.semantics_request.specs.Entities as meant;
ghost use Rattle.semantics_request.specs.Evaluator.{apply_by, compared_or, then_two};
ghost use Rattle.cedar_values.specs.BareValues.{bare_value};
ghost use Rattle.cedar_values.specs.WellFormed.{well_formed};
ghost use Rattle.cedar_evaluator.specs.Outcomes.{
  faulted,
  literal_outcome,
  meaning_of,
  place_in,
  placed_result_of,
};

use crate::attributes::{entity_tag, has_entity_tag};
use crate::membership::is_in;
use cedar_evaluator::operations::{apply_two, as_entity, as_extension, as_text};
use cedar_evaluator::{EvalFault, Outcome};
use cedar_names::Loc;
use cedar_request::{CallableFunctions, EntityStore};
use cedar_terms::{BinaryOp, Literal};
use cedar_values::Value;
use std::alloc::{AllocError, Global};

// What an operator makes of two outcomes: the first fault in their place answers.
pub(crate) fn apply_to_outcomes<X: Ord + Drop, S: EntityStore<X>, T: CallableFunctions<X>>(
    alloc: Global,
    entities: &S,
    functions: &T,
    op: BinaryOp,
    left: Outcome<X>,
    right: Outcome<X>,
    source_loc: Option<Loc>,
) -> Result<Outcome<X>, AllocError>
    ensures { IfOk result (λ m. meaning_of m
        ≡ then_two (apply_by X.cmp X.eq (T.bare_functions functions.now)
        (S.bare_entities entities.now) op) (meaning_of left) (meaning_of right)) }
{
    match (left.as_result(), right.as_result()) {
        (Ok(first), Ok(second)) => {
            apply_to_values(alloc, entities, functions, op, first, second, source_loc)
        }
        (Ok(_), Err(_)) => Ok(right),
        (Err(_), _) => Ok(left),
    }
}

/// What an operator makes of two well formed values: a store answers `in`, `getTag` and `hasTag`,
/// and a table compares extension values. A fault has the place.
pub fn apply_to_values<X: Ord + Drop, S: EntityStore<X>, T: CallableFunctions<X>>(
    alloc: Global,
    entities: &S,
    functions: &T,
    op: BinaryOp,
    left: &Value<X>,
    right: &Value<X>,
    source_loc: Option<Loc>,
) -> Result<Outcome<X>, AllocError>
    requires left { IsTrue (well_formed X.cmp left.now) }
    requires right { IsTrue (well_formed X.cmp right.now) }
    ensures meaning { IfOk result (λ m. meaning_of m
        ≡ apply_by X.cmp X.eq (T.bare_functions functions.now)
        (S.bare_entities entities.now) op (bare_value left.now) (bare_value right.now)) }
    ensures place { IfOk result (λ m. IfErr (placed_result_of m) (λ f. place_in f ≡ source_loc)) }
{
    match op {
        BinaryOp::In => {
            let answer = is_in(alloc, entities, left, right)?;
            Ok(Outcome::settle(answer, source_loc))
        }
        BinaryOp::GetTag => get_tag(alloc, entities, left, right, source_loc),
        BinaryOp::HasTag => { Ok(Outcome::settle(has_tag(entities, left, right), source_loc)) }
        BinaryOp::Less => { Ok(Outcome::settle(is_less(functions, left, right), source_loc)) }
        BinaryOp::LessEq => { Ok(Outcome::settle(is_at_most(functions, left, right), source_loc)) }
        _ => Ok(Outcome::settle(apply_two(op, left, right), source_loc)),
    }
}

// The value of a tag, of an entity by a text.
#[tactic(auto, using(crate::proofs::ByKind::tag_laws))]
fn get_tag<X: Ord + Drop, S: EntityStore<X>>(
    alloc: Global,
    entities: &S,
    left: &Value<X>,
    right: &Value<X>,
    source_loc: Option<Loc>,
) -> Result<Outcome<X>, AllocError>
    ensures meaning { IfOk result (λ m. meaning_of m
        ≡ meant.tag (S.bare_entities entities.now) (bare_value left.now) (bare_value right.now)) }
    ensures place { IfOk result (λ m. IfErr (placed_result_of m) (λ f. place_in f ≡ source_loc)) }
{
    match (as_entity(left), as_text(right)) {
        (Some(uid), Some(key)) => entity_tag(alloc, entities, uid, key, source_loc),
        (Some(_), None) => Ok(Outcome::fail(EvalFault::WrongType, source_loc)),
        (None, _) => Ok(Outcome::fail(EvalFault::WrongType, source_loc)),
    }
}

// Whether there is a tag.
#[tactic(auto, using(crate::proofs::ByKind::has_tag_laws))]
fn has_tag<X: Ord + Drop, S: EntityStore<X>>(
    entities: &S,
    left: &Value<X>,
    right: &Value<X>,
) -> Result<Literal, EvalFault>
    ensures { literal_outcome (faulted result)
        ≡ meant.has_tag (S.bare_entities entities.now) (bare_value left.now)
        (bare_value right.now) }
{
    match (as_entity(left), as_text(right)) {
        (Some(uid), Some(key)) => has_entity_tag(entities, uid, key),
        (Some(_), None) => Err(EvalFault::WrongType),
        (None, _) => Err(EvalFault::WrongType),
    }
}

// Whether the first value is below the second: extension values as the table compares them.
#[tactic(auto, using(crate::proofs::Compared::compared_laws))]
fn is_less<X: Ord + Drop, T: CallableFunctions<X>>(
    functions: &T,
    left: &Value<X>,
    right: &Value<X>,
) -> Result<Literal, EvalFault>
    requires left { IsTrue (well_formed X.cmp left.now) }
    requires right { IsTrue (well_formed X.cmp right.now) }
    ensures { literal_outcome (faulted result)
        ≡ compared_or (T.bare_functions functions.now).compare is_lt (bare_value left.now)
        (bare_value right.now) (settled
        (apply_two X.cmp X.eq binary.Less (bare_value left.now) (bare_value right.now))) }
{
    match (as_extension(left), as_extension(right)) {
        (Some(first), Some(second)) => match functions.compare(first, second) {
            Some(order) => Ok(Literal::Bool(order.is_lt())),
            None => Err(EvalFault::WrongType),
        },
        (Some(_), None) => apply_two(BinaryOp::Less, left, right),
        (None, _) => apply_two(BinaryOp::Less, left, right),
    }
}

// Whether the first value is not above the second.
#[tactic(auto, using(crate::proofs::Compared::compared_laws))]
fn is_at_most<X: Ord + Drop, T: CallableFunctions<X>>(
    functions: &T,
    left: &Value<X>,
    right: &Value<X>,
) -> Result<Literal, EvalFault>
    requires left { IsTrue (well_formed X.cmp left.now) }
    requires right { IsTrue (well_formed X.cmp right.now) }
    ensures { literal_outcome (faulted result)
        ≡ compared_or (T.bare_functions functions.now).compare is_le (bare_value left.now)
        (bare_value right.now) (settled
        (apply_two X.cmp X.eq binary.LessEq (bare_value left.now) (bare_value right.now))) }
{
    match (as_extension(left), as_extension(right)) {
        (Some(first), Some(second)) => match functions.compare(first, second) {
            Some(order) => Ok(Literal::Bool(order.is_le())),
            None => Err(EvalFault::WrongType),
        },
        (Some(_), None) => apply_two(BinaryOp::LessEq, left, right),
        (None, _) => apply_two(BinaryOp::LessEq, left, right),
    }
}
