//! What is known of variables and of operations on known values.
ghost use Rattle.std.specs.Prelude.{◌≡◌, IfOk, IfSome, IsTrue, option_map};
ghost use Rattle.std.specs.Rc.{rc_str_bytes};
ghost use Rattle.cedar_builders.specs.Fold.{and_then};
ghost use Rattle.semantics_simplify.specs.Simplified.{outcome_of};
ghost use Rattle.semantics_request.specs.Entities.{attribute};
ghost use Rattle.semantics_request.specs.Evaluator.{apply_over, known_or_open, then_two};
ghost use Rattle.semantics_request.specs.Requests as meant;
ghost use Rattle.semantics_request.specs.Residuals.{plain_or_open};
ghost use Rattle.cedar_values.specs.BareValues.{bare_value};
ghost use Rattle.cedar_values.specs.WellFormed.{well_formed};
ghost use Rattle.cedar_request.specs.Requests.{bare_request};
ghost use Rattle.cedar_simplifier.specs.Simplified.{meaning_of, value_in};

use crate::plain::plain_copy;
use cedar_request::{EntityStore, NoFunctions, Request};
use cedar_request_evaluator::operations::{apply_to_values, find_attribute};
use cedar_simplifier::Simplified;
use cedar_terms::{BinaryOp, Var};
use cedar_values::Value;
use std::alloc::{AllocError, Global};
use std::rc::RcStr;

// The value of a variable, if it is known.
pub(crate) fn variable<X: Ord + Drop>(
    alloc: Global,
    request: &Request<X>,
    var: Var,
) -> Result<Option<Value<X>>, AllocError>
    ensures value { IfOk result (λ found. option_map bare_value found
        ≡ value_in (plain_or_open X.cmp
        (known_or_open (meant.value_of (bare_request request.now) var)))) }
    ensures well_formed { IfOk result (λ found.
        IfSome found (λ v. IsTrue (well_formed X.cmp v))) }
{
    match request.value_of(alloc, var)? {
        Some(value) => plain_copy(alloc, value.as_value()),
        None => Ok(None),
    }
}

// What an operator makes of two operands, if that is known.
#[tactic(auto, using(crate::proofs::Operands::operand_laws))]
pub(crate) fn operator<X: Ord + Drop, S: EntityStore<X>>(
    alloc: Global,
    entities: &S,
    op: BinaryOp,
    left: &Simplified<X>,
    right: &Simplified<X>,
) -> Result<Option<Value<X>>, AllocError>
    ensures value { IfOk result (λ found. option_map bare_value found
        ≡ value_in (then_two
        (λ t u. plain_or_open X.cmp (apply_over X.cmp X.eq (S.bare_entities entities.now) op t u))
        (outcome_of (meaning_of left.now)) (outcome_of (meaning_of right.now)))) }
    ensures well_formed { IfOk result (λ found.
        IfSome found (λ v. IsTrue (well_formed X.cmp v))) }
{
    match left.as_value() {
        Some(first) => match right.as_value() {
            Some(second) => operator_on_values(alloc, entities, op, first, second),
            None => Ok(None),
        },
        None => Ok(None),
    }
}

// The same of two values.
#[tactic(auto, using(crate::proofs::Operands::same_values))]
fn operator_on_values<X: Ord + Drop, S: EntityStore<X>>(
    alloc: Global,
    entities: &S,
    op: BinaryOp,
    left: &Value<X>,
    right: &Value<X>,
) -> Result<Option<Value<X>>, AllocError>
    requires left { IsTrue (well_formed X.cmp left.now) }
    requires right { IsTrue (well_formed X.cmp right.now) }
    ensures value { IfOk result (λ found. option_map bare_value found
        ≡ value_in (plain_or_open X.cmp (apply_over X.cmp X.eq (S.bare_entities entities.now) op
        (bare_value left.now) (bare_value right.now)))) }
    ensures well_formed { IfOk result (λ found.
        IfSome found (λ v. IsTrue (well_formed X.cmp v))) }
{
    let outcome = apply_to_values(alloc, entities, &NoFunctions, op, left, right, None)?;
    match outcome.as_result() {
        Ok(value) => plain_copy(alloc, value),
        Err(_) => Ok(None),
    }
}

// The value of an attribute, if it is known.
#[tactic(auto, using(crate::proofs::PathSteps::attribute_laws))]
pub(crate) fn attribute<X: Ord + Drop, S: EntityStore<X>>(
    alloc: Global,
    entities: &S,
    expr: &Simplified<X>,
    attr: &RcStr,
) -> Result<Option<Value<X>>, AllocError>
    ensures value { IfOk result (λ found. option_map bare_value found
        ≡ value_in (and_then
        (λ t. plain_or_open X.cmp
        (attribute (S.bare_entities entities.now) (rc_str_bytes attr.now) t))
        (outcome_of (meaning_of expr.now)))) }
    ensures well_formed { IfOk result (λ found.
        IfSome found (λ v. IsTrue (well_formed X.cmp v))) }
{
    match expr.as_value() {
        Some(value) => match find_attribute(entities, value, attr) {
            Ok(Some(found)) => plain_copy(alloc, found),
            Ok(None) => Ok(None),
            Err(_) => Ok(None),
        },
        None => Ok(None),
    }
}
