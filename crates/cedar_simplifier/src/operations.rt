//! The operations on what is known: each has a value where the evaluator's has one.
ghost use Rattle.std.specs.Prelude.{◌≡◌, IfOk, IfSome, IsTrue, map, option_map};
ghost use Rattle.std.specs.Rc.{rc_str_bytes};
ghost use Rattle.cedar_terms.specs.Entities.{bare_entity_type};
ghost use Rattle.cedar_values.specs.BareValues.{bare_value};
ghost use Rattle.cedar_values.specs.WellFormed.{well_formed};
ghost use Rattle.semantics_eval.specs.Attributes.{get_in, has_path as path_in, is_in, like_in};
ghost use Rattle.semantics_eval.specs.Operators.{apply_one as one, apply_two as two};
ghost use Rattle.semantics_eval.specs.Outcomes.{settled, strict, strict_two};
ghost use Rattle.cedar_evaluator.specs.Kinds as kinds;
ghost use Rattle.cedar_evaluator.specs.Outcomes.{faulted, literal_outcome};
ghost use Rattle.semantics_simplify.specs.Simplified.{outcome_of};
ghost use Rattle.cedar_simplifier.specs.Simplified.{literal_value, meaning_of, value_in};

use crate::simplified::Simplified;
use cedar_evaluator::{EvalFault, operations as values};
use cedar_names::NonEmpty;
use cedar_terms::{BinaryOp, EntityType, Literal, Pattern, UnaryOp};
use cedar_values::Value;
use std::alloc::{AllocError, Global};
use std::rc::RcStr;

// The answer, if it is no fault.
fn answered<X>(answer: Result<Literal, EvalFault>) -> Option<Literal>
    ensures { literal_value {X = X} result
        ≡ value_in (literal_outcome (faulted answer)) }
{
    match answer {
        Ok(literal) => Some(literal),
        Err(_) => None,
    }
}

// The answer of a test, if there is one.
fn tested<X>(answer: Option<bool>) -> Option<Literal>
    ensures { literal_value {X = X} result
        ≡ value_in (settled (kinds.tested answer)) }
{
    match answer {
        Some(truth) => Some(Literal::Bool(truth)),
        None => None,
    }
}

// An operator on one argument.
#[tactic(auto, using(crate::proofs::Operands::known, crate::proofs::Operands::residual))]
pub(crate) fn apply_one<X: Ord + Drop>(op: UnaryOp, arg: &Simplified<X>) -> Option<Literal>
    ensures { literal_value result ≡ value_in (strict (one op) (outcome_of (meaning_of arg.now))) }
{
    match arg.as_value() {
        Some(value) => answered::<X>(values::apply_one(op, value)),
        None => None,
    }
}

// An operator on two arguments.
#[tactic(auto, using(crate::proofs::Operands::known, crate::proofs::Operands::residual))]
pub(crate) fn apply_two<X: Ord + Drop>(
    op: BinaryOp,
    left: &Simplified<X>,
    right: &Simplified<X>,
) -> Option<Literal>
    ensures { literal_value result ≡ value_in
        (strict_two (two X.cmp X.eq op)
        (outcome_of (meaning_of left.now)) (outcome_of (meaning_of right.now))) }
{
    match left.as_value() {
        Some(first) => match right.as_value() {
            Some(second) => answered::<X>(values::apply_two(op, first, second)),
            None => None,
        },
        None => None,
    }
}

// The value of an attribute.
#[tactic(auto, using(crate::proofs::Operands::known, crate::proofs::Operands::residual))]
pub(crate) fn get<X: Ord + Drop>(
    alloc: Global,
    expr: &Simplified<X>,
    attr: &RcStr,
) -> Result<Option<Value<X>>, AllocError>
    ensures value { IfOk result (λ found. option_map bare_value found
        ≡ value_in (strict (get_in (rc_str_bytes attr.now)) (outcome_of (meaning_of expr.now)))) }
    ensures well_formed { IfOk result (λ found. IfSome found
        (λ v. IsTrue (well_formed X.cmp v))) }
{
    match expr.as_value() {
        Some(value) => match values::attribute(value, attr) {
            Ok(Some(found)) => Ok(Some(found.clone(alloc)?)),
            Ok(None) => Ok(None),
            Err(_) => Ok(None),
        },
        None => Ok(None),
    }
}

// Whether a path of attributes is there.
#[tactic(auto, using(crate::proofs::Operands::known, crate::proofs::Operands::residual))]
pub(crate) fn has<X: Ord + Drop>(expr: &Simplified<X>, attrs: &NonEmpty<RcStr>) -> Option<Literal>
    ensures { literal_value result ≡ value_in
        (path_in (outcome_of (meaning_of expr.now)) (rc_str_bytes attrs.now.head)
        (map rc_str_bytes attrs.now.tail.items)) }
{
    match expr.as_value() {
        Some(value) => match values::has_path(value, &attrs.head, &attrs.tail) {
            Ok(truth) => Some(Literal::Bool(truth)),
            Err(_) => None,
        },
        None => None,
    }
}

// Whether a pattern matches the text.
#[tactic(auto, using(crate::proofs::Operands::known, crate::proofs::Operands::residual))]
pub(crate) fn like<X: Ord + Drop>(expr: &Simplified<X>, pattern: &Pattern) -> Option<Literal>
    ensures { literal_value result
        ≡ value_in (strict (like_in pattern.now) (outcome_of (meaning_of expr.now))) }
{
    match expr.as_value() {
        Some(value) => tested::<X>(values::is_like(value, pattern)),
        None => None,
    }
}

// Whether the entity is of a type.
#[tactic(auto, using(crate::proofs::Operands::known, crate::proofs::Operands::residual))]
pub(crate) fn is_of_type<X: Ord + Drop>(expr: &Simplified<X>, ty: &EntityType) -> Option<Literal>
    ensures { literal_value result
        ≡ value_in (strict (is_in (bare_entity_type ty.now)) (outcome_of (meaning_of expr.now))) }
{
    match expr.as_value() {
        Some(value) => tested::<X>(values::is_of_type(value, ty)),
        None => None,
    }
}
