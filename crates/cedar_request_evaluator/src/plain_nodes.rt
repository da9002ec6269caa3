//! The nodes that need nothing of what is known, each put in the place of what its children gave:
//! as the closed evaluator makes them.
ghost use Rattle.std.specs.Prelude.{◌≡◌, ◌≤◌, IfOk, Ok, Err, length, map, vec_len};
ghost use Rattle.cedar_terms.specs.Entities.{bare_entity_type};
ghost use Rattle.cedar_terms.specs.Literals.{bare_literal};
ghost use Rattle.cedar_builders.specs.Keys.{IsAscending, keys_of, meant_pairs};
ghost use Rattle.cedar_builders.specs.NodeByNode.{OfOne, OfThree, OfTwo, keyed};
ghost use Rattle.cedar_exprs.specs.BareExpr.{bare_fields};
ghost use Rattle.cedar_exprs.specs.PostOrder.{IsPut};
ghost use Rattle.semantics_values.specs.BareValue.{LitValue};
ghost use Rattle.semantics_eval.specs.Attributes.{is_in, like_in};
ghost use Rattle.semantics_eval.specs.Operators.{apply_one};
ghost use Rattle.semantics_eval.specs.Outcomes as meant;
ghost use Rattle.semantics_eval.specs.Outcomes.{and_outcome, if_outcome, or_outcome, strict};
ghost use Rattle.semantics_eval.specs.Rows.{record_outcome, set_outcome};
ghost use Rattle.cedar_evaluator.specs.Outcomes.{meaning_of};
ghost use Rattle.cedar_request_evaluator.specs.Refusals.{refused_name};

use cedar_evaluator::operations::{record_of, set_of, split_pairs, split_row};
use cedar_evaluator::{CallRefused, EvalFault, Outcome};
use cedar_exprs::{Expr, PostOrderFault, keyed, push_item, take_many, take_two};
use cedar_names::Loc;
use cedar_terms::{EntityType, Literal, Pattern, UnaryOp};
use std::alloc::{AllocError, Global};
use std::collections::BTreeMap;
use std::rc::RcStr;

// A literal.
pub(crate) fn put_literal<X: Ord + Drop>(
    alloc: Global,
    literal: &Literal,
    done: &mut Vec<Outcome<X>>,
) -> Result<(), PostOrderFault<CallRefused>>
    ensures { IsPut meaning_of refused_name
        (λ ms r. r ≡ Ok (Ok (LitValue (bare_literal literal.now)))) 0
        done.old.items done.new.items result }
{
    let outcome = literal_outcome(alloc, literal)?;
    Ok(push_item(done, outcome)?)
}

fn literal_outcome<X: Ord + Drop>(
    alloc: Global,
    literal: &Literal,
) -> Result<Outcome<X>, AllocError>
    ensures { IfOk result (λ m. meaning_of m ≡ Ok (LitValue (bare_literal literal.now))) }
{
    Ok(Outcome::settle(Ok(literal.clone(alloc)?), None))
}

// What is not known: a slot, an unknown.
pub(crate) fn put_open<X: Ord + Drop>(
    source_loc: Option<Loc>,
    done: &mut Vec<Outcome<X>>,
) -> Result<(), PostOrderFault<CallRefused>>
    ensures { IsPut meaning_of refused_name (λ ms r. r ≡ Ok (Err meant.Open)) 0
        done.old.items done.new.items result }
{
    let outcome = Outcome::fail(EvalFault::Open, source_loc);
    Ok(push_item(done, outcome)?)
}

// A choice.
pub(crate) fn put_if<X: Ord + Drop>(
    source_loc: Option<Loc>,
    done: &mut Vec<Outcome<X>>,
) -> Result<(), PostOrderFault<CallRefused>>
    requires { 3 ≤ vec_len done.old }
    ensures { IsPut meaning_of refused_name (OfThree if_outcome) 3
        done.old.items done.new.items result }
{
    let else_expr = done.take_last();
    let (test_expr, then_expr) = take_two(done);
    let outcome = choose(test_expr, then_expr, else_expr, source_loc);
    Ok(push_item(done, outcome)?)
}

fn choose<X: Ord + Drop>(
    test_expr: Outcome<X>,
    then_expr: Outcome<X>,
    else_expr: Outcome<X>,
    source_loc: Option<Loc>,
) -> Outcome<X>
    ensures { meaning_of result
        ≡ if_outcome (meaning_of test_expr) (meaning_of then_expr) (meaning_of else_expr) }
{
    match test_expr.truth() {
        Ok(true) => then_expr,
        Ok(false) => else_expr,
        Err(_) => test_expr.no_truth(source_loc),
    }
}

// A conjunction.
pub(crate) fn put_and<X: Ord + Drop>(
    source_loc: Option<Loc>,
    done: &mut Vec<Outcome<X>>,
) -> Result<(), PostOrderFault<CallRefused>>
    requires { 2 ≤ vec_len done.old }
    ensures { IsPut meaning_of refused_name (OfTwo and_outcome) 2
        done.old.items done.new.items result }
{
    let (left, right) = take_two(done);
    let outcome = both(left, right, source_loc);
    Ok(push_item(done, outcome)?)
}

fn both<X: Ord + Drop>(left: Outcome<X>, right: Outcome<X>, source_loc: Option<Loc>) -> Outcome<X>
    ensures { meaning_of result ≡ and_outcome (meaning_of left) (meaning_of right) }
{
    match left.truth() {
        Ok(true) => right.into_truth(source_loc),
        Ok(false) => Outcome::settle(Ok(Literal::Bool(false)), None),
        Err(_) => left.no_truth(source_loc),
    }
}

// A disjunction.
pub(crate) fn put_or<X: Ord + Drop>(
    source_loc: Option<Loc>,
    done: &mut Vec<Outcome<X>>,
) -> Result<(), PostOrderFault<CallRefused>>
    requires { 2 ≤ vec_len done.old }
    ensures { IsPut meaning_of refused_name (OfTwo or_outcome) 2
        done.old.items done.new.items result }
{
    let (left, right) = take_two(done);
    let outcome = either(left, right, source_loc);
    Ok(push_item(done, outcome)?)
}

fn either<X: Ord + Drop>(left: Outcome<X>, right: Outcome<X>, source_loc: Option<Loc>) -> Outcome<X>
    ensures { meaning_of result ≡ or_outcome (meaning_of left) (meaning_of right) }
{
    match left.truth() {
        Ok(true) => Outcome::settle(Ok(Literal::Bool(true)), None),
        Ok(false) => right.into_truth(source_loc),
        Err(_) => left.no_truth(source_loc),
    }
}

// An operator on one value.
pub(crate) fn put_unary<X: Ord + Drop>(
    op: UnaryOp,
    source_loc: Option<Loc>,
    done: &mut Vec<Outcome<X>>,
) -> Result<(), PostOrderFault<CallRefused>>
    requires { 1 ≤ vec_len done.old }
    ensures { IsPut meaning_of refused_name (OfOne (strict (apply_one op))) 1
        done.old.items done.new.items result }
{
    let child = done.take_last();
    let outcome = child.apply_one(op, source_loc);
    Ok(push_item(done, outcome)?)
}

// Whether a pattern matches a text.
pub(crate) fn put_like<X: Ord + Drop>(
    pattern: &Pattern,
    source_loc: Option<Loc>,
    done: &mut Vec<Outcome<X>>,
) -> Result<(), PostOrderFault<CallRefused>>
    requires { 1 ≤ vec_len done.old }
    ensures { IsPut meaning_of refused_name (OfOne (λ m. strict (like_in pattern.now) m)) 1
        done.old.items done.new.items result }
{
    let child = done.take_last();
    let outcome = child.like(pattern, source_loc);
    Ok(push_item(done, outcome)?)
}

// Whether an entity is of a type.
pub(crate) fn put_is<X: Ord + Drop>(
    entity_type: &EntityType,
    source_loc: Option<Loc>,
    done: &mut Vec<Outcome<X>>,
) -> Result<(), PostOrderFault<CallRefused>>
    requires { 1 ≤ vec_len done.old }
    ensures { IsPut meaning_of refused_name
        (OfOne (λ m. strict (is_in (bare_entity_type entity_type.now)) m)) 1
        done.old.items done.new.items result }
{
    let child = done.take_last();
    let outcome = child.is_of_type(entity_type, source_loc);
    Ok(push_item(done, outcome)?)
}

// A set.
pub(crate) fn put_set<X: Ord + Drop>(
    alloc: Global,
    count: usize,
    done: &mut Vec<Outcome<X>>,
) -> Result<(), PostOrderFault<CallRefused>>
    requires { count ≤ vec_len done.old }
    ensures { IsPut meaning_of refused_name (λ ms r. r ≡ Ok (set_outcome X.cmp ms)) count
        done.old.items done.new.items result }
{
    let members = take_many(done, count)?;
    let outcome = set_of_outcomes(alloc, members)?;
    Ok(push_item(done, outcome)?)
}

fn set_of_outcomes<X: Ord + Drop>(
    alloc: Global,
    members: Vec<Outcome<X>>,
) -> Result<Outcome<X>, AllocError>
    ensures { IfOk result (λ m. meaning_of m
        ≡ set_outcome X.cmp (map meaning_of members.items)) }
{
    match split_row(alloc, members)? {
        Ok(values) => Ok(Outcome::of_value(set_of(alloc, values)?)),
        Err(fault) => Ok(Outcome::of_fault(fault)),
    }
}

// A record.
pub(crate) fn put_record<X: Ord + Drop>(
    alloc: Global,
    pairs: &BTreeMap<RcStr, Expr>,
    done: &mut Vec<Outcome<X>>,
) -> Result<(), PostOrderFault<CallRefused>>
    requires { length pairs.now.entries ≤ vec_len done.old }
    ensures { IsPut meaning_of refused_name
        (λ ms r. r ≡ Ok (record_outcome (keyed (bare_fields pairs.now.entries) ms)))
        (length pairs.now.entries) done.old.items done.new.items result }
{
    let values = take_many(done, pairs.len())?;
    let keyed = keyed(alloc, pairs, values)?;
    let outcome = record_of_outcomes(alloc, keyed)?;
    Ok(push_item(done, outcome)?)
}

fn record_of_outcomes<X: Ord + Drop>(
    alloc: Global,
    pairs: Vec<(RcStr, Outcome<X>)>,
) -> Result<Outcome<X>, AllocError>
    ensures { IsAscending (keys_of pairs.items) → IfOk result (λ m. meaning_of m
        ≡ record_outcome (meant_pairs meaning_of pairs.items)) }
{
    match split_pairs(alloc, pairs)? {
        Ok(values) => Ok(Outcome::of_value(record_of(alloc, values)?)),
        Err(fault) => Ok(Outcome::of_fault(fault)),
    }
}
