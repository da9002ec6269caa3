//! The nodes that what is known answers, each put in the place of what its children gave.
ghost use Rattle.std.specs.Prelude.{◌≡◌, ◌≤◌, IfOk, Ok, map, vec_len};
ghost use Rattle.std.specs.Rc.{rc_str_bytes};
ghost use Rattle.cedar_names.specs.PlainNames.{bare_name};
ghost use Rattle.cedar_builders.specs.Fold.{and_then};
ghost use Rattle.cedar_builders.specs.NodeByNode.{OfOne, OfTwo};
ghost use Rattle.cedar_exprs.specs.BareExpr.{further};
ghost use Rattle.cedar_exprs.specs.PostOrder.{IsPut};
ghost use Rattle.semantics_eval.specs.Outcomes.{settled};
ghost use Rattle.semantics_eval.specs.Rows.{all_values};
ghost use Rattle.semantics_request.specs.Entities.{attribute, has_attribute};
ghost use Rattle.semantics_request.specs.Evaluator.{
  apply_by,
  call_by,
  known_or_open,
  path_by,
  then_two,
};
ghost use Rattle.semantics_request.specs.Requests.{value_of};
ghost use Rattle.cedar_evaluator.specs.Outcomes.{meaning_of};
ghost use Rattle.cedar_request_evaluator.specs.Refusals.{refused_name};
ghost use Rattle.cedar_request.specs.Requests.{bare_request};

use crate::attributes::{get_attribute, has_attributes};
use crate::binary::apply_to_outcomes;
use cedar_evaluator::operations::split_row;
use cedar_evaluator::{CallRefused, EvalFault, Outcome};
use cedar_exprs::{PostOrderFault, push_item, take_many, take_two};
use cedar_names::{Loc, Name, NonEmpty};
use cedar_request::{CallableFunction, CallableFunctions, EntityStore, Request};
use cedar_terms::{BinaryOp, Var};
use std::alloc::{AllocError, Global};
use std::rc::RcStr;

// A variable: its value, or the fault `Open`.
pub(crate) fn put_var<X: Ord + Drop>(
    alloc: Global,
    request: &Request<X>,
    var: Var,
    source_loc: Option<Loc>,
    done: &mut Vec<Outcome<X>>,
) -> Result<(), PostOrderFault<CallRefused>>
    ensures { IsPut meaning_of refused_name
        (λ ms r. r ≡ Ok (known_or_open (value_of (bare_request request.now) var))) 0
        done.old.items done.new.items result }
{
    let outcome = variable(alloc, request, var, source_loc)?;
    Ok(push_item(done, outcome)?)
}

// The value of a variable, or that it is not known.
fn variable<X: Ord + Drop>(
    alloc: Global,
    request: &Request<X>,
    var: Var,
    source_loc: Option<Loc>,
) -> Result<Outcome<X>, AllocError>
    ensures { IfOk result (λ m. meaning_of m
        ≡ known_or_open (value_of (bare_request request.now) var)) }
{
    match request.value_of(alloc, var)? {
        Some(value) => Ok(Outcome::of_value(value.into_value())),
        None => Ok(Outcome::fail(EvalFault::Open, source_loc)),
    }
}

// An operator on two values.
pub(crate) fn put_binary<X: Ord + Drop, S: EntityStore<X>, T: CallableFunctions<X>>(
    alloc: Global,
    entities: &S,
    functions: &T,
    op: BinaryOp,
    source_loc: Option<Loc>,
    done: &mut Vec<Outcome<X>>,
) -> Result<(), PostOrderFault<CallRefused>>
    requires { 2 ≤ vec_len done.old }
    ensures { IsPut meaning_of refused_name
        (OfTwo (then_two (apply_by X.cmp X.eq (T.bare_functions functions.now)
        (S.bare_entities entities.now) op))) 2
        done.old.items done.new.items result }
{
    let (left, right) = take_two(done);
    let outcome = apply_to_outcomes(alloc, entities, functions, op, left, right, source_loc)?;
    Ok(push_item(done, outcome)?)
}

// The value of an attribute.
pub(crate) fn put_get<X: Ord + Drop, S: EntityStore<X>>(
    alloc: Global,
    entities: &S,
    attr: &RcStr,
    source_loc: Option<Loc>,
    done: &mut Vec<Outcome<X>>,
) -> Result<(), PostOrderFault<CallRefused>>
    requires { 1 ≤ vec_len done.old }
    ensures { IsPut meaning_of refused_name
        (OfOne (λ m. and_then
        (attribute (S.bare_entities entities.now) (rc_str_bytes attr.now)) m)) 1
        done.old.items done.new.items result }
{
    let child = done.take_last();
    let outcome = get_attribute(alloc, entities, child, attr, source_loc)?;
    Ok(push_item(done, outcome)?)
}

// Whether a path of attributes is there.
pub(crate) fn put_has<X: Ord + Drop, S: EntityStore<X>>(
    entities: &S,
    attrs: &NonEmpty<RcStr>,
    source_loc: Option<Loc>,
    done: &mut Vec<Outcome<X>>,
) -> Result<(), PostOrderFault<CallRefused>>
    requires { 1 ≤ vec_len done.old }
    ensures { let s = S.bare_entities entities.now in
        IsPut meaning_of refused_name
        (OfOne (λ m. path_by (has_attribute s) (attribute s) m (rc_str_bytes attrs.now.head)
        (further attrs.now))) 1
        done.old.items done.new.items result }
{
    let child = done.take_last();
    let outcome = has_attributes(entities, child, attrs, source_loc);
    Ok(push_item(done, outcome)?)
}

// A call: what the function of that name gives, or that there is none.
#[tactic(auto, using(crate::proofs::Calls::called, crate::proofs::Calls::not_called))]
pub(crate) fn put_call<X: Ord + Drop, T: CallableFunctions<X>>(
    alloc: Global,
    functions: &T,
    name: &Name,
    count: usize,
    source_loc: Option<Loc>,
    done: &mut Vec<Outcome<X>>,
) -> Result<(), PostOrderFault<CallRefused>>
    requires { count ≤ vec_len done.old }
    ensures { let n = bare_name name.now in
        IsPut meaning_of refused_name
        (λ ms r. r ≡ call_by n ((T.bare_functions functions.now).call n) ms) count
        done.old.items done.new.items result }
{
    let args = take_many(done, count)?;
    match functions.func(name) {
        Some(function) => {
            let outcome = call(alloc, &function, args, source_loc)?;
            Ok(push_item(done, outcome)?)
        }
        None => {
            drop(args);
            let name = name.clone(alloc)?;
            Err(PostOrderFault::Refused(CallRefused { name }))
        }
    }
}

// What a function gives: the first fault of an argument, else what it makes of their values.
fn call<X: Ord + Drop, F: CallableFunction<X>>(
    alloc: Global,
    function: &F,
    args: Vec<Outcome<X>>,
    source_loc: Option<Loc>,
) -> Result<Outcome<X>, AllocError>
    ensures { IfOk result (λ m. meaning_of m
        ≡ and_then (λ ts. settled (F.gives function.now ts))
        (all_values (map meaning_of args.items))) }
{
    match split_row(alloc, args)? {
        Ok(values) => match function.call(alloc, &values)? {
            Ok(value) => Ok(Outcome::of_value(value.into_value())),
            Err(fault) => Ok(Outcome::fail(fault, source_loc)),
        },
        Err(fault) => Ok(Outcome::of_fault(fault)),
    }
}
