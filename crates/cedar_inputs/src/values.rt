//! The values of expressions that JSON stands for.
ghost use Rattle.std.specs.Prelude.{◌≡◌, IfOk, IfSome, Ok};
ghost use Rattle.cedar_builders.specs.Keys.{keyed, meant_pairs};
ghost use Rattle.cedar_exprs.specs.BareExpr.{bare_expr};
ghost use Rattle.cedar_evaluator.specs.Outcomes.{meaning_of};
ghost use Rattle.cedar_request.specs.Values.{tree_of};
ghost use Rattle.cedar_inputs.specs.Values.{AreNamedValues, AreValuesOf, IsValueOf};

use crate::input_error::InputError;
use crate::no_entities::NoEntities;
use cedar_builders::BuildFault;
use cedar_builders::keys::collect_distinct;
use cedar_evaluator::Outcome;
use cedar_exprs::{Expr, push_item};
use cedar_functions::{BuiltinExtension, BuiltinFunctions};
use cedar_printer::policy_text;
use cedar_request::Request;
use cedar_request_evaluator::RequestEvaluator;
use cedar_values::WellFormedValue;
use std::alloc::{AllocError, Global};
use std::collections::{BTreeMap, HashMap};
use std::rc::RcStr;

// The values of the attributes or of the tags of an entity, which the error names.
pub(crate) fn named_values(
    alloc: Global,
    holder: &str,
    exprs: Vec<(RcStr, Expr)>,
) -> Result<BTreeMap<RcStr, WellFormedValue<BuiltinExtension>>, InputError>
    ensures { IfOk result (AreNamedValues (meant_pairs bare_expr exprs.items)) }
{
    let values = each_value(alloc, holder, exprs)?;
    match collect_distinct(alloc, values) {
        Ok(values) => Ok(values),
        Err(error) => Err(InputError::of_pairs(alloc, holder, error)),
    }
}

// The values one by one, each with its name.
fn each_value(
    alloc: Global,
    holder: &str,
    exprs: Vec<(RcStr, Expr)>,
) -> Result<Vec<(RcStr, WellFormedValue<BuiltinExtension>)>, InputError>
    ensures { IfOk result (λ vs.
        AreValuesOf (meant_pairs bare_expr exprs.items) (keyed vs.items)) }
{
    let mut values = Vec::with_capacity(alloc, exprs.len())?;
    for (name, expr) in exprs {
        let value = named_value(alloc, holder, &name, &expr)?;
        push_item(&mut values, (name, value))?;
    }
    Ok(values)
}

// The value of this name.
fn named_value(
    alloc: Global,
    holder: &str,
    name: &str,
    expr: &Expr,
) -> Result<WellFormedValue<BuiltinExtension>, InputError>
    ensures { IfOk result (IsValueOf (bare_expr expr.now)) }
{
    let place = format!(in alloc; "{holder} {name:?}")?;
    value_of(alloc, &place, expr)
}

// The value of an expression of literals, sets, records and calls of extension functions, which
// asks for nothing else. The error names the place where it stands.
pub(crate) fn value_of(
    alloc: Global,
    place: &str,
    expr: &Expr,
) -> Result<WellFormedValue<BuiltinExtension>, InputError>
    ensures { IfOk result (IsValueOf (bare_expr expr.now)) }
{
    match evaluated(alloc, expr)? {
        Some(value) => Ok(value),
        None => Err(no_value(alloc, place, expr)?),
    }
}

// The value, if there is one.
fn evaluated(
    alloc: Global,
    expr: &Expr,
) -> Result<Option<WellFormedValue<BuiltinExtension>>, AllocError>
    ensures { IfOk result (λ found. IfSome found (IsValueOf (bare_expr expr.now))) }
{
    let request: Request<BuiltinExtension> = Request::new(None, None, None, None);
    let values = HashMap::new(alloc);
    let evaluator = RequestEvaluator::new(&request, &NoEntities, &BuiltinFunctions, &values);
    match evaluator.evaluate(alloc, expr) {
        Ok(outcome) => Ok(value_in(outcome)),
        Err(BuildFault::Build(_)) => Ok(None),
        Err(BuildFault::Memory) => Err(AllocError),
    }
}

// The value of an outcome.
fn value_in(outcome: Outcome<BuiltinExtension>) -> Option<WellFormedValue<BuiltinExtension>>
    ensures { IfSome result (λ v. meaning_of outcome ≡ Ok (tree_of v)) }
{
    match outcome.into_result() {
        Ok(value) => Some(WellFormedValue::new_unchecked(value)),
        Err(_) => None,
    }
}

// An expression has no value.
fn no_value(alloc: Global, place: &str, expr: &Expr) -> Result<InputError, AllocError> {
    let text = policy_text(alloc, expr)?.text;
    Ok(InputError::NoValue {
        place: String::from_str(alloc, place)?,
        problem: format!(in alloc; "{text} has no value")?,
    })
}
