//! Expressions of values, from JSON in Cedar's form (its file `entities/json/value.rs`).
ghost use Rattle.std.specs.Prelude.{
  ◌≡◌,
  IfOk,
  List,
  MatchOption,
  MatchResult,
  Some,
  codes,
  length,
  map,
};
ghost use Rattle.serde_json.specs.Data.{Data, array, number as number_of, string};
ghost use Rattle.serde_json.specs.Find.{get};
ghost use Rattle.serde_json.specs.View.{items_view, members_view, number_view, view};
ghost use Rattle.cedar_names.specs.PlainNames.{bare_name};
ghost use Rattle.cedar_names.specs.declared.err.ParseErrors.TheVariants as name_errors;
ghost use Rattle.cedar_terms.specs.Entities.{BareEntityUID, bare_entity_uid};
ghost use Rattle.cedar_terms.specs.Literals.{EntityLit};
ghost use Rattle.cedar_builders.specs.BareExpr.{BareExpr, Lit, Text};
ghost use Rattle.cedar_builders.specs.Keys.{meant_pairs};
ghost use Rattle.cedar_exprs.specs.BareExpr.{bare_expr};
ghost use Rattle.cedar_json.specs.Refusals.{Gives, IsNothing, Reads};
ghost use Rattle.cedar_json.specs.declared.no_value.NoValue.TheVariants.{Memory};
ghost use Rattle.cedar_json.specs.Values.{
  AreEach,
  AreFields,
  IsArgument,
  IsCallOf,
  IsCallWith,
  IsEntity,
  IsEntityLiteral,
  IsFunctionOf,
  IsLiteral,
  IsMarked,
  IsNameIn,
  IsNamedCall,
  IsRecordOf,
  IsUnmarked,
  StandsFor,
  args_of,
  text_at,
};

use crate::near_names::nearest;
use crate::no_value::NoValue;
use cedar_exprs::{Expr, push_item};
use cedar_function_names::ExtensionFunction;
use cedar_names::laws::name_texts_differ;
use cedar_names::{FromNormalizedStr as _, Name, ParseErrors};
use cedar_terms::{EntityType, EntityUID, Literal};
use serde_json::{Map, Number, Value};
use std::alloc::{AllocError, Global};
use std::rc::RcStr;
use std::slice;

/// The expression of literals, sets, records and calls that JSON stands for.
///
/// `{"__entity": {"type": T, "id": I}}` is an entity, `{"__extn": {"fn": F, "arg": A}}` and
/// `{"__extn": {"fn": F, "args": [A, ..]}}` are calls, and any other object is a record. `null`,
/// numbers that are no integers of 64 bits and `{"__expr": ..}` stand for nothing.
pub fn expr_of(alloc: Global, json: &Value) -> Result<Expr, NoValue>
    ensures stands { IfOk result (λ e. StandsFor (view json.now) (bare_expr e)) }
    ensures complete { (e : BareExpr) → StandsFor (view json.now) e → Gives bare_expr e result }
{
    name_texts_differ();
    meant_expr(alloc, json)
}

#[cycle(values)]
fn meant_expr(alloc: Global, json: &Value) -> Result<Expr, NoValue>
    ensures { Reads (StandsFor (view json.now)) bare_expr result }
{
    match json {
        Value::Null => Err(NoValue::because(alloc, NULL)),
        Value::Bool(truth) => Ok(Expr::val(Literal::Bool(*truth))),
        Value::Number(number) => long_of(alloc, number),
        Value::String(text) => text_of(alloc, text),
        Value::Array(items) => set_of(alloc, items),
        Value::Object(members) => match marked(alloc, json) {
            Some(read) => read,
            None => record_of(alloc, members),
        },
    }
}

const NULL: &str = "`null` is no value; leave the attribute out";

fn long_of(alloc: Global, number: &Number) -> Result<Expr, NoValue>
    ensures { Reads (IsLiteral (number_of (number_view number.now))) bare_expr result }
{
    match number.as_i64() {
        Some(number) => Ok(Expr::val(Literal::Long(number))),
        None => Err(NoValue::because(alloc, "a number is no integer of 64 bits")),
    }
}

fn text_of(alloc: Global, text: &str) -> Result<Expr, NoValue>
    ensures { Reads (IsLiteral (string text.now)) bare_expr result }
{
    Ok(Expr::val(Literal::from_text(alloc, text)?))
}

// The set of some values.
#[cycle(values)]
fn set_of(alloc: Global, items: &[Value]) -> Result<Expr, NoValue>
    ensures { Reads (StandsFor (array (items_view items.now))) bare_expr result }
{
    let mut members = Vec::with_capacity(alloc, items.len())?;
    for item in items {
        match meant_expr(alloc, item) {
            Ok(member) => push_item(&mut members, member)?,
            Err(failure) => return Err(failure.behind(item_step(alloc, members.len())?)),
        }
    }
    Ok(Expr::set(alloc, members)?)
}

// The step of a path to an item.
pub(crate) fn item_step(alloc: Global, at: usize) -> Result<String, AllocError> {
    format!(in alloc; "[{at}]")
}

// What an object stands for by a member `__entity` or `__extn`, if it has one, or `__expr`.
fn marked(alloc: Global, json: &Value) -> Option<Result<Expr, NoValue>>
    ensures { let d = view json.now in MatchOption result (IsUnmarked d)
        (λ read. (IsUnmarked d → ⊥) × Reads
        (IsMarked (get (codes "__entity") d) (get (codes "__extn") d) (get (codes "__expr") d))
        bare_expr read) }
{
    if let Some(entity) = json.get("__entity") {
        return Some(entity_of(alloc, entity));
    }
    if let Some(call) = json.get("__extn") {
        return Some(call_of::<LiteralsAndCalls>(alloc, call));
    }
    match json.get("__expr") {
        Some(_) => Some(Err(NoValue::because(alloc, "`__expr` is no value"))),
        None => None,
    }
}

// The record of some values. As a map has a key once, only memory can be wanting.
#[cycle(values)]
fn record_of(alloc: Global, members: &Map<String, Value>) -> Result<Expr, NoValue>
    ensures { Reads (IsRecordOf (members_view members.now.entries)) bare_expr result }
{
    let pairs = pairs_of(alloc, members)?;
    match Expr::record(alloc, pairs) {
        Ok(record) => Ok(record),
        Err(_) => Err(NoValue::Memory),
    }
}

// The members of an object, each with the expression that it stands for.
#[cycle(values)]
pub(crate) fn pairs_of(
    alloc: Global,
    members: &Map<String, Value>,
) -> Result<Vec<(RcStr, Expr)>, NoValue>
    ensures { Reads (AreFields (members_view members.now.entries))
        (λ ps. meant_pairs bare_expr ps.items) result }
{
    let mut pairs = Vec::with_capacity(alloc, members.len())?;
    for (key, member) in members {
        match meant_expr(alloc, member) {
            Ok(expr) => push_item(&mut pairs, (RcStr::from_str(alloc, key)?, expr))?,
            Err(failure) => return Err(failure.behind(step(alloc, key)?)),
        }
    }
    Ok(pairs)
}

// The step of a path to a member: `.role`, or `["a role"]`.
pub(crate) fn step(alloc: Global, key: &str) -> Result<String, AllocError> {
    if key
        .bytes()
        .all(|byte| byte == b'_' || byte.is_ascii_alphanumeric())
    {
        format!(in alloc; ".{key}")
    } else {
        format!(in alloc; "[{key:?}]")
    }
}

// What an argument of a call may be.
trait Argument {
    ghost is_argument: { Data → BareExpr → Type 0 };

    fn read(alloc: Global, json: &Value) -> Result<Expr, NoValue>
        ensures { Reads (is_argument (view json.now)) bare_expr result };
}

struct Literals;

impl Argument for Literals {
    ghost is_argument = { IsLiteral };

    fn read(alloc: Global, json: &Value) -> Result<Expr, NoValue> {
        literal_of(alloc, json)
    }
}

struct LiteralsAndCalls;

impl Argument for LiteralsAndCalls {
    ghost is_argument = { IsArgument };

    fn read(alloc: Global, json: &Value) -> Result<Expr, NoValue> {
        match json.get("__extn") {
            Some(call) => call_of::<Literals>(alloc, call),
            None => literal_of(alloc, json),
        }
    }
}

// The call that a member `__extn` describes.
fn call_of<A: Argument>(alloc: Global, json: &Value) -> Result<Expr, NoValue>
    ensures { Reads (IsCallOf A.is_argument (view json.now)) bare_expr result }
{
    match (json.get("arg"), json.get("args").and_then(Value::as_array)) {
        (Some(arg), None) => call_with::<A>(alloc, json, slice::from_ref(arg)),
        (None, Some(args)) => call_with::<A>(alloc, json, args),
        _ => Err(NoValue::because(alloc, NO_CALL)),
    }
}

fn call_with<A: Argument>(alloc: Global, json: &Value, args: &[Value]) -> Result<Expr, NoValue>
    ensures { args_of (view json.now) ≡ Some (items_view args.now)
        → Reads (IsCallOf A.is_argument (view json.now)) bare_expr result }
{
    let exprs = each_argument::<A>(alloc, args)?;
    named_call(alloc, json, exprs)
}

fn each_argument<A: Argument>(alloc: Global, args: &[Value]) -> Result<Vec<Expr>, NoValue>
    ensures { Reads (AreEach A.is_argument (items_view args.now))
        (λ es. map bare_expr es.items) result }
{
    let mut exprs = Vec::with_capacity(alloc, args.len())?;
    for arg in args {
        let expr = A::read(alloc, arg)?;
        push_item(&mut exprs, expr)?;
    }
    Ok(exprs)
}

// The literal that an argument of a call is.
fn literal_of(alloc: Global, json: &Value) -> Result<Expr, NoValue>
    ensures { Reads (IsLiteral (view json.now)) bare_expr result }
{
    match json {
        Value::Bool(truth) => Ok(Expr::val(Literal::Bool(*truth))),
        Value::Number(number) => long_of(alloc, number),
        Value::String(text) => text_of(alloc, text),
        Value::Null | Value::Array(_) | Value::Object(_) => {
            Err(NoValue::because(
                alloc,
                "an argument of `__extn` is a literal or a call of such",
            ))
        }
    }
}

// The call of the function that the member `fn` of a call names.
fn named_call(alloc: Global, json: &Value, args: Vec<Expr>) -> Result<Expr, NoValue>
    ensures { MatchResult result
        (λ e. IsNamedCall (view json.now) (map bare_expr args.items) (bare_expr e))
        (IsNothing (IsCallWith (view json.now) (length args.items))) }
{
    match json.get("fn").and_then(Value::as_str) {
        Some(function) => call_function(alloc, json, function, args),
        None => Err(NoValue::because(alloc, NO_CALL)),
    }
}

fn call_function(
    alloc: Global,
    json: &Value,
    function: &str,
    args: Vec<Expr>,
) -> Result<Expr, NoValue>
    ensures { text_at (codes "fn") (view json.now) ≡ Some function.now
        → MatchResult result
        (λ e. IsNamedCall (view json.now) (map bare_expr args.items) (bare_expr e))
        (IsNothing (IsCallWith (view json.now) (length args.items))) }
{
    check_count(alloc, function, args.len())?;
    let name = name_of(alloc, function)?;
    Ok(Expr::call_extension_fn(alloc, name, args)?)
}

// Refuses what is no function of Cedar, and another number of arguments than it takes.
fn check_count(alloc: Global, name: &str, found: usize) -> Result<(), NoValue>
    ensures { Reads (λ _. IsFunctionOf name.now found) (λ u. u) result }
{
    match ExtensionFunction::from_name(name) {
        Some(function) if function.arity() == found => Ok(()),
        Some(function) => Err(wrong_count(alloc, function)?),
        None => Err(unknown_function(alloc, name)?),
    }
}

fn wrong_count(alloc: Global, function: ExtensionFunction) -> Result<NoValue, AllocError> {
    let (name, count) = (function.name(), function.arity());
    let noun = if count == 1 { "argument" } else { "arguments" };
    let problem = format!(in alloc; "`{name}` takes {count} {noun} in all")?;
    Ok(NoValue::because(alloc, &problem))
}

const NO_CALL: &str = "`__extn` wants a text \"fn\", and \"arg\" or a list \"args\"";

fn unknown_function(alloc: Global, name: &str) -> Result<NoValue, AllocError> {
    let names = ExtensionFunction::all().map(|function| function.name());
    let problem = match nearest(alloc, name, &names)? {
        Some(near) => {
            format!(in alloc; "Cedar has no function {name:?}: did you mean `{near}`?")?
        }
        None => format!(in alloc; "Cedar has no function {name:?}")?,
    };
    Ok(NoValue::because(alloc, &problem))
}

// The entity that the member `__entity` of an object describes.
fn entity_of(alloc: Global, json: &Value) -> Result<Expr, NoValue>
    ensures { Reads (IsEntityLiteral (view json.now)) bare_expr result }
{
    let uid = typed_uid(alloc, json)?;
    Ok(Expr::val(Literal::from_uid(alloc, uid)?))
}

// The entity that an object with texts `type` and `id` is.
pub(crate) fn typed_uid(alloc: Global, json: &Value) -> Result<EntityUID, NoValue>
    ensures { Reads (IsEntity (view json.now)) bare_entity_uid result }
{
    let ty = json.get("type").and_then(Value::as_str);
    let id = json.get("id").and_then(Value::as_str);
    let (Some(ty), Some(id)) = (ty, id) else {
        return Err(NoValue::because(alloc, "`__entity` wants texts \"type\" and \"id\""));
    };
    let ty = EntityType::from(name_of(alloc, ty)?);
    Ok(EntityUID::new(ty, RcStr::from_str(alloc, id)?))
}

// The name that a text is.
fn name_of(alloc: Global, text: &str) -> Result<Name, NoValue>
    ensures { Reads (IsNameIn text.now) bare_name result }
{
    name_texts_differ();
    match Name::from_normalized_str(alloc, text) {
        Ok(name) => Ok(name),
        Err(error) => Err(no_name(alloc, text, error)),
    }
}

// Why a text is no name.
fn no_name(alloc: Global, text: &str, error: ParseErrors) -> NoValue
    ensures { error ≡ name_errors.Memory → result ≡ Memory }
{
    match error {
        ParseErrors::Memory => NoValue::Memory,
        _ => match format!(in alloc; "{text:?} is no name of Cedar") {
            Ok(problem) => NoValue::because(alloc, &problem),
            Err(_) => NoValue::Memory,
        },
    }
}
