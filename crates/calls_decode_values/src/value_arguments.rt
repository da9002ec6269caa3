//! The values that arguments stand for.
use crate::keyed::Keyed;
use calls_decode::{expr, restricted_expr, sketch};
use calls_syntax::{CallError, Sexpr, count, literal, loc, name, shared_text, text};
use cedar_exprs::{Expr, ExprKind, RestrictedExpr};
use cedar_names::{Loc, Name};
use cedar_terms::Literal;
use cedar_values::{RepresentableExtensionValue, Set, Value, ValueKind};
use std::alloc::Global;
use std::collections::HashMap;
use std::rc::{Rc, RcStr};

/// A value whose extension values are keyed.
pub type KeyedValue = Value<Keyed>;

/// What unknowns are bound to: `(("x" V) ..)`; of equal names the last stands.
pub fn bindings(alloc: Global, sexpr: &Sexpr) -> Result<HashMap<RcStr, KeyedValue>, CallError> {
    let mut values = HashMap::new(alloc);
    for sexpr in sexpr.list()? {
        insert_value(alloc, &mut values, sexpr)?;
    }
    Ok(values)
}

fn insert_value(
    alloc: Global,
    values: &mut HashMap<RcStr, KeyedValue>,
    sexpr: &Sexpr,
) -> Result<(), CallError> {
    let (key, bound) = pair(alloc, sexpr)?;
    drop(values.insert(key, bound)?);
    Ok(())
}

/// The value that an argument stands for: a literal, `(set V ..)`, `(setfrom V ..)`,
/// `(setlits V ..)`, `(record ("k" V) ..)`, `(@ 3 7 V)` at a place, `(@ - V)` at none,
/// `(ext K "NOTE")`, `(lazy K "NOTE")`, `(extas K CALL)`, or `(within 3 V)`, V in three sets inside
/// one another.
#[cycle(values)]
pub fn value(alloc: Global, sexpr: &Sexpr) -> Result<KeyedValue, CallError> {
    match sexpr {
        Sexpr::List(sexprs) => match sexprs.as_slice() {
            [head, args @ ..] => compound(alloc, head.word()?, args),
            [] => Err(CallError::BadArguments),
        },
        _ => of_literal(given_literal(alloc, sexpr)),
    }
}

// The functions below take what was made of the arguments, or why it was not: so the cycle has
// little to drop.
fn of_literal(literal: Result<Literal, CallError>) -> Result<KeyedValue, CallError> {
    Ok(Value::from(literal?))
}

// What a list stands for, by its word and what follows.
#[cycle(values)]
fn compound(alloc: Global, head: &str, args: &[Sexpr]) -> Result<KeyedValue, CallError> {
    match head {
        "set" => sorted(alloc, values(alloc, args)),
        "setfrom" => set_from(alloc, values(alloc, args)),
        "setlits" => set_of_lits(alloc, literals(alloc, args)),
        "record" => record(alloc, value_pairs(alloc, args)),
        _ => of_few(alloc, head, args),
    }
}

// The lists with two or three behind the word.
#[cycle(values)]
fn of_few(alloc: Global, head: &str, args: &[Sexpr]) -> Result<KeyedValue, CallError> {
    match args {
        [a, b] => match head {
            "ext" => noted(alloc, number(alloc, a), text(alloc, b)),
            "lazy" => lazy(alloc, number(alloc, a)),
            "extas" => called_as(alloc, number(alloc, a), expr(alloc, b)),
            "within" => within(alloc, count(a), value(alloc, b)),
            "@" => at_no_place(a, value(alloc, b)),
            _ => Err(CallError::BadArguments),
        },
        [a, b, c] => match head {
            "@" => at_place(loc(alloc, a, b), value(alloc, c)),
            _ => Err(CallError::BadArguments),
        },
        _ => Err(CallError::BadArguments),
    }
}

fn at_place(
    place: Result<Loc, CallError>,
    inner: Result<KeyedValue, CallError>,
) -> Result<KeyedValue, CallError> {
    let place = place?;
    Ok(inner?.with_maybe_source_loc(Some(place)))
}

// What stands in the place of a place has to be `-`.
fn at_no_place(
    place: &Sexpr,
    inner: Result<KeyedValue, CallError>,
) -> Result<KeyedValue, CallError> {
    match place.word()? {
        "-" => Ok(inner?.with_maybe_source_loc(None)),
        _ => Err(CallError::BadArguments),
    }
}

fn within(
    alloc: Global,
    depth: Result<usize, CallError>,
    inner: Result<KeyedValue, CallError>,
) -> Result<KeyedValue, CallError> {
    let depth = depth?;
    let mut value = inner?;
    for _ in 0..depth {
        value = Value::set(alloc, vec![in alloc; value]?, None)?;
    }
    Ok(value)
}

fn sorted(
    alloc: Global,
    values: Result<Vec<KeyedValue>, CallError>,
) -> Result<KeyedValue, CallError> {
    Ok(Value::set(alloc, values?, None)?)
}

fn set_from(
    alloc: Global,
    values: Result<Vec<KeyedValue>, CallError>,
) -> Result<KeyedValue, CallError> {
    let set = Set::from_values(alloc, values?)?;
    Ok(Value::new(ValueKind::Set(set), None))
}

fn set_of_lits(
    alloc: Global,
    literals: Result<Vec<Literal>, CallError>,
) -> Result<KeyedValue, CallError> {
    Ok(Value::set_of_lits(alloc, literals?, None)?)
}

fn record(
    alloc: Global,
    pairs: Result<Vec<(RcStr, KeyedValue)>, CallError>,
) -> Result<KeyedValue, CallError> {
    Ok(Value::record(alloc, pairs?, None)?)
}

fn noted(
    alloc: Global,
    key: Result<i64, CallError>,
    note: Result<String, CallError>,
) -> Result<KeyedValue, CallError> {
    given(alloc, key?, note?)
}

fn given(alloc: Global, key: i64, note: String) -> Result<KeyedValue, CallError> {
    let args = key_and_note(alloc, key, RcStr::from_string(note)?)?;
    called(alloc, key, &ext_call(alloc, args)?)
}

fn key_and_note(alloc: Global, key: i64, note: RcStr) -> Result<Vec<Expr>, CallError> {
    let (key, note) = (Literal::from(key), Literal::from(note));
    Ok(vec![in alloc; Expr::val(key), Expr::val(note)]?)
}

fn ext_call(alloc: Global, args: Vec<Expr>) -> Result<Expr, CallError> {
    Ok(Expr::call_extension_fn(alloc, name(alloc, "ext")?, args)?)
}

fn lazy(alloc: Global, key: Result<i64, CallError>) -> Result<KeyedValue, CallError> {
    let key = key?;
    let keyed = Keyed::new(key, format!(in alloc; "(call canon {key})")?);
    extension(alloc, RepresentableExtensionValue::new_lazy(keyed))
}

/// The values that arguments stand for.
#[cycle(values)]
pub fn values(alloc: Global, sexprs: &[Sexpr]) -> Result<Vec<KeyedValue>, CallError> {
    let mut values = Vec::new(alloc);
    for sexpr in sexprs {
        push(&mut values, value(alloc, sexpr))?;
    }
    Ok(values)
}

/// The pairs `("key" V)` that arguments stand for.
#[cycle(values)]
pub fn value_pairs(alloc: Global, sexprs: &[Sexpr]) -> Result<Vec<(RcStr, KeyedValue)>, CallError> {
    let mut pairs = Vec::new(alloc);
    for sexpr in sexprs {
        push(&mut pairs, pair(alloc, sexpr))?;
    }
    Ok(pairs)
}

fn push<T: Drop>(items: &mut Vec<T>, made: Result<T, CallError>) -> Result<(), CallError> {
    items.push(made?)?;
    Ok(())
}

#[cycle(values)]
fn pair(alloc: Global, sexpr: &Sexpr) -> Result<(RcStr, KeyedValue), CallError> {
    match sexpr {
        Sexpr::List(sexprs) => match sexprs.as_slice() {
            [key, bound] => with_key(shared_text(alloc, key), value(alloc, bound)),
            _ => Err(CallError::BadArguments),
        },
        _ => Err(CallError::BadArguments),
    }
}

fn with_key(
    key: Result<RcStr, CallError>,
    bound: Result<KeyedValue, CallError>,
) -> Result<(RcStr, KeyedValue), CallError> {
    let key = key?;
    Ok((key, bound?))
}

/// The literals that arguments stand for.
pub fn literals(alloc: Global, sexprs: &[Sexpr]) -> Result<Vec<Literal>, CallError> {
    let mut literals = Vec::new(alloc);
    for sexpr in sexprs {
        literals.push(given_literal(alloc, sexpr)?)?;
    }
    Ok(literals)
}

fn given_literal(alloc: Global, sexpr: &Sexpr) -> Result<Literal, CallError> {
    literal(alloc, sexpr)?.ok_or(CallError::BadArguments)
}

/// The number that an argument stands for.
pub fn number(alloc: Global, sexpr: &Sexpr) -> Result<i64, CallError> {
    match literal(alloc, sexpr)? {
        Some(Literal::Long(key)) => Ok(key),
        _ => Err(CallError::BadArguments),
    }
}

fn called_as(
    alloc: Global,
    key: Result<i64, CallError>,
    call: Result<Expr, CallError>,
) -> Result<KeyedValue, CallError> {
    called(alloc, key?, &call?)
}

// The extension value that this call stands for.
fn called(alloc: Global, key: i64, call: &Expr) -> Result<KeyedValue, CallError> {
    match kind_of(call) {
        ExprKind::ExtensionFunctionApp { fn_name, args } => {
            let keyed = Keyed::new(key, sketch(alloc, call)?);
            represented(alloc, keyed, fn_name, args)
        }
        _ => Err(CallError::BadArguments),
    }
}

fn represented(
    alloc: Global,
    keyed: Keyed,
    fn_name: &Name,
    args: &[Expr],
) -> Result<KeyedValue, CallError> {
    let func = fn_name.clone(alloc)?;
    let args = restricted(alloc, args)?;
    extension(alloc, RepresentableExtensionValue::new(keyed, func, args))
}

fn kind_of(e: &Expr) -> &ExprKind {
    e.expr_kind()
}

fn restricted(alloc: Global, args: &[Expr]) -> Result<Vec<RestrictedExpr>, CallError> {
    let mut restricted = Vec::new(alloc);
    for arg in args {
        restricted.push(restricted_expr(alloc, arg.clone(alloc)?)?)?;
    }
    Ok(restricted)
}

fn extension(
    alloc: Global,
    x: RepresentableExtensionValue<Keyed>,
) -> Result<KeyedValue, CallError> {
    Ok(Value::new(ValueKind::ExtensionValue(Rc::new(alloc, x)?), None))
}
