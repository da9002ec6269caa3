//! Partial values.
use calls_decode::{expr, placed, sketch};
use calls_decode_values::{Keyed, KeyedValue, value};
use calls_syntax::{Answer, CallError, Sexpr, boolean, holds, maybe_place, ok, place};
use cedar_exprs::Expr;
use cedar_names::Loc;
use cedar_terms::Unknown;
use cedar_values::{ContainsUnknown, PartialValue, PartialValueToValueError, split};
use either::Either;
use std::alloc::Global;
use std::convert::TryFrom;
use std::fmt::Display;
use std::rc::RcStr;
use std::vec::IntoIter;

type Item = PartialValue<Keyed>;

/// The answer to a call on partial values.
pub fn answer(alloc: Global, call: &str, args: &[Sexpr]) -> Result<String, CallError> {
    match call {
        "split" => divided(alloc, items(alloc, args)?),
        _ => match args {
            [one] => match call {
                "residual" => refused(alloc, item(alloc, one)?),
                _ => Err(CallError::UnknownCall),
            },
            [a, b] => match call {
                "partial" => moved(alloc, item(alloc, b)?, maybe_place(alloc, a)?),
                "partialexpr" => written(alloc, item(alloc, b)?, maybe_place(alloc, a)?),
                "eqpartial" => equal(alloc, &item(alloc, a)?, &item(alloc, b)?),
                _ => Err(CallError::UnknownCall),
            },
            _ => Err(CallError::UnknownCall),
        },
    }
}

fn items(alloc: Global, sexprs: &[Sexpr]) -> Result<Vec<Item>, CallError> {
    let mut items = Vec::new(alloc);
    for sexpr in sexprs {
        items.push(item(alloc, sexpr)?)?;
    }
    Ok(items)
}

fn item(alloc: Global, sexpr: &Sexpr) -> Result<Item, CallError> {
    match sexpr.list()? {
        [head, inner] => match head.word()? {
            "v" => Ok(PartialValue::from(value(alloc, inner)?)),
            "r" => Ok(PartialValue::Residual(expr(alloc, inner)?)),
            "u" => unknown(alloc, inner.word()?),
            "x" => with_unknown(alloc, inner),
            _ => Err(CallError::BadArguments),
        },
        _ => Err(CallError::BadArguments),
    }
}

fn unknown(alloc: Global, name: &str) -> Result<Item, CallError> {
    let name = RcStr::from_str(alloc, name)?;
    Ok(PartialValue::unknown(Unknown::new_untyped(name)))
}

fn with_unknown(alloc: Global, sexpr: &Sexpr) -> Result<Item, CallError> {
    let e = expr(alloc, sexpr)?;
    if e.contains_unknown(alloc)? {
        Ok(PartialValue::from_expr(e))
    } else {
        Err(CallError::BadArguments)
    }
}

fn equal(alloc: Global, a: &Item, b: &Item) -> Result<String, CallError> {
    boolean(alloc, *a == *b)
}

// Text and place of the item at this place, and what it is as a value.
fn moved(alloc: Global, item: Item, loc: Option<Loc>) -> Result<String, CallError> {
    let copy = copied(alloc, &item)?;
    told(alloc, &copy, item.with_maybe_source_loc(loc))
}

fn told(alloc: Global, copy: &Item, moved: Item) -> Result<String, CallError> {
    holds(*copy == moved, "a partial value at two places")?;
    Answer::new(alloc)
        .made(at_place(alloc, &moved))
        .labelled_made("| ", known(alloc, moved))
        .end()
}

fn copied(alloc: Global, item: &Item) -> Result<Item, CallError> {
    let copy = item.clone(alloc)?;
    holds(copy == *item, "a partial value and its copy")?;
    Ok(copy)
}

fn known(alloc: Global, item: Item) -> Result<String, CallError> {
    match value_of(item) {
        Ok(v) => Answer::new(alloc).labelled("value ", &v).end(),
        Err(_) => Ok(format!(in alloc; "contains-unknown")?),
    }
}

fn at_place(alloc: Global, item: &Item) -> Result<String, CallError> {
    match item {
        PartialValue::Value(v) => value_text(alloc, v),
        PartialValue::Residual(e) => residual_text(alloc, e),
    }
}

fn value_text(alloc: Global, v: &KeyedValue) -> Result<String, CallError> {
    Answer::new(alloc)
        .word(v)
        .labelled_made("| ", place(alloc, v.source_loc()))
        .end()
}

fn residual_text(alloc: Global, e: &Expr) -> Result<String, CallError> {
    Answer::new(alloc)
        .made(sketch(alloc, e))
        .labelled_made("| ", place(alloc, e.source_loc()))
        .end()
}

fn value_of(item: Item) -> Result<KeyedValue, PartialValueToValueError> {
    KeyedValue::try_from(item)
}

// The value, or the text of the refusal and the residual that it holds.
fn refused(alloc: Global, item: Item) -> Result<String, CallError> {
    match value_of(item) {
        Ok(v) => ok(alloc, &v),
        Err(error) => refusal(alloc, error),
    }
}

fn refusal(alloc: Global, error: PartialValueToValueError) -> Result<String, CallError> {
    let text = error_text(alloc, &error)?;
    let PartialValueToValueError::ContainsUnknown(held) = error;
    Answer::new(alloc)
        .word(&text)
        .labelled_made("| ", residual_of(alloc, text.as_str(), held))
        .end()
}

fn error_text(alloc: Global, error: &PartialValueToValueError) -> Result<String, CallError> {
    Ok(format!(in alloc; "{error}")?)
}

// The residual of a refusal that has this text, also where it is made anew.
fn residual_of(alloc: Global, text: &str, held: ContainsUnknown) -> Result<String, CallError> {
    has_text(alloc, text, &held)?;
    let residual = sketch(alloc, held.residual())?;
    is_made_anew(alloc, text, held)?;
    Ok(residual)
}

fn has_text(alloc: Global, text: &str, held: &ContainsUnknown) -> Result<(), CallError> {
    let of_held = format!(in alloc; "{held}")?;
    holds(of_held.as_str() == text, "the texts of a refusal")
}

fn is_made_anew(alloc: Global, text: &str, held: ContainsUnknown) -> Result<(), CallError> {
    let again = error_text(alloc, &PartialValueToValueError::from(held))?;
    holds(again.as_str() == text, "a refusal made anew")
}

fn written(alloc: Global, item: Item, loc: Option<Loc>) -> Result<String, CallError> {
    let moved = item.with_maybe_source_loc(loc);
    positions(alloc, &moved)
}

fn positions(alloc: Global, item: &Item) -> Result<String, CallError> {
    let e = item.to_expr(alloc)?;
    placed(alloc, &e)
}

fn divided(alloc: Global, items: Vec<Item>) -> Result<String, CallError> {
    match split(alloc, items)? {
        Either::Left(values) => left(alloc, values),
        Either::Right(exprs) => right(alloc, exprs),
    }
}

fn left<V: Display + Drop>(alloc: Global, values: IntoIter<V>) -> Result<String, CallError> {
    let mut text = format!(in alloc; "left")?;
    for v in values {
        write!(text, " | {v}")?;
    }
    Ok(text)
}

fn right(alloc: Global, exprs: IntoIter<Expr>) -> Result<String, CallError> {
    let mut text = format!(in alloc; "right")?;
    for e in exprs {
        write_sketch(alloc, &mut text, &e)?;
    }
    Ok(text)
}

fn write_sketch(alloc: Global, text: &mut String, e: &Expr) -> Result<(), CallError> {
    let sketched = sketch(alloc, e)?;
    write!(text, " | {sketched}")?;
    Ok(())
}
