//! Values as expressions and back.
use crate::copies::placed_value;
use calls_decode::{expr, placed, sketch};
use calls_decode_values::{Keyed, KeyedValue, value};
use calls_syntax::{Answer, CallError, Sexpr, holds, maybe_place, ok, place};
use cedar_exprs::{Expr, SubstituteValue};
use cedar_values::{NotValue, ValueKind};
use std::alloc::{AllocError, Global};

/// The answer to a call that makes an expression of a value, or a value of an expression.
pub fn answer(alloc: Global, call: &str, args: &[Sexpr]) -> Result<String, CallError> {
    match args {
        [sexpr] => match call {
            "toexpr" | "toexpr-placed" | "roundtrip" => of_value(
                alloc,
                call,
                &value(alloc, sexpr)?,
            ),
            "tryvalue" | "tryvalue-placed" | "trykind" => of_expr(alloc, call, expr(alloc, sexpr)?),
            "notvalue" => not_value(alloc, sexpr),
            _ => Err(CallError::UnknownCall),
        },
        _ => Err(CallError::UnknownCall),
    }
}

fn of_value(alloc: Global, call: &str, v: &KeyedValue) -> Result<String, CallError> {
    match call {
        "toexpr" => sketch(alloc, &written(alloc, v)?),
        "toexpr-placed" => placed(alloc, &written(alloc, v)?),
        _ => returned(alloc, v),
    }
}

fn of_expr(alloc: Global, call: &str, e: Expr) -> Result<String, CallError> {
    match call {
        "tryvalue" => tried(alloc, e),
        "tryvalue-placed" => tried_with_places(alloc, e),
        _ => tried_kind(alloc, e),
    }
}

// The expression of a value, which `value_expr` and the kind have to give too.
fn written(alloc: Global, v: &KeyedValue) -> Result<Expr, CallError> {
    let e = v.to_expr(alloc)?;
    is_value_expr(alloc, v, &e)?;
    is_kind_expr(alloc, v.value_kind(), &e)?;
    Ok(e)
}

fn is_value_expr(alloc: Global, v: &KeyedValue, e: &Expr) -> Result<(), CallError> {
    let restricted = v.value_expr(alloc)?;
    holds(*restricted.as_expr() == *e, "the expressions of a value")
}

fn is_kind_expr(alloc: Global, kind: &ValueKind<Keyed>, e: &Expr) -> Result<(), CallError> {
    let of_kind = kind.to_expr(alloc)?;
    holds(
        of_kind == *e && of_kind.source_loc().is_none(),
        "values and kinds",
    )
}

fn returned(alloc: Global, v: &KeyedValue) -> Result<String, CallError> {
    match KeyedValue::try_from_expr(alloc, v.to_expr(alloc)?) {
        Ok(w) => ok(alloc, &(w == *v)),
        Err(fault) => no_value(alloc, &fault),
    }
}

fn no_value(alloc: Global, fault: &NotValue) -> Result<String, CallError> {
    match fault {
        NotValue::NotValue { .. } => Ok(format!(in alloc; "not-a-value")?),
        NotValue::Memory => Err(CallError::Memory),
    }
}

// The place of the refusal.
fn refusal(alloc: Global, fault: &NotValue) -> Result<String, CallError> {
    match fault {
        NotValue::NotValue { loc } => {
            Answer::new(alloc)
                .labelled_made("not-a-value ", place(alloc, loc.as_ref()))
                .end()
        }
        NotValue::Memory => Err(CallError::Memory),
    }
}

fn tried(alloc: Global, e: Expr) -> Result<String, CallError> {
    match KeyedValue::try_from_expr(alloc, e) {
        Ok(v) => value_text(alloc, &v),
        Err(fault) => refusal(alloc, &fault),
    }
}

fn value_text(alloc: Global, v: &KeyedValue) -> Result<String, CallError> {
    Answer::new(alloc)
        .labelled("ok ", v)
        .labelled_made("@", place(alloc, v.source_loc()))
        .end()
}

fn tried_with_places(alloc: Global, e: Expr) -> Result<String, CallError> {
    match KeyedValue::try_from_expr(alloc, e) {
        Ok(v) => ok(alloc, &placed_value(alloc, &v)?),
        Err(fault) => refusal(alloc, &fault),
    }
}

fn tried_kind(alloc: Global, e: Expr) -> Result<String, CallError> {
    match ValueKind::<Keyed>::try_from_expr(alloc, e) {
        Ok(kind) => placed_made(alloc, kind.to_expr(alloc)),
        Err(fault) => refusal(alloc, &fault),
    }
}

// Each position with its place, where there was memory for the expression.
fn placed_made(alloc: Global, e: Result<Expr, AllocError>) -> Result<String, CallError> {
    placed(alloc, &e?)
}

fn not_value(alloc: Global, sexpr: &Sexpr) -> Result<String, CallError> {
    match sexpr.word()? {
        "memory" => not_value_text(alloc, &NotValue::Memory),
        _ => {
            let loc = maybe_place(alloc, sexpr)?;
            not_value_text(alloc, &NotValue::NotValue { loc })
        }
    }
}

fn not_value_text(alloc: Global, fault: &NotValue) -> Result<String, CallError> {
    Ok(format!(in alloc; "{fault}")?)
}
