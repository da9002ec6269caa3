//! The constructors of `Expr`, by their names.
use crate::arguments::{entity_type, function, leaf_of, members, pairs, shared, values};
use calls_decode::{attributes, binary, expr, sketch, unary};
use calls_syntax::{CallError, Sexpr, holds, ok, pattern, shared_text};
use cedar_builders::ExpressionConstructionError;
use cedar_exprs::{Expr, ExprKind};
use cedar_terms::BinaryOp;
use std::alloc::Global;

/// The tree that a constructor makes.
pub fn make(alloc: Global, call: &[Sexpr]) -> Result<String, CallError> {
    sketch(alloc, &constructed(alloc, call)?)
}

/// The record of pairs, or why there is none.
pub fn record(alloc: Global, sexprs: &[Sexpr]) -> Result<String, CallError> {
    match Expr::record(alloc, pairs::<()>(alloc, sexprs)?) {
        Ok(record) => ok(alloc, &sketch(alloc, &record)?),
        Err(ExpressionConstructionError::Memory) => Err(CallError::Memory),
        Err(e) => duplicate(alloc, &e),
    }
}

// The error's text, which a copy has too.
fn duplicate(alloc: Global, e: &ExpressionConstructionError) -> Result<String, CallError> {
    let copy = e.clone(alloc)?;
    holds(copy == *e, "the copy of an error")?;
    Ok(format!(in alloc; "duplicate-key {copy}")?)
}

/// The expression that the constructor makes which the first word names.
pub fn constructed(alloc: Global, call: &[Sexpr]) -> Result<Expr, CallError> {
    match call {
        [f, args @ ..] => of_many(alloc, f.word()?, args),
        [] => Err(CallError::BadArguments),
    }
}

// The constructors of any number of arguments, or of a number that tells them apart.
fn of_many(alloc: Global, f: &str, args: &[Sexpr]) -> Result<Expr, CallError> {
    match f {
        "set" => Ok(Expr::set(alloc, members(alloc, args)?)?),
        "record" => calls_decode::record(alloc, pairs(alloc, args)?),
        "record_arc" => Ok(Expr::record_arc(values(alloc, args)?)),
        "call_extension_fn" => call(alloc, args),
        "extended_has_attr" => path(alloc, args),
        _ => match args {
            [a] => of_one(alloc, f, a),
            [a, b] => of_two(alloc, f, a, b),
            [a, b, c] => of_three(alloc, f, a, b, c),
            _ => Err(CallError::BadArguments),
        },
    }
}

fn call(alloc: Global, args: &[Sexpr]) -> Result<Expr, CallError> {
    match args {
        [f, args @ ..] => {
            let fn_name = function(alloc, f)?;
            Ok(Expr::call_extension_fn(alloc, fn_name, members(alloc, args)?)?)
        }
        [] => Err(CallError::BadArguments),
    }
}

fn path(alloc: Global, args: &[Sexpr]) -> Result<Expr, CallError> {
    match args {
        [e, first, further @ ..] => {
            let attrs = attributes(alloc, first, further)?;
            Ok(Expr::extended_has_attr(alloc, expr(alloc, e)?, attrs)?)
        }
        _ => Err(CallError::BadArguments),
    }
}

fn of_one(alloc: Global, f: &str, a: &Sexpr) -> Result<Expr, CallError> {
    match f {
        "val" | "var" | "slot" | "unknown" => leaf_expr(alloc, &leaf_of(alloc, f, a)?),
        _ => negated_or_tested(alloc, f, expr(alloc, a)?),
    }
}

fn leaf_expr(alloc: Global, leaf: &Expr) -> Result<Expr, CallError> {
    match leaf.expr_kind() {
        ExprKind::Lit(literal) => Ok(Expr::val(literal.clone(alloc)?)),
        ExprKind::Var(var) => Ok(Expr::var(*var)),
        ExprKind::Slot(slot) => Ok(Expr::slot(*slot)),
        ExprKind::Unknown(unknown) => Ok(Expr::unknown(unknown.clone(alloc)?)),
        _ => Err(CallError::BadArguments),
    }
}

fn negated_or_tested(alloc: Global, f: &str, arg: Expr) -> Result<Expr, CallError> {
    match f {
        "not" => Ok(Expr::not(alloc, arg)?),
        "neg" => Ok(Expr::neg(alloc, arg)?),
        "is_empty" => Ok(Expr::is_empty(alloc, arg)?),
        _ => Err(CallError::BadArguments),
    }
}

fn of_two(alloc: Global, f: &str, a: &Sexpr, b: &Sexpr) -> Result<Expr, CallError> {
    match f {
        "unary_app" => Ok(Expr::unary_app(alloc, unary(a.word()?)?, expr(alloc, b)?)?),
        "get_attr" => get_attr(alloc, expr(alloc, a)?, b),
        "has_attr" => has_attr(alloc, expr(alloc, a)?, b),
        "like" => like(alloc, expr(alloc, a)?, b),
        "is_entity_type" => is_entity_type(alloc, expr(alloc, a)?, b),
        _ => connected(alloc, f, expr(alloc, a)?, b),
    }
}

fn get_attr(alloc: Global, e: Expr, attr: &Sexpr) -> Result<Expr, CallError> {
    Ok(Expr::get_attr(alloc, e, shared_text(alloc, attr)?)?)
}

fn has_attr(alloc: Global, e: Expr, attr: &Sexpr) -> Result<Expr, CallError> {
    Ok(Expr::has_attr(alloc, e, shared_text(alloc, attr)?)?)
}

fn like(alloc: Global, e: Expr, sexpr: &Sexpr) -> Result<Expr, CallError> {
    Ok(Expr::like(alloc, e, pattern(alloc, sexpr)?)?)
}

fn is_entity_type(alloc: Global, e: Expr, ty: &Sexpr) -> Result<Expr, CallError> {
    Ok(Expr::is_entity_type(alloc, e, entity_type(alloc, ty)?)?)
}

fn connected(alloc: Global, f: &str, a: Expr, b: &Sexpr) -> Result<Expr, CallError> {
    let b = expr(alloc, b)?;
    let made = match f {
        "and" => Expr::and(alloc, a, b),
        "or" => Expr::or(alloc, a, b),
        "is_eq" => Expr::is_eq(alloc, a, b),
        "noteq" => Expr::noteq(alloc, a, b),
        "greater" => Expr::greater(alloc, a, b),
        "greatereq" => Expr::greatereq(alloc, a, b),
        "less" => Expr::less(alloc, a, b),
        "lesseq" => Expr::lesseq(alloc, a, b),
        "add" => Expr::add(alloc, a, b),
        "sub" => Expr::sub(alloc, a, b),
        "mul" => Expr::mul(alloc, a, b),
        "is_in" => Expr::is_in(alloc, a, b),
        "contains" => Expr::contains(alloc, a, b),
        "contains_all" => Expr::contains_all(alloc, a, b),
        "contains_any" => Expr::contains_any(alloc, a, b),
        "get_tag" => Expr::get_tag(alloc, a, b),
        "has_tag" => Expr::has_tag(alloc, a, b),
        _ => return Err(CallError::BadArguments),
    };
    Ok(made?)
}

fn of_three(alloc: Global, f: &str, a: &Sexpr, b: &Sexpr, c: &Sexpr) -> Result<Expr, CallError> {
    match f {
        "binary_app" => binary_app(alloc, binary(a.word()?)?, b, c),
        "ite" => ite(alloc, a, b, c),
        "ite_arc" => ite_arc(alloc, a, b, c),
        _ => Err(CallError::BadArguments),
    }
}

fn binary_app(alloc: Global, op: BinaryOp, a: &Sexpr, b: &Sexpr) -> Result<Expr, CallError> {
    Ok(Expr::binary_app(alloc, op, expr(alloc, a)?, expr(alloc, b)?)?)
}

fn ite(alloc: Global, test: &Sexpr, then: &Sexpr, other: &Sexpr) -> Result<Expr, CallError> {
    Ok(Expr::ite(
        alloc,
        expr(alloc, test)?,
        expr(alloc, then)?,
        expr(alloc, other)?,
    )?)
}

fn ite_arc(alloc: Global, test: &Sexpr, then: &Sexpr, other: &Sexpr) -> Result<Expr, CallError> {
    Ok(Expr::ite_arc(
        shared(alloc, test)?,
        shared(alloc, then)?,
        shared(alloc, other)?,
    ))
}
