//! The calls of the struct `ExprBuilder`, by their names.
use crate::arguments::{Data, entity_type, function, leaf_of, members, pairs, shared, values};
use calls_decode::{attributes, binary, expr, placed, unary};
use calls_syntax::{CallError, Sexpr, maybe_place, pattern, shared_text};
use cedar_builders::{BuildFault, ExprBuilder as _, ExpressionConstructionError};
use cedar_exprs::{Expr, ExprBuilder, ExprKind};
use cedar_names::Loc;
use cedar_terms::{BinaryOp, UnaryOp};
use std::alloc::Global;
use std::rc::RcStr;

/// What a copy of the builder with this place makes.
pub fn built(alloc: Global, args: &[Sexpr]) -> Result<String, CallError> {
    match args {
        [place, call @ ..] => {
            let place = maybe_place(alloc, place)?;
            let builder = ExprBuilder::<()>::new().with_maybe_source_loc(place);
            placed(alloc, &made_by(alloc, builder.clone(alloc)?, call)?)
        }
        [] => Err(CallError::BadArguments),
    }
}

/// What the builder with the place of an expression makes.
pub fn same(alloc: Global, args: &[Sexpr]) -> Result<String, CallError> {
    match args {
        [e, call @ ..] => {
            let builder = builder_at(alloc, &expr(alloc, e)?)?;
            placed(alloc, &made_by(alloc, builder, call)?)
        }
        [] => Err(CallError::BadArguments),
    }
}

// The place of the expression, also none, replaces that of the builder.
fn builder_at(alloc: Global, e: &Expr) -> Result<ExprBuilder<()>, CallError> {
    let place = Loc::new(0, 0, RcStr::from_str(alloc, "src")?);
    let builder = ExprBuilder::new().with_maybe_source_loc(Some(place));
    Ok(builder.with_same_source_loc(alloc, e)?)
}

/// The expression that the builder's call makes which the first word names.
pub fn made_by<T: Data>(
    alloc: Global,
    builder: ExprBuilder<T>,
    call: &[Sexpr],
) -> Result<Expr<T>, CallError> {
    match call {
        [f, args @ ..] => of_many(alloc, builder, f.word()?, args),
        [] => Err(CallError::BadArguments),
    }
}

// The calls of any number of arguments, or of a number that tells them apart.
fn of_many<T: Data>(
    alloc: Global,
    builder: ExprBuilder<T>,
    f: &str,
    args: &[Sexpr],
) -> Result<Expr<T>, CallError> {
    match f {
        "set" => set(alloc, builder, args),
        "record" => record(alloc, builder, args),
        "record_arc" => Ok(builder.record_arc(values(alloc, args)?)),
        "call_extension_fn" => call(alloc, builder, args),
        "extended_has_attr" => path(alloc, builder, args),
        _ => match args {
            [a] => of_one(alloc, builder, f, a),
            [a, b] => of_two(alloc, builder, f, a, b),
            [a, b, c] => of_three(alloc, builder, f, a, b, c),
            _ => Err(CallError::BadArguments),
        },
    }
}

fn set<T: Data>(
    alloc: Global,
    builder: ExprBuilder<T>,
    args: &[Sexpr],
) -> Result<Expr<T>, CallError> {
    Ok(builder.set(alloc, members(alloc, args)?)?)
}

fn record<T: Data>(
    alloc: Global,
    builder: ExprBuilder<T>,
    args: &[Sexpr],
) -> Result<Expr<T>, CallError> {
    match builder.record(alloc, pairs(alloc, args)?) {
        Ok(record) => Ok(record),
        Err(ExpressionConstructionError::Memory) => Err(CallError::Memory),
        Err(ExpressionConstructionError::DuplicateKey(_)) => Err(CallError::BadArguments),
    }
}

fn call<T: Data>(
    alloc: Global,
    builder: ExprBuilder<T>,
    args: &[Sexpr],
) -> Result<Expr<T>, CallError> {
    match args {
        [f, args @ ..] => called(alloc, builder, f, args),
        [] => Err(CallError::BadArguments),
    }
}

fn called<T: Data>(
    alloc: Global,
    builder: ExprBuilder<T>,
    f: &Sexpr,
    args: &[Sexpr],
) -> Result<Expr<T>, CallError> {
    let fn_name = function(alloc, f)?;
    match builder.call_extension_fn(alloc, fn_name, members(alloc, args)?) {
        Ok(call) => Ok(call),
        Err(BuildFault::Build(never)) => match never {},
        Err(BuildFault::Memory) => Err(CallError::Memory),
    }
}

fn path<T: Data>(
    alloc: Global,
    builder: ExprBuilder<T>,
    args: &[Sexpr],
) -> Result<Expr<T>, CallError> {
    match args {
        [e, first, further @ ..] => {
            let attrs = attributes(alloc, first, further)?;
            Ok(builder.extended_has_attr(alloc, T::read(alloc, e)?, attrs)?)
        }
        _ => Err(CallError::BadArguments),
    }
}

fn of_one<T: Data>(
    alloc: Global,
    builder: ExprBuilder<T>,
    f: &str,
    a: &Sexpr,
) -> Result<Expr<T>, CallError> {
    match f {
        "val" | "var" | "slot" | "unknown" => leaf_expr(alloc, builder, &leaf_of(alloc, f, a)?),
        "with_expr_kind" => Ok(builder.with_expr_kind(T::read(alloc, a)?.into_expr_kind())),
        _ => negated_or_tested(alloc, builder, f, T::read(alloc, a)?),
    }
}

/// The leaf that the builder makes of what this one holds.
pub fn leaf_expr<T: Default + Copy>(
    alloc: Global,
    builder: ExprBuilder<T>,
    leaf: &Expr,
) -> Result<Expr<T>, CallError> {
    match leaf.expr_kind() {
        ExprKind::Lit(literal) => Ok(builder.val(alloc, literal.clone(alloc)?)?),
        ExprKind::Var(var) => Ok(builder.var(alloc, *var)?),
        ExprKind::Slot(slot) => Ok(builder.slot(alloc, *slot)?),
        ExprKind::Unknown(unknown) => Ok(builder.unknown(alloc, unknown.clone(alloc)?)?),
        _ => Err(CallError::BadArguments),
    }
}

fn negated_or_tested<T: Data>(
    alloc: Global,
    builder: ExprBuilder<T>,
    f: &str,
    arg: Expr<T>,
) -> Result<Expr<T>, CallError> {
    match f {
        "not" => Ok(builder.not(alloc, arg)?),
        "neg" => Ok(builder.neg(alloc, arg)?),
        "is_empty" => Ok(builder.is_empty(alloc, arg)?),
        _ => Err(CallError::BadArguments),
    }
}

fn of_two<T: Data>(
    alloc: Global,
    builder: ExprBuilder<T>,
    f: &str,
    a: &Sexpr,
    b: &Sexpr,
) -> Result<Expr<T>, CallError> {
    match f {
        "unary_app" => unary_app(alloc, builder, unary(a.word()?)?, b),
        "get_attr" => get_attr(alloc, builder, a, b),
        "has_attr" => has_attr(alloc, builder, a, b),
        "like" => like(alloc, builder, a, b),
        "is_entity_type" => is_entity_type(alloc, builder, a, b),
        _ => connected(alloc, builder, f, a, b),
    }
}

fn unary_app<T: Data>(
    alloc: Global,
    builder: ExprBuilder<T>,
    op: UnaryOp,
    arg: &Sexpr,
) -> Result<Expr<T>, CallError> {
    Ok(builder.unary_app(alloc, op, T::read(alloc, arg)?)?)
}

fn get_attr<T: Data>(
    alloc: Global,
    builder: ExprBuilder<T>,
    e: &Sexpr,
    attr: &Sexpr,
) -> Result<Expr<T>, CallError> {
    let attr = shared_text(alloc, attr)?;
    Ok(builder.get_attr(alloc, T::read(alloc, e)?, attr)?)
}

fn has_attr<T: Data>(
    alloc: Global,
    builder: ExprBuilder<T>,
    e: &Sexpr,
    attr: &Sexpr,
) -> Result<Expr<T>, CallError> {
    let attr = shared_text(alloc, attr)?;
    Ok(builder.has_attr(alloc, T::read(alloc, e)?, attr)?)
}

fn like<T: Data>(
    alloc: Global,
    builder: ExprBuilder<T>,
    e: &Sexpr,
    sexpr: &Sexpr,
) -> Result<Expr<T>, CallError> {
    let pattern = pattern(alloc, sexpr)?;
    Ok(builder.like(alloc, T::read(alloc, e)?, pattern)?)
}

fn is_entity_type<T: Data>(
    alloc: Global,
    builder: ExprBuilder<T>,
    e: &Sexpr,
    ty: &Sexpr,
) -> Result<Expr<T>, CallError> {
    let entity_type = entity_type(alloc, ty)?;
    Ok(builder.is_entity_type(alloc, T::read(alloc, e)?, entity_type)?)
}

fn connected<T: Data>(
    alloc: Global,
    builder: ExprBuilder<T>,
    f: &str,
    a: &Sexpr,
    b: &Sexpr,
) -> Result<Expr<T>, CallError> {
    let (a, b) = (T::read(alloc, a)?, T::read(alloc, b)?);
    let made = match f {
        "and" => builder.and(alloc, a, b),
        "or" => builder.or(alloc, a, b),
        "is_eq" => builder.is_eq(alloc, a, b),
        "noteq" => builder.noteq(alloc, a, b),
        "greater" => builder.greater(alloc, a, b),
        "greatereq" => builder.greatereq(alloc, a, b),
        "less" => builder.less(alloc, a, b),
        "lesseq" => builder.lesseq(alloc, a, b),
        "add" => builder.add(alloc, a, b),
        "sub" => builder.sub(alloc, a, b),
        "mul" => builder.mul(alloc, a, b),
        "is_in" => builder.is_in(alloc, a, b),
        "contains" => builder.contains(alloc, a, b),
        "contains_all" => builder.contains_all(alloc, a, b),
        "contains_any" => builder.contains_any(alloc, a, b),
        "get_tag" => builder.get_tag(alloc, a, b),
        "has_tag" => builder.has_tag(alloc, a, b),
        _ => return Err(CallError::BadArguments),
    };
    Ok(made?)
}

fn of_three<T: Data>(
    alloc: Global,
    builder: ExprBuilder<T>,
    f: &str,
    a: &Sexpr,
    b: &Sexpr,
    c: &Sexpr,
) -> Result<Expr<T>, CallError> {
    match f {
        "binary_app" => binary_app(alloc, builder, binary(a.word()?)?, b, c),
        "ite" => ite(alloc, builder, a, b, c),
        "ite_arc" => ite_arc(alloc, builder, a, b, c),
        _ => Err(CallError::BadArguments),
    }
}

fn binary_app<T: Data>(
    alloc: Global,
    builder: ExprBuilder<T>,
    op: BinaryOp,
    a: &Sexpr,
    b: &Sexpr,
) -> Result<Expr<T>, CallError> {
    Ok(builder.binary_app(alloc, op, T::read(alloc, a)?, T::read(alloc, b)?)?)
}

fn ite<T: Data>(
    alloc: Global,
    builder: ExprBuilder<T>,
    a: &Sexpr,
    b: &Sexpr,
    c: &Sexpr,
) -> Result<Expr<T>, CallError> {
    let (test, then) = (T::read(alloc, a)?, T::read(alloc, b)?);
    Ok(builder.ite(alloc, test, then, T::read(alloc, c)?)?)
}

fn ite_arc<T: Data>(
    alloc: Global,
    builder: ExprBuilder<T>,
    a: &Sexpr,
    b: &Sexpr,
    c: &Sexpr,
) -> Result<Expr<T>, CallError> {
    let (test, then) = (shared(alloc, a)?, shared(alloc, b)?);
    Ok(builder.ite_arc(test, then, shared(alloc, c)?))
}
