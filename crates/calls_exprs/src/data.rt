//! Trees with data: what constructors give no data, by the struct `ExprBuilder`.
use crate::arguments::Data;
use crate::constructors::constructed;
use crate::rebuilding::rebuilt;
use crate::shapes::shape_hash;
use crate::struct_calls::made_by;
use calls_decode::sketch;
use calls_syntax::{CallError, Sexpr, holds, join};
use cedar_builders::ExprBuilder as _;
use cedar_exprs::{Expr, ExprBuilder};
use std::alloc::Global;

/// Each position with its data. Shapes do not see data.
pub fn tree(alloc: Global, args: &[Sexpr]) -> Result<String, CallError> {
    match args {
        [data, call @ ..] => {
            let data = number(data)?;
            let e = with_data(alloc, data, call)?;
            has_shape(&e, &constructed(alloc, call)?)?;
            alike(alloc, &e, &with_data(alloc, data.wrapping_add(1), call)?)
        }
        [] => Err(CallError::BadArguments),
    }
}

/// Each position with its data, where the outermost is given this one.
pub fn set_data(alloc: Global, args: &[Sexpr]) -> Result<String, CallError> {
    match args {
        [data, call @ ..] => {
            let data = number(data)?;
            put_data(alloc, with_data(alloc, data.wrapping_add(1), call)?, data)
        }
        [] => Err(CallError::BadArguments),
    }
}

fn put_data(alloc: Global, e: Expr<u8>, data: u8) -> Result<String, CallError> {
    let mut e = e;
    e.set_data(data);
    let text = data_text(alloc, &e)?;
    is_data(e, data)?;
    Ok(text)
}

fn is_data(e: Expr<u8>, data: u8) -> Result<(), CallError> {
    holds(e.into_data() == data, "the data")
}

/// Each position with its data, where the struct makes the tree again.
pub fn rebuild(alloc: Global, args: &[Sexpr]) -> Result<String, CallError> {
    match args {
        [data, call @ ..] => {
            let e = with_data(alloc, number(data)?, call)?;
            data_text(alloc, &rebuilt(alloc, &e)?)
        }
        [] => Err(CallError::BadArguments),
    }
}

fn number(sexpr: &Sexpr) -> Result<u8, CallError> {
    sexpr.word()?.parse().map_err(|_| CallError::BadArguments)
}

fn with_data<T: Data>(alloc: Global, data: T, call: &[Sexpr]) -> Result<Expr<T>, CallError> {
    let builder = ExprBuilder::with_data(data);
    made_by(alloc, builder.clone(alloc)?, call)
}

// The tree has the shape of one without data.
fn has_shape(e: &Expr<u8>, plain: &Expr) -> Result<(), CallError> {
    let is_equal = e.eq_shape(plain) && plain.eq_shape(e);
    holds(
        is_equal && shape_hash(e) == shape_hash(plain),
        "a shape and data",
    )
}

// The data of the first; the trees have one shape.
fn alike(alloc: Global, a: &Expr<u8>, b: &Expr<u8>) -> Result<String, CallError> {
    holds(a.cmp_shape(b).is_eq(), "the order of shapes and data")?;
    data_text(alloc, a)
}

fn data_text(alloc: Global, e: &Expr<u8>) -> Result<String, CallError> {
    let mut text = String::new(alloc);
    for position in e.subexpressions(alloc)? {
        let data = *position.data();
        let position = sketch(alloc, position)?;
        join(&mut text, " | ", &format!(in alloc; "{position} {data}")?)?;
    }
    Ok(text)
}
