//! Copies of expressions, and other places for their outermost node.
use calls_decode::placed;
use calls_syntax::{CallError, Sexpr, hash, holds, maybe_place};
use cedar_builders::ExprBuilder as _;
use cedar_exprs::{Expr, ExprBuilder, ExprKind, ExprShapeOnly};
use std::alloc::Global;
use std::hash::Hash;

/// Each position of a copy with its place. The copies of its kind and of its shape agree with it,
/// and so does the node that is made of its kind, its place and its data.
pub fn copy(alloc: Global, e: &Expr) -> Result<String, CallError> {
    is_kind(alloc, e.expr_kind())?;
    is_shape(alloc, e)?;
    let copy = e.clone(alloc)?;
    is_same(&copy, e, "an expression and its copy")?;
    whole(alloc, &put_together(copy), e)
}

fn whole(alloc: Global, copy: &Expr, e: &Expr) -> Result<String, CallError> {
    is_same(copy, e, "an expression and its copy")?;
    placed(alloc, copy)
}

fn is_same<T: Eq + Hash>(copy: &T, original: &T, what: &'static str) -> Result<(), CallError> {
    holds(*copy == *original && hash(copy) == hash(original), what)
}

fn is_kind(alloc: Global, kind: &ExprKind) -> Result<(), CallError> {
    let copy = kind.clone(alloc)?;
    is_same(&copy, kind, "a kind and its copy")
}

// The copy of a shape that is borrowed is that of one that is owned.
fn is_shape(alloc: Global, e: &Expr) -> Result<(), CallError> {
    let borrowed = ExprShapeOnly::new_from_borrowed(e);
    is_shape_of(&borrowed.clone(alloc)?, e.clone(alloc)?)
}

fn is_shape_of(shape: &ExprShapeOnly, e: Expr) -> Result<(), CallError> {
    holds(
        *shape == ExprShapeOnly::new_from_owned(e),
        "a shape and its copy",
    )
}

// The node of what the expression is taken apart into.
fn put_together(e: Expr) -> Expr {
    let (kind, loc, data) = e.into_parts();
    ExprBuilder::with_data(data)
        .with_maybe_source_loc(loc)
        .with_expr_kind(kind)
}

/// Each position with its place, the outermost at this one.
pub fn put_at(alloc: Global, place: &Sexpr, e: Expr) -> Result<String, CallError> {
    let place = maybe_place(alloc, place)?;
    placed(alloc, &e.with_maybe_source_loc(place))
}
