//! What an expression is, whatever its places: its order, its equality and its hash.
use crate::recorder::Recorder;
use calls_decode::exprs;
use calls_syntax::{CallError, Sexpr, boolean, hash, holds, sign};
use cedar_exprs::{Expr, ExprShapeOnly};
use std::alloc::Global;
use std::cmp::Ordering;
use std::hash::{DefaultHasher, Hasher};

/// How two expressions compare.
pub fn compare(alloc: Global, a: &Expr, b: &Expr) -> Result<String, CallError> {
    sign(alloc, order(alloc, a, b)?)
}

/// Whether each of several expressions comes before all that follow it.
pub fn ascending(alloc: Global, sexprs: &[Sexpr]) -> Result<String, CallError> {
    let all = exprs(alloc, sexprs)?;
    for (index, e) in all.iter().enumerate() {
        if !is_before(alloc, e, all.as_slice(), index)? {
            return boolean(alloc, false);
        }
    }
    boolean(alloc, true)
}

// Whether it comes before all that stand behind this index.
fn is_before(alloc: Global, e: &Expr, all: &[Expr], index: usize) -> Result<bool, CallError> {
    for (at, other) in all.iter().enumerate() {
        if at > index && order(alloc, e, other)? != Ordering::Less {
            return Ok(false);
        }
    }
    Ok(true)
}

// The order of two shapes. All that compares or hashes them agrees with it.
fn order(alloc: Global, a: &Expr, b: &Expr) -> Result<Ordering, CallError> {
    let order = a.cmp_shape(b);
    holds(b.cmp_shape(a) == order.reverse(), "the order both ways")?;
    are_equal(a, b, order.is_eq())?;
    shapes_compare(a, &ExprShapeOnly::new_from_owned(b.clone(alloc)?), order)?;
    if order.is_eq() {
        hash_alike(a, b)?;
    }
    Ok(order)
}

fn are_equal(a: &Expr, b: &Expr, is_equal: bool) -> Result<(), CallError> {
    let by_shape = a.eq_shape(b);
    let whole = a == b;
    holds(
        by_shape == is_equal && whole == is_equal,
        "equality and order",
    )
}

// A shape that is borrowed compares with one that is owned.
fn shapes_compare(a: &Expr, b: &ExprShapeOnly, order: Ordering) -> Result<(), CallError> {
    let a = ExprShapeOnly::new_from_borrowed(a);
    let is_equal = a == *b;
    holds(
        is_equal == order.is_eq() && a.cmp(b) == order,
        "the order of shapes",
    )?;
    holds(!is_equal || hash(&a) == hash(b), "the hash of shapes")
}

fn hash_alike(a: &Expr, b: &Expr) -> Result<(), CallError> {
    holds(
        hash(a) == hash(b) && shape_hash(a) == shape_hash(b),
        "equality and hash",
    )
}

/// What a shape feeds std's hasher, as one number.
pub fn shape_hash<T>(e: &Expr<T>) -> u64 {
    let mut state = DefaultHasher::new();
    e.hash_shape(&mut state);
    state.finish()
}

/// The first byte that the shape feeds, and how many.
pub fn feed(alloc: Global, e: &Expr) -> Result<String, CallError> {
    let mut state = Recorder::new();
    e.hash_shape(&mut state);
    match state.first {
        Some(first) => Ok(format!(in alloc; "{first} {}", state.count)?),
        None => Err(CallError::Mismatch("a shape and its feed")),
    }
}
