//! Chains of values, each one inside the next.

use cedar_exprs::Expr;
use cedar_sketch::Sketch;
use cedar_terms::{EntityUID, Literal, Unknown};
use cedar_values::{PartialValue, Value, split};
use std::alloc::{AllocError, Global};
use std::rc::{Rc, RcStr};

/// How a value stands in the next one.
#[derive(Clone, Copy, Debug)]
pub enum Nest {
    /// As the second of two members.
    Set,
    /// As the only value.
    Record,
}

/// What was found of a chain.
#[derive(Drop)]
pub struct Shown {
    /// How many entities are in it: the innermost value is one.
    pub entities: usize,
    /// The text of its expression.
    pub text: String,
}

/// Writes the expression of a chain, reads it back as a value, and writes that beside a residual.
pub fn show_value(alloc: Global, nest: Nest, levels: usize) -> Result<Shown, AllocError> {
    let expr = make(alloc, nest, levels)?.to_expr(alloc)?;
    let value = read_back(alloc, expr)?;
    let entities = value.all_literal_uids(alloc)?.len();
    let expr = expr_beside_residual(alloc, value)?;
    let text = expr.into_expr::<Sketch>(alloc)?.to_text(alloc)?;
    Ok(Shown { entities, text })
}

// As the expression was a value's, only memory can be wanting.
fn read_back(alloc: Global, expr: Expr) -> Result<Value, AllocError> {
    Value::try_from_expr(alloc, expr).map_err(|_| AllocError)
}

// The last of two expressions, which there are, as one item is no value.
fn expr_beside_residual(alloc: Global, value: Value) -> Result<Expr, AllocError> {
    let unknown = Unknown::new_untyped(RcStr::from_str(alloc, "x")?);
    let items = vec![in alloc; PartialValue::unknown(unknown), PartialValue::from(value)]?;
    split(alloc, items)?
        .right()
        .and_then(|exprs| exprs.last())
        .ok_or(AllocError)
}

fn make(alloc: Global, nest: Nest, levels: usize) -> Result<Value, AllocError> {
    let uid = EntityUID::with_eid(alloc, "e")?;
    let mut value = Value::from(Literal::EntityUID(Rc::new(alloc, uid)?));
    for _ in 0..levels {
        value = wrap(alloc, nest, value)?;
    }
    Ok(value)
}

fn wrap(alloc: Global, nest: Nest, value: Value) -> Result<Value, AllocError> {
    match nest {
        Nest::Set => Value::set(alloc, vec![in alloc; Value::from(1), value]?, None),
        Nest::Record => {
            let pairs = vec![in alloc; (RcStr::from_str(alloc, "a")?, value)]?;
            Value::record(alloc, pairs, None)
        }
    }
}
