//! What constructors and builders are handed.
use crate::struct_calls::leaf_expr;
use calls_decode::expr;
use calls_syntax::{CallError, Sexpr, name, shared_text};
use cedar_builders::ExprBuilder as _;
use cedar_exprs::{Expr, ExprBuilder, ExprKind};
use cedar_names::Name;
use cedar_terms::EntityType;
use std::alloc::Global;
use std::collections::BTreeMap;
use std::rc::{Rc, RcStr};

/// What the data of a tree may be.
pub trait Data: Default + Copy {
    /// The expression that an argument stands for, which has the data of a new builder. With data
    /// it is a leaf.
    fn read(alloc: Global, sexpr: &Sexpr) -> Result<Expr<Self>, CallError>;
}

impl Data for () {
    fn read(alloc: Global, sexpr: &Sexpr) -> Result<Expr, CallError> {
        expr(alloc, sexpr)
    }
}

impl Data for u8 {
    fn read(alloc: Global, sexpr: &Sexpr) -> Result<Expr<u8>, CallError> {
        leaf_expr(alloc, ExprBuilder::new(), &expr(alloc, sexpr)?)
    }
}

/// The expression that an argument stands for, shared.
pub fn shared<T: Data>(alloc: Global, sexpr: &Sexpr) -> Result<Rc<Expr<T>>, CallError> {
    Ok(Rc::new(alloc, T::read(alloc, sexpr)?)?)
}

/// The expressions that arguments stand for.
pub fn members<T: Data>(alloc: Global, sexprs: &[Sexpr]) -> Result<Vec<Expr<T>>, CallError> {
    let mut members = Vec::new(alloc);
    for sexpr in sexprs {
        members.push(T::read(alloc, sexpr)?)?;
    }
    Ok(members)
}

/// The pairs `("key" E)` that arguments stand for.
pub fn pairs<T: Data>(alloc: Global, sexprs: &[Sexpr]) -> Result<Vec<(RcStr, Expr<T>)>, CallError> {
    let mut pairs = Vec::new(alloc);
    for sexpr in sexprs {
        pairs.push(pair(alloc, sexpr)?)?;
    }
    Ok(pairs)
}

fn pair<T: Data>(alloc: Global, sexpr: &Sexpr) -> Result<(RcStr, Expr<T>), CallError> {
    match sexpr.list()? {
        [key, value] => {
            let key = shared_text(alloc, key)?;
            Ok((key, T::read(alloc, value)?))
        }
        _ => Err(CallError::BadArguments),
    }
}

/// The shared map of the pairs `("key" E)`; of equal keys the last stands.
pub fn values<T: Data>(
    alloc: Global,
    sexprs: &[Sexpr],
) -> Result<Rc<BTreeMap<RcStr, Expr<T>>>, CallError> {
    let mut values = BTreeMap::new(alloc);
    for sexpr in sexprs {
        bind_value(alloc, &mut values, sexpr)?;
    }
    Ok(Rc::new(alloc, values)?)
}

fn bind_value<T: Data>(
    alloc: Global,
    values: &mut BTreeMap<RcStr, Expr<T>>,
    sexpr: &Sexpr,
) -> Result<(), CallError> {
    let (key, value) = pair(alloc, sexpr)?;
    drop(values.insert(key, value)?);
    Ok(())
}

/// The name that a word spells.
pub fn function(alloc: Global, sexpr: &Sexpr) -> Result<Name, CallError> {
    name(alloc, sexpr.word()?)
}

/// The entity type that a word spells.
pub fn entity_type(alloc: Global, sexpr: &Sexpr) -> Result<EntityType, CallError> {
    Ok(EntityType::from(function(alloc, sexpr)?))
}

/// The leaf that an argument stands for, where the call of this name makes such leaves.
pub fn leaf_of(alloc: Global, call: &str, sexpr: &Sexpr) -> Result<Expr, CallError> {
    let leaf = expr(alloc, sexpr)?;
    if leaf_call(&leaf) == Some(call) {
        Ok(leaf)
    } else {
        Err(CallError::BadArguments)
    }
}

// The call that makes such leaves.
fn leaf_call(e: &Expr) -> Option<&'static str> {
    match e.expr_kind() {
        ExprKind::Lit(_) => Some("val"),
        ExprKind::Var(_) => Some("var"),
        ExprKind::Slot(_) => Some("slot"),
        ExprKind::Unknown(_) => Some("unknown"),
        _ => None,
    }
}
