//! Expressions that cases work on.
use crate::count::total_name;
use crate::fault::CaseFault;
use cedar_exprs::Expr;
use cedar_terms::{BinaryOp, Literal, Type, Unknown};
use std::alloc::{AllocError, Global};
use std::collections::HashMap;
use std::mem;
use std::rc::RcStr;

/// What the leaves of an expression are: every fourth is the unknown x, any other the number of
/// those before it.
#[derive(Clone, Copy)]
pub enum Leaves {
    /// The unknown is not annotated.
    Untyped,
    /// The unknown is annotated as an integer.
    Typed,
    /// The unknown is not annotated, and every eighth leaf is a call of no arguments.
    WithCalls,
}

// How nodes are made of those of the level below.
#[derive(Clone, Copy)]
enum Level {
    // An operator on two.
    Pairs(BinaryOp),
    // Records of ten.
    Records,
    // Records of ten, each asked for an attribute or whether it has it.
    Questions,
}

/// The unknown x, which is annotated as an integer, or is not.
pub fn unknown(alloc: Global, is_typed: bool) -> Result<Expr, AllocError> {
    let name = RcStr::from_str(alloc, "x")?;
    Ok(Expr::unknown(if is_typed {
        Unknown::new_with_type(name, Type::Long)
    } else {
        Unknown::new_untyped(name)
    }))
}

/// The unknown x is bound to the value.
pub fn bound_to<V: Drop>(alloc: Global, value: V) -> Result<HashMap<RcStr, V>, AllocError> {
    let mut values = HashMap::new(alloc);
    drop(values.insert(RcStr::from_str(alloc, "x")?, value)?);
    Ok(values)
}

/// A full tree of `+`, of which every second node is a leaf.
pub fn sums(alloc: Global, leaves: Leaves, nodes: usize) -> Result<Expr, CaseFault> {
    tree_of_level(
        alloc,
        make_leaves(alloc, leaves, nodes / 2 + 1)?,
        Level::Pairs(BinaryOp::Add),
    )
}

/// A full tree: sums of two leaves, `<` of two sums, and `==` of two of these and of all above.
pub fn comparisons(alloc: Global, nodes: usize) -> Result<Expr, CaseFault> {
    let leaves = make_leaves(alloc, Leaves::Untyped, nodes / 2 + 1)?;
    let sums = by_two(alloc, leaves, BinaryOp::Add)?;
    let tests = by_two(alloc, sums, BinaryOp::Less)?;
    tree_of_level(alloc, tests, Level::Pairs(BinaryOp::Eq))
}

/// A set of leaves.
pub fn set(alloc: Global, nodes: usize) -> Result<Expr, CaseFault> {
    let members = make_leaves(alloc, Leaves::Untyped, nodes.saturating_sub(1))?;
    Ok(Expr::set(alloc, members)?)
}

/// Records of ten records each, and so on.
pub fn records(alloc: Global, nodes: usize) -> Result<Expr, CaseFault> {
    let leaves = make_leaves(alloc, Leaves::Untyped, nodes - nodes / 10)?;
    tree_of_level(alloc, leaves, Level::Records)
}

/// Records of ten, of which the first, the third and so on is asked for its attribute k3, and any
/// other whether it has it; ten of these in a record, and so on.
pub fn questions(alloc: Global, nodes: usize) -> Result<Expr, CaseFault> {
    let leaves = make_leaves(alloc, Leaves::Untyped, nodes - nodes / 11 * 2)?;
    tree_of_level(alloc, leaves, Level::Questions)
}

/// A chain of `!` over the unknown x.
pub fn negations(alloc: Global, levels: usize) -> Result<Expr, AllocError> {
    let mut expr = unknown(alloc, false)?;
    for _ in 0..levels {
        expr = Expr::not(alloc, expr)?;
    }
    Ok(expr)
}

/// A chain of `+`, each the left operand of the next, over the unknown x; the right ones are 1.
pub fn additions(alloc: Global, levels: usize) -> Result<Expr, AllocError> {
    let mut expr = unknown(alloc, false)?;
    for _ in 0..levels {
        expr = Expr::add(alloc, expr, Expr::val(Literal::Long(1)))?;
    }
    Ok(expr)
}

/// A full tree of `+` over attributes of the unknown x, which are k0 to k9 in turn.
pub fn attribute_sums(alloc: Global, count: usize) -> Result<Expr, CaseFault> {
    let mut leaves = Vec::new(alloc);
    for index in 0..count {
        let attr = key(alloc, index % 10)?;
        leaves.push(Expr::get_attr(alloc, unknown(alloc, false)?, attr)?)?;
    }
    tree_of_level(alloc, leaves, Level::Pairs(BinaryOp::Add))
}

fn make_leaves(alloc: Global, leaves: Leaves, count: usize) -> Result<Vec<Expr>, CaseFault> {
    let mut exprs = Vec::new(alloc);
    for index in 0..count {
        exprs.push(leaf(alloc, leaves, index)?)?;
    }
    Ok(exprs)
}

fn leaf(alloc: Global, leaves: Leaves, index: usize) -> Result<Expr, CaseFault> {
    if matches!(leaves, Leaves::WithCalls) && index % 8 == 7 {
        call(alloc)
    } else if index % 4 == 3 {
        Ok(unknown(alloc, matches!(leaves, Leaves::Typed))?)
    } else {
        number(index)
    }
}

fn call(alloc: Global) -> Result<Expr, CaseFault> {
    Ok(Expr::call_extension_fn(alloc, total_name(alloc)?, Vec::new(alloc))?)
}

fn number(number: usize) -> Result<Expr, CaseFault> {
    match i64::try_from(number) {
        Ok(number) => Ok(Expr::val(Literal::Long(number))),
        Err(_) => Err(CaseFault::Answer),
    }
}

// The one expression that is made of these, level after level.
fn tree_of_level(alloc: Global, leaves: Vec<Expr>, level: Level) -> Result<Expr, CaseFault> {
    let mut exprs = leaves;
    for _ in 0..usize::BITS {
        if exprs.len() > 1 {
            exprs = next_level(alloc, exprs, level)?;
        }
    }
    exprs.pop().ok_or(CaseFault::Answer)
}

fn next_level(alloc: Global, exprs: Vec<Expr>, level: Level) -> Result<Vec<Expr>, CaseFault> {
    match level {
        Level::Pairs(op) => Ok(by_two(alloc, exprs, op)?),
        Level::Records => by_ten(alloc, exprs),
        Level::Questions => Ok(asked(alloc, by_ten(alloc, exprs)?)?),
    }
}

// The operator on the first two, on the next two, and so on.
fn by_two(alloc: Global, exprs: Vec<Expr>, op: BinaryOp) -> Result<Vec<Expr>, AllocError> {
    let mut pairs = Vec::new(alloc);
    let mut waiting = None;
    for expr in exprs {
        match waiting.take() {
            None => waiting = Some(expr),
            Some(first) => push_pair(alloc, &mut pairs, op, first, expr)?,
        }
    }
    Ok(pairs)
}

fn push_pair(
    alloc: Global,
    pairs: &mut Vec<Expr>,
    op: BinaryOp,
    left: Expr,
    right: Expr,
) -> Result<(), AllocError> {
    pairs.push(Expr::binary_app(alloc, op, left, right)?)?;
    Ok(())
}

// The record of the first ten, of the next ten, and so on.
fn by_ten(alloc: Global, exprs: Vec<Expr>) -> Result<Vec<Expr>, CaseFault> {
    let mut records = Vec::new(alloc);
    let mut pairs = Vec::new(alloc);
    for expr in exprs {
        pairs.push((key(alloc, pairs.len())?, expr))?;
        if pairs.len() == 10 {
            records.push(Expr::record(alloc, mem::replace(&mut pairs, Vec::new(alloc)))?)?;
        }
    }
    Ok(records)
}

/// The key of this number in a record.
pub fn key(alloc: Global, index: usize) -> Result<RcStr, AllocError> {
    Ok(RcStr::from_string(format!(in alloc; "k{index}")?)?)
}

// The attribute k3 of the first record, whether the next one has it, and so on.
fn asked(alloc: Global, records: Vec<Expr>) -> Result<Vec<Expr>, AllocError> {
    let mut asked = Vec::new(alloc);
    for record in records {
        let is_get = asked.len() % 2 == 0;
        asked.push(question(alloc, is_get, record)?)?;
    }
    Ok(asked)
}

fn question(alloc: Global, is_get: bool, record: Expr) -> Result<Expr, AllocError> {
    let attr = key(alloc, 3)?;
    if is_get {
        Expr::get_attr(alloc, record, attr)
    } else {
        Expr::has_attr(alloc, record, attr)
    }
}
