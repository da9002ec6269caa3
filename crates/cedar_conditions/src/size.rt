//! How large a condition may be.
ghost use Rattle.std.specs.Prelude.{
  ◌≡◌,
  ◌&&◌,
  ◌<◌,
  ◌^◌,
  ◌-◌,
  IfOk,
  [],
  ◌∷◌,
  map,
  nat_le,
};
ghost use Rattle.std.specs.Option.{is_some};
ghost use Rattle.cedar_exprs.specs.BareExpr.{bare_expr, kind_of};
ghost use Rattle.cedar_exprs.specs.Walks.{children};
ghost use Rattle.cedar_conditions.specs.Conditions.{around_children};
ghost use Rattle.cedar_conditions.specs.Conditions.{is_container as is_set_or_record};
ghost use Rattle.cedar_conditions.specs.Nodes.{AreNodesOf, ArePushed, is_container_kind};

use crate::problem::{Problem, Words};
use cedar_exprs::{Expr, ExprKind};
use cedar_parser::Excerpt;
use std::alloc::{AllocError, Global};
use std::collections::BTreeMap;
use std::rc::RcStr;

// How deep sets and records may nest: comparing values takes stack for each level.
const DEEPEST: usize = 1_000;
// How many nodes a condition may have, whatever its length, and for each byte of its text.
const NODES: usize = 100_000;

const NODES_A_BYTE: usize = 16;

/// A node of a condition.
#[derive(Clone, Copy, Debug, Drop)]
pub(crate) struct Node<'a> {
    pub(crate) expr: &'a Expr,
    // How many sets and records are around it.
    depth: usize,
}

/// The nodes of a condition, each behind the one around it, or why they are too many.
///
/// They are more than its text says where `is .. in` and `has` with a path test what stands before
/// them several times.
pub(crate) fn nodes_of<'a>(
    alloc: Global,
    text: &str,
    expr: &'a Expr,
) -> Result<Result<Vec<Node<'a>>, Problem>, AllocError>
    ensures { IfOk result (AreNodesOf text.now (bare_expr expr.now)) }
{
    let most = text.len().saturating_mul(NODES_A_BYTE).max(NODES);
    let mut nodes = Vec::new(alloc);
    push(&mut nodes, expr, 0)?;
    for at in 0..most {
        match nodes.get(at).copied() {
            Some(node) => push_children(&mut nodes, node.expr, depth_below(node))?,
            None => return Ok(Ok(nodes)),
        }
    }
    let message = "this condition is too large: `is .. in` stands too often in its own left side";
    Ok(Err(problem(alloc, whole(text), message)?))
}

/// Why a node is in too many sets and records, if it is the first that is.
pub(crate) fn too_deep(
    alloc: Global,
    text: &str,
    node: Node<'_>,
) -> Result<Option<Problem>, AllocError>
    ensures { IfOk result (λ found. is_some found
        ≡ (nat_le 1000 node.entry.depth
        && is_set_or_record (bare_expr node.entry.expr.now))) }
{
    if node.depth < DEEPEST || !is_container(node.expr) {
        return Ok(None);
    }
    let message = format!(in alloc; "sets and records nest at most {DEEPEST} deep")?;
    Ok(Some(problem(alloc, piece_of(text, node.expr), &message)?))
}

/// The piece of a text where an expression stands, or the whole.
pub(crate) fn piece_of<'a>(text: &'a str, expr: &Expr) -> Excerpt<'a> {
    match expr.source_loc() {
        Some(place) => Excerpt {
            text,
            start: place.start,
            stop: place.stop,
        },
        None => whole(text),
    }
}

fn whole(text: &str) -> Excerpt<'_> {
    Excerpt {
        text,
        start: 0,
        stop: text.len(),
    }
}

fn problem(alloc: Global, piece: Excerpt<'_>, message: &str) -> Result<Problem, AllocError> {
    Problem::new(
        alloc,
        piece,
        Words::message(String::from_str(alloc, message)?),
    )
}

fn is_container(expr: &Expr) -> bool
    ensures { result ≡ is_container_kind (kind_of expr.now) }
{
    matches!(expr.expr_kind(), ExprKind::Set(_) | ExprKind::Record(_))
}

// How many sets and records are around the children of a node.
fn depth_below(node: Node<'_>) -> usize
    requires { node.depth < 2 ^ 64 - 1 }
    ensures { result ≡ around_children (bare_expr node.entry.expr.now) node.entry.depth }
{
    if is_container(node.expr) {
        node.depth + 1
    } else {
        node.depth
    }
}

// Puts an expression behind others, around which are so many sets and records.
fn push<'a>(nodes: &mut Vec<Node<'a>>, expr: &'a Expr, depth: usize) -> Result<(), AllocError>
    ensures { IfOk result (λ _. ArePushed depth (expr.now ∷ []) nodes.old.items nodes.new.items) }
{
    Ok(nodes.push(Node { expr, depth })?)
}

fn push_two<'a>(
    nodes: &mut Vec<Node<'a>>,
    first: &'a Expr,
    second: &'a Expr,
    depth: usize,
) -> Result<(), AllocError>
    ensures { IfOk result (λ _.
        ArePushed depth (first.now ∷ second.now ∷ []) nodes.old.items nodes.new.items) }
{
    push(nodes, first, depth)?;
    push(nodes, second, depth)?;
    Ok(())
}

fn push_three<'a>(
    nodes: &mut Vec<Node<'a>>,
    first: &'a Expr,
    second: &'a Expr,
    third: &'a Expr,
    depth: usize,
) -> Result<(), AllocError>
    ensures { IfOk result (λ _. ArePushed depth
        (first.now ∷ second.now ∷ third.now ∷ []) nodes.old.items nodes.new.items) }
{
    push(nodes, first, depth)?;
    push_two(nodes, second, third, depth)?;
    Ok(())
}

fn push_row<'a>(nodes: &mut Vec<Node<'a>>, row: &'a [Expr], depth: usize) -> Result<(), AllocError>
    ensures { IfOk result (λ _. ArePushed depth row.now nodes.old.items nodes.new.items) }
{
    for member in row {
        push(nodes, member, depth)?;
    }
    Ok(())
}

fn push_values<'a>(
    nodes: &mut Vec<Node<'a>>,
    pairs: &'a BTreeMap<RcStr, Expr>,
    depth: usize,
) -> Result<(), AllocError>
    ensures { IfOk result (λ _. ArePushed depth
        (map (λ p. p.1) pairs.now.entries) nodes.old.items nodes.new.items) }
{
    for value in pairs.values() {
        push(nodes, value, depth)?;
    }
    Ok(())
}

// Puts the children of an expression behind others.
fn push_children<'a>(
    nodes: &mut Vec<Node<'a>>,
    expr: &'a Expr,
    depth: usize,
) -> Result<(), AllocError>
    ensures { IfOk result (λ _.
        ArePushed depth (children expr.now) nodes.old.items nodes.new.items) }
{
    match expr.expr_kind() {
        ExprKind::Lit(_) | ExprKind::Var(_) | ExprKind::Slot(_) | ExprKind::Unknown(_) => Ok(()),
        ExprKind::If {
            test_expr,
            then_expr,
            else_expr,
        } => push_three(nodes, test_expr, then_expr, else_expr, depth),
        ExprKind::And { left, right } | ExprKind::Or { left, right } => {
            push_two(nodes, left, right, depth)
        }
        ExprKind::BinaryApp { arg1, arg2, .. } => push_two(nodes, arg1, arg2, depth),
        ExprKind::UnaryApp { arg: child, .. }
        | ExprKind::GetAttr { expr: child, .. }
        | ExprKind::HasAttr { expr: child, .. }
        | ExprKind::Like { expr: child, .. }
        | ExprKind::Is { expr: child, .. } => push(nodes, child, depth),
        ExprKind::ExtensionFunctionApp { args: row, .. } | ExprKind::Set(row) => {
            push_row(nodes, row, depth)
        }
        ExprKind::Record(pairs) => push_values(nodes, pairs, depth),
    }
}
