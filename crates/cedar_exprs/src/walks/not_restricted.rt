//! The first node of a kind that no restricted expression has.
ghost use Rattle.std.specs.Prelude.{◌≡◌, ◌++◌, IsTrue, IfOk, map};
ghost use Rattle.std.specs.Option.{option_copied};
ghost use Rattle.cedar_builders.specs.Restricted.{is_restricted_node};
ghost use Rattle.cedar_exprs.specs.BareExpr.{bare_expr};
ghost use Rattle.cedar_exprs.specs.NotRestricted.{first_not_restricted};
ghost use Rattle.cedar_exprs.specs.Waiting.{next_first};
ghost use Rattle.cedar_exprs.specs.Walks.{children};

use crate::expr::{Expr, ExprKind};
use crate::walks::children::Children;
use std::alloc::{AllocError, Global};
use std::collections::BTreeMap;
use std::rc::RcStr;

// The first such node in preorder. Without memory for a walk by a loop, it is found by calls.
pub(crate) fn first_not_restricted<T>(alloc: Global, expr: &Expr<T>) -> Option<&Expr<T>>
    ensures { option_copied result ≡ first_not_restricted expr.now }
{
    match first_by_loop(alloc, expr) {
        Ok(found) => found,
        Err(_) => first_by_calls(expr),
    }
}

// The same, where what waits lies on the heap.
fn first_by_loop<T>(alloc: Global, expr: &Expr<T>) -> Result<Option<&Expr<T>>, AllocError>
    ensures { IfOk result (λ found. option_copied found ≡ first_not_restricted expr.now) }
{
    let mut waiting = Vec::new(alloc);
    let mut reached = expr;
    'down: loop {
        if !is_restricted_node(reached) {
            return Ok(Some(reached));
        }
        push_children(&mut waiting, reached)?;
        match waiting.pop() {
            Some(next) => reached = next,
            None => return Ok(None),
        }
    }
}

// The same, where what waits lies on the stack.
fn first_by_calls<T>(expr: &Expr<T>) -> Option<&Expr<T>>
    ensures { option_copied result ≡ first_not_restricted expr.now }
{
    if !is_restricted_node(expr) {
        return Some(expr);
    }
    for child in Children::of(expr) {
        if let Some(node) = first_by_calls(child) {
            return Some(node);
        }
    }
    None
}

// Whether a node is a literal, an unknown, a set, a record or a call.
fn is_restricted_node<T>(expr: &Expr<T>) -> bool
    ensures { result ≡ is_restricted_node (bare_expr expr.now) }
{
    matches!(
        expr.expr_kind(),
        ExprKind::Lit(_)
            | ExprKind::Unknown(_)
            | ExprKind::ExtensionFunctionApp { .. }
            | ExprKind::Set(_)
            | ExprKind::Record(_)
    )
}

// Puts the children of such a node onto what waits, the first on top.
fn push_children<'a, T>(waiting: &mut Vec<&'a Expr<T>>, node: &'a Expr<T>) -> Result<(), AllocError>
    requires { IsTrue (is_restricted_node (bare_expr node.now)) }
    ensures { IfOk result (λ _.
        next_first waiting.new.items ≡ children node.now ++ next_first waiting.old.items) }
{
    match node.expr_kind() {
        ExprKind::ExtensionFunctionApp { args: row, .. } | ExprKind::Set(row) => {
            push_row(waiting, row)
        }
        ExprKind::Record(pairs) => push_values(waiting, pairs),
        _ => Ok(()),
    }
}

fn push_row<'a, T>(waiting: &mut Vec<&'a Expr<T>>, row: &'a [Expr<T>]) -> Result<(), AllocError>
    ensures { IfOk result (λ _.
        next_first waiting.new.items ≡ row.now ++ next_first waiting.old.items) }
{
    let mut left = row.iter();
    'left: while let Some(member) = left.next_back() {
        waiting.push(member)?;
    }
    Ok(())
}

fn push_values<'a, T>(
    waiting: &mut Vec<&'a Expr<T>>,
    pairs: &'a BTreeMap<RcStr, Expr<T>>,
) -> Result<(), AllocError>
    ensures { IfOk result (λ _.
        next_first waiting.new.items
        ≡ map (λ e. e.1) pairs.now.entries ++ next_first waiting.old.items) }
{
    let mut values = pairs.values();
    'values: while let Some(value) = values.next_back() {
        waiting.push(value)?;
    }
    Ok(())
}
