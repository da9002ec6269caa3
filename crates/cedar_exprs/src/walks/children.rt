//! The children of an expression.
ghost use Rattle.std.specs.Prelude.{◌≡◌, ◌++◌};
ghost use Rattle.std.specs.Iterator.{YieldsFirstRef, item_count};
ghost use Rattle.cedar_exprs.specs.Walks.{children};
ghost use Rattle.cedar_exprs.specs.Children.{children_left, children_shown, few_left, shown};

use crate::expr::{Expr, ExprKind};
use std::collections::{BTreeMap, btree_map};
use std::rc::RcStr;
use std::slice;

// The children of a node, borrowed as they stand in it: in field order, the values of a record by
// key.
#[derive(Drop)]
pub(crate) enum NodeChildren<'a, T> {
    Nothing,
    One(&'a Expr<T>),
    Two(&'a Expr<T>, &'a Expr<T>),
    Three(&'a Expr<T>, &'a Expr<T>, &'a Expr<T>),
    // The arguments of a call or the members of a set.
    Row(&'a [Expr<T>]),
    // The values of a record.
    Values(&'a BTreeMap<RcStr, Expr<T>>),
}

impl<'a, T> NodeChildren<'a, T> {
    #[inline(always)]
    pub(crate) fn of(expr: &'a Expr<T>) -> NodeChildren<'a, T>
        ensures { children_shown result ≡ children expr.now }
    {
        match expr.expr_kind() {
            ExprKind::Lit(_) | ExprKind::Var(_) | ExprKind::Slot(_) | ExprKind::Unknown(_) => {
                NodeChildren::Nothing
            }
            ExprKind::If {
                test_expr,
                then_expr,
                else_expr,
            } => NodeChildren::Three(test_expr, then_expr, else_expr),
            ExprKind::And { left, right } | ExprKind::Or { left, right } => {
                NodeChildren::Two(left, right)
            }
            ExprKind::BinaryApp { arg1, arg2, .. } => NodeChildren::Two(arg1, arg2),
            ExprKind::UnaryApp { arg: child, .. }
            | ExprKind::GetAttr { expr: child, .. }
            | ExprKind::HasAttr { expr: child, .. }
            | ExprKind::Like { expr: child, .. }
            | ExprKind::Is { expr: child, .. } => NodeChildren::One(child),
            ExprKind::ExtensionFunctionApp { args: row, .. } | ExprKind::Set(row) => {
                NodeChildren::Row(row)
            }
            ExprKind::Record(pairs) => NodeChildren::Values(pairs),
        }
    }
}

// What is left of the children of a node.
#[derive(Drop)]
pub(crate) enum Children<'a, T> {
    // Those of a node with a fixed number of them.
    Few(Few<'a, T>),
    // The arguments of a call or the members of a set.
    Row(slice::Iter<'a, Expr<T>>),
    // The values of a record.
    Values(btree_map::Values<'a, RcStr, Expr<T>>),
}

// At most three expressions, in this order.
#[derive(Drop)]
pub(crate) struct Few<'a, T> {
    first: Option<&'a Expr<T>>,
    second: Option<&'a Expr<T>>,
    third: Option<&'a Expr<T>>,
}

impl<'a, T> Children<'a, T> {
    pub(crate) fn of(expr: &'a Expr<T>) -> Children<'a, T>
        ensures all { children_left result ≡ children expr.now }
    {
        match NodeChildren::of(expr) {
            NodeChildren::Nothing => Children::few(None, None, None),
            NodeChildren::One(child) => Children::few(Some(child), None, None),
            NodeChildren::Two(first, second) => Children::few(Some(first), Some(second), None),
            NodeChildren::Three(first, second, third) => {
                Children::few(Some(first), Some(second), Some(third))
            }
            NodeChildren::Row(row) => Children::Row(row.iter()),
            NodeChildren::Values(pairs) => Children::Values(pairs.values()),
        }
    }

    fn few(
        first: Option<&'a Expr<T>>,
        second: Option<&'a Expr<T>>,
        third: Option<&'a Expr<T>>,
    ) -> Children<'a, T>
        ensures { children_left result
            ≡ shown first.entry ++ shown second.entry ++ shown third.entry }
    {
        Children::Few(Few {
            first,
            second,
            third,
        })
    }
}

impl<'a, T> Few<'a, T> {
    fn take_first(&mut self) -> Option<&'a Expr<T>>
        ensures { YieldsFirstRef few_left self.old result self.new }
    {
        if self.first.is_some() {
            return self.first.take();
        }
        if self.second.is_some() {
            return self.second.take();
        }
        self.third.take()
    }
}

impl<'a, T> Iterator for Children<'a, T> {
    type Item = &'a Expr<T>;

    ghost next_gives = { YieldsFirstRef children_left };

    ghost remaining = { item_count children_left };

    fn next(&mut self) -> Option<&'a Expr<T>> {
        match self {
            Children::Few(few) => few.take_first(),
            Children::Row(rest) => rest.next(),
            Children::Values(rest) => rest.next(),
        }
    }
}
