//! What stands below a node that a drop is done with.
ghost use Rattle.std.specs.Prelude.{◌≡◌, IfSome, IsTrue};
ghost use Rattle.cedar_exprs.specs.Steps.{
  below_nodes,
  branch_of,
  is_leaf,
  kind_nodes,
  nodes,
  subtrees_of,
};

use crate::expr::{Expr, ExprKind};
use cedar_terms::{UnaryOp, Var};
use std::collections::BTreeMap;
use std::mem;
use std::rc::{Rc, RcStr};

// What stands below a node that is done with.
pub(crate) enum Subtrees<T> {
    Nothing,
    One(Rc<Expr<T>>),
    Two(Rc<Expr<T>>, Rc<Expr<T>>),
    Three(Rc<Expr<T>>, Rc<Expr<T>>, Rc<Expr<T>>),
    Row(Row<T>),
}

// A row of children.
pub(crate) enum Row<T> {
    // The members of a set, or the arguments of a call.
    Items(Rc<Vec<Expr<T>>>),
    // The values of a record, with their keys.
    Fields(Rc<BTreeMap<RcStr, Expr<T>>>),
}

impl<T: Drop> Expr<T> {
    // What stands below the expression. A leaf is dropped, and gives none.
    #[inline(always)]
    pub(crate) fn into_subtrees(self) -> Option<Subtrees<T>>
        ensures branch { result ≡ branch_of self }
        ensures nodes { IfSome result (λ below. below_nodes below ≡ nodes self) }
    {
        if self.is_leaf() {
            drop_leaf(self.into_parts().0);
            None
        } else {
            Some(take_subtrees(self.into_parts().0))
        }
    }

    // Puts something else below the node, and gives what stood there. Where it was a leaf, that is
    // dropped and gives none.
    #[inline(always)]
    pub(crate) fn replace_subtrees(&mut self, below: Subtrees<T>) -> Option<Subtrees<T>>
        ensures put { nodes self.new ≡ below_nodes below }
        ensures branch { result ≡ branch_of self.old }
        ensures taken { IfSome result (λ old. below_nodes old ≡ nodes self.old) }
    {
        match take_subtrees(mem::replace(&mut self.expr_kind, kind_over(below))) {
            Subtrees::Nothing => None,
            old => Some(old),
        }
    }
}

// Drops all of a kind but what stands below it.
#[inline(always)]
pub(crate) fn take_subtrees<T: Drop>(kind: ExprKind<T>) -> Subtrees<T>
    ensures subtrees { result ≡ subtrees_of kind }
    ensures nodes { below_nodes result ≡ kind_nodes kind }
{
    match kind {
        ExprKind::Lit(literal) => {
            drop(literal);
            Subtrees::Nothing
        }
        ExprKind::Var(_) => Subtrees::Nothing,
        ExprKind::Slot(_) => Subtrees::Nothing,
        ExprKind::Unknown(unknown) => {
            drop(unknown);
            Subtrees::Nothing
        }
        ExprKind::If {
            test_expr,
            then_expr,
            else_expr,
        } => Subtrees::Three(test_expr, then_expr, else_expr),
        ExprKind::And { left, right } => Subtrees::Two(left, right),
        ExprKind::Or { left, right } => Subtrees::Two(left, right),
        ExprKind::UnaryApp { op: _, arg } => Subtrees::One(arg),
        ExprKind::BinaryApp { op: _, arg1, arg2 } => Subtrees::Two(arg1, arg2),
        ExprKind::ExtensionFunctionApp { fn_name, args } => {
            drop(fn_name);
            Subtrees::Row(Row::Items(args))
        }
        ExprKind::GetAttr { expr, attr } => {
            drop(attr);
            Subtrees::One(expr)
        }
        ExprKind::HasAttr { expr, attrs } => {
            drop(attrs);
            Subtrees::One(expr)
        }
        ExprKind::Like { expr, pattern } => {
            drop(pattern);
            Subtrees::One(expr)
        }
        ExprKind::Set(members) => Subtrees::Row(Row::Items(members)),
        ExprKind::Record(fields) => Subtrees::Row(Row::Fields(fields)),
        ExprKind::Is { expr, entity_type } => {
            drop(entity_type);
            Subtrees::One(expr)
        }
    }
}

// A kind with this below it.
pub(crate) fn kind_over<T>(below: Subtrees<T>) -> ExprKind<T>
    ensures { kind_nodes result ≡ below_nodes below }
{
    match below {
        Subtrees::Nothing => ExprKind::Var(Var::Principal),
        Subtrees::One(arg) => ExprKind::UnaryApp {
            op: UnaryOp::Not,
            arg,
        },
        Subtrees::Two(left, right) => ExprKind::And { left, right },
        Subtrees::Three(test_expr, then_expr, else_expr) => ExprKind::If {
            test_expr,
            then_expr,
            else_expr,
        },
        Subtrees::Row(Row::Items(items)) => ExprKind::Set(items),
        Subtrees::Row(Row::Fields(fields)) => ExprKind::Record(fields),
    }
}

// Drops a kind that nothing stands below.
#[inline(always)]
pub(crate) fn drop_leaf<T: Drop>(kind: ExprKind<T>)
    requires { IsTrue (is_leaf kind) }
{
    match kind {
        ExprKind::Lit(literal) => drop(literal),
        ExprKind::Var(_) => {}
        ExprKind::Slot(_) => {}
        ExprKind::Unknown(unknown) => drop(unknown),
        _kind => unreachable!(),
    }
}
