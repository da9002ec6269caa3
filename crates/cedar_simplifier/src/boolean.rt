//! Expressions that can only be Booleans, by their roots.
ghost use Rattle.std.specs.Prelude.{◌≡◌, is_some};
ghost use Rattle.cedar_terms.specs.Literals.{bare_literal};
ghost use Rattle.cedar_builders.specs.Trees.{literal_bool};
ghost use Rattle.cedar_exprs.specs.BareExpr.{bare_expr};
ghost use Rattle.semantics_simplify.specs.Kinds as kinds;

use cedar_exprs::{Expr, ExprKind};
use cedar_terms::{BinaryOp, Literal, UnaryOp};

// Whether an expression, by its root, can only be a Boolean or a fault.
pub(crate) fn is_boolean_kind(expr: &Expr) -> bool
    ensures { result ≡ kinds.is_boolean_kind (bare_expr expr.now) }
{
    match expr.expr_kind() {
        ExprKind::Lit(literal) => is_boolean_literal(literal),
        ExprKind::And { .. } => true,
        ExprKind::Or { .. } => true,
        ExprKind::UnaryApp { op, .. } => is_unary_test(*op),
        ExprKind::BinaryApp { op, .. } => is_binary_test(*op),
        ExprKind::HasAttr { .. } => true,
        ExprKind::Like { .. } => true,
        ExprKind::Is { .. } => true,
        _ => false,
    }
}

// Whether a literal is a Boolean.
fn is_boolean_literal(literal: &Literal) -> bool
    ensures { result ≡ is_some (literal_bool (bare_literal literal.now)) }
{
    matches!(literal, Literal::Bool(_))
}

// Whether an operator on one argument gives only Booleans.
fn is_unary_test(op: UnaryOp) -> bool
    ensures { result ≡ kinds.is_unary_test op }
{
    !matches!(op, UnaryOp::Neg)
}

// Whether an operator on two arguments gives only Booleans.
fn is_binary_test(op: BinaryOp) -> bool
    ensures { result ≡ kinds.is_binary_test op }
{
    !matches!(
        op,
        BinaryOp::Add | BinaryOp::Sub | BinaryOp::Mul | BinaryOp::GetTag
    )
}
