//! How `and` and `or` are made.
ghost use Rattle.cedar_builders.specs.Answers.{Means};
ghost use Rattle.cedar_builders.specs.BareExpr.{BareExpr, And, Or};
ghost use Rattle.cedar_builders.specs.Trees.{tree_ops};
ghost use Rattle.cedar_exprs.specs.BareExpr.{bare_expr};

use cedar_builders::ExprBuilder as _;
use cedar_exprs::{Expr, ExprBuilder, ExprKind};
use std::alloc::{AllocError, Global};
use std::rc::Rc;

/// How conjunctions and disjunctions are made.
pub trait Connectives {
    // What they are, as trees.
    ghost and_of: { BareExpr → BareExpr → BareExpr };

    ghost or_of: { BareExpr → BareExpr → BareExpr };

    /// The conjunction of two expressions, with the builder's place.
    fn and(
        builder: ExprBuilder<()>,
        alloc: Global,
        left: Expr,
        right: Expr,
    ) -> Result<Expr, AllocError>
        ensures { Means bare_expr (and_of (bare_expr left) (bare_expr right)) result };

    /// The disjunction of two expressions, with the builder's place.
    fn or(
        builder: ExprBuilder<()>,
        alloc: Global,
        left: Expr,
        right: Expr,
    ) -> Result<Expr, AllocError>
        ensures { Means bare_expr (or_of (bare_expr left) (bare_expr right)) result };
}

/// As the struct makes them: of two Boolean literals, the literal of the result.
pub enum Simplifying {}

impl Connectives for Simplifying {
    ghost and_of = { tree_ops.and_of };

    ghost or_of = { tree_ops.or_of };

    fn and(
        builder: ExprBuilder<()>,
        alloc: Global,
        left: Expr,
        right: Expr,
    ) -> Result<Expr, AllocError> {
        builder.and(alloc, left, right)
    }

    fn or(
        builder: ExprBuilder<()>,
        alloc: Global,
        left: Expr,
        right: Expr,
    ) -> Result<Expr, AllocError> {
        builder.or(alloc, left, right)
    }
}

/// Each node as it stands.
pub enum AsTheyStand {}

impl Connectives for AsTheyStand {
    ghost and_of = { And };

    ghost or_of = { Or };

    fn and(
        builder: ExprBuilder<()>,
        alloc: Global,
        left: Expr,
        right: Expr,
    ) -> Result<Expr, AllocError> {
        Ok(builder.with_expr_kind(ExprKind::And {
            left: Rc::new(alloc, left)?,
            right: Rc::new(alloc, right)?,
        }))
    }

    fn or(
        builder: ExprBuilder<()>,
        alloc: Global,
        left: Expr,
        right: Expr,
    ) -> Result<Expr, AllocError> {
        Ok(builder.with_expr_kind(ExprKind::Or {
            left: Rc::new(alloc, left)?,
            right: Rc::new(alloc, right)?,
        }))
    }
}
