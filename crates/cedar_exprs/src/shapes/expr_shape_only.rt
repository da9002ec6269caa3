//! Expressions that compare and hash by what they are alone.
ghost use Rattle.std.specs.Prelude.{◌≡◌, IfOk};
ghost use Rattle.cedar_exprs.specs.BareExpr.{bare_expr};

use crate::expr::Expr;
use crate::shapes::hashing::hash_shape;
use crate::shapes::order::cmp_shape;
use std::alloc::{AllocError, Global};
use std::cmp::Ordering;
use std::fmt;
use std::hash::{Hash, Hasher};

/// An expression, borrowed or owned, whose places and data do not count: it compares and hashes by
/// `eq_shape`, `cmp_shape` and `hash_shape`.
#[derive(Debug, Drop)]
pub struct ExprShapeOnly<'a, T = ()>(Held<'a, T>);

// A borrowed or an owned expression, which is shown as the expression.
#[derive(Drop)]
enum Held<'a, T> {
    Borrowed(&'a Expr<T>),
    Owned(Expr<T>),
}

impl<T: fmt::Debug> fmt::Debug for Held<'_, T> {
    fn fmt<W: fmt::Write>(&self, f: &mut fmt::Formatter<W>) -> fmt::Result {
        match self {
            Held::Borrowed(expr) => fmt::Debug::fmt(*expr, f),
            Held::Owned(expr) => fmt::Debug::fmt(expr, f),
        }
    }
}

impl<'a, T> ExprShapeOnly<'a, T> {
    ghost use Rattle.cedar_exprs.specs.ShapeOnly.{shape_of};

    /// Of an expression that stays elsewhere.
    pub fn new_from_borrowed(expr: &'a Expr<T>) -> ExprShapeOnly<'a, T>
        ensures { shape_of result ≡ bare_expr expr.now }
    {
        ExprShapeOnly(Held::Borrowed(expr))
    }

    /// Of an expression of its own.
    pub fn new_from_owned(expr: Expr<T>) -> ExprShapeOnly<'a, T>
        ensures { shape_of result ≡ bare_expr expr }
    {
        ExprShapeOnly(Held::Owned(expr))
    }

    // The expression.
    fn expr(&self) -> &Expr<T>
        ensures { bare_expr result.now ≡ shape_of self.now }
    {
        match &self.0 {
            Held::Borrowed(expr) => expr,
            Held::Owned(expr) => expr,
        }
    }
}

/// A copy, which borrows what this one borrows.
impl<'a, T: Clone> Clone for ExprShapeOnly<'a, T> {
    ghost use Rattle.cedar_exprs.specs.ShapeOnly.{shape_of};

    ghost is_clone = { λ e copy. shape_of copy ≡ shape_of e };

    fn clone(&self) -> Result<ExprShapeOnly<'a, T>, AllocError> {
        match &self.0 {
            Held::Borrowed(expr) => Ok(ExprShapeOnly::new_from_borrowed(expr)),
            Held::Owned(expr) => Ok(ExprShapeOnly::new_from_owned(expr.clone()?)),
        }
    }
}

impl<'a, T: Copy> ExprShapeOnly<'a, T> {
    ghost use Rattle.cedar_exprs.specs.ShapeOnly.{shape_of};

    /// A copy, which borrows what this one borrows.
    pub fn clone(&self, alloc: Global) -> Result<ExprShapeOnly<'a, T>, AllocError>
        ensures { IfOk result (λ e. shape_of e ≡ shape_of self.now) }
    {
        match &self.0 {
            Held::Borrowed(expr) => Ok(ExprShapeOnly::new_from_borrowed(expr)),
            Held::Owned(expr) => Ok(ExprShapeOnly::new_from_owned(expr.clone(alloc)?)),
        }
    }
}

impl<'a, T> PartialEq for ExprShapeOnly<'a, T> {
    ghost use Rattle.std.specs.Cmp.{on_per, partial_equiv_from_equiv};
    ghost use Rattle.std.specs.Ordering.{on, eq_by_cmp};
    ghost use Rattle.cedar_builders.specs.ShapeOrder.{shape_eq_equiv};
    ghost use Rattle.cedar_builders.specs.Shapes.{shape_cmp};
    ghost use Rattle.cedar_exprs.specs.ShapeOnly.{shape_of};

    ghost eq = { on shape_of (eq_by_cmp shape_cmp) };

    ghost laws = { on_per shape_of (partial_equiv_from_equiv shape_eq_equiv) };

    fn eq(&self, other: &ExprShapeOnly<'a, T>) -> bool {
        cmp_shape(self.expr(), other.expr()).is_eq()
    }
}

impl<'a, T> Eq for ExprShapeOnly<'a, T> {
    ghost use Rattle.std.specs.Cmp.{on_equiv};
    ghost use Rattle.cedar_builders.specs.ShapeOrder.{shape_eq_equiv};
    ghost use Rattle.cedar_exprs.specs.ShapeOnly.{shape_of};

    ghost laws = { on_equiv shape_of shape_eq_equiv };
}

impl<'a, T> PartialOrd for ExprShapeOnly<'a, T> {
    ghost use Rattle.std.specs.Cmp.{on_po};
    ghost use Rattle.std.specs.Ordering.{on, as_partial_cmp};
    ghost use Rattle.cedar_builders.specs.ShapeOrder.{shape_po};
    ghost use Rattle.cedar_builders.specs.Shapes.{shape_cmp};
    ghost use Rattle.cedar_exprs.specs.ShapeOnly.{shape_of};

    ghost partial_cmp = { as_partial_cmp (on shape_of shape_cmp) };

    ghost laws = { on_po shape_of shape_po };

    fn partial_cmp(&self, other: &ExprShapeOnly<'a, T>) -> Option<Ordering> {
        Some(self.cmp(other))
    }
}

impl<'a, T> Ord for ExprShapeOnly<'a, T> {
    ghost use Rattle.std.specs.Prelude.{refl};
    ghost use Rattle.std.specs.Cmp.{on_total};
    ghost use Rattle.std.specs.Ordering.{on};
    ghost use Rattle.cedar_builders.specs.ShapeOrder.{shape_cmp_total};
    ghost use Rattle.cedar_builders.specs.Shapes.{shape_cmp};
    ghost use Rattle.cedar_exprs.specs.ShapeOnly.{shape_of};

    ghost cmp = { on shape_of shape_cmp };

    ghost total = { on_total shape_of shape_cmp_total };

    ghost matches_partial_cmp = { λ _ _. refl };

    ghost matches_eq = { λ _ _. refl };

    fn cmp(&self, other: &ExprShapeOnly<'a, T>) -> Ordering {
        cmp_shape(self.expr(), other.expr())
    }
}

impl<'a, T> Hash for ExprShapeOnly<'a, T> {
    ghost use Rattle.cedar_builders.specs.ShapeFeed.{shape_fed};
    ghost use Rattle.cedar_builders.specs.ShapeOrder.{shape_fed-alike};
    ghost use Rattle.cedar_exprs.specs.ShapeOnly.{shape_of};

    ghost hash_input = { λ e. shape_fed (shape_of e) };

    ghost respects_eq = { λ a b. shape_fed-alike (shape_of a) (shape_of b) };

    fn hash<H: Hasher>(&self, state: &mut H) {
        hash_shape(self.expr(), state);
    }
}
