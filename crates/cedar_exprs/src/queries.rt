//! Questions about expressions.
ghost use Rattle.std.specs.Prelude.{◌≡◌, IfOk};
ghost use Rattle.std.specs.List.{list_all};
ghost use Rattle.cedar_builders.specs.Queries.{is_ref, is_slot, is_unknown, is_ref_set};
ghost use Rattle.cedar_builders.specs.Queries.{is_projectable_node, is_projectable};
ghost use Rattle.cedar_builders.specs.Queries.{contains_unknown};
ghost use Rattle.cedar_exprs.specs.BareExpr.{bare_expr};

use crate::expr::{Expr, ExprKind};
use crate::walks::positions::Positions;
use std::alloc::{AllocError, Global};

impl<T> Expr<T> {
    /// Whether it is the literal of an entity.
    pub fn is_ref(&self) -> bool
        ensures { result ≡ is_ref (bare_expr self.now) }
    {
        match self.expr_kind() {
            ExprKind::Lit(literal) => literal.is_ref(),
            _ => false,
        }
    }

    /// Whether it is a slot.
    pub fn is_slot(&self) -> bool
        ensures { result ≡ is_slot (bare_expr self.now) }
    {
        matches!(self.expr_kind(), ExprKind::Slot(_))
    }

    /// Whether it is a set of literals of entities alone; the empty set is one.
    pub fn is_ref_set(&self) -> bool
        ensures { result ≡ is_ref_set (bare_expr self.now) }
    {
        match self.expr_kind() {
            ExprKind::Set(members) => are_refs(members),
            _ => false,
        }
    }

    /// Whether each position is a literal, an unknown, a set, a variable or a record.
    pub fn is_projectable(&self, alloc: Global) -> Result<bool, AllocError>
        ensures { IfOk result (λ b. b ≡ is_projectable (bare_expr self.now)) }
    {
        let mut left = Positions::of(alloc, self)?;
        'left: while let Some(position) = left.next()? {
            if !is_projectable_node(position) {
                return Ok(false);
            }
        }
        Ok(true)
    }

    /// Whether some position is an unknown.
    pub fn contains_unknown(&self, alloc: Global) -> Result<bool, AllocError>
        ensures { IfOk result (λ b. b ≡ contains_unknown (bare_expr self.now)) }
    {
        let mut left = Positions::of(alloc, self)?;
        'left: while let Some(position) = left.next()? {
            if is_unknown(position) {
                return Ok(true);
            }
        }
        Ok(false)
    }
}

// Whether all are literals of entities.
fn are_refs<T>(members: &[Expr<T>]) -> bool
    ensures { result ≡ list_all (λ member. is_ref (bare_expr member)) members.now }
{
    members.iter().all(|member| member.is_ref())
}

// Whether a node is a literal, an unknown, a set, a variable or a record.
fn is_projectable_node<T>(expr: &Expr<T>) -> bool
    ensures { result ≡ is_projectable_node (bare_expr expr.now) }
{
    matches!(
        expr.expr_kind(),
        ExprKind::Lit(_)
            | ExprKind::Unknown(_)
            | ExprKind::Set(_)
            | ExprKind::Var(_)
            | ExprKind::Record(_)
    )
}

// Whether a node is an unknown.
fn is_unknown<T>(expr: &Expr<T>) -> bool
    ensures { result ≡ is_unknown (bare_expr expr.now) }
{
    matches!(expr.expr_kind(), ExprKind::Unknown(_))
}
