//! Validation of expressions that were not read from a text.
ghost use Rattle.std.specs.Prelude.{◌≡◌, None, IfOk, IfErr, OnOk};
ghost use Rattle.cedar_validation.specs.Faults.{fault_at, first_fault};
ghost use Rattle.cedar_validation.specs.ValidationErrors.{IsErrorOf};
ghost use Rattle.cedar_exprs.specs.BareExpr.{bare_expr};

use crate::expr::{Expr, ExprKind};
use crate::walks::positions::Positions;
use cedar_validation::{ExprValidationError, FunctionTable, check_call, check_path};
use std::alloc::Global;

impl<T: Drop> Expr<T> {
    /// The expression as it is, where a text of Cedar could say it: each function that is called is
    /// known, one that is called as a method has a receiver, and each attribute of a path of two or
    /// more is an identifier that a user may define. Numbers of arguments are not compared.
    ///
    /// Else the error is that of the first position that has a fault, in the order of
    /// `subexpressions`.
    pub fn try_validate<F: FunctionTable>(
        self,
        alloc: Global,
        table: &F,
    ) -> Result<Expr<T>, ExprValidationError>
        ensures same { IfOk result (λ e. e ≡ self) }
        ensures valid { OnOk result
            (first_fault (F.style_at table.now) (bare_expr self) ≡ None) }
        ensures refused { IfErr result
            (IsErrorOf (first_fault (F.style_at table.now) (bare_expr self))) }
    {
        check_positions(alloc, table, &self)?;
        Ok(self)
    }
}

fn check_positions<T, F: FunctionTable>(
    alloc: Global,
    table: &F,
    expr: &Expr<T>,
) -> Result<(), ExprValidationError>
    ensures passed { OnOk result
        (first_fault (F.style_at table.now) (bare_expr expr.now) ≡ None) }
    ensures refused { IfErr result
        (IsErrorOf (first_fault (F.style_at table.now) (bare_expr expr.now))) }
{
    let mut left = Positions::of(alloc, expr)?;
    'left: while let Some(position) = left.next()? {
        check_node(alloc, table, position)?;
    }
    Ok(())
}

// A node by itself.
fn check_node<T, F: FunctionTable>(
    alloc: Global,
    table: &F,
    node: &Expr<T>,
) -> Result<(), ExprValidationError>
    ensures passed { OnOk result (fault_at (F.style_at table.now) (bare_expr node.now) ≡ None) }
    ensures refused { IfErr result
        (IsErrorOf (fault_at (F.style_at table.now) (bare_expr node.now))) }
{
    match node.expr_kind() {
        ExprKind::ExtensionFunctionApp { fn_name, args } => {
            check_call(alloc, table, fn_name, args.len())
        }
        ExprKind::HasAttr { attrs, .. } => check_path(attrs),
        _ => Ok(()),
    }
}
