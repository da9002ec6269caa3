//! Types of expressions, as far as they are known without evaluation.
ghost use Rattle.std.specs.Prelude.{◌≡◌, ◌+◌, ◌<◌, IfOk, OnOk};
ghost use Rattle.std.specs.Option.{option_map};
ghost use Rattle.cedar_terms.specs.Types.{bare_type};
ghost use Rattle.cedar_builders.specs.Count.{count, total};
ghost use Rattle.cedar_validation.specs.Branches.{branches_of, type_of_all};
ghost use Rattle.cedar_validation.specs.TypeOfTree.{node_type, type_of_tree};
ghost use Rattle.cedar_exprs.specs.BareExpr.{bare_expr};
ghost use Rattle.cedar_exprs.specs.Waiting.{bare_waiting};

use crate::expr::{Expr, ExprKind};
use cedar_terms::{StaticallyTyped, Type};
use cedar_validation::{FunctionTable, binary_type, common_type, type_of_call, unary_type};
use std::alloc::{AllocError, Global};

impl<T> Expr<T> {
    /// The type of what it evaluates to, where that is known without evaluation and if it does
    /// evaluate. It is for diagnostics: no types are checked.
    ///
    /// An `if` has the common type of its two branches, an unknown the type that it is annotated
    /// with, and a call the return type of its function. Variables, slots, attributes and tags have
    /// none.
    pub fn try_type_of<F: FunctionTable>(
        &self,
        alloc: Global,
        table: &F,
    ) -> Result<Option<Type>, AllocError>
        ensures { IfOk result (λ ty. option_map bare_type ty
            ≡ type_of_tree (F.return_type_at table.now) (bare_expr self.now)) }
    {
        let mut waiting = Vec::new(alloc);
        let mut found = type_of_first(alloc, table, self, &mut waiting)?;
        'left: while let Some(branch) = waiting.pop() {
            let other = type_of_first(alloc, table, branch, &mut waiting)?;
            found = common_type(found, other);
        }
        Ok(found)
    }
}

// The type of the first branch of `if`s inside one another. The others wait, the next on top.
fn type_of_first<'a, T, F: FunctionTable>(
    alloc: Global,
    table: &F,
    expr: &'a Expr<T>,
    waiting: &mut Vec<&'a Expr<T>>,
) -> Result<Option<Type>, AllocError>
    ensures common { IfOk result (λ ty.
        type_of_all (F.return_type_at table.now) (option_map bare_type ty)
        (bare_waiting waiting.new.items)
        ≡ type_of_all (F.return_type_at table.now)
        (type_of_tree (F.return_type_at table.now) (bare_expr expr.now))
        (bare_waiting waiting.old.items)) }
    ensures fewer { OnOk result (
        total (bare_waiting waiting.new.items)
        < total (bare_waiting waiting.old.items) + count (bare_expr expr.now)) }
{
    let mut reached = expr;
    'down: while let Some((then_expr, else_expr)) = branches(reached) {
        waiting.push(else_expr)?;
        reached = then_expr;
    }
    type_of_node(alloc, table, reached)
}

// The two branches of an `if`.
fn branches<T>(expr: &Expr<T>) -> Option<(&Expr<T>, &Expr<T>)>
    ensures { option_map (λ both. (bare_expr both.0.now, bare_expr both.1.now)) result
        ≡ branches_of (bare_expr expr.now) }
{
    match expr.expr_kind() {
        ExprKind::If {
            then_expr,
            else_expr,
            ..
        } => Some((then_expr, else_expr)),
        _ => None,
    }
}

// The type of a node that does not depend on its children's.
fn type_of_node<T, F: FunctionTable>(
    alloc: Global,
    table: &F,
    node: &Expr<T>,
) -> Result<Option<Type>, AllocError>
    ensures { IfOk result (λ ty. option_map bare_type ty
        ≡ node_type (F.return_type_at table.now) (bare_expr node.now)) }
{
    match node.expr_kind() {
        ExprKind::Lit(literal) => Ok(Some(literal.type_of(alloc)?)),
        ExprKind::Unknown(unknown) => match &unknown.type_annotation {
            Some(ty) => Ok(Some(ty.clone(alloc)?)),
            None => Ok(None),
        },
        ExprKind::UnaryApp { op, .. } => Ok(Some(unary_type(*op))),
        ExprKind::BinaryApp { op, .. } => Ok(binary_type(*op)),
        ExprKind::ExtensionFunctionApp { fn_name, .. } => type_of_call(alloc, table, fn_name),
        ExprKind::And { .. }
        | ExprKind::Or { .. }
        | ExprKind::HasAttr { .. }
        | ExprKind::Like { .. }
        | ExprKind::Is { .. } => Ok(Some(Type::Bool)),
        ExprKind::Set(_) => Ok(Some(Type::Set)),
        ExprKind::Record(_) => Ok(Some(Type::Record)),
        _ => Ok(None),
    }
}
