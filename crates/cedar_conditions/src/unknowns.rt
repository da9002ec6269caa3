//! What of a condition is not known.
use cedar_exprs::{Expr, ExprKind};
use cedar_terms::{BinaryOp, Literal};
use std::alloc::{AllocError, Global};
use std::collections::BTreeSet;

/// What a residual asks for, each once, in ascending order: variables, slots and unknowns as they
/// are written, and `entities` for what the store of entities knows.
pub(crate) fn unknowns_of(alloc: Global, residual: &Expr) -> Result<Vec<String>, AllocError> {
    let mut seen = BTreeSet::new(alloc);
    for node in residual.subexpressions(alloc)? {
        if let Some(text) = unknown_text(alloc, node)? {
            let _is_new = seen.insert(text)?;
        }
    }
    seen.into_iter().collect(alloc)
}

// What a node asks for that is not known.
fn unknown_text(alloc: Global, node: &Expr) -> Result<Option<String>, AllocError> {
    match node.expr_kind() {
        ExprKind::Var(var) => Ok(Some(var.to_string(alloc)?)),
        ExprKind::Slot(slot) => Ok(Some(slot.to_string(alloc)?)),
        ExprKind::Unknown(unknown) => {
            let name = unknown.name.as_str();
            Ok(Some(format!(in alloc; "unknown({name:?})")?))
        }
        kind if asks_for_entities(kind) => Ok(Some(String::from_str(alloc, "entities")?)),
        _ => Ok(None),
    }
}

// Whether the store of entities alone may know what a node gives.
fn asks_for_entities(kind: &ExprKind) -> bool {
    match kind {
        ExprKind::BinaryApp { op, .. } => {
            matches!(op, BinaryOp::In | BinaryOp::GetTag | BinaryOp::HasTag)
        }
        ExprKind::GetAttr { expr, .. } | ExprKind::HasAttr { expr, .. } => {
            matches!(expr.expr_kind(), ExprKind::Lit(Literal::EntityUID(_)))
        }
        _ => false,
    }
}
