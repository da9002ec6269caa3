//! The laws of expressions, and those of substitution over their bare trees.
//!
//! A function here does nothing but carry its contract, which is the law.
ghost use Rattle.std.specs.Prelude.{◌≡◌, ◌↔◌, ◌∷◌, IsTrue, map, Ok};
ghost use Rattle.cedar_builders.specs.AscendingKeys.{KeysAscend, NodeKeysAscend};
ghost use Rattle.cedar_builders.specs.BareExpr.{BareExpr};
ghost use Rattle.cedar_builders.specs.Environment.{Env, fold};
ghost use Rattle.cedar_builders.specs.Trees.{tree_ops};
ghost use Rattle.cedar_builders.specs.Walks as bare;
ghost use Rattle.cedar_builders.specs.Walks.{backward};
ghost use Rattle.cedar_exprs.specs.ExprData.{SameData, data_tree, data_trees, holds};
ghost use Rattle.cedar_exprs.specs.BareExpr.{bare_expr, data_of};
ghost use Rattle.cedar_exprs.specs.FirstNodes.{InPreorder};
ghost use Rattle.cedar_exprs.specs.Walks.{children, positions};
ghost use Rattle.cedar_exprs.specs.declared.expr.Expr.{Expr};

use crate::builder::ExprBuilder;
use crate::expr::{Expr, ExprKind};
use crate::walks::children::Children;
use cedar_builders::expr_builder;
pub use cedar_builders::laws::{
    built_after, clash_by_children, rebuilt_twice, restricted_rebuilt, shapes_are_ordered,
    stack_needs, substituted_by_fold, substituted_twice, then_is_both, then_is_not_always_both,
};
use std::hash::Hash;

/// Two expressions are equal exactly where their bare trees are, and the data at each position.
/// Places do not count.
pub fn equal_expressions<T: Eq>()
    ensures { (a b : Expr _)
        → IsTrue (⟦<Expr<T> as PartialEq>⟧.eq a b)
        ↔ ((bare_expr a ≡ bare_expr b) × SameData T.eq (data_tree a) (data_tree b)) }
{}

/// Equal expressions hash alike.
pub fn alike_expressions<T: Hash>()
    ensures { (a b : Expr _)
        → IsTrue (⟦<Expr<T> as PartialEq>⟧.eq a b)
        → ⟦<Expr<T> as Hash>⟧.hash_input a ≡ ⟦<Expr<T> as Hash>⟧.hash_input b }
{}

/// The data of an expression are its own, and below it those of its children, in field order.
pub fn data_by_children<T>()
    ensures { (e : Expr T) → data_tree e ≡ holds (data_of e) (data_trees (children e)) }
{}

/// The positions of an expression are the expression itself and then those of its children, the
/// last child first.
pub fn positions_by_children<T>()
    ensures { (e : Expr T) → positions e ≡ e ∷ backward (map positions (children e)) }
{}

/// The bare trees of the positions of an expression are the positions of its bare tree.
pub fn bare_positions<T>(expr: &Expr<T>)
    ensures { map bare_expr (positions expr.now) ≡ bare.positions (bare_expr expr.now) }
{}

/// The keys of each record in an expression strictly ascend, by bytes.
///
/// This one walks the expression, since it is the maps inside that know the order of their keys.
pub fn record_keys_ascend<T>(expr: &Expr<T>)
    ensures { KeysAscend (bare_expr expr.now) }
{
    node_keys_ascend(expr);
    for child in Children::of(expr) {
        record_keys_ascend(child);
    }
}

// The keys of a record ascend, as those of its map do.
fn node_keys_ascend<T>(expr: &Expr<T>)
    ensures { NodeKeysAscend (bare_expr expr.now) }
{
    if let ExprKind::Record(pairs) = expr.expr_kind() {
        pairs.values();
    }
}

/// In preorder a node stands before the nodes of its children, the first child first. The bare
/// trees of these nodes are the nodes of the bare tree.
pub fn nodes_in_preorder<T>()
    ensures { InPreorder T }
{}

/// What the struct `ExprBuilder<T>` makes of a tree, whatever unknowns are bound to, is an
/// expression with the tree that the builder of trees makes of it.
///
/// So the clauses of `into_expr` and its like, at the struct, are clauses on trees. Call it where
/// they are called, in a function that is generic in `T`:
///
/// ```rust
/// fn rebuild<T: Default + Copy>(alloc: Global, expr: &Expr<T>) -> Result<Expr<T>, AllocError>
///     ensures { IfOk result (λ e. fold tree_ops empty (bare_expr expr.now) ≡ Ok (bare_expr e)) }
/// {
///     struct_makes_trees::<T>();
///     expr.into_expr::<ExprBuilder<T>>(alloc)
/// }
/// ```
pub fn struct_makes_trees<T: Default + Copy>()
    ensures { let B = ⟦<ExprBuilder<T> as expr_builder::ExprBuilder>⟧ in
        (env : Env) (tree : BareExpr) (e : Expr _)
        → (fold B.ops env tree ≡ Ok (B.meaning_of e))
        ↔ (fold tree_ops env tree ≡ Ok (bare_expr e)) }
{}
