//! What the struct `ExprBuilder` makes of an expression again.
ghost use Rattle.std.specs.Prelude.{◌≡◌, IfOk, Ok};
ghost use Rattle.cedar_builders.specs.Environment.{empty, fold};
ghost use Rattle.cedar_builders.specs.Trees.{tree_ops};
ghost use Rattle.cedar_exprs.specs.BareExpr.{bare_expr};

use calls_decode::{placed, sketch};
use calls_syntax::CallError;
use cedar_exprs::laws::struct_makes_trees;
use cedar_exprs::{Expr, ExprBuilder};
use std::alloc::{AllocError, Global};

/// The tree that the struct makes again.
pub fn rebuild(alloc: Global, e: &Expr) -> Result<String, CallError> {
    sketch(alloc, &rebuilt(alloc, e)?)
}

/// Each position of what the struct makes again, with its place.
pub fn rebuild_placed(alloc: Global, e: &Expr) -> Result<String, CallError> {
    placed(alloc, &rebuilt(alloc, e)?)
}

/// What the struct makes again. The type of data is a parameter: at a concrete one the check of the
/// call's bound does not come to its end.
pub fn rebuilt<T: Default + Copy>(alloc: Global, e: &Expr<T>) -> Result<Expr<T>, AllocError>
    ensures { IfOk result (λ made. fold tree_ops empty (bare_expr e.now) ≡ Ok (bare_expr made)) }
{
    struct_makes_trees::<T>();
    e.into_expr::<ExprBuilder<T>>(alloc)
}
