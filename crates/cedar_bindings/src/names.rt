//! Names put into expressions.
ghost use Rattle.std.specs.Prelude.{◌≡◌, IfOk, Ok, option_map};
ghost use Rattle.cedar_terms.specs.Ops.{var_text};
ghost use Rattle.cedar_builders.specs.Answers.{never};
ghost use Rattle.cedar_builders.specs.BareExpr.{BareExpr};
ghost use Rattle.cedar_builders.specs.Fold.{fold_with};
ghost use Rattle.cedar_exprs.specs.BareExpr.{bare_expr};
ghost use Rattle.cedar_exprs.specs.PostOrder.{IsPut};
ghost use Rattle.cedar_bindings.specs.Names.{
  IsNamedOf,
  named as named_tree,
  named_by_nodes,
  named_ops,
  named_unknown,
  names_of,
  stands_for,
};

use cedar_exprs::{Building, Expr, ExprBuilder, ExprKind, PostOrder, PostOrderFault, push_item};
use cedar_names::Loc;
use cedar_terms::Var;
use std::alloc::{AllocError, Global};
use std::collections::HashMap;
use std::convert::Infallible;
use std::rc::RcStr;

/// The expression in which each variable and each unknown whose name stands for an expression is
/// that expression, with the place of what it replaces. In what is put in no name is looked for.
pub fn put_names<T: Default + Copy>(
    alloc: Global,
    expr: &Expr<T>,
    names: &HashMap<RcStr, Expr<T>>,
) -> Result<Expr<T>, AllocError>
    ensures { IfOk result (λ e.
        bare_expr e ≡ named_tree (names_of names.now) (bare_expr expr.now)) }
{
    match expr.post_order(alloc, &Naming { names }) {
        Ok(named) => Ok(named),
        Err(PostOrderFault::Refused(never)) => match never {},
        Err(PostOrderFault::Memory) => Err(AllocError),
    }
}

// The walk that puts them.
#[derive(Drop)]
struct Naming<'a, T> {
    names: &'a HashMap<RcStr, Expr<T>>,
}

impl<T: Default + Copy> PostOrder<T> for Naming<'_, T> {
    type Out = Expr<T>;

    type Refusal = Infallible;

    ghost Meaning = { BareExpr };

    ghost Fault = { ⊥ };

    ghost meaning_of = { bare_expr };

    ghost fault_of = { never };

    ghost answer = { λ w e. fold_with (named_ops (names_of w.names.now))
        (named_unknown (names_of w.names.now)) e };

    ghost is_made_of = { λ w e. IsNamedOf (names_of w.names.now) e };

    fn make(
        &self,
        alloc: Global,
        node: &Expr<T>,
        done: &mut Vec<Expr<T>>,
    ) -> Result<(), PostOrderFault<Infallible>> {
        match named(self.names, node) {
            Some(expr) => put(alloc, expr, node.source_loc(), done),
            None => Building::<ExprBuilder<T>>::new().make(alloc, node, done),
        }
    }

    ghost by_nodes = { λ w. named_by_nodes (names_of w.names.now) };
}

// What the name of a node stands for.
fn named<'a, T>(names: &'a HashMap<RcStr, Expr<T>>, node: &Expr<T>) -> Option<&'a Expr<T>>
    ensures { option_map (λ e. bare_expr e.now) result
        ≡ stands_for (names_of names.now) (bare_expr node.now) }
{
    match node.expr_kind() {
        ExprKind::Var(var) => names.get(variable_name(*var)),
        ExprKind::Unknown(unknown) => names.get(unknown.name.as_str()),
        _ => None,
    }
}

fn variable_name(var: Var) -> &'static str
    ensures { result.now ≡ var_text var }
{
    match var {
        Var::Principal => "principal",
        Var::Action => "action",
        Var::Resource => "resource",
        Var::Context => "context",
    }
}

// Puts a copy of an expression at this place.
fn put<T: Copy>(
    alloc: Global,
    expr: &Expr<T>,
    place: Option<&Loc>,
    done: &mut Vec<Expr<T>>,
) -> Result<(), PostOrderFault<Infallible>>
    ensures { IsPut bare_expr never (λ ms r. r ≡ Ok (bare_expr expr.now)) 0
        done.old.items done.new.items result }
{
    let place = Loc::clone_option(alloc, place)?;
    let copy = expr.clone(alloc)?.with_maybe_source_loc(place);
    Ok(push_item(done, copy)?)
}
