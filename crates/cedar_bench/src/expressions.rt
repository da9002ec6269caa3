//! The cases of `cedar_exprs`, but for validation.
ghost use Rattle.std.specs.Prelude.{◌≡◌, IfOk, Ok};
ghost use Rattle.cedar_builders.specs.Environment.{empty, fold};
ghost use Rattle.cedar_builders.specs.Trees.{tree_ops};
ghost use Rattle.cedar_exprs.specs.BareExpr.{bare_expr};

use crate::fault::{CaseFault, expect};
use crate::trees::{Leaves, bound_to, negations, records, set, sums};
use cedar_bench_runner::Stopwatch;
use cedar_exprs::laws::struct_makes_trees;
use cedar_exprs::{Expr, ExprBuilder};
use cedar_sketch::Sketch;
use cedar_terms::Literal;
use std::alloc::{AllocError, Global};
use std::collections::HashMap;
use std::rc::RcStr;
use std::time::Duration;

/// An expression, and what the unknown x in it is bound to.
#[derive(Clone, Copy)]
pub enum Input {
    Balanced,
    Unbound,
    Wide,
    Records,
    Deep,
}

/// Substitutes the unknown x in an expression of so many nodes.
pub fn time_substitute(
    rt: &HostRuntime,
    input: Input,
    nodes: usize,
) -> Result<Duration, CaseFault> {
    let values = input.values(rt.alloc())?;
    let expr = input.expr(rt.alloc(), nodes)?;
    let watch = Stopwatch::start(rt);
    watch.stop(expr.substitute(rt.alloc(), &values))
}

/// Does so with an annotated unknown, by the typed call.
pub fn time_substitute_typed(rt: &HostRuntime, nodes: usize) -> Result<Duration, CaseFault> {
    let values = bound_to(rt.alloc(), Literal::Long(7))?;
    let expr = sums(rt.alloc(), Leaves::Typed, nodes)?;
    let watch = Stopwatch::start(rt);
    watch.stop(expr.substitute_typed(rt.alloc(), &values))
}

/// Drops an expression of so many nodes, which shares none of them.
pub fn time_drop(rt: &HostRuntime, input: Input, nodes: usize) -> Result<Duration, CaseFault> {
    let expr = input.expr(rt.alloc(), nodes)?;
    let watch = Stopwatch::start(rt);
    watch.stop::<(), CaseFault, CaseFault>(Ok(drop(expr)))
}

/// Builds a tree of so many nodes again.
pub fn time_build(rt: &HostRuntime, nodes: usize) -> Result<Duration, CaseFault> {
    let expr = sums(rt.alloc(), Leaves::Untyped, nodes)?;
    let watch = Stopwatch::start(rt);
    watch.stop(rebuilt::<()>(rt.alloc(), &expr))
}

/// Writes a tree of so many nodes.
pub fn time_show(rt: &HostRuntime, nodes: usize) -> Result<Duration, CaseFault> {
    let expr = sums(rt.alloc(), Leaves::Untyped, nodes)?;
    let watch = Stopwatch::start(rt);
    watch.stop(text_of(rt.alloc(), &expr))
}

/// Counts the positions of a tree of so many nodes.
pub fn time_walk(rt: &HostRuntime, nodes: usize) -> Result<Duration, CaseFault> {
    let expr = sums(rt.alloc(), Leaves::Untyped, nodes)?;
    let watch = Stopwatch::start(rt);
    watch.stop(count_positions(rt.alloc(), &expr))
}

/// Compares a tree of so many nodes with a copy.
pub fn time_cmp_shape(rt: &HostRuntime, nodes: usize) -> Result<Duration, CaseFault> {
    let expr = sums(rt.alloc(), Leaves::Untyped, nodes)?;
    let copy = rebuilt(rt.alloc(), &expr)?;
    let watch = Stopwatch::start(rt);
    watch.stop(expect(expr.cmp_shape(&copy).is_eq()))
}

impl Input {
    fn expr(self, alloc: Global, nodes: usize) -> Result<Expr, CaseFault> {
        match self {
            Input::Balanced | Input::Unbound => sums(alloc, Leaves::Untyped, nodes),
            Input::Wide => set(alloc, nodes),
            Input::Records => records(alloc, nodes),
            Input::Deep => Ok(negations(alloc, nodes)?),
        }
    }

    fn values(self, alloc: Global) -> Result<HashMap<RcStr, Literal>, AllocError> {
        match self {
            Input::Unbound => Ok(HashMap::new(alloc)),
            Input::Balanced | Input::Wide | Input::Records => bound_to(alloc, Literal::Long(7)),
            Input::Deep => bound_to(alloc, Literal::Bool(true)),
        }
    }
}

// Through the struct, whose data type is chosen at the call.
fn rebuilt<T: Copy + Default>(alloc: Global, expr: &Expr) -> Result<Expr<T>, AllocError>
    ensures { IfOk result (λ made.
        fold tree_ops empty (bare_expr expr.now) ≡ Ok (bare_expr made)) }
{
    struct_makes_trees::<T>();
    expr.into_expr::<ExprBuilder<T>>(alloc)
}

fn text_of(alloc: Global, expr: &Expr) -> Result<String, AllocError> {
    expr.into_expr::<Sketch>(alloc)?.to_text(alloc)
}

fn count_positions(alloc: Global, expr: &Expr) -> Result<usize, AllocError> {
    let mut count: usize = 0;
    for _ in expr.subexpressions(alloc)? {
        count = count.saturating_add(1);
    }
    Ok(count)
}
