//! Walks over trees that take no stack: their tasks and their results lie on the heap.
ghost use Rattle.std.specs.Prelude.{◌≡◌, ◌≤◌, ◌++◌, IsTrue, List, [], ◌∷◌, map, length, Result};
ghost use Rattle.std.specs.Prelude.{IfOk, IfSome, vec_len};
ghost use Rattle.cedar_builders.specs.BareExpr.{BareExpr};
ghost use Rattle.cedar_builders.specs.NodeByNode.{IsMadeByNodes};
ghost use Rattle.cedar_builders.specs.Walks.{children};
ghost use Rattle.cedar_exprs.specs.BareExpr.{bare_expr};
ghost use Rattle.cedar_exprs.specs.PostOrder.{IsAnswer, IsBegun, IsPut, bare_tasks, children_of};
ghost use Rattle.cedar_exprs.specs.PostOrder.{last_first};
ghost use Rattle.cedar_exprs.specs.declared.walks.post_order.PostOrderFault.TheVariants.{Memory};

use crate::expr::{Expr, ExprKind};
use crate::walks::children::NodeChildren;
use crate::walks::results::push_item;
use std::alloc::{AllocError, AllocFailed, Global};
use std::collections::BTreeMap;
use std::rc::RcStr;

/// Why a walk from the children up gives no answer.
#[derive(Drop)]
pub enum PostOrderFault<R> {
    /// A node was refused.
    Refused(R),
    /// Memory was.
    Memory,
}

impl<R> From<AllocError> for PostOrderFault<R> {
    ghost from_gives = { λ _ fault. fault ≡ Memory };

    fn from(_: AllocError) -> PostOrderFault<R> {
        PostOrderFault::Memory
    }
}

impl<R, X: Drop> From<AllocFailed<X>> for PostOrderFault<R> {
    ghost from_gives = { λ _ fault. fault ≡ Memory };

    fn from(_: AllocFailed<X>) -> PostOrderFault<R> {
        PostOrderFault::Memory
    }
}

/// A walk from the children up: what each node gives, by what its children gave.
///
/// `Building` is the walk of a builder. A walk that needs more than a builder has, as a request or
/// a store, holds it, makes some nodes itself, and leaves the others to a `Building`.
pub trait PostOrder<T> {
    /// What a node gives.
    type Out: Drop;

    /// Why a node gives nothing.
    type Refusal: Drop;

    ghost Meaning: { Type 0 };

    ghost Fault: { Type 0 };

    ghost meaning_of: { Self.Out → Meaning };

    ghost fault_of: { Self.Refusal → Fault };

    // What a tree gives.
    ghost answer: { Self → BareExpr → Result Meaning Fault };

    // What is made of a node and what its children gave.
    ghost is_made_of: { Self → BareExpr → List Meaning → Result Meaning Fault → Type 0 };

    /// Puts what a node gives in the place of what its children gave, the last of `done`, in field
    /// order.
    fn make(
        &self,
        alloc: Global,
        node: &Expr<T>,
        done: &mut Vec<Self::Out>,
    ) -> Result<(), PostOrderFault<Self::Refusal>>
        requires { length (children (bare_expr node.now)) ≤ vec_len done.old }
        ensures { IsPut meaning_of fault_of (is_made_of self.now (bare_expr node.now))
            (length (children (bare_expr node.now))) done.old.items done.new.items result };

    ghost by_nodes: { (walk : Self) → IsMadeByNodes (answer walk) (is_made_of walk) };
}

// What is to be done.
#[derive(Drop)]
enum Task<'a, T> {
    // To walk over a tree.
    Visit(&'a Expr<T>),
    // To make what a node gives, where its children are done.
    Make(&'a Expr<T>),
}

impl<T> Expr<T> {
    /// What a walk from the children up gives: the children of a node in field order, those of a
    /// record in the order of their keys. The first refusal ends it. It takes no machine stack.
    pub fn post_order<W: PostOrder<T>>(
        &self,
        alloc: Global,
        walk: &W,
    ) -> Result<W::Out, PostOrderFault<W::Refusal>>
        ensures { IsAnswer W.meaning_of W.fault_of (W.answer walk.now (bare_expr self.now)) result }
    {
        run(alloc, walk, self)
    }
}

// What a tree gives, or the first refusal.
pub(crate) fn run<T, W: PostOrder<T>>(
    alloc: Global,
    walk: &W,
    root: &Expr<T>,
) -> Result<W::Out, PostOrderFault<W::Refusal>>
    ensures { IsAnswer W.meaning_of W.fault_of (W.answer walk.now (bare_expr root.now)) result }
{
    if root.is_leaf() {
        let mut done = Vec::new(alloc);
        walk.make(alloc, root, &mut done)?;
        return Ok(done.take_last());
    }
    let mut done = Vec::with_capacity(alloc, 8)?;
    let mut tasks = Vec::with_capacity(alloc, 8)?;
    tasks.push(Task::Visit(root))?;
    'down: while let Some(task) = tasks.pop() {
        match task {
            Task::Visit(node) => {
                if node.is_leaf() {
                    walk.make(alloc, node, &mut done)?;
                } else {
                    tasks.push(Task::Make(node))?;
                    match row_of(node) {
                        Some(row) => begin_row(alloc, walk, row, &mut tasks, &mut done)?,
                        None => push_children(&mut tasks, node)?,
                    }
                }
            }
            Task::Make(node) => {
                walk.make(alloc, node, &mut done)?;
            }
        }
    }
    Ok(done.take_last())
}

// The arguments of a call, or the members of a set.
fn row_of<T>(node: &Expr<T>) -> Option<&[Expr<T>]>
    ensures { IfSome result (λ row. children_of node.now ≡ row.now) }
{
    match node.expr_kind() {
        ExprKind::ExtensionFunctionApp { args: row, .. } | ExprKind::Set(row) => Some(row),
        _ => None,
    }
}

// Makes the leaves that a row begins with, and puts what follows them onto the tasks.
fn begin_row<'a, T, W: PostOrder<T>>(
    alloc: Global,
    walk: &W,
    row: &'a [Expr<T>],
    tasks: &mut Vec<Task<'a, T>>,
    done: &mut Vec<W::Out>,
) -> Result<(), PostOrderFault<W::Refusal>>
    ensures { IsBegun W.meaning_of W.fault_of (W.answer walk.now) (map bare_expr row.now)
        (bare_tasks tasks.old.items) (bare_tasks tasks.new.items)
        done.old.items done.new.items result }
{
    let mut left = row;
    'leaves: while let Some((first, later)) = left.split_first() {
        if !first.is_leaf() {
            break;
        }
        walk.make(alloc, first, done)?;
        left = later;
    }
    Ok(push_row(tasks, left)?)
}

// Puts the children onto the tasks, the first on top.
fn push_children<'a, T>(tasks: &mut Vec<Task<'a, T>>, node: &'a Expr<T>) -> Result<(), AllocError>
    ensures { IfOk result (λ _.
        bare_tasks tasks.new.items
        ≡ bare_tasks tasks.old.items ++ last_first (children_of node.now)) }
{
    match NodeChildren::of(node) {
        NodeChildren::Nothing => Ok(()),
        NodeChildren::One(child) => push_item(tasks, Task::Visit(child)),
        NodeChildren::Two(first, second) => push_two(tasks, first, second),
        NodeChildren::Three(first, second, third) => push_three(tasks, first, second, third),
        NodeChildren::Row(row) => push_row(tasks, row),
        NodeChildren::Values(pairs) => push_values(tasks, pairs),
    }
}

// Puts two children onto the tasks, the first on top.
fn push_two<'a, T>(
    tasks: &mut Vec<Task<'a, T>>,
    first: &'a Expr<T>,
    second: &'a Expr<T>,
) -> Result<(), AllocError>
    ensures { IfOk result (λ _.
        bare_tasks tasks.new.items
        ≡ bare_tasks tasks.old.items ++ last_first (first.now ∷ second.now ∷ [])) }
{
    tasks.reserve(2)?;
    tasks.push_reserved(Task::Visit(second));
    tasks.push_reserved(Task::Visit(first));
    Ok(())
}

// The same with three children.
fn push_three<'a, T>(
    tasks: &mut Vec<Task<'a, T>>,
    first: &'a Expr<T>,
    second: &'a Expr<T>,
    third: &'a Expr<T>,
) -> Result<(), AllocError>
    ensures { IfOk result (λ _.
        bare_tasks tasks.new.items
        ≡ bare_tasks tasks.old.items ++ last_first (first.now ∷ second.now ∷ third.now ∷ [])) }
{
    push_item(tasks, Task::Visit(third))?;
    push_two(tasks, first, second)
}

#[inline(never)]
fn push_row<'a, T>(tasks: &mut Vec<Task<'a, T>>, row: &'a [Expr<T>]) -> Result<(), AllocError>
    ensures { IfOk result (λ _.
        bare_tasks tasks.new.items
        ≡ bare_tasks tasks.old.items ++ last_first row.now) }
{
    let mut left = row.iter();
    'left: while let Some(child) = left.next_back() {
        push_item(tasks, Task::Visit(child))?;
    }
    Ok(())
}

#[inline(never)]
fn push_values<'a, T>(
    tasks: &mut Vec<Task<'a, T>>,
    pairs: &'a BTreeMap<RcStr, Expr<T>>,
) -> Result<(), AllocError>
    ensures { IfOk result (λ _.
        bare_tasks tasks.new.items
        ≡ bare_tasks tasks.old.items ++ last_first (map (λ e. e.1) pairs.now.entries)) }
{
    let mut values = pairs.values();
    'values: while let Some(value) = values.next_back() {
        push_item(tasks, Task::Visit(value))?;
    }
    Ok(())
}
