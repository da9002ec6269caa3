//! How many entries the stack of a walk needs.
//!
//! Each node with children is counted by itself: by the entries that are below it on that stack
//! when its turn comes, and the number of its children. Of the children the first has as many
//! entries below it, and each other one more than the child before.
ghost use Rattle.std.specs.Prelude.{◌≡◌, ◌+◌, ◌<◌, ◌≤◌, [], ◌∷◌, map, max, IfOk, OnOk};
ghost use Rattle.cedar_builders.specs.Walks.{need};
ghost use Rattle.cedar_exprs.specs.BareExpr.{bare_expr};
ghost use Rattle.cedar_exprs.specs.Entries.{IsAdded};
ghost use Rattle.cedar_exprs.specs.Walks.{children};

use crate::expr::Expr;
use crate::walks::children::NodeChildren;
use std::alloc::{AllocError, Global};
use std::collections::BTreeMap;
use std::rc::RcStr;

// The most entries that are on the stack of a walk at once.
#[inline(never)]
pub(crate) fn entries<T>(alloc: Global, expr: &Expr<T>) -> Result<usize, AllocError>
    ensures { IfOk result (λ most. most ≡ need (bare_expr expr.now)) }
{
    let mut count = Count {
        most: 1,
        left: Vec::new(alloc),
    };
    count.left.push((expr, 0))?;
    'walk: while let Some((node, below)) = count.left.pop() {
        count.record_height(below, 1)?;
        count.add_children(node, below)?;
    }
    Ok(count.most)
}

// A count of entries.
#[derive(Drop)]
struct Count<'a, T> {
    // The most so far.
    most: usize,
    // The nodes that are left, each with the entries below it.
    left: Vec<(&'a Expr<T>, usize)>,
}

impl<'a, T> Count<'a, T> {
    // So many entries are above these.
    #[inline(always)]
    fn record_height(&mut self, below: usize, above: usize) -> Result<(), AllocError>
        ensures most { IfOk result (λ _. self.new.most ≡ max self.old.most (below + above)) }
        ensures left { IfOk result (λ _. self.new.left.items ≡ self.old.left.items) }
        ensures fits { OnOk result (below + above ≤ usize.MAX) }
    {
        match below.checked_add(above) {
            Some(all) => {
                self.most = self.most.max(all);
                Ok(())
            }
            None => Err(AllocError),
        }
    }

    #[inline(always)]
    fn add_children(&mut self, node: &'a Expr<T>, below: usize) -> Result<(), AllocError>
        requires { below < self.old.most }
        ensures { IfOk result (λ _. IsAdded self.old below (children node.now) self.new) }
    {
        match NodeChildren::of(node) {
            NodeChildren::Nothing => Ok(()),
            NodeChildren::One(child) => self.add(child, below),
            NodeChildren::Two(first, second) => self.add_two(first, second, below),
            NodeChildren::Three(first, second, third) => {
                self.add_three(first, second, third, below)
            }
            NodeChildren::Row(row) => self.add_row(row, below),
            NodeChildren::Values(pairs) => self.add_values(pairs, below),
        }
    }

    // A leaf needs the entry that it has.
    #[inline(always)]
    fn add(&mut self, child: &'a Expr<T>, below: usize) -> Result<(), AllocError>
        requires { below < self.old.most }
        ensures added { IfOk result (λ _. IsAdded self.old below (child.now ∷ []) self.new) }
        ensures most { IfOk result (λ _. self.new.most ≡ self.old.most) }
    {
        if child.is_leaf() {
            return Ok(());
        }
        Ok(self.left.push((child, below))?)
    }

    #[inline(always)]
    fn add_two(
        &mut self,
        first: &'a Expr<T>,
        second: &'a Expr<T>,
        below: usize,
    ) -> Result<(), AllocError>
        requires { below < self.old.most }
        ensures { IfOk result (λ _.
            IsAdded self.old below (first.now ∷ second.now ∷ []) self.new) }
    {
        self.record_height(below, 2)?;
        self.add(first, below)?;
        self.add(second, below + 1)?;
        Ok(())
    }

    fn add_three(
        &mut self,
        first: &'a Expr<T>,
        second: &'a Expr<T>,
        third: &'a Expr<T>,
        below: usize,
    ) -> Result<(), AllocError>
        requires { below < self.old.most }
        ensures { IfOk result (λ _.
            IsAdded self.old below (first.now ∷ second.now ∷ third.now ∷ []) self.new) }
    {
        self.record_height(below, 3)?;
        self.add(first, below)?;
        self.add_two(second, third, below + 1)?;
        Ok(())
    }

    #[inline(never)]
    fn add_row(&mut self, row: &'a [Expr<T>], below: usize) -> Result<(), AllocError>
        requires { below < self.old.most }
        ensures { IfOk result (λ _. IsAdded self.old below row.now self.new) }
    {
        self.record_height(below, row.len())?;
        let mut under = below;
        for member in row {
            self.add(member, under)?;
            under += 1;
        }
        Ok(())
    }

    #[inline(never)]
    fn add_values(
        &mut self,
        pairs: &'a BTreeMap<RcStr, Expr<T>>,
        below: usize,
    ) -> Result<(), AllocError>
        requires { below < self.old.most }
        ensures { IfOk result (λ _.
            IsAdded self.old below (map (λ e. e.1) pairs.now.entries) self.new) }
    {
        self.record_height(below, pairs.len())?;
        let mut under = below;
        for value in pairs.values() {
            self.add(value, under)?;
            under += 1;
        }
        Ok(())
    }
}
