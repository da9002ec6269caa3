//! The positions of an expression, for calls that may refuse: memory is taken as the walk goes on.
ghost use Rattle.std.specs.Prelude.{◌≡◌, IfOk, length};
ghost use Rattle.std.specs.Iterator.{YieldsFirstRef};
ghost use Rattle.cedar_exprs.specs.Positions.{still_given};
ghost use Rattle.cedar_exprs.specs.Walks.{children, positions};

use crate::expr::Expr;
use crate::walks::children::NodeChildren;
use crate::walks::expr_iterator::push_children;
use std::alloc::{AllocError, Global};

// The walk of `ExprIterator`, which reserves nothing at its start.
#[derive(Drop)]
pub(crate) struct Positions<'a, T> {
    // What is still to be walked over, the next on top.
    stack: Vec<&'a Expr<T>>,
}

impl<'a, T> Positions<'a, T> {
    pub(crate) fn of(alloc: Global, expr: &'a Expr<T>) -> Result<Positions<'a, T>, AllocError>
        ensures { IfOk result (λ walk. still_given walk ≡ positions expr.now) }
    {
        let mut stack = Vec::new(alloc);
        stack.push(expr)?;
        Ok(Positions { stack })
    }

    // The next position, or none at the end.
    pub(crate) fn next(&mut self) -> Result<Option<&'a Expr<T>>, AllocError>
        ensures { IfOk result (λ next. YieldsFirstRef still_given self.old next self.new) }
    {
        match self.stack.pop() {
            Some(expr) => {
                self.stack.reserve(child_count(expr))?;
                push_children(&mut self.stack, expr);
                Ok(Some(expr))
            }
            None => Ok(None),
        }
    }
}

fn child_count<T>(expr: &Expr<T>) -> usize
    ensures { result ≡ length (children expr.now) }
{
    match NodeChildren::of(expr) {
        NodeChildren::Nothing => 0,
        NodeChildren::One(_) => 1,
        NodeChildren::Two(..) => 2,
        NodeChildren::Three(..) => 3,
        NodeChildren::Row(row) => row.len(),
        NodeChildren::Values(pairs) => pairs.len(),
    }
}
