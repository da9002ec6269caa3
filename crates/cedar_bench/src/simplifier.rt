//! The cases of the simplifier.
use crate::fault::{CaseFault, expect};
use crate::trees::{Leaves, bound_to, comparisons, sums};
use cedar_bench_runner::Stopwatch;
use cedar_exprs::Expr;
use cedar_simplifier::{Simplified, simplify};
use cedar_values::Value;
use std::alloc::{AllocError, Global};
use std::collections::HashMap;
use std::rc::RcStr;
use std::time::Duration;

/// What is simplified.
#[derive(Clone, Copy)]
pub enum Rest {
    /// Sums, of which every eighth leaf is a call; the unknown x is bound.
    Balanced,
    /// Sums and comparisons; the unknown x is bound, so the value is known.
    Closed,
    /// Sums and comparisons; nothing is bound.
    Open,
}

/// Simplifies an expression of this size.
pub fn time_simplify(rt: &HostRuntime, rest: Rest, size: usize) -> Result<Duration, CaseFault> {
    let expr = rest.expr(rt.alloc(), size)?;
    let values = rest.values(rt.alloc())?;
    let watch = Stopwatch::start(rt);
    watch.stop(simplified(rt.alloc(), rest, &expr, &values))
}

impl Rest {
    fn expr(self, alloc: Global, size: usize) -> Result<Expr, CaseFault> {
        match self {
            Rest::Balanced => sums(alloc, Leaves::WithCalls, size),
            Rest::Closed | Rest::Open => comparisons(alloc, size),
        }
    }

    fn values(self, alloc: Global) -> Result<HashMap<RcStr, Value>, AllocError> {
        match self {
            Rest::Balanced | Rest::Closed => bound_to(alloc, Value::from(7)),
            Rest::Open => Ok(HashMap::new(alloc)),
        }
    }
}

// What is made, which has to be a value exactly where all is known.
fn simplified(
    alloc: Global,
    rest: Rest,
    expr: &Expr,
    values: &HashMap<RcStr, Value>,
) -> Result<Simplified, CaseFault> {
    let simplified = simplify(alloc, expr, values)?;
    expect(simplified.is_known() == matches!(rest, Rest::Closed))?;
    Ok(simplified)
}
