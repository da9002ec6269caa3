//! The cases of `in`.
use crate::fault::{CaseFault, expect};
use crate::nodes::{Store, shared_uid, store, well_formed};
use cedar_bench_runner::Stopwatch;
use cedar_exprs::Expr;
use cedar_functions::{BuiltinExtension, BuiltinFunctions};
use cedar_parser::parse_expr;
use cedar_request::{Context, Request};
use cedar_request_evaluator::RequestEvaluator;
use cedar_terms::Literal;
use cedar_values::Value;
use std::alloc::Global;
use std::collections::HashMap;
use std::rc::RcStr;
use std::time::Duration;

// How many ancestors the principal has.
const ANCESTORS: usize = 20;

/// Evaluates so often whether the principal is in its furthest ancestor.
pub fn time_deep(rt: &HostRuntime, times: usize) -> Result<Duration, CaseFault> {
    let request = request(rt.alloc(), 0)?;
    time_condition(rt, &request, "principal in resource", times)
}

/// Evaluates whether the principal is in one of so many entities, none of which is an ancestor.
pub fn time_set(rt: &HostRuntime, members: usize) -> Result<Duration, CaseFault> {
    let request = request(rt.alloc(), members)?;
    time_condition(rt, &request, "!(principal in context.groups)", 1)
}

fn time_condition(
    rt: &HostRuntime,
    request: &Request<BuiltinExtension>,
    condition: &str,
    times: usize,
) -> Result<Duration, CaseFault> {
    let condition = parse_expr(rt.alloc(), condition)?;
    let store = store(rt.alloc(), ANCESTORS + 1, 1)?;
    let watch = Stopwatch::start(rt);
    watch.stop(holds(rt.alloc(), &store, request, &condition, times))
}

// The condition has to be true each time.
fn holds(
    alloc: Global,
    store: &Store,
    request: &Request<BuiltinExtension>,
    condition: &Expr,
    times: usize,
) -> Result<(), CaseFault> {
    let values = HashMap::new(alloc);
    let evaluator = RequestEvaluator::new(request, store, &BuiltinFunctions, &values);
    for _ in 0..times {
        let outcome = evaluator.evaluate(alloc, condition)?;
        expect(matches!(outcome.truth(), Ok(true)))?;
    }
    Ok(())
}

// The last of the chain and the first, with so many groups in the context.
fn request(alloc: Global, groups: usize) -> Result<Request<BuiltinExtension>, CaseFault> {
    let principal = shared_uid(alloc, "Node", ANCESTORS)?;
    let resource = shared_uid(alloc, "Node", 0)?;
    let context = context(alloc, groups)?;
    Ok(Request::new(Some(principal), None, Some(resource), Some(context)))
}

// The context with so many groups, a set of entities that are not in the store.
fn context(alloc: Global, groups: usize) -> Result<Context<BuiltinExtension>, CaseFault> {
    let groups = Value::set_of_lits(alloc, uids(alloc, groups)?, None)?;
    let pairs = vec![in alloc; (RcStr::from_str(alloc, "groups")?, groups)]?;
    match Context::new(well_formed(Value::record(alloc, pairs, None)?)?) {
        Ok(context) => Ok(context),
        Err(_) => Err(CaseFault::Answer),
    }
}

fn uids(alloc: Global, count: usize) -> Result<Vec<Literal>, CaseFault> {
    let mut uids = Vec::new(alloc);
    for number in 0..count {
        uids.push(Literal::EntityUID(shared_uid(alloc, "Group", number)?))?;
    }
    Ok(uids)
}
