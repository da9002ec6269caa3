//! The cases of decisions.
use crate::fault::{CaseFault, expect};
use crate::nodes::{CHILDREN, Store, shared_uid, store};
use crate::policies::text_of_policies;
use cedar_authorizer::Decision;
use cedar_bench_runner::Stopwatch;
use cedar_decisions::decide_by;
use cedar_functions::{BuiltinExtension, BuiltinFunctions};
use cedar_policies::PolicySet;
use cedar_policy_parser::parse_policies;
use cedar_request::Request;
use cedar_request_evaluator::RequestEvaluator;
use std::alloc::Global;
use std::collections::HashMap;
use std::time::Duration;

// How many entities the store has that many policies ask.
const ENTITIES: usize = 1_000;

// Policies that ask for ancestors and for an attribute.
const POLICIES: &str = "permit(principal in Node::\"0\", action, resource)\
    when { principal.age > 0 };\
    forbid(principal, action, resource) when { principal == resource };\
    permit(principal, action == Action::\"1\", resource);";

/// Decides a request by so many policies.
pub fn time_policies(rt: &HostRuntime, count: usize) -> Result<Duration, CaseFault> {
    let text = text_of_policies(rt.alloc(), count)?;
    time_decisions(rt, &text, ENTITIES, 1)
}

/// Decides as many requests as the store has entities.
pub fn time_entities(rt: &HostRuntime, count: usize) -> Result<Duration, CaseFault> {
    time_decisions(rt, POLICIES, count, count)
}

fn time_decisions(
    rt: &HostRuntime,
    policies: &str,
    entities: usize,
    requests: usize,
) -> Result<Duration, CaseFault> {
    let policies = parse_policies(rt.alloc(), policies)?;
    let requests = requests_over(rt.alloc(), entities, requests)?;
    let store = store(rt.alloc(), entities, CHILDREN)?;
    let watch = Stopwatch::start(rt);
    watch.stop(decide_all(rt.alloc(), &policies, &store, &requests))
}

// Each request has to be allowed.
fn decide_all(
    alloc: Global,
    policies: &PolicySet,
    store: &Store,
    requests: &[Request<BuiltinExtension>],
) -> Result<(), CaseFault> {
    let values = HashMap::new(alloc);
    for request in requests {
        let evaluator = RequestEvaluator::new(request, store, &BuiltinFunctions, &values);
        let response = decide_by(alloc, policies, &evaluator)?;
        expect(response.decision == Some(Decision::Allow))?;
    }
    Ok(())
}

fn requests_over(
    alloc: Global,
    entities: usize,
    count: usize,
) -> Result<Vec<Request<BuiltinExtension>>, CaseFault> {
    let mut requests = Vec::new(alloc);
    for index in 0..count {
        requests.push(request(alloc, principal_of(index, entities))?)?;
    }
    Ok(requests)
}

// The principal asks for the first entity, by the action `Action::"0"`.
fn request(alloc: Global, principal: usize) -> Result<Request<BuiltinExtension>, CaseFault> {
    let principal = shared_uid(alloc, "Node", principal)?;
    let action = shared_uid(alloc, "Action", 0)?;
    let resource = shared_uid(alloc, "Node", 0)?;
    Ok(Request::new(Some(principal), Some(action), Some(resource), None))
}

// The number of an entity, all over so many, but never the first.
fn principal_of(index: usize, entities: usize) -> usize {
    let number = index.wrapping_mul(7_919).wrapping_add(344);
    let others = entities.saturating_sub(1);
    number.checked_rem(others).unwrap_or(0).wrapping_add(1)
}
