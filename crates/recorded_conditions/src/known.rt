//! What is known when a condition is answered: what names stand for, and nothing else.
use anyhow::Result;
use cedar_bindings::{Bindings, BindingsError};
use cedar_conditions::{Answer, evaluate_condition};
use cedar_entities::Entities;
use cedar_functions::{BuiltinExtension, BuiltinFunctions};
use cedar_request::Request;
use cedar_request_evaluator::RequestEvaluator;
use cedar_values::WellFormedValue;
use std::alloc::{AllocError, Global};

/// The answer to a condition, where nothing is known of the request and of entities.
pub fn answer(alloc: Global, text: &str, bindings: &Bindings) -> Result<Answer> {
    let request = Request::new(None, None, None, None);
    let entities = no_entities(alloc)?;
    let evaluator = RequestEvaluator::new(
        &request,
        &entities,
        &BuiltinFunctions,
        bindings.values(),
    );
    Ok(evaluate_condition(alloc, text, bindings.named(), &evaluator)?)
}

// The part of a store that has no entity.
fn no_entities(alloc: Global) -> Result<Entities<WellFormedValue<BuiltinExtension>>> {
    Ok(Entities::part_from_entities(alloc, Vec::new(alloc))?)
}

/// The bindings of a line; where it has none, prints why.
pub fn bound(rt: &HostRuntime, json: &str) -> Result<Bindings> {
    let mut bindings = Bindings::new(rt.alloc());
    match bindings.bind_json(rt.alloc(), json) {
        Ok(()) => {}
        Err(BindingsError::Memory) => return Err(AllocError.into()),
        Err(error) => println!(rt; "{error}")?,
    }
    Ok(bindings)
}
