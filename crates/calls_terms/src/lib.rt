//! Recorded calls on names and on the terms over them: identifiers, names, references to types,
//! places, slots, literals, entities, types, operators and patterns. `docs/CALLS.md` lists them.
#![tactic(auto)]

mod identifiers;
mod literals;
mod names;
mod parsing;
mod patterns;
mod placed;
mod places;
mod qualified;
mod raw_names;
mod references;
mod told;
mod types;

use calls_syntax::{CallError, Sexpr};
use std::alloc::Global;

/// The answer to a call on names or terms, by its name and its arguments.
///
/// `CallError::UnknownCall` where it is none of these calls.
pub fn answer(alloc: Global, call: &str, args: &[Sexpr]) -> Result<String, CallError> {
    match literals::answer(alloc, call, args) {
        Err(CallError::UnknownCall) => {}
        answered => return answered,
    }
    match types::answer(alloc, call, args) {
        Err(CallError::UnknownCall) => {}
        answered => return answered,
    }
    match patterns::answer(alloc, call, args) {
        Err(CallError::UnknownCall) => {}
        answered => return answered,
    }
    on_names(alloc, call, args)
}

fn on_names(alloc: Global, call: &str, args: &[Sexpr]) -> Result<String, CallError> {
    match names::answer(alloc, call, args) {
        Err(CallError::UnknownCall) => {}
        answered => return answered,
    }
    match qualified::answer(alloc, call, args) {
        Err(CallError::UnknownCall) => {}
        answered => return answered,
    }
    match raw_names::answer(alloc, call, args) {
        Err(CallError::UnknownCall) => {}
        answered => return answered,
    }
    match identifiers::answer(alloc, call, args) {
        Err(CallError::UnknownCall) => {}
        answered => return answered,
    }
    match references::answer(alloc, call, args) {
        Err(CallError::UnknownCall) => {}
        answered => return answered,
    }
    match places::answer(alloc, call, args) {
        Err(CallError::UnknownCall) => {}
        answered => return answered,
    }
    parsing::answer(alloc, call, args)
}
