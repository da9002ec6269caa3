//! Recorded calls on expressions. `docs/CALLS.md` lists them.
#![tactic(auto)]

mod arguments;
mod constructors;
mod copies;
mod data;
mod errors;
mod queries;
mod rebuilding;
mod recorder;
mod restricted;
mod shapes;
mod struct_calls;
mod walks;

pub use crate::errors::{substitution_text, validation_text};
pub use crate::rebuilding::rebuilt;
use calls_decode::{expr, placed, sketch};
use calls_syntax::{CallError, Sexpr};
use std::alloc::Global;

/// The answer to a call on expressions, by its name and its arguments.
///
/// `CallError::UnknownCall` where it is none of these calls.
pub fn answer(alloc: Global, call: &str, args: &[Sexpr]) -> Result<String, CallError> {
    match call {
        "make" => constructors::make(alloc, args),
        "record" => constructors::record(alloc, args),
        "built" => struct_calls::built(alloc, args),
        "same" => struct_calls::same(alloc, args),
        "data" => data::tree(alloc, args),
        "data-set" => data::set_data(alloc, args),
        "data-rebuild" => data::rebuild(alloc, args),
        "ascending" => shapes::ascending(alloc, args),
        "restricted-call" => restricted::call(alloc, args),
        _ => match args {
            [] => of_nothing(alloc, call),
            [e] => of_one(alloc, call, e),
            [a, b] => of_two(alloc, call, a, b),
            _ => Err(CallError::UnknownCall),
        },
    }
}

fn of_nothing(alloc: Global, call: &str) -> Result<String, CallError> {
    match call {
        "no-memory" => errors::no_memory(alloc),
        _ => Err(CallError::UnknownCall),
    }
}

fn of_one(alloc: Global, call: &str, e: &Sexpr) -> Result<String, CallError> {
    match call {
        "lit" | "show" => sketch(alloc, &expr(alloc, e)?),
        "placed" => placed(alloc, &expr(alloc, e)?),
        "positions" => walks::positions(alloc, &expr(alloc, e)?),
        "count" => walks::count(alloc, &expr(alloc, e)?),
        "slots" => walks::slots(alloc, &expr(alloc, e)?),
        "unknowns" => walks::unknowns(alloc, &expr(alloc, e)?),
        "queries" => queries::queries(alloc, &expr(alloc, e)?),
        "copy" => copies::copy(alloc, &expr(alloc, e)?),
        "feed" => shapes::feed(alloc, &expr(alloc, e)?),
        "rebuild" => rebuilding::rebuild(alloc, &expr(alloc, e)?),
        "rebuild-placed" => rebuilding::rebuild_placed(alloc, &expr(alloc, e)?),
        _ => of_taken(alloc, call, e),
    }
}

// The calls that take their expression.
fn of_taken(alloc: Global, call: &str, e: &Sexpr) -> Result<String, CallError> {
    match call {
        "restricted" => restricted::restricted(alloc, expr(alloc, e)?),
        "restricted-placed" => restricted::restricted_placed(alloc, expr(alloc, e)?),
        _ => Err(CallError::UnknownCall),
    }
}

fn of_two(alloc: Global, call: &str, a: &Sexpr, b: &Sexpr) -> Result<String, CallError> {
    match call {
        "put" => copies::put_at(alloc, a, expr(alloc, b)?),
        "cmpshape" => shapes::compare(alloc, &expr(alloc, a)?, &expr(alloc, b)?),
        _ => Err(CallError::UnknownCall),
    }
}
