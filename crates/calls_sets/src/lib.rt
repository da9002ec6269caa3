//! Recorded calls on sets of values, and on records of very many keys. `docs/CALLS.md` lists them.
#![tactic(auto)]

mod flip;
mod large;
mod reversed;
mod sets;

use calls_syntax::{CallError, Sexpr};
use std::alloc::Global;

/// The answer to a call on sets or on what is large, by its name and its arguments.
///
/// `CallError::UnknownCall` where it is none of these calls.
pub fn answer(alloc: Global, call: &str, args: &[Sexpr]) -> Result<String, CallError> {
    match call {
        "contains" | "subset" | "disjoint" | "members" | "kept" => sets::answer(alloc, call, args),
        "many" | "falling" => large::answer(alloc, call, args),
        "flips" | "flipin" => reversed::answer(alloc, call, args),
        _ => Err(CallError::UnknownCall),
    }
}
