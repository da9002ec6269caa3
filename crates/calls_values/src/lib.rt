//! Recorded calls on values and partial values. `docs/CALLS.md` lists them.
#![tactic(auto)]

mod conversion;
mod copies;
mod makers;
mod partial_values;
mod texts;
mod values;

use calls_syntax::{CallError, Sexpr};
use std::alloc::Global;

/// The answer to a call on values, by its name and its arguments.
///
/// `CallError::UnknownCall` where it is none of these calls.
pub fn answer(alloc: Global, call: &str, args: &[Sexpr]) -> Result<String, CallError> {
    match call {
        "cmpval" | "eqval" | "eqloc" | "valtype" | "uids" | "extval" => {
            values::answer(alloc, call, args)
        }
        "placedval" | "copyval" => copies::answer(alloc, call, args),
        "makeval" => makers::answer(alloc, args),
        "text" => texts::answer(alloc, args),
        "toexpr"
        | "toexpr-placed"
        | "roundtrip"
        | "tryvalue"
        | "tryvalue-placed"
        | "trykind"
        | "notvalue" => conversion::answer(alloc, call, args),
        "partial" | "partialexpr" | "eqpartial" | "residual" | "split" => {
            partial_values::answer(alloc, call, args)
        }
        _ => Err(CallError::UnknownCall),
    }
}
