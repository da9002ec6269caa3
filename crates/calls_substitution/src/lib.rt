//! Recorded calls that put values for unknowns, and those of builders. `docs/CALLS.md` lists them.
#![tactic(auto)]

mod building;
mod chosen;
mod substitution;
mod values;

use calls_syntax::{CallError, Sexpr};
use std::alloc::Global;

/// The answer to a call that substitutes or builds, by its name and its arguments.
///
/// `CallError::UnknownCall` where it is none of these calls.
pub fn answer(alloc: Global, call: &str, args: &[Sexpr]) -> Result<String, CallError> {
    match call {
        "subst" | "subst-placed" | "typed" | "clash" => substitution::answer(alloc, call, args),
        "build" | "substbuild" | "typedbuild" => building::answer(alloc, call, args),
        "valuesinto" | "valuesinto-placed" | "valueswith-placed" | "typedvaluesinto" => {
            values::answer(alloc, call, args)
        }
        _ => Err(CallError::UnknownCall),
    }
}
