//! Recorded calls of stored functions and on extensions, and those that ask a table of functions
//! about an expression. `docs/CALLS.md` lists them.
#![tactic(auto)]

mod extensions;
mod functions;
mod stored;
mod validation;

use calls_syntax::{CallError, Sexpr};
use std::alloc::Global;

/// The answer to a call of a function or about functions, by its name and its arguments.
///
/// `CallError::UnknownCall` where it is none of these calls.
pub fn answer(alloc: Global, call: &str, args: &[Sexpr]) -> Result<String, CallError> {
    match call {
        "call" | "callfault" | "function" | "signature" | "output" => {
            functions::answer(alloc, call, args)
        }
        "extension" | "getfunc" | "tablefunc" => extensions::answer(alloc, call, args),
        "trytype" | "validate" => validation::answer(alloc, call, args),
        _ => Err(CallError::UnknownCall),
    }
}
