//! Reads recorded calls, and answers each with a line. `docs/CALLS.md` describes the language.
use crate::{outcomes, simplified};
use calls_syntax::{CallError, Sexpr, sexprs};
use cedar_streams::{StreamFault, read_input};
use std::alloc::Global;
use std::io::{Read, Write};
use std::str;

/// Reads lines to the end, and writes one for each: the line itself where it is empty or a heading
/// (`#` in front), else the answer to the call.
///
/// Where memory runs out in a call, it is answered again, and the answer stands behind
/// `refused, then `. What is no call gives `?? LINE`, answers that have to agree and do not give
/// `!! WHAT: LINE`.
pub fn run<R: Read, W: Write>(
    alloc: Global,
    reader: &mut R,
    writer: &mut W,
) -> Result<(), StreamFault> {
    let input = read_input(alloc, reader)?;
    let lines = str::from_utf8(input.as_slice()).map_err(|_| StreamFault::Input)?;
    for line in lines.lines() {
        write_line(alloc, writer, line)?;
    }
    Ok(())
}

fn write_line<W: Write>(alloc: Global, writer: &mut W, line: &str) -> Result<(), StreamFault> {
    if line.is_empty() || line.starts_with('#') {
        return write(writer, line);
    }
    let answer = match answer(alloc, line) {
        Ok(answer) => answer,
        Err(CallError::Memory) => return Err(StreamFault::Memory),
        Err(CallError::Mismatch(what)) => format!(in alloc; "!! {what}: {line}")?,
        Err(CallError::UnknownCall | CallError::BadArguments) => format!(in alloc; "?? {line}")?,
    };
    write(writer, answer.as_str())
}

fn write<W: Write>(writer: &mut W, line: &str) -> Result<(), StreamFault> {
    writeln!(writer, "{line}").map_err(|error| StreamFault::of_writer(&error))
}

// The answer to a call, which is answered twice where memory is refused the first time.
fn answer(alloc: Global, line: &str) -> Result<String, CallError> {
    let sexprs = sexprs(alloc, line)?;
    let [call, args @ ..] = sexprs.as_slice() else {
        return Err(CallError::BadArguments);
    };
    let call = call.word()?;
    match answer_call(alloc, call, args) {
        Err(CallError::Memory) => {
            let answer = answer_call(alloc, call, args)?;
            Ok(format!(in alloc; "refused, then {answer}")?)
        }
        answered => answered,
    }
}

// By the crate that knows the call. Those that know a single call are asked first, as they cost the
// least.
fn answer_call(alloc: Global, call: &str, args: &[Sexpr]) -> Result<String, CallError> {
    match (call, args) {
        ("eval", [e, env]) => outcomes::eval(alloc, e, env),
        ("simplify", [e, env]) => simplified::simplify(alloc, e, env),
        _ => on_expressions(alloc, call, args),
    }
}

fn on_expressions(alloc: Global, call: &str, args: &[Sexpr]) -> Result<String, CallError> {
    match calls_exprs::answer(alloc, call, args) {
        Err(CallError::UnknownCall) => {}
        answered => return answered,
    }
    match calls_substitution::answer(alloc, call, args) {
        Err(CallError::UnknownCall) => on_values(alloc, call, args),
        answered => answered,
    }
}

fn on_values(alloc: Global, call: &str, args: &[Sexpr]) -> Result<String, CallError> {
    match calls_values::answer(alloc, call, args) {
        Err(CallError::UnknownCall) => {}
        answered => return answered,
    }
    match calls_sets::answer(alloc, call, args) {
        Err(CallError::UnknownCall) => {}
        answered => return answered,
    }
    match calls_functions::answer(alloc, call, args) {
        Err(CallError::UnknownCall) => calls_terms::answer(alloc, call, args),
        answered => answered,
    }
}
