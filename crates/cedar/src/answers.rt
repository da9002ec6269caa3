//! How the answers to conditions are printed.
use crate::failure::Failure;
use cedar_conditions::{Answer, Problem, Residual};
use serde_json::{Map, Value, json};
use std::alloc::{AllocError, Global};

/// How answers are printed.
#[derive(Clone, Copy, Debug)]
pub struct Style {
    /// Each as a JSON object.
    pub is_json: bool,
    /// A residual is an error.
    pub is_strict: bool,
}

/// Prints an answer; before an error, at which place the condition stands.
pub fn print(rt: &HostRuntime, style: Style, place: &str, answer: &Answer) -> Result<(), Failure> {
    if style.is_json {
        let text = json_of(rt.alloc(), answer)?.to_string(rt.alloc())?;
        println!(rt; "{text}")?;
        return Ok(());
    }
    match answer {
        Answer::Residual(residual) if style.is_strict => print_unknowns(rt, place, residual),
        Answer::Value(_) | Answer::Residual(_) => Ok(println!(rt; "{answer}")?),
        Answer::Fault(problem) | Answer::NoCondition(problem) => {
            Ok(eprintln!(rt; "error: {place}{problem}")?)
        }
    }
}

// Says what is not known.
fn print_unknowns(rt: &HostRuntime, place: &str, residual: &Residual) -> Result<(), Failure> {
    let mut unknowns = String::new(rt.alloc());
    for unknown in &residual.unknowns {
        if !unknowns.is_empty() {
            unknowns.push_str(", ")?;
        }
        unknowns.push_str(unknown)?;
    }
    let text = residual.text.as_str();
    eprintln!(rt; "error: {place}there is no value yet, since these are not known: {unknowns}")?;
    Ok(eprintln!(rt; "    residual: {text}")?)
}

// An answer as JSON.
fn json_of(alloc: Global, answer: &Answer) -> Result<Value, AllocError> {
    match answer {
        Answer::Value(text) => json!(in alloc; {"kind": "value", "text": text}),
        Answer::Residual(residual) => json_of_residual(alloc, residual),
        Answer::Fault(problem) => json_of_problem(alloc, "fault", problem),
        Answer::NoCondition(problem) => json_of_problem(alloc, "syntax", problem),
    }
}

fn json_of_residual(alloc: Global, residual: &Residual) -> Result<Value, AllocError> {
    let mut unknowns = Vec::with_capacity(alloc, residual.unknowns.len())?;
    for unknown in &residual.unknowns {
        unknowns.push(Value::try_from_str(alloc, unknown)?)?;
    }
    let text = &residual.text;
    json!(in alloc; {"kind": "residual", "text": text, "unknown": unknowns})
}

fn json_of_problem(alloc: Global, kind: &str, problem: &Problem) -> Result<Value, AllocError> {
    let mut members = Map::new(alloc);
    serde_json::put(
        &mut members,
        alloc,
        "kind",
        Value::try_from_str(alloc, kind)?,
    )?;
    let text = Value::try_from_str(alloc, &problem.message)?;
    serde_json::put(&mut members, alloc, "text", text)?;
    serde_json::put(&mut members, alloc, "line", Value::from(problem.line))?;
    serde_json::put(&mut members, alloc, "column", Value::from(problem.column))?;
    if let Some(hint) = &problem.hint {
        let hint = Value::try_from_str(alloc, hint)?;
        serde_json::put(&mut members, alloc, "hint", hint)?;
    }
    Ok(Value::Object(members))
}
