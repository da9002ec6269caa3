//! How responses are printed.
use crate::failure::Failure;
use crate::inputs::Source;
use crate::words::{fault_words, refusal_words};
use cedar_authorizer::{Decision, PolicyError, Response};
use cedar_parser::Excerpt;
use serde_json::{Map, Value, json};
use std::alloc::{AllocError, Global};
use std::rc::RcStr;

/// Prints the decision, the policies that have an error and, if `is_verbose`, those to which the
/// decision is due.
pub fn print(
    rt: &HostRuntime,
    policies: &Source<'_>,
    response: &Response,
    is_verbose: bool,
) -> Result<(), Failure> {
    match response.decision {
        Some(Decision::Allow) => println!(rt; "ALLOW")?,
        Some(Decision::Deny) => println!(rt; "DENY")?,
        None => println!(rt; "UNKNOWN")?,
    }
    if is_verbose {
        print_reasons(rt, response)?;
    }
    for (id, error) in &response.errors {
        print_error(rt, policies, id, error)?;
    }
    Ok(())
}

fn print_reasons(rt: &HostRuntime, response: &Response) -> Result<(), Failure> {
    if response.decision.is_none() {
        println!(rt; "note: parts of the request are not known, and either answer may come")?;
    } else if response.determining.is_empty() {
        println!(rt; "note: no policies applied to this request")?;
    } else {
        println!(rt; "note: this decision was due to the following policies:")?;
        for id in &response.determining {
            println!(rt; "  {id}")?;
        }
    }
    Ok(())
}

// The piece of the text in which an error came up, if it is known.
fn piece_of<'a>(policies: &'a Source<'_>, error: &PolicyError) -> Option<Excerpt<'a>> {
    match error {
        PolicyError::Mistaken(fault) => match fault.as_fault().source_loc() {
            Some(loc) => Some(Excerpt {
                text: &policies.text,
                start: loc.start,
                stop: loc.stop,
            }),
            None => None,
        },
        PolicyError::Refused(_) => None,
    }
}

// What an error says.
fn words_of(alloc: Global, error: &PolicyError) -> Result<String, AllocError> {
    match error {
        PolicyError::Mistaken(fault) => {
            String::from_str(alloc, fault_words(fault.as_fault().fault()))
        }
        PolicyError::Refused(refused) => refusal_words(alloc, refused),
    }
}

fn print_error(
    rt: &HostRuntime,
    policies: &Source<'_>,
    id: &str,
    error: &PolicyError,
) -> Result<(), Failure> {
    let file = policies.file;
    let words = words_of(rt.alloc(), error)?;
    match piece_of(policies, error) {
        Some(piece) => {
            let line = piece.line();
            let column = piece.column();
            eprintln!(rt; "error: {file}:{line}:{column}: policy `{id}`: {words}\n{piece}")?;
        }
        None => eprintln!(rt; "error: {file}: policy `{id}`: {words}")?,
    }
    Ok(())
}

/// Prints the same as a JSON object:
/// `{"decision": "allow", "reasons": [ID, ..], "errors": [{"policy": ID, "text": ..}, ..]}`, where
/// an error has the members `line` and `column` too if its place is known.
pub fn print_json(
    rt: &HostRuntime,
    policies: &Source<'_>,
    response: &Response,
) -> Result<(), Failure> {
    let text = json_of(rt.alloc(), policies, response)?.to_string(rt.alloc())?;
    println!(rt; "{text}")?;
    Ok(())
}

fn json_of(alloc: Global, policies: &Source<'_>, response: &Response) -> Result<Value, AllocError> {
    let decision = match response.decision {
        Some(Decision::Allow) => "allow",
        Some(Decision::Deny) => "deny",
        None => "unknown",
    };
    let reasons = json_of_ids(alloc, &response.determining)?;
    let errors = json_of_errors(alloc, policies, response)?;
    json!(in alloc; {"decision": decision, "reasons": reasons, "errors": errors})
}

fn json_of_ids(alloc: Global, ids: &[RcStr]) -> Result<Vec<Value>, AllocError> {
    let mut items = Vec::with_capacity(alloc, ids.len())?;
    for id in ids {
        items.push(Value::try_from_str(alloc, id)?)?;
    }
    Ok(items)
}

fn json_of_errors(
    alloc: Global,
    policies: &Source<'_>,
    response: &Response,
) -> Result<Vec<Value>, AllocError> {
    let mut items = Vec::with_capacity(alloc, response.errors.len())?;
    for (id, error) in &response.errors {
        items.push(json_of_error(alloc, policies, id, error)?)?;
    }
    Ok(items)
}

fn json_of_error(
    alloc: Global,
    policies: &Source<'_>,
    id: &str,
    error: &PolicyError,
) -> Result<Value, AllocError> {
    let mut members = Map::new(alloc);
    let id = Value::try_from_str(alloc, id)?;
    serde_json::put(&mut members, alloc, "policy", id)?;
    let words = Value::try_from_str(alloc, &words_of(alloc, error)?)?;
    serde_json::put(&mut members, alloc, "text", words)?;
    if let Some(piece) = piece_of(policies, error) {
        serde_json::put(&mut members, alloc, "line", Value::from(piece.line()))?;
        serde_json::put(&mut members, alloc, "column", Value::from(piece.column()))?;
    }
    Ok(Value::Object(members))
}
