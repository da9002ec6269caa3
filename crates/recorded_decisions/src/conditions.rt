//! Values of conditions.
use crate::inputs::{request, store};
use crate::tally::Tally;
use anyhow::Result;
use cedar_builders::BuildFault;
use cedar_evaluator::EvalFault;
use cedar_exprs::Expr;
use cedar_functions::{BuiltinExtension, BuiltinFunctions};
use cedar_inputs::Store;
use cedar_parser::{ParseError, parse_expr};
use cedar_request::Request;
use cedar_request_evaluator::RequestEvaluator;
use cedar_values::BoundedToString as _;
use std::alloc::{AllocError, Global};
use std::collections::HashMap;

/// Compares the value of each condition of a file with the one that stands behind it.
pub fn compare(rt: &HostRuntime, text: &str) -> Result<()> {
    let (json, lines) = text.split_once('\n').unwrap_or((text, ""));
    compare_lines(rt, &store(rt.alloc(), json)?, lines)
}

fn compare_lines(rt: &HostRuntime, entities: &Store, lines: &str) -> Result<()> {
    let mut now = Request::new(None, None, None, None);
    let mut tally = Tally::new();
    for line in lines.lines() {
        if let Some(json) = line.strip_prefix("request ") {
            now = request(rt.alloc(), json)?;
        } else if let Some((condition, wanted)) = line.split_once(" => ") {
            let answer = answer(rt.alloc(), condition, entities, &now)?;
            tally.compare(rt, condition, wanted, &answer)?;
        }
    }
    tally.show(rt, "conditions")?;
    Ok(())
}

// The value of a condition, or why it has none.
fn answer(
    alloc: Global,
    text: &str,
    entities: &Store,
    request: &Request<BuiltinExtension>,
) -> Result<String, AllocError> {
    match parse_expr(alloc, text) {
        Ok(condition) => value_text(alloc, &condition, entities, request),
        Err(ParseError::Syntax(error)) => format!(in alloc; "{error}"),
        Err(ParseError::Memory) => Err(AllocError),
    }
}

fn value_text(
    alloc: Global,
    condition: &Expr,
    entities: &Store,
    request: &Request<BuiltinExtension>,
) -> Result<String, AllocError> {
    let values = HashMap::new(alloc);
    let evaluator = RequestEvaluator::new(request, entities, &BuiltinFunctions, &values);
    match evaluator.evaluate(alloc, condition) {
        Ok(outcome) => match outcome.into_result() {
            Ok(value) => value.to_string_unbounded(alloc),
            Err(fault) => String::from_str(alloc, in_words(fault.fault())),
        },
        Err(BuildFault::Build(_)) => String::from_str(alloc, "no such function"),
        Err(BuildFault::Memory) => Err(AllocError),
    }
}

fn in_words(fault: EvalFault) -> &'static str {
    match fault {
        EvalFault::Open => "not known",
        EvalFault::WrongType => "wrong type",
        EvalFault::Overflow => "overflow",
        EvalFault::Missing => "missing attribute",
        EvalFault::Store => "no such entity",
    }
}
