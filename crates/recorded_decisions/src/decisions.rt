//! Decisions of requests.
use crate::inputs::{request_of_words, store};
use crate::tally::Tally;
use anyhow::Result;
use cedar_authorizer::{Decision, Response};
use cedar_decisions::decide_by;
use cedar_functions::{BuiltinExtension, BuiltinFunctions};
use cedar_inputs::Store;
use cedar_parser::ParseError;
use cedar_policies::PolicySet;
use cedar_policy_parser::parse_policies;
use cedar_request::Request;
use cedar_request_evaluator::RequestEvaluator;
use std::alloc::{AllocError, Global};
use std::collections::HashMap;

/// Compares the answers of each section of a file with those that stand there.
pub fn compare(rt: &HostRuntime, text: &str) -> Result<()> {
    for section in text.split("\n\n") {
        compare_section(rt, section)?;
    }
    Ok(())
}

fn compare_section(rt: &HostRuntime, section: &str) -> Result<()> {
    let (title, rest) = section.split_once('\n').unwrap_or((section, ""));
    let (json, lines) = rest.split_once('\n').unwrap_or((rest, ""));
    let tally = compare_lines(rt, &store(rt.alloc(), json)?, lines)?;
    tally.show(rt, title)?;
    Ok(())
}

fn compare_lines(rt: &HostRuntime, entities: &Store, lines: &str) -> Result<Tally> {
    let mut policies = PolicySet::new(Vec::new(rt.alloc()));
    let mut tally = Tally::new();
    for line in lines.lines() {
        let Some((question, wanted)) = line.split_once(" => ") else {
            continue;
        };
        if let Some(text) = question.strip_prefix("policies ") {
            if let Some(set) = compare_policies(rt, &mut tally, text, wanted)? {
                policies = set;
            }
        } else if let Some(words) = question.strip_prefix("decide ") {
            let answer = answer(rt.alloc(), words, entities, &policies)?;
            tally.compare(rt, question, wanted, &answer)?;
        }
    }
    Ok(tally)
}

// The policies of a text, unless it is refused.
fn compare_policies(
    rt: &HostRuntime,
    tally: &mut Tally,
    text: &str,
    wanted: &str,
) -> Result<Option<PolicySet>> {
    let parsed = parse_policies(rt.alloc(), text);
    let answer = parsed_text(rt.alloc(), &parsed)?;
    tally.compare(rt, text, wanted, &answer)?;
    Ok(parsed.ok())
}

// How many policies were parsed, or why the text is refused.
fn parsed_text(
    alloc: Global,
    parsed: &Result<PolicySet, ParseError>,
) -> Result<String, AllocError> {
    match parsed {
        Ok(set) => format!(in alloc; "ok {}", set.policies().len()),
        Err(ParseError::Syntax(error)) => format!(in alloc; "{error}"),
        Err(ParseError::Memory) => Err(AllocError),
    }
}

// The response to the request of these words.
fn answer(alloc: Global, words: &str, entities: &Store, policies: &PolicySet) -> Result<String> {
    let request = request_of_words(alloc, words)?;
    let response = decide(alloc, &request, entities, policies)?;
    Ok(response_text(alloc, &response)?)
}

fn decide(
    alloc: Global,
    request: &Request<BuiltinExtension>,
    entities: &Store,
    policies: &PolicySet,
) -> Result<Response, AllocError> {
    let values = HashMap::new(alloc);
    let evaluator = RequestEvaluator::new(request, entities, &BuiltinFunctions, &values);
    decide_by(alloc, policies, &evaluator)
}

fn response_text(alloc: Global, response: &Response) -> Result<String, AllocError> {
    let decision = match response.decision {
        Some(Decision::Allow) => "allow",
        Some(Decision::Deny) => "deny",
        None => "unknown",
    };
    let mut text = String::from_str(alloc, decision)?;
    for id in &response.determining {
        push_word(&mut text, id)?;
    }
    if !response.errors.is_empty() {
        push_word(&mut text, "errors")?;
    }
    for (id, _) in &response.errors {
        push_word(&mut text, id)?;
    }
    Ok(text)
}

fn push_word(text: &mut String, word: &str) -> Result<(), AllocError> {
    text.push(' ')?;
    text.push_str(word)
}
