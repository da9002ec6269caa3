//! Evaluates conditions over what is known.
use crate::answers::{self, Style};
use crate::failure::Failure;
use crate::inputs;
use crate::known::Known;
use crate::status::Status;
use cedar_bindings::Bindings;
use cedar_conditions::Answer;
use clap::ArgMatches;

const INPUTS: [&str; 6] = [
    "expression",
    "file",
    "bind",
    "entities",
    "request-json",
    "context",
];

/// Prints the answer to a condition, or to each of several.
pub fn run(rt: &HostRuntime, options: &ArgMatches<'_>) -> Result<Status, Failure> {
    if !inputs::reads_input_once(options, &INPUTS) {
        return Err(Failure::input_twice());
    }
    let known = read_known(rt, options)?;
    let text = inputs::condition(rt, options)?;
    let place = inputs::place_of_condition(rt.alloc(), options)?;
    if options.get_flag("batch") {
        answer_lines(rt, options, &place, &text, &known)
    } else {
        answer_alone(rt, options, &place, &text, &known)
    }
}

// What the options say is known.
fn read_known(rt: &HostRuntime, options: &ArgMatches<'_>) -> Result<Known, Failure> {
    Ok(Known {
        request: inputs::partial_request(rt, options)?,
        entities: inputs::known_entities(rt, options)?,
        bindings: inputs::bindings(rt, options)?,
    })
}

// Answers one condition.
fn answer_alone(
    rt: &HostRuntime,
    options: &ArgMatches<'_>,
    place: &str,
    text: &str,
    known: &Known,
) -> Result<Status, Failure> {
    let status = answer(rt, options, place, text, known)?;
    if status != Status::NoCondition {
        warn_of_unused(rt, &[text], &known.bindings)?;
    }
    Ok(status)
}

// Answers each line; a blank line and a comment have a blank answer.
fn answer_lines(
    rt: &HostRuntime,
    options: &ArgMatches<'_>,
    place: &str,
    text: &str,
    known: &Known,
) -> Result<Status, Failure> {
    let lines: Vec<&str> = text.lines().collect(rt.alloc())?;
    let mut status = Status::Success;
    for (at, line) in lines.iter().enumerate() {
        if is_blank(line) {
            println!(rt)?;
        } else {
            let place = format!(in rt.alloc(); "{place}condition {}: ", at.saturating_add(1))?;
            let answered = answer(rt, options, &place, line, known)?;
            if is_error(answered, style_of(options)) {
                println!(rt)?;
            }
            status = status.max(answered);
        }
    }
    warn_of_unused(rt, &lines, &known.bindings)?;
    Ok(status)
}

// Whether a line has no condition.
fn is_blank(line: &str) -> bool {
    let line = line.trim_start();
    line.is_empty() || line.starts_with("//")
}

// Prints the answer to a condition, which stands at this place.
fn answer(
    rt: &HostRuntime,
    options: &ArgMatches<'_>,
    place: &str,
    text: &str,
    known: &Known,
) -> Result<Status, Failure> {
    let answer = known.answer(rt.alloc(), text)?;
    answers::print(rt, style_of(options), place, &answer)?;
    Ok(status_of(&answer, options.get_flag("exit-status")))
}

fn style_of(options: &ArgMatches<'_>) -> Style {
    Style {
        is_json: options.get_str("format") == Some("json"),
        is_strict: options.get_flag("strict"),
    }
}

// The status of an answer; `false` is told apart if `tells_false`.
fn status_of(answer: &Answer, tells_false: bool) -> Status {
    match answer {
        Answer::Value(text) if tells_false && text.as_str() == "false" => Status::Deny,
        Answer::Value(_) => Status::Success,
        Answer::Residual(_) => Status::Unknown,
        Answer::Fault(_) => Status::Fault,
        Answer::NoCondition(_) => Status::NoCondition,
    }
}

// Whether nothing of an answer went to standard output.
fn is_error(status: Status, style: Style) -> bool {
    !style.is_json
        && match status {
            Status::Success | Status::Deny => false,
            Status::Unknown => style.is_strict,
            Status::Failure | Status::Memory | Status::NoCondition | Status::Fault => true,
        }
}

// Warns of bound names for which no condition asks.
fn warn_of_unused(rt: &HostRuntime, texts: &[&str], bindings: &Bindings) -> Result<(), Failure> {
    for name in bindings.unused(rt.alloc(), texts)? {
        eprintln!(rt; "warning: {name:?} is bound, and nothing asks for it")?;
    }
    Ok(())
}
