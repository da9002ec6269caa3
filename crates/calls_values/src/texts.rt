//! Texts of values, whole and with a bound on the members that they show.
use calls_decode_values::{KeyedValue, value};
use calls_syntax::{CallError, Sexpr, count, holds};
use cedar_values::{BoundedDisplay, BoundedToString};
use std::alloc::Global;
use std::fmt;

/// The answer to a call for a text.
pub fn answer(alloc: Global, args: &[Sexpr]) -> Result<String, CallError> {
    match args {
        [v] => unbounded(alloc, &value(alloc, v)?),
        [bound, v] => bounded(alloc, count(bound)?, &value(alloc, v)?),
        _ => Err(CallError::UnknownCall),
    }
}

// Refuses a text that is not this one, where it was made.
fn is_text(
    made: Result<String, CallError>,
    text: &str,
    what: &'static str,
) -> Result<(), CallError> {
    holds(made?.as_str() == text, what)
}

fn unbounded(alloc: Global, v: &KeyedValue) -> Result<String, CallError> {
    let text = whole(alloc, v)?;
    let of_kind = whole(alloc, v.value_kind());
    is_text(of_kind, text.as_str(), "values and kinds")?;
    Ok(text)
}

fn bounded(alloc: Global, bound: usize, v: &KeyedValue) -> Result<String, CallError> {
    let text = within(alloc, v, bound)?;
    let of_kind = within(alloc, v.value_kind(), bound);
    is_text(of_kind, text.as_str(), "values and kinds")?;
    Ok(text)
}

// The whole text, by each call.
fn whole<D: BoundedDisplay + BoundedToString + fmt::Display>(
    alloc: Global,
    x: &D,
) -> Result<String, CallError> {
    let text = x.to_string_unbounded(alloc)?;
    is_text(shown(alloc, x), text.as_str(), "display and string")?;
    is_text(written(alloc, x), text.as_str(), "writing and string")?;
    by_option(alloc, x, None, text)
}

fn written<D: BoundedDisplay>(alloc: Global, x: &D) -> Result<String, CallError> {
    let mut text = String::new(alloc);
    let end = x.fmt_unbounded(&mut text);
    ended(text, end)
}

// A text, where its writer came to the end.
fn ended(text: String, end: fmt::Result) -> Result<String, CallError> {
    match end {
        Ok(()) => Ok(text),
        Err(_) => Err(CallError::Memory),
    }
}

fn shown<D: fmt::Display>(alloc: Global, x: &D) -> Result<String, CallError> {
    Ok(format!(in alloc; "{x}")?)
}

// The text within a bound, by each call.
fn within<D: BoundedDisplay + BoundedToString>(
    alloc: Global,
    x: &D,
    bound: usize,
) -> Result<String, CallError> {
    let text = x.to_string_bounded(alloc, bound)?;
    let written = written_within(alloc, x, bound);
    is_text(written, text.as_str(), "writing and string")?;
    by_option(alloc, x, Some(bound), text)
}

fn written_within<D: BoundedDisplay>(
    alloc: Global,
    x: &D,
    bound: usize,
) -> Result<String, CallError> {
    let mut text = String::new(alloc);
    let end = x.fmt_bounded(&mut text, bound);
    ended(text, end)
}

// The same text by the calls that take a bound or none. What is written stands behind what was.
fn by_option<D: BoundedDisplay + BoundedToString>(
    alloc: Global,
    x: &D,
    bound: Option<usize>,
    text: String,
) -> Result<String, CallError> {
    is_text(string(alloc, x, bound), text.as_str(), "the strings")?;
    is_behind(alloc, x, bound, text.as_str())?;
    Ok(text)
}

fn string<D: BoundedToString>(
    alloc: Global,
    x: &D,
    bound: Option<usize>,
) -> Result<String, CallError> {
    Ok(BoundedToString::to_string(x, alloc, bound)?)
}

fn is_behind<D: BoundedDisplay>(
    alloc: Global,
    x: &D,
    bound: Option<usize>,
    text: &str,
) -> Result<(), CallError> {
    let twice = format!(in alloc; "{text}{text}")?;
    let written = written_behind(alloc, x, bound, text);
    is_text(written, twice.as_str(), "what is written behind a text")
}

fn written_behind<D: BoundedDisplay>(
    alloc: Global,
    x: &D,
    bound: Option<usize>,
    text: &str,
) -> Result<String, CallError> {
    let mut written = format!(in alloc; "{text}")?;
    let end = BoundedDisplay::fmt(x, &mut written, bound);
    ended(written, end)
}
