//! What answers are written in.
use crate::answer::Answer;
use crate::call_error::CallError;
use cedar_names::Loc;
use cedar_terms::Escaped;
use std::alloc::{AllocError, Global};
use std::cmp::Ordering;
use std::fmt::Display;

/// `3..7`, and `-` where there is no place.
pub fn place(alloc: Global, loc: Option<&Loc>) -> Result<String, CallError> {
    match loc {
        None => Ok(format!(in alloc; "-")?),
        Some(loc) => Ok(format!(in alloc; "{}..{}", loc.start, loc.stop)?),
    }
}

/// `3..7 of "TEXT"`, and `-` where there is no place.
pub fn place_in_text(alloc: Global, loc: Option<&Loc>) -> Result<String, CallError> {
    match loc {
        None => Ok(format!(in alloc; "-")?),
        Some(loc) => {
            let (start, stop, text) = (loc.start, loc.stop, Escaped(loc.src.as_str()));
            Ok(format!(in alloc; "{start}..{stop} of \"{text}\"")?)
        }
    }
}

/// A text in quotes, with its escapes.
pub fn quoted(alloc: Global, text: &str) -> Result<String, CallError> {
    Ok(format!(in alloc; "\"{}\"", Escaped(text))?)
}

/// The text of a value, where there was memory to make it.
pub fn shown<T: Display + Drop>(
    alloc: Global,
    made: Result<T, AllocError>,
) -> Result<String, CallError> {
    Answer::new(alloc).allocated(made).end()
}

/// `true` or `false`.
pub fn boolean(alloc: Global, answer: bool) -> Result<String, CallError> {
    Ok(format!(in alloc; "{answer}")?)
}

/// `<`, `=` or `>`.
pub fn sign(alloc: Global, order: Ordering) -> Result<String, CallError> {
    let sign = match order {
        Ordering::Less => "<",
        Ordering::Equal => "=",
        Ordering::Greater => ">",
    };
    Ok(format!(in alloc; "{sign}")?)
}

/// Puts the text of an item behind those before it, with this between.
pub fn join<T: Display>(text: &mut String, between: &str, item: &T) -> Result<(), CallError> {
    if !text.is_empty() {
        text.push_str(between)?;
    }
    write!(text, "{item}")?;
    Ok(())
}
