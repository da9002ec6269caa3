//! JSON texts, and why one stands for nothing.
ghost use Rattle.std.specs.Prelude.{◌≡◌, IfOk, Some};
ghost use Rattle.serde_json.specs.Read.{read};
ghost use Rattle.serde_json.specs.View.{view};
ghost use Rattle.cedar_json.specs.declared.json_error.JsonError.TheVariants.{Memory};

use crate::no_value::NoValue;
use serde_json::Value;
use std::alloc::{AllocError, AllocFailed, Global};
use thiserror::Error;

/// Why a JSON text is refused.
#[derive(Debug, Drop, Error)]
pub enum JsonError {
    /// It is no JSON.
    #[error("{0}")]
    Json(serde_json::Error),
    /// Its objects and arrays nest deeper than 127 levels.
    #[error("JSON nests at most 127 levels deep: {0}")]
    TooDeep(serde_json::Error),
    /// It is no object.
    #[error("an object of names and their values is wanted")]
    NoObject,
    /// A part of it stands for nothing. The path leads to it.
    #[error("{path}: {problem}")]
    NoValue { path: String, problem: String },
    /// Memory was wanted, and none was given.
    #[error("no memory")]
    Memory,
}

impl From<AllocError> for JsonError {
    ghost from_gives = { λ _ e. e ≡ Memory };

    fn from(_error: AllocError) -> JsonError {
        JsonError::Memory
    }
}

impl<T: Drop> From<AllocFailed<T>> for JsonError {
    ghost from_gives = { λ _ e. e ≡ Memory };

    fn from(_refused: AllocFailed<T>) -> JsonError {
        JsonError::Memory
    }
}

impl JsonError {
    ghost use Rattle.cedar_json.specs.Refusals.{IsErrorIn};

    /// What is wrong with a part of what `start` names.
    pub fn of_part(alloc: Global, start: &str, failure: NoValue) -> JsonError
        ensures { IsErrorIn start.now failure result }
    {
        match failure {
            NoValue::Because { path, problem } => match format!(in alloc; "{start}{path}") {
                Ok(path) => JsonError::NoValue { path, problem },
                Err(_) => JsonError::Memory,
            },
            NoValue::Memory => JsonError::Memory,
        }
    }

    // What is told of an error that the reader of JSON met in a text.
    fn of_json(text: &str, error: serde_json::Error) -> JsonError {
        if error.is_memory() {
            JsonError::Memory
        } else if is_too_deep(text, &error) {
            JsonError::TooDeep(error)
        } else {
            JsonError::Json(error)
        }
    }
}

// How deep objects and arrays nest at most.
const DEEPEST: usize = 127;

// Whether objects and arrays of a text nest deeper, up to the place of its error.
fn is_too_deep(text: &str, error: &serde_json::Error) -> bool {
    let mut place = (1, 0);
    let mut depth: usize = 0;
    let mut is_quoted = false;
    let mut is_escaped = false;
    for byte in text.bytes() {
        place = place_behind(place, byte);
        if place > (error.line(), error.column()) {
            return false;
        }
        match byte {
            _ if is_escaped => is_escaped = false,
            b'\\' if is_quoted => is_escaped = true,
            b'"' => is_quoted = !is_quoted,
            b'[' | b'{' if !is_quoted => depth = depth.saturating_add(1),
            b']' | b'}' if !is_quoted => depth = depth.saturating_sub(1),
            _ => {}
        }
        if depth > DEEPEST {
            return true;
        }
    }
    false
}

// Line and column behind a byte.
fn place_behind((line, column): (usize, usize), byte: u8) -> (usize, usize) {
    if byte == b'\n' {
        (line.saturating_add(1), 0)
    } else {
        (line, column.saturating_add(1))
    }
}

/// The JSON that a text is.
pub fn parse_json(alloc: Global, text: &str) -> Result<Value, JsonError>
    ensures { IfOk result (λ json. read text.now ≡ Some (view json)) }
{
    match Value::from_str(alloc, text) {
        Ok(json) => Ok(json),
        Err(error) => Err(JsonError::of_json(text, error)),
    }
}
