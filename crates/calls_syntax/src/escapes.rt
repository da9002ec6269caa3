//! Texts and patterns by their escapes.
use crate::call_error::CallError;
use crate::sexpr::Sexpr;
use cedar_terms::{Pattern, PatternElem};
use std::alloc::Global;

// How much of an escape was read: nothing, the backslash, the `u`, or the digits so far.
#[derive(Clone, Copy)]
enum Escape {
    Nothing,
    Backslash,
    Unicode,
    Digits(Option<u32>),
}

/// The text that a quoted argument stands for.
pub fn text(alloc: Global, sexpr: &Sexpr) -> Result<String, CallError> {
    unescaped(alloc, sexpr.escaped_text()?)
}

/// The text that escapes stand for.
pub fn unescaped(alloc: Global, escaped: &str) -> Result<String, CallError> {
    let mut text = String::new(alloc);
    let mut at = Escape::Nothing;
    for c in escaped.chars() {
        let (next, read) = step(at, c)?;
        if let Some(c) = read {
            text.push(c)?;
        }
        at = next;
    }
    ended(at)?;
    Ok(text)
}

/// The pattern that a quoted argument stands for: `*` is the wildcard, `\*` the star.
pub fn pattern(alloc: Global, sexpr: &Sexpr) -> Result<Pattern, CallError> {
    let mut elems = Vec::new(alloc);
    let mut at = Escape::Nothing;
    for c in sexpr.escaped_text()?.chars() {
        match (at, c) {
            (Escape::Nothing, '*') => elems.push(PatternElem::Wildcard)?,
            (Escape::Backslash, '*') => {
                elems.push(PatternElem::Char('*'))?;
                at = Escape::Nothing;
            }
            _ => {
                let (next, read) = step(at, c)?;
                if let Some(c) = read {
                    elems.push(PatternElem::Char(c))?;
                }
                at = next;
            }
        }
    }
    ended(at)?;
    Ok(Pattern::from_vec(alloc, elems)?)
}

// What follows, and the character that was read, if one ended here.
fn step(at: Escape, c: char) -> Result<(Escape, Option<char>), CallError> {
    match at {
        Escape::Nothing => match c {
            '\\' => Ok((Escape::Backslash, None)),
            _ => Ok((Escape::Nothing, Some(c))),
        },
        Escape::Backslash => match c {
            '0' => Ok((Escape::Nothing, Some('\0'))),
            't' => Ok((Escape::Nothing, Some('\t'))),
            'r' => Ok((Escape::Nothing, Some('\r'))),
            'n' => Ok((Escape::Nothing, Some('\n'))),
            '\\' | '"' | '\'' => Ok((Escape::Nothing, Some(c))),
            'u' => Ok((Escape::Unicode, None)),
            _ => Err(CallError::BadArguments),
        },
        Escape::Unicode => match c {
            '{' => Ok((Escape::Digits(None), None)),
            _ => Err(CallError::BadArguments),
        },
        Escape::Digits(number) => match c {
            '}' => Ok((Escape::Nothing, Some(character(number)?))),
            _ => Ok((Escape::Digits(Some(with_digit(number, c)?)), None)),
        },
    }
}

fn character(number: Option<u32>) -> Result<char, CallError> {
    match number {
        Some(number) => match char::from_u32(number) {
            Some(c) => Ok(c),
            None => Err(CallError::BadArguments),
        },
        None => Err(CallError::BadArguments),
    }
}

// The number with one more digit.
fn with_digit(number: Option<u32>, c: char) -> Result<u32, CallError> {
    let Some(digit) = c.to_digit(16) else {
        return Err(CallError::BadArguments);
    };
    let Some(shifted) = number.unwrap_or(0).checked_mul(16) else {
        return Err(CallError::BadArguments);
    };
    match shifted.checked_add(digit) {
        Some(number) => Ok(number),
        None => Err(CallError::BadArguments),
    }
}

fn ended(at: Escape) -> Result<(), CallError> {
    match at {
        Escape::Nothing => Ok(()),
        _ => Err(CallError::BadArguments),
    }
}
