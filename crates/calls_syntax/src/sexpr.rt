//! The S-expressions of a line.
use crate::call_error::CallError;
use std::alloc::Global;
use std::mem;

/// An S-expression, as it is written. What stands between quotes still has its escapes.
#[derive(Drop)]
pub enum Sexpr<'a> {
    /// `word`
    Word(&'a str),
    /// `"text"`
    Text(&'a str),
    /// `N::T::"id"`, its type and its identifier.
    Entity(&'a str, &'a str),
    /// `(S-expression ..)`
    List(Vec<Sexpr<'a>>),
}

impl<'a> Sexpr<'a> {
    /// A word.
    pub fn word(&self) -> Result<&'a str, CallError> {
        match self {
            Sexpr::Word(word) => Ok(word),
            _ => Err(CallError::BadArguments),
        }
    }

    /// A text with its escapes.
    pub fn escaped_text(&self) -> Result<&'a str, CallError> {
        match self {
            Sexpr::Text(escaped) => Ok(escaped),
            _ => Err(CallError::BadArguments),
        }
    }

    /// What stands in a list.
    pub fn list(&self) -> Result<&[Sexpr<'a>], CallError> {
        match self {
            Sexpr::List(sexprs) => Ok(sexprs.as_slice()),
            _ => Err(CallError::BadArguments),
        }
    }
}

// Where the walk over the bytes is: between two S-expressions, in a word, or in a text behind a
// type, each since an index.
#[derive(Clone, Copy)]
enum At<'a> {
    Between,
    Word(usize),
    Quoted(Option<&'a str>, usize),
    Escaped(Option<&'a str>, usize),
}

/// The S-expressions of a line: of a recorded call its name and its arguments. To read them takes
/// none of the machine's stack, however deep the lists are.
pub fn sexprs<'a>(alloc: Global, line: &'a str) -> Result<Vec<Sexpr<'a>>, CallError> {
    let mut sexprs = Vec::new(alloc);
    let mut open = Vec::new(alloc);
    let mut at = At::Between;
    for (index, byte) in line.bytes().enumerate() {
        at = step(alloc, line, index, byte, at, &mut sexprs, &mut open)?;
    }
    match at {
        At::Between => {}
        At::Word(start) => sexprs.push(Sexpr::Word(slice(line, start, line.len())?))?,
        _ => return Err(CallError::BadArguments),
    }
    if open.is_empty() {
        Ok(sexprs)
    } else {
        Err(CallError::BadArguments)
    }
}

fn step<'a>(
    alloc: Global,
    line: &'a str,
    index: usize,
    byte: u8,
    at: At<'a>,
    sexprs: &mut Vec<Sexpr<'a>>,
    open: &mut Vec<Vec<Sexpr<'a>>>,
) -> Result<At<'a>, CallError> {
    match at {
        At::Between => between(alloc, index, byte, sexprs, open),
        At::Word(start) => {
            if !matches!(byte, b' ' | b'(' | b')' | b'"') {
                return Ok(at);
            }
            let word = slice(line, start, index)?;
            if byte == b'"' {
                if let Some(ty) = word.strip_suffix("::") {
                    return Ok(At::Quoted(Some(ty), index.saturating_add(1)));
                }
            }
            sexprs.push(Sexpr::Word(word))?;
            between(alloc, index, byte, sexprs, open)
        }
        At::Quoted(ty, start) => quoted(line, index, byte, ty, start, sexprs),
        At::Escaped(ty, start) => Ok(At::Quoted(ty, start)),
    }
}

fn quoted<'a>(
    line: &'a str,
    index: usize,
    byte: u8,
    ty: Option<&'a str>,
    start: usize,
    sexprs: &mut Vec<Sexpr<'a>>,
) -> Result<At<'a>, CallError> {
    match byte {
        b'\\' => Ok(At::Escaped(ty, start)),
        b'"' => {
            let escaped = slice(line, start, index)?;
            match ty {
                Some(ty) => sexprs.push(Sexpr::Entity(ty, escaped))?,
                None => sexprs.push(Sexpr::Text(escaped))?,
            }
            Ok(At::Between)
        }
        _ => Ok(At::Quoted(ty, start)),
    }
}

fn between<'a>(
    alloc: Global,
    index: usize,
    byte: u8,
    sexprs: &mut Vec<Sexpr<'a>>,
    open: &mut Vec<Vec<Sexpr<'a>>>,
) -> Result<At<'a>, CallError> {
    match byte {
        b' ' => Ok(At::Between),
        b'(' => {
            let outer = mem::replace(sexprs, Vec::new(alloc));
            open.push(outer)?;
            Ok(At::Between)
        }
        b')' => {
            let Some(outer) = open.pop() else {
                return Err(CallError::BadArguments);
            };
            let inner = mem::replace(sexprs, outer);
            sexprs.push(Sexpr::List(inner))?;
            Ok(At::Between)
        }
        b'"' => Ok(At::Quoted(None, index.saturating_add(1))),
        _ => Ok(At::Word(index)),
    }
}

fn slice(line: &str, start: usize, stop: usize) -> Result<&str, CallError> {
    match line.get(start..stop) {
        Some(slice) => Ok(slice),
        None => Err(CallError::BadArguments),
    }
}
