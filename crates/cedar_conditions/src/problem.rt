//! What is wrong with a condition, and where.
use crate::layout::lay_out;
use cedar_parser::Excerpt;
use std::alloc::{AllocError, Global};
use std::fmt;

/// What is wrong with a condition, and where.
#[derive(Debug, Drop)]
pub struct Problem {
    /// What is wrong.
    pub message: String,
    /// The line in which the piece begins that is wrong, from 1 on.
    pub line: usize,
    /// The character of the line with which it begins, from 1 on.
    pub column: usize,
    /// That line, and carets below the piece.
    pub excerpt: String,
    /// What may have been meant.
    pub hint: Option<String>,
}

impl Problem {
    // The problem with a piece of a text.
    pub(crate) fn new(
        alloc: Global,
        piece: Excerpt<'_>,
        words: Words,
    ) -> Result<Problem, AllocError> {
        let Words { message, hint } = words;
        Ok(Problem {
            message,
            line: piece.line(),
            column: piece.column(),
            excerpt: lay_out(alloc, piece)?,
            hint,
        })
    }
}

impl fmt::Display for Problem {
    fn fmt<W: fmt::Write>(&self, f: &mut fmt::Formatter<W>) -> fmt::Result {
        let Problem {
            message,
            line,
            column,
            excerpt,
            hint,
        } = self;
        write!(f, "line {line}, column {column}: {message}\n{excerpt}")?;
        match hint {
            Some(hint) => write!(f, "\n    hint: {hint}"),
            None => Ok(()),
        }
    }
}

// What is told of a problem, wherever it is.
#[derive(Debug, Drop)]
pub(crate) struct Words {
    pub(crate) message: String,
    pub(crate) hint: Option<String>,
}

impl Words {
    // A message alone.
    pub(crate) fn message(message: String) -> Words {
        Words {
            message,
            hint: None,
        }
    }
}
