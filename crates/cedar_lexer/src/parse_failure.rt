//! Why the parser stops.
ghost use Rattle.std.specs.Prelude.{◌≡◌};
ghost use Rattle.cedar_lexer.specs.Told.{IsToldOf};
ghost use Rattle.cedar_lexer.specs.declared.parse_failure.ParseFailure.TheVariants.{Memory};

use crate::error::{ParseError, SyntaxError};
use crate::token::Span;
use std::alloc::{AllocError, AllocFailed};

/// Why the parser stops: a problem with a piece of the text, or memory ran out.
#[derive(Debug, Drop)]
pub enum ParseFailure {
    /// What is wrong with a piece of the text.
    Syntax(Span, &'static str),
    /// Memory was wanted, and none was given.
    Memory,
}

impl ParseFailure {
    /// What a caller is told of it, with its line and column in `text`: the text that was parsed.
    pub fn in_text(self, text: &str) -> ParseError
        ensures { IsToldOf self text.now result }
    {
        match self {
            ParseFailure::Syntax(span, problem) => {
                ParseError::Syntax(SyntaxError::new(text, span, problem))
            }
            ParseFailure::Memory => ParseError::Memory,
        }
    }
}

impl From<AllocError> for ParseFailure {
    ghost from_gives = { λ _ e. e ≡ Memory };

    fn from(_error: AllocError) -> ParseFailure {
        ParseFailure::Memory
    }
}

impl<T: Drop> From<AllocFailed<T>> for ParseFailure {
    ghost from_gives = { λ _ e. e ≡ Memory };

    fn from(_refused: AllocFailed<T>) -> ParseFailure {
        ParseFailure::Memory
    }
}
