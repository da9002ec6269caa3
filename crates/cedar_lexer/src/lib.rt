//! The lexer: the tokens of a text in Cedar's syntax, texts and patterns between quotes, and the
//! errors that the parser tells.
#![tactic(auto)]

mod error;
mod escapes;
pub mod laws;
mod parse_failure;
mod token;
mod token_stream;
mod tokenizer;

pub use error::{Excerpt, ParseError, SyntaxError};
pub use escapes::{read_pattern, read_text};
pub use parse_failure::ParseFailure;
pub use token::{Span, Token, TokenKind};
pub use token_stream::TokenStream;
pub use tokenizer::tokenize;
