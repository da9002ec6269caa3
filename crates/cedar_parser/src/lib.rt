//! The parser: expressions from Cedar's own syntax.
#![tactic(auto)]

mod calls;
mod groups;
mod infix;
mod leaves;
mod nodes;
mod operand;
mod parser;
mod postfix;
mod signs;

pub use cedar_lexer::{Excerpt, ParseError, SyntaxError};
pub use leaves::{parse_entity_type, text_of};
pub use parser::{parse_expr, parse_tokens, parse_with_values};
