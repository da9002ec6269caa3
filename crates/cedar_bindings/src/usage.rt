//! The names for which conditions ask.
use cedar_lexer::{ParseFailure, Token, TokenKind, tokenize};
use std::alloc::{AllocError, Global};

// Keeps the names for which a text does not ask; none if that can't be told.
pub(crate) fn keep_unused(
    alloc: Global,
    text: &str,
    names: &mut Vec<String>,
) -> Result<(), AllocError> {
    if names.is_empty() {
        return Ok(());
    }
    match tokenize(alloc, text) {
        Ok(tokens) => names.retain(|name| !asks_for(&tokens, name)),
        Err(ParseFailure::Syntax(_, _)) => names.clear(),
        Err(ParseFailure::Memory) => return Err(AllocError),
    }
    Ok(())
}

// Whether a text asks for the unknown of a name, as in `unknown("limit")`.
fn asks_for(tokens: &[Token<'_>], name: &str) -> bool {
    tokens.windows(3).any(|tokens| match tokens {
        [function, open, text] => {
            function.text == "unknown"
                && open.kind == TokenKind::OpenRound
                && text.kind == TokenKind::Quoted
                && is_quoted(text.text, name)
        }
        _ => false,
    })
}

// Whether a token between quotes is this text.
fn is_quoted(token: &str, name: &str) -> bool {
    let inside = token
        .strip_prefix('"')
        .and_then(|rest| rest.strip_suffix('"'));
    inside == Some(name)
}
