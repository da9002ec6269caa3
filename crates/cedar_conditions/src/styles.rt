//! Functions that are called as methods, and methods as functions.
ghost use Rattle.std.specs.Prelude.{◌≡◌, ◌&&◌, IfOk, List, drop, false};
ghost use Rattle.std.specs.Option.{is_some};
ghost use Rattle.cedar_lexer.specs.TokenPlaces.{AreTokens};
ghost use Rattle.cedar_conditions.specs.Conditions.{
  has_other_style,
  is_dot as is_dot_kind,
  is_open_round,
  is_other_for,
  is_other_style,
  is_word as is_word_kind,
  opens as opens_call,
};
ghost use Rattle.cedar_conditions.specs.Nodes.{IsWrittenAs};

use crate::calls::{Style, wrong_style};
use crate::problem::Problem;
use cedar_function_names::ExtensionFunction;
use cedar_lexer::laws::tokens_are_unique;
use cedar_lexer::{ParseFailure, Token, TokenKind, tokenize};
use cedar_parser::Excerpt;
use std::alloc::{AllocError, Global};

/// What is wrong with the first call of a text that is written in the other style, if one is.
pub(crate) fn other_style(alloc: Global, text: &str) -> Result<Option<Problem>, AllocError>
    requires { (ts : List Token) × AreTokens text.now ts }
    ensures { IfOk result (IsWrittenAs text.now) }
{
    tokens_are_unique();
    match tokenize(alloc, text) {
        Ok(tokens) => first_other_style(alloc, text, &tokens),
        Err(ParseFailure::Memory) => Err(AllocError),
        Err(ParseFailure::Syntax(..)) => unreachable!(),
    }
}

#[tactic(auto, using(crate::proofs::OtherStyles::passed, crate::proofs::OtherStyles::found, crate::proofs::OtherStyles::none_left))]
fn first_other_style(
    alloc: Global,
    text: &str,
    tokens: &[Token<'_>],
) -> Result<Option<Problem>, AllocError>
    ensures { IfOk result (λ found. is_some found ≡ has_other_style false tokens.now) }
{
    let mut is_dotted = false;
    for at in 0..tokens.len() {
        let token = tokens[at];
        if let Some(function) = called_otherwise(is_dotted, token, tokens, at + 1) {
            return Ok(Some(problem(alloc, text, token, function)?));
        }
        is_dotted = is_dot(token);
    }
    Ok(None)
}

// The function that is called by a token, and is written in the other style, where the tokens from
// a place on follow.
fn called_otherwise(
    is_dotted: bool,
    token: Token<'_>,
    tokens: &[Token<'_>],
    behind: usize,
) -> Option<ExtensionFunction>
    ensures { is_some result ≡ (is_word_kind token.entry.kind
        && (opens_call (drop behind tokens.now) && is_other_style is_dotted token.entry.text.now)) }
{
    if is_word(token) && opens(tokens, behind) {
        other_function(is_dotted, token.text)
    } else {
        None
    }
}

fn other_function(is_dotted: bool, name: &str) -> Option<ExtensionFunction>
    ensures { is_some result ≡ is_other_style is_dotted name.now }
{
    match ExtensionFunction::from_name(name) {
        Some(function) if is_other(is_dotted, function) => Some(function),
        Some(_) => None,
        None => None,
    }
}

fn is_other(is_dotted: bool, function: ExtensionFunction) -> bool
    ensures { result ≡ is_other_for is_dotted function }
{
    if is_dotted {
        !function.is_method()
    } else {
        function.is_method()
    }
}

fn is_word(token: Token<'_>) -> bool
    ensures { result ≡ is_word_kind token.entry.kind }
{
    matches!(token.kind, TokenKind::Word)
}

fn is_dot(token: Token<'_>) -> bool
    ensures { result ≡ is_dot_kind token.entry.kind }
{
    matches!(token.kind, TokenKind::Dot)
}

#[tactic(auto, using(crate::proofs::OtherStyles::opens_at, crate::proofs::OtherStyles::opens_past))]
fn opens(tokens: &[Token<'_>], at: usize) -> bool
    ensures { result ≡ opens_call (drop at tokens.now) }
{
    match tokens.get(at) {
        Some(token) => is_open(*token),
        None => false,
    }
}

fn is_open(token: Token<'_>) -> bool
    ensures { result ≡ is_open_round token.entry.kind }
{
    matches!(token.kind, TokenKind::OpenRound)
}

fn problem(
    alloc: Global,
    text: &str,
    token: Token<'_>,
    function: ExtensionFunction,
) -> Result<Problem, AllocError> {
    let piece = Excerpt {
        text,
        start: token.span.start,
        stop: token.span.stop,
    };
    let words = wrong_style(alloc, token.text, Style::of(function))?;
    Problem::new(alloc, piece, words)
}
