//! From texts to tokens.
ghost use Rattle.std.specs.Prelude.{
  ◌≡◌,
  ◌&&◌,
  ◌==◌,
  ◌↔◌,
  ◌+◌,
  ◌<◌,
  ◌≤◌,
  ◌^◌,
  IfSome,
  IsTrue,
  MatchResult,
  None,
  Some,
  codes,
  false,
  length,
  not,
  ⊤,
};
ghost use Rattle.std.specs.Char.{is_ascii_digit};
ghost use Rattle.std.specs.List.{prefix_len};
ghost use Rattle.std.specs.Str.{chars};
ghost use Rattle.cedar_lexer.specs.Blanks.{
  BeginsComment,
  HasBlanks,
  HasNoBlank,
  HasNoSpace,
  IsBehindLine,
};
ghost use Rattle.cedar_lexer.specs.FirstTokens.{full_kind, lexeme_at, longest_sign, quoted_len};
ghost use Rattle.cedar_lexer.specs.Grammar.{begins_word, goes_on};
ghost use Rattle.cedar_lexer.specs.TokenPlaces.{
  AreTokens,
  IsStuckIn,
  IsToldAt,
  IsTokenAt,
  IsUnread,
  first_width,
  problem_of,
};

use crate::parse_failure::ParseFailure;
use crate::token::{Span, Token, TokenKind, sign_at, word_kind};
use cedar_terms::first_char;
use std::alloc::Global;

/// The tokens of a text, each the longest that begins there; white space and comments are left out.
/// A text is refused where something is left with which no token begins.
pub fn tokenize(alloc: Global, text: &str) -> Result<Vec<Token<'_>>, ParseFailure>
    ensures { MatchResult result
        (λ tokens. AreTokens text.now tokens.items)
        (IsStuckIn text.now) }
{
    let mut tokens = Vec::new(alloc);
    let mut rest = skip_blanks(text);
    'tokens: while !rest.is_empty() {
        let start = text.len() - rest.len();
        let (token, later) = first_token(rest, start)?;
        tokens.push(token)?;
        rest = skip_blanks(later);
    }
    Ok(tokens)
}

// What follows the blanks and comments that a text begins with.
fn skip_blanks(text: &str) -> &str
    ensures skips { HasBlanks text.now result.now }
    ensures all { HasNoBlank result.now }
{
    let mut rest = skip_spaces(text);
    'comments: while begins_comment(rest) {
        rest = skip_spaces(behind_line(rest));
    }
    rest
}

// What follows the white space that a text begins with.
fn skip_spaces(text: &str) -> &str
    ensures shorter { length result.now ≤ length text.now }
    ensures skips { HasBlanks text.now result.now }
    ensures all { HasNoSpace result.now }
{
    text.trim_start()
}

// Whether a text begins with a comment.
fn begins_comment(text: &str) -> bool
    ensures { IsTrue result ↔ BeginsComment text.now }
{
    text.starts_with("//")
}

// What stands behind the first line of a text.
fn behind_line(text: &str) -> &str
    ensures { IsBehindLine text.now result.now }
{
    match text.split_once(['\n', '\r']) {
        Some((_, later)) => later,
        None => "",
    }
}

// The token that a text begins with, and what follows it.
fn first_token(text: &str, start: usize) -> Result<(Token<'_>, &str), ParseFailure>
    requires { start + length text.now < 2 ^ 64 }
    ensures { MatchResult result
        (λ x. IsTokenAt start text.now x.0 x.1.now)
        (IsUnread start text.now) }
{
    let (kind, length) = lexeme(text, start)?;
    let (word, later) = text.split_at(length);
    Ok((token(kind, word, start), later))
}

// The token of this text, which begins here.
fn token(kind: TokenKind, text: &str, start: usize) -> Token<'_>
    requires { start + length text.now < 2 ^ 64 }
    ensures kind { result.kind ≡ full_kind kind text.now }
    ensures text { result.text.now ≡ text.now }
    ensures start { result.span.start ≡ start }
    ensures stop { result.span.stop ≡ start + length text.now }
{
    let kind = match kind {
        TokenKind::Word => word_kind(text),
        kind => kind,
    };
    let stop = start + text.len();
    Token {
        kind,
        text,
        span: Span { start, stop },
    }
}

// The kind and the length of the token that a text begins with. A word of the grammar counts as an
// identifier here.
#[tactic(auto, unfolding(crate::specs::FirstTokens::lexeme_at))]
fn lexeme(text: &str, start: usize) -> Result<(TokenKind, usize), ParseFailure>
    requires { start + length text.now < 2 ^ 64 }
    ensures kind { MatchResult result
        (λ x. lexeme_at text.now ≡ Some x)
        (λ _. lexeme_at text.now ≡ None) }
    ensures told { MatchResult result (λ _. ⊤)
        (IsToldAt start text.now (problem_of text.now)) }
{
    match text.as_bytes() {
        [b'"', later @ ..] => match quoted_length(later) {
            Some(length) => Ok((TokenKind::Quoted, length + 1)),
            None => Err(failure(text, start, "this text has no closing quote")),
        },
        [b'?', later @ ..] => Ok((TokenKind::Slot, word_length(later) + 1)),
        [first, later @ ..] if first.is_ascii_digit() => {
            Ok((TokenKind::Digits, digits_length(later) + 1))
        }
        [first, later @ ..] if starts_word(*first) => Ok((TokenKind::Word, word_length(later) + 1)),
        _ => sign(text, start),
    }
}

// The kind and the length of the sign that a text begins with.
fn sign(text: &str, start: usize) -> Result<(TokenKind, usize), ParseFailure>
    requires { start + length text.now < 2 ^ 64 }
    ensures kind { MatchResult result
        (λ x. longest_sign text.now ≡ Some x)
        (λ _. longest_sign text.now ≡ None) }
    ensures told { MatchResult result (λ _. ⊤)
        (IsToldAt start text.now (codes "no part of an expression begins here")) }
{
    match sign_at(text) {
        Some(sign) => Ok(sign),
        None => Err(failure(text, start, "no part of an expression begins here")),
    }
}

// Whether a word begins with this byte.
fn starts_word(byte: u8) -> bool
    ensures { result ≡ begins_word byte }
{
    byte.is_ascii_alphabetic() || byte == b'_'
}

// Whether a word goes on with this byte.
fn is_in_word(byte: u8) -> bool
    ensures { result ≡ goes_on byte }
{
    byte.is_ascii_alphanumeric() || byte == b'_'
}

// The length of the letters, digits and underscores at the beginning.
fn word_length(bytes: &[u8]) -> usize
    ensures exact { result ≡ prefix_len goes_on bytes.now }
    ensures bound { result ≤ length bytes.now }
{
    bytes.iter().take_while(|byte| is_in_word(**byte)).count()
}

// The length of the digits at the beginning.
fn digits_length(bytes: &[u8]) -> usize
    ensures exact { result ≡ prefix_len is_ascii_digit bytes.now }
    ensures bound { result ≤ length bytes.now }
{
    bytes
        .iter()
        .take_while(|byte| byte.is_ascii_digit())
        .count()
}

// The length up to and with the closing quote, if there is one.
fn quoted_length(bytes: &[u8]) -> Option<usize>
    ensures exact { result ≡ quoted_len false bytes.now }
    ensures bound { IfSome result (λ n. n ≤ length bytes.now) }
{
    let mut is_escaped = false;
    for (at, byte) in bytes.iter().enumerate() {
        if counts_as(*byte, b'"', is_escaped) {
            return Some(at + 1);
        }
        is_escaped = counts_as(*byte, b'\\', is_escaped);
    }
    None
}

// Whether a byte is this one, and no backslash stands before it.
fn counts_as(byte: u8, wanted: u8, is_escaped: bool) -> bool
    ensures { result ≡ (not is_escaped && byte == wanted) }
{
    !is_escaped && byte == wanted
}

// This problem with the first character of a text.
fn failure(text: &str, start: usize, problem: &'static str) -> ParseFailure
    requires { start + length text.now < 2 ^ 64 }
    ensures { IsToldAt start text.now problem.now result }
{
    let stop = start + first_width(text);
    ParseFailure::Syntax(Span { start, stop }, problem)
}

// How many bytes the first character of a text takes.
fn first_width(text: &str) -> usize
    ensures exact { result ≡ first_width (chars text.now) }
    ensures bound { result ≤ length text.now }
{
    match first_char(text) {
        Some((c, _)) => c.len_utf8(),
        None => 0,
    }
}
