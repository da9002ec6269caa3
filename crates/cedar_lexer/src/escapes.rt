//! Texts and patterns between quotes.
ghost use Rattle.std.specs.Prelude.{◌≡◌, ◌+◌, ◌*◌, ◌^◌, ◌<◌, ◌≤◌, IfOk, IfSome, string_bytes};
ghost use Rattle.std.specs.Option.{option_map};
ghost use Rattle.std.specs.Str.{chars};
ghost use Rattle.cedar_lexer.specs.Escapes.{letter_escape, piece_elem};
ghost use Rattle.cedar_lexer.specs.FirstPieces.{
  IsShorter,
  code_at,
  digit_at,
  digits_at,
  escape_at,
  piece_at,
  read_of,
  two_digits_at,
};
ghost use Rattle.cedar_lexer.specs.Readings.{IsAnswerOfPattern, IsAnswerOfText};

use cedar_terms::{Pattern, PatternElem, first_char};
use std::alloc::{AllocError, Global};

// What stands between quotes: a character, as it is or by its escape, or the escape `\*`.
#[derive(Clone, Copy)]
enum Piece {
    Char(char),
    Star,
}

/// The text that stands between quotes, if its escapes are those of texts.
///
/// `\n`, `\r`, `\t`, `\0`, `\\`, `\"` and `\'` are the characters that they are in Rust, `\x41` is
/// one of ASCII by two hexadecimal digits, and `\u{1F600}` any by one to six. A carriage return
/// needs its escape.
pub fn read_text(alloc: Global, inside: &str) -> Result<Option<String>, AllocError>
    ensures { IfOk result (λ text.
        IsAnswerOfText (chars inside.now) (option_map string_bytes text)) }
{
    let mut text = String::new(alloc);
    let mut rest = inside;
    'pieces: while let Some((piece, later)) = first_piece(rest) {
        match piece {
            Piece::Char(c) => text.push(c)?,
            Piece::Star => return Ok(None),
        }
        rest = later;
    }
    if rest.is_empty() {
        Ok(Some(text))
    } else {
        Ok(None)
    }
}

/// The pattern that stands between quotes, if its escapes are those of patterns: those of texts,
/// and `\*` for a star. A star is a wildcard else.
pub fn read_pattern(alloc: Global, inside: &str) -> Result<Option<Pattern>, AllocError>
    ensures { IfOk result (λ pattern. IsAnswerOfPattern (chars inside.now) pattern) }
{
    let mut elems = Vec::new(alloc);
    let mut rest = inside;
    'pieces: while let Some((piece, later)) = first_piece(rest) {
        elems.push(pattern_elem(piece))?;
        rest = later;
    }
    if !rest.is_empty() {
        return Ok(None);
    }
    Ok(Some(Pattern::from_vec(alloc, elems)?))
}

// What a piece is in a pattern.
fn pattern_elem(piece: Piece) -> PatternElem
    ensures { result ≡ piece_elem piece }
{
    match piece {
        Piece::Char('*') => PatternElem::Wildcard,
        Piece::Char(c) => PatternElem::Char(c),
        Piece::Star => PatternElem::Char('*'),
    }
}

// The piece that a text begins with, and what follows it; none at the end, at a bare carriage
// return and at what is no escape.
#[tactic(auto, unfolding(crate::specs::FirstPieces::piece_at))]
fn first_piece(text: &str) -> Option<(Piece, &str)>
    ensures shorter { IfSome result (λ x. IsShorter x.1.now text.now) }
    ensures reads { read_of result ≡ piece_at (chars text.now) }
{
    match first_char(text)? {
        ('\\', rest) => escape(rest),
        ('\r', _) => None,
        (c, rest) => Some((Piece::Char(c), rest)),
    }
}

// The piece that a text behind a backslash begins with.
#[tactic(auto, unfolding(crate::specs::FirstPieces::escape_at))]
fn escape(text: &str) -> Option<(Piece, &str)>
    ensures shorter { IfSome result (λ x. IsShorter x.1.now text.now) }
    ensures reads { read_of result ≡ escape_at (chars text.now) }
{
    match first_char(text)? {
        ('*', rest) => Some((Piece::Star, rest)),
        ('x', rest) => {
            let (c, rest) = ascii_code(rest)?;
            Some((Piece::Char(c), rest))
        }
        ('u', rest) => {
            let (c, rest) = code(rest)?;
            Some((Piece::Char(c), rest))
        }
        (letter, rest) => Some((Piece::Char(simple_escape(letter)?), rest)),
    }
}

// The character whose escape has this letter.
fn simple_escape(letter: char) -> Option<char>
    ensures { result ≡ letter_escape letter }
{
    match letter {
        '0' => Some('\0'),
        't' => Some('\t'),
        'n' => Some('\n'),
        'r' => Some('\r'),
        '"' | '\'' | '\\' => Some(letter),
        _ => None,
    }
}

// The character of ASCII that two hexadecimal digits give.
#[tactic(auto, unfolding(crate::specs::FirstPieces::two_digits_at))]
fn ascii_code(text: &str) -> Option<(char, &str)>
    ensures shorter { IfSome result (λ x. IsShorter x.1.now text.now) }
    ensures reads { read_of result ≡ two_digits_at (chars text.now) }
{
    let (high, rest) = first_digit(text)?;
    let (low, rest) = first_digit(rest)?;
    if high > 7 {
        return None;
    }
    let c = char::from_u32(high * 16 + low)?;
    Some((c, rest))
}

// The character that one to six hexadecimal digits in curly brackets give.
#[tactic(auto, unfolding(crate::specs::FirstPieces::code_at))]
fn code(text: &str) -> Option<(char, &str)>
    ensures shorter { IfSome result (λ x. IsShorter x.1.now text.now) }
    ensures reads { read_of result ≡ code_at (chars text.now) }
{
    match first_char(text)? {
        ('{', rest) => {
            let (digit, rest) = first_digit(rest)?;
            digits(rest, digit, 5)
        }
        _ => None,
    }
}

// The same behind digits that give a value, where so many more may stand.
#[tactic(auto, using(crate::proofs::Room::more), unfolding(crate::specs::FirstPieces::digits_at))]
fn digits(text: &str, value: u32, left: u32) -> Option<(char, &str)>
    requires { (value + 1) * 16 ^ left ≤ 16 ^ 6 }
    ensures shorter { IfSome result (λ x. IsShorter x.1.now text.now) }
    ensures reads { read_of result ≡ digits_at (chars text.now) value left }
{
    match first_char(text)? {
        ('}', rest) => Some((char::from_u32(value)?, rest)),
        (digit, rest) if left > 0 => digits(rest, value * 16 + digit.to_digit(16)?, left - 1),
        _ => None,
    }
}

// The hexadecimal digit that a text begins with.
#[tactic(auto, unfolding(crate::specs::FirstPieces::digit_at))]
fn first_digit(text: &str) -> Option<(u32, &str)>
    ensures shorter { IfSome result (λ x. IsShorter x.1.now text.now) }
    ensures below_16 { IfSome result (λ x. x.0 < 16) }
    ensures reads { read_of result ≡ digit_at (chars text.now) }
{
    let (digit, rest) = first_char(text)?;
    Some((digit.to_digit(16)?, rest))
}
