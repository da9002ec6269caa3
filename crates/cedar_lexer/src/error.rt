//! Why a text is no expression, and where.
ghost use Rattle.std.specs.Prelude.{◌≡◌, ◌≤◌, Some, length, take};
ghost use Rattle.std.specs.Fmt.{WritesOnOk};
ghost use Rattle.std.specs.Str.{IsCharBoundary, chars};
ghost use Rattle.cedar_lexer.specs.Excerpts.{
  blank_of,
  blanks_of,
  carets_of,
  excerpt_text,
  line_after_of,
  line_before_of,
  piece_of,
  text_before_of,
  width_of,
};
ghost use Rattle.cedar_lexer.specs.Places.{column_at, first_line_of, last_line_of, line_at};
ghost use Rattle.cedar_lexer.specs.Told.{IsProblemAt};
ghost use Rattle.cedar_lexer.specs.declared.error.ParseError.TheVariants.{Memory};

use crate::token::Span;
use std::alloc::AllocError;
use std::fmt;
use thiserror::Error;

/// A text is no expression of Cedar's syntax.
#[derive(Clone, Copy, Debug, Error)]
#[error("line {line}, column {column}: {problem}")]
pub struct SyntaxError {
    /// What is wrong.
    pub problem: &'static str,
    /// The line in which the piece begins that is wrong, from 1 on.
    pub line: usize,
    /// The character of the line with which it begins, from 1 on.
    pub column: usize,
    /// Where it begins, in bytes of the text.
    pub start: usize,
    /// Where it ends.
    pub stop: usize,
}

impl SyntaxError {
    // The problem with a piece of the text.
    pub(crate) fn new(text: &str, span: Span, problem: &'static str) -> SyntaxError
        ensures { IsProblemAt text.now span problem.now result }
    {
        let Span { start, stop } = span;
        let piece = Excerpt { text, start, stop };
        SyntaxError {
            problem,
            line: piece.line(),
            column: piece.column(),
            start,
            stop,
        }
    }

    /// The piece of the text that is wrong, for display.
    pub fn excerpt<'a>(&self, text: &'a str) -> Excerpt<'a>
        ensures text { result.text.now ≡ text.now }
        ensures start { result.start ≡ self.now.start }
        ensures stop { result.stop ≡ self.now.stop }
    {
        Excerpt {
            text,
            start: self.start,
            stop: self.stop,
        }
    }
}

/// Why a text is not parsed.
#[derive(Clone, Copy, Debug, Error)]
pub enum ParseError {
    /// The text is no expression.
    #[error("{0}")]
    Syntax(SyntaxError),
    /// Memory was wanted, and none was given.
    #[error("no memory")]
    Memory,
}

impl From<AllocError> for ParseError {
    ghost from_gives = { λ _ e. e ≡ Memory };

    fn from(_error: AllocError) -> ParseError {
        ParseError::Memory
    }
}

/// A piece of a text as it is shown to its author: the line in which it begins, and carets below
/// the piece.
///
/// ```text
///     1 + (2 *)
///             ^
/// ```
///
/// Of a piece of several lines the first is shown.
#[derive(Clone, Copy, Debug)]
pub struct Excerpt<'a> {
    /// The whole text.
    pub text: &'a str,
    /// Where the piece begins, in bytes.
    pub start: usize,
    /// Where it ends.
    pub stop: usize,
}

impl Excerpt<'_> {
    // What stands before the piece.
    fn before(&self) -> &str
        ensures cut { IsCharBoundary self.now.text.now self.now.start →
            result.now ≡ take self.now.start self.now.text.now }
        ensures exact { result.now ≡ text_before_of self.now }
    {
        match self.text.split_at_checked(self.start) {
            Some((before, _)) => before,
            None => self.text,
        }
    }

    // What stands before the piece in its line.
    fn line_before(&self) -> &str
        ensures cut { IsCharBoundary self.now.text.now self.now.start →
            result.now ≡ last_line_of (take self.now.start self.now.text.now) }
        ensures exact { result.now ≡ line_before_of self.now }
    {
        let before = self.before();
        last_line(before)
    }

    // What stands in the piece's line from the piece on.
    fn line_after(&self) -> &str
        ensures { result.now ≡ line_after_of self.now }
    {
        match self.text.split_at_checked(self.start) {
            Some((_, after)) => first_line(after),
            None => "",
        }
    }

    /// The number of its line, from 1 on.
    pub fn line(&self) -> usize
        ensures { IsCharBoundary self.now.text.now self.now.start →
            result ≡ line_at self.now.text.now self.now.start }
    {
        let breaks = self.before().bytes().filter(|byte| *byte == b'\n').count();
        breaks.saturating_add(1)
    }

    /// The character of the line with which it begins, from 1 on.
    pub fn column(&self) -> usize
        ensures { IsCharBoundary self.now.text.now self.now.start →
            result ≡ column_at self.now.text.now self.now.start }
    {
        char_count(self.line_before()).saturating_add(1)
    }

    // The piece, if the text can be cut at both its ends.
    fn piece(&self) -> &str
        ensures { result.now ≡ piece_of self.now }
    {
        match self.text.split_at_checked(self.stop) {
            Some((up_to, _)) => match up_to.split_at_checked(self.start) {
                Some((_, piece)) => piece,
                None => "",
            },
            None => "",
        }
    }

    // How many carets there are: one for each character of the piece in its line, one at least.
    fn width(&self) -> usize
        ensures { result ≡ width_of self.now }
    {
        let piece = self.piece();
        char_count(first_line(piece)).max(1)
    }
}

// How many characters a text has.
fn char_count(text: &str) -> usize
    ensures exact { result ≡ length (chars text.now) }
    ensures bound { result ≤ length text.now }
{
    text.chars().count()
}

// The text up to its first line feed.
fn first_line(text: &str) -> &str
    ensures { result.now ≡ first_line_of text.now }
{
    match text.split_once('\n') {
        Some((line, _)) => line,
        None => text,
    }
}

// The text from behind its last line feed.
fn last_line(text: &str) -> &str
    ensures { result.now ≡ last_line_of text.now }
{
    match text.rsplit_once('\n') {
        Some((_, line)) => line,
        None => text,
    }
}

impl fmt::Display for Excerpt<'_> {
    ghost output = { λ e. Some (excerpt_text e) };

    fn fmt<W: fmt::Write>(&self, f: &mut fmt::Formatter<W>) -> fmt::Result {
        let before = self.line_before();
        let after = self.line_after();
        write!(f, "    {before}{after}\n    ")?;
        write_blanks(f, before)?;
        write_carets(f, self.width())
    }
}

// Writes a blank for each character, a tab for a tab.
fn write_blanks<W: fmt::Write>(f: &mut fmt::Formatter<W>, text: &str) -> fmt::Result
    ensures { WritesOnOk W.write_str_gives f.old result (blanks_of text.now) f.new }
{
    for c in text.chars() {
        f.write_char(blank(c))?;
    }
    Ok(())
}

// The blank that stands below a character.
fn blank(c: char) -> char
    ensures { result ≡ blank_of c }
{
    if c == '\t' { '\t' } else { ' ' }
}

// Writes this many carets.
fn write_carets<W: fmt::Write>(f: &mut fmt::Formatter<W>, count: usize) -> fmt::Result
    ensures { WritesOnOk W.write_str_gives f.old result (carets_of count) f.new }
{
    for _caret in 0..count {
        f.write_char('^')?;
    }
    Ok(())
}
