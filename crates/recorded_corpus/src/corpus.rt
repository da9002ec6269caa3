//! A corpus of scripts, each with what its run is to show and how it is to end.
//!
//! One stands as `script N` and its N lines, `shows M` and the M lines that it shows, and `ends S`,
//! where S is the status; after a space there follows the line on standard error, if there is one.
//! Lines end at line feeds alone, and may hold any other byte. Lines that begin with `#` may stand
//! before a record, and are for the reader alone.
ghost use Rattle.std.specs.Prelude.{
  ◌≡◌,
  ◌↔◌,
  ◌≤◌,
  ◌<◌,
  ◌+◌,
  ◌^◌,
  ◌++◌,
  [],
  length,
  IfErr,
  IfOk,
  IfSome,
  IsSome,
  MatchOption,
  None,
  Ok,
};
ghost use Rattle.std.specs.Str.Parse.{IsNumeral, digits_value};
ghost use Rattle.recorded_corpus.specs.Lines.{line_feeds, AreLines};

use std::{fmt, str};
use thiserror::Error;

/// A script, and the outcome that its run is to have.
#[derive(Clone, Copy)]
pub struct Record<'a> {
    /// The line of the corpus that it begins at; they count from 1.
    pub line: usize,
    pub script: &'a [u8],
    pub outcome: Outcome<'a>,
}

/// What a run shows, and how it ends.
#[derive(Clone, Copy, PartialEq, Eq)]
pub struct Outcome<'a> {
    /// The lines on standard output, with their line feeds.
    pub shown: &'a [u8],
    pub status: u8,
    /// The line on standard error, without its line feed; empty where there is none.
    pub refusal: &'a [u8],
}

impl fmt::Display for Outcome<'_> {
    fn fmt<W: fmt::Write>(&self, f: &mut fmt::Formatter<W>) -> fmt::Result {
        write!(
            f,
            "shown \"{}\", status {}, refusal \"{}\"",
            self.shown.escape_ascii(),
            self.status,
            self.refusal.escape_ascii()
        )
    }
}

/// Why a corpus can't be read, and at which of its lines; they count from 1.
#[derive(Clone, Copy, Debug, Error)]
#[error("line {line}: {fault}")]
pub struct Malformed {
    pub line: usize,
    pub fault: Fault,
}

/// What is wrong with a line of a corpus.
#[derive(Clone, Copy, Debug, Error)]
pub enum Fault {
    /// It does not begin with the word that has to stand there.
    #[error("no `{0}`")]
    Head(&'static str),
    /// What follows the word is no number in digits.
    #[error("no count")]
    Count,
    /// What follows the word does not begin with a status, a number below 256 in digits.
    #[error("no status")]
    Status,
    /// From it on there are not so many lines with their line feeds.
    #[error("fewer than {0} lines are left")]
    End(usize),
}

/// What is left of a corpus, and the number of its first line.
#[derive(Clone, Copy)]
pub struct Corpus<'a> {
    text: &'a [u8],
    line: usize,
    ghost fits: { line + line_feeds text.now < 2 ^ 64 },
}

impl<'a> Corpus<'a> {
    ghost use Rattle.recorded_corpus.specs.Corpora.{last_line, left};

    /// A corpus of which nothing is read yet.
    #[tactic(auto, using(crate::proofs::Feeds::feeds_at_most))]
    pub fn new(text: &'a [u8]) -> Corpus<'a>
        ensures text { left result ≡ text.now }
        ensures lines { last_line result ≡ 1 + line_feeds text.now }
    {
        Corpus { text, line: 1 }
    }

    /// The next record, and none at the end.
    pub fn next_record(&mut self) -> Result<Option<Record<'a>>, Malformed>
        ensures end { result ≡ Ok None ↔ left self.old ≡ [] }
        ensures place { IfErr result (λ error. error.line ≤ last_line self.old) }
        ensures named { IfOk result (λ found. IfSome found (λ it.
            it.line ≤ last_line self.old)) }
        ensures lines { last_line self.new ≡ last_line self.old }
        ensures shorter { IfOk result (λ found. IsSome found →
            length (left self.new) < length (left self.old)) }
    {
        if self.text.is_empty() {
            return Ok(None);
        }
        self.pass_headings()?;
        let line = self.line;
        let script = self.block("script")?;
        let shown = self.block("shows")?;
        let (status, refusal) = self.ending()?;
        Ok(Some(Record {
            line,
            script,
            outcome: Outcome {
                shown,
                status,
                refusal,
            },
        }))
    }

    // Passes the lines that begin with `#`.
    fn pass_headings(&mut self) -> Result<(), Malformed>
        ensures place { IfErr result (λ error. error.line ≤ last_line self.old) }
        ensures lines { last_line self.new ≡ last_line self.old }
        ensures shorter { IfOk result (λ _. length (left self.new) ≤ length (left self.old)) }
    {
        while self.text.first() == Some(&b'#') {
            self.lines(1)?;
        }
        Ok(())
    }

    // The lines below a line that has their number after a word.
    fn block(&mut self, word: &'static str) -> Result<&'a [u8], Malformed>
        ensures place { IfErr result (λ error. error.line ≤ last_line self.old) }
        ensures lines { last_line self.new ≡ last_line self.old }
        ensures shorter { IfOk result (λ _. length (left self.new) < length (left self.old)) }
    {
        let refused = self.malformed(Fault::Count);
        let count = parse_number(self.head(word)?).ok_or(refused)?;
        self.lines(count)
    }

    // The status and the line on standard error that a record ends with.
    fn ending(&mut self) -> Result<(u8, &'a [u8]), Malformed>
        ensures place { IfErr result (λ error. error.line ≤ last_line self.old) }
        ensures lines { last_line self.new ≡ last_line self.old }
        ensures shorter { IfOk result (λ _. length (left self.new) < length (left self.old)) }
    {
        let refused = self.malformed(Fault::Status);
        let words = self.head("ends")?;
        let mut parts = words.splitn(2, |byte| *byte == b' ');
        let status = parts.next().and_then(parse_status).ok_or(refused)?;
        Ok((status, parts.next().unwrap_or(b"")))
    }

    // What follows a word on the line that begins with it.
    fn head(&mut self, word: &'static str) -> Result<&'a [u8], Malformed>
        ensures place { IfErr result (λ error. error.line ≤ last_line self.old) }
        ensures lines { last_line self.new ≡ last_line self.old }
        ensures shorter { IfOk result (λ _. length (left self.new) < length (left self.old)) }
    {
        let refused = self.malformed(Fault::Head(word));
        let line = self.lines(1)?;
        line.strip_suffix(b"\n")
            .and_then(|line| line.strip_prefix(word.as_bytes()))
            .and_then(|line| line.strip_prefix(b" "))
            .ok_or(refused)
    }

    // So many lines, with their line feeds.
    fn lines(&mut self, count: usize) -> Result<&'a [u8], Malformed>
        ensures taken { IfOk result (λ lines.
            AreLines count lines.now × (lines.now ++ left self.new ≡ left self.old)) }
        ensures place { IfErr result (λ error. error.line ≤ last_line self.old) }
        ensures lines { last_line self.new ≡ last_line self.old }
    {
        match split_lines(self.text, count) {
            Some((lines, text)) => {
                *self = Corpus {
                    text,
                    line: self.line + count,
                };
                Ok(lines)
            }
            None => Err(self.malformed(Fault::End(count))),
        }
    }

    // The error that names the first line.
    fn malformed(&self, fault: Fault) -> Malformed
        ensures { result.line ≤ last_line self.now }
    {
        Malformed {
            line: self.line,
            fault,
        }
    }
}

// The first lines of a text, so many, and the rest; none where it has fewer.
fn split_lines(text: &[u8], count: usize) -> Option<(&[u8], &[u8])>
    ensures { MatchOption result (line_feeds text.now < count) (λ parts.
        AreLines count parts.0.now × (parts.0.now ++ parts.1.now ≡ text.now)) }
{
    if count == 0 {
        return Some(text.split_at(0));
    }
    let mut left = count;
    for (index, byte) in text.iter().enumerate() {
        if *byte == b'\n' {
            left -= 1;
            if left == 0 {
                return Some(text.split_at(index + 1));
            }
        }
    }
    None
}

// The number that digits write, and nothing else beside them.
fn parse_number(digits: &[u8]) -> Option<usize>
    ensures { IfSome result (λ number.
        IsNumeral 10 digits.now × (number ≡ digits_value 10 digits.now)) }
{
    if digits.first() == Some(&b'+') {
        return None;
    }
    str::from_utf8(digits).ok()?.parse().ok()
}

// The status that digits write.
fn parse_status(digits: &[u8]) -> Option<u8>
    ensures { IfSome result (λ status.
        IsNumeral 10 digits.now × (status ≡ digits_value 10 digits.now)) }
{
    parse_number(digits).and_then(|number| u8::try_from(number).ok())
}
