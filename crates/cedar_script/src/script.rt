//! The run of a script, from a reader to a writer.
ghost use Rattle.std.specs.Prelude.{◌≡◌, ◌∷◌, [], ◌++◌, OnOk, string_bytes};
ghost use Rattle.std.specs.Io.KnownBytes.{Appends, IsAtEnd};
ghost use Rattle.cedar_script.specs.RunFaults.{status_of, IsFaultAt};

use crate::command_error::CommandError;
use crate::line::Command;
use crate::work::State;
use cedar_streams::{StreamFault, read_input};
use std::alloc::Global;
use std::io::{self, Read, Write};
use std::rc::RcStr;
use thiserror::Error;

/// Why a run ends before the end of its script.
#[derive(Debug, PartialEq, Eq, Drop, Error)]
pub enum RunFault {
    /// A line is refused; lines count from 1.
    #[error("line {line}: {cause}")]
    Line { line: usize, cause: RcStr },
    /// The script can't be read, what is shown can't be written, or memory runs out.
    #[error(transparent)]
    Stream(#[from] StreamFault),
}

impl RunFault {
    /// The status that the program ends with.
    pub fn status(&self) -> u8
        ensures { result ≡ status_of self.now }
    {
        match self {
            RunFault::Line { .. } => 1,
            RunFault::Stream(_) => 2,
        }
    }

    // The fault of a line that is refused.
    fn at_line(alloc: Global, line: usize, error: CommandError) -> RunFault
        ensures { IsFaultAt line error result }
    {
        if error == CommandError::Memory {
            return RunFault::Stream(StreamFault::Memory);
        }
        match error.to_string(alloc).and_then(RcStr::from_string) {
            Ok(cause) => RunFault::Line { line, cause },
            Err(_) => RunFault::Stream(StreamFault::Memory),
        }
    }
}

/// Reads a script to its end, works its lines one after the other, and writes what they show.
/// `docs/SCRIPT.md` describes the language.
///
/// A refused line ends the run; what was shown before it stays. After an output fault nothing is
/// known of how much of the last text went out.
pub fn run<R: Read, W: Write>(alloc: Global, reader: &mut R, writer: &mut W) -> Result<(), RunFault>
    ensures { OnOk result (IsAtEnd (R.remaining reader.new)) }
{
    let input = read_input(alloc, reader)?;
    let mut state = State::new(alloc);
    let mut number = 0usize;
    for line in input.split(|byte| *byte == b'\n') {
        number = number.saturating_add(1);
        match work_line(alloc, &mut state, line) {
            Ok(None) => {}
            Ok(Some(shown)) => write_line(writer, shown)?,
            Err(error) => return Err(RunFault::at_line(alloc, number, error)),
        }
    }
    Ok(())
}

// Works a line, and gives the text that it shows, if it shows one. An empty line does nothing.
fn work_line(
    alloc: Global,
    state: &mut State,
    line: &[u8],
) -> Result<Option<String>, CommandError> {
    let text = str::from_utf8(line).map_err(|_| CommandError::NotUtf8)?;
    if text.is_empty() {
        return Ok(None);
    }
    state.work(alloc, Command::parse(alloc, text)?)
}

// Writes a text and a line feed, at once.
fn write_line<W: Write>(writer: &mut W, mut text: String) -> Result<(), StreamFault>
    ensures { OnOk result
        (Appends (W.contents writer.old) (W.contents writer.new) (string_bytes text ++ 10 ∷ [])) }
{
    text.push('\n').map_err(|_| StreamFault::Memory)?;
    write_now(writer, text.as_bytes()).map_err(|error| StreamFault::of_writer(&error))
}

// Writes all bytes, so that the writer keeps none back.
fn write_now<W: Write>(writer: &mut W, bytes: &[u8]) -> io::Result<()>
    ensures { OnOk result (Appends (W.contents writer.old) (W.contents writer.new) bytes.now) }
{
    writer.write_all(bytes)?;
    writer.flush()
}
