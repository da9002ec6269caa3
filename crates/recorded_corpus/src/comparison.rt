//! The scripts of a corpus worked, and compared with their records.
ghost use Rattle.std.specs.Prelude.{◌≡◌, ◌↔◌, ◌<◌, ◌≤◌, IfOk, IsTrue, OnOk, false};
ghost use Rattle.std.specs.Io.KnownBytes.{IsAtEnd};
ghost use Rattle.recorded_corpus.specs.Comparisons.{AreAlike, status_of};

use crate::corpus::{Corpus, Malformed, Outcome, Record};
use cedar_script::{RunFault, run};
use cedar_streams::{StreamFault, read_input};
use std::alloc::{AllocError, Global};
use std::io::{Read, Write};
use thiserror::Error;

/// How many scripts a corpus has, and how many of them do otherwise than their records say.
#[derive(Clone, Copy)]
pub struct Tally {
    pub scripts: usize,
    pub different: usize,
}

impl Tally {
    // One script more.
    fn count(&mut self, alike: bool)
        ensures counts { self.old.different ≤ self.old.scripts
            → self.new.different ≤ self.new.scripts }
        ensures alike { IsTrue alike → self.new.different ≡ self.old.different }
        ensures differs { alike ≡ false → 0 < self.new.different }
    {
        self.scripts = self.scripts.saturating_add(1);
        if !alike {
            self.different = self.different.saturating_add(1);
        }
    }
}

/// Why a corpus is not compared to its end.
#[derive(Debug, Drop, Error)]
pub enum CompareFault {
    /// A line of it can't be read.
    #[error("corpus, {0}")]
    Malformed(#[from] Malformed),
    /// It can't be read, a difference can't be written, or memory runs out.
    #[error(transparent)]
    Stream(#[from] StreamFault),
}

impl From<AllocError> for CompareFault {
    fn from(_error: AllocError) -> CompareFault {
        CompareFault::Stream(StreamFault::Memory)
    }
}

/// The status that the program ends with: 1 where a script differs, 2 where a fault comes.
pub fn status(compared: &Result<Tally, CompareFault>) -> u8
    ensures { result ≡ status_of compared.now }
{
    match compared {
        Ok(tally) if tally.different == 0 => 0,
        Ok(_) => 1,
        Err(_) => 2,
    }
}

/// Works each script of the corpus that the reader gives, and writes a line for each one that shows
/// or ends otherwise than its record says, with the line of the record, and last one with both
/// counts.
pub fn compare<R: Read, W: Write>(
    alloc: Global,
    reader: &mut R,
    writer: &mut W,
) -> Result<Tally, CompareFault>
    ensures end { OnOk result (IsAtEnd (R.remaining reader.new)) }
    ensures counts { IfOk result (λ tally. tally.different ≤ tally.scripts) }
{
    let text = read_input(alloc, reader)?;
    let mut corpus = Corpus::new(&text);
    let mut tally = Tally {
        scripts: 0,
        different: 0,
    };
    while let Some(record) = corpus.next_record()? {
        tally.count(is_as_recorded(alloc, &record, writer)?);
    }
    write_tally(writer, &tally)?;
    Ok(tally)
}

fn write_tally<W: Write>(writer: &mut W, tally: &Tally) -> Result<(), StreamFault> {
    writeln!(
        writer,
        "{} scripts, {} different",
        tally.scripts, tally.different
    )
    .map_err(|error| StreamFault::of_writer(&error))
}

// Whether a script shows and ends as its record says; else a line says what was wanted, and what
// came.
fn is_as_recorded<W: Write>(
    alloc: Global,
    record: &Record,
    writer: &mut W,
) -> Result<bool, CompareFault> {
    let mut shown = Vec::new(alloc);
    let mut script = record.script;
    let (status, refusal) = match run(alloc, &mut script, &mut shown) {
        Ok(()) => (0, String::new(alloc)),
        Err(RunFault::Stream(StreamFault::Memory)) => {
            return Err(CompareFault::Stream(StreamFault::Memory));
        }
        Err(fault) => (fault.status(), fault.to_string(alloc)?),
    };
    let came = Outcome {
        shown: &shown,
        status,
        refusal: refusal.as_bytes(),
    };
    let alike = are_alike(&record.outcome, &came);
    if !alike {
        write_difference(writer, record, &came)?;
    }
    Ok(alike)
}

fn write_difference<W: Write>(
    writer: &mut W,
    record: &Record,
    came: &Outcome,
) -> Result<(), StreamFault> {
    writeln!(
        writer,
        "line {}: wanted {}; came {came}",
        record.line, record.outcome
    )
    .map_err(|error| StreamFault::of_writer(&error))
}

// Whether two runs show and end alike.
fn are_alike(wanted: &Outcome, came: &Outcome) -> bool
    ensures { IsTrue result ↔ AreAlike wanted.now came.now }
{
    wanted == came
}
