//! Input that is read to its end, and why a reader or a writer ends a program.
ghost use Rattle.std.specs.Prelude.{◌≡◌, IfErr, IfOk, IfSome, OnOk};
ghost use Rattle.std.specs.Io.KnownBytes.{IsAtEnd};
ghost use Rattle.std.specs.IoError.{error_kind};
ghost use Rattle.cedar_streams.specs.StreamFaults.{IsInputFault, read_fault, write_fault};
ghost use Rattle.cedar_streams.specs.declared.streams.StreamFault.TheVariants.{Memory};

use std::alloc::{AllocError, Global};
use std::io::{self, Read};
use thiserror::Error;

/// Why a reader or a writer ends a program.
#[derive(Debug, PartialEq, Eq, Drop, Error)]
pub enum StreamFault {
    /// The input can't be read.
    #[error("input fault")]
    Input,
    /// The output can't be written.
    #[error("output fault")]
    Output,
    /// Memory was wanted, and none was given.
    #[error("no memory")]
    Memory,
}

impl StreamFault {
    /// The fault of a reader that has this error: want of memory as itself, else an input fault.
    pub fn of_reader(error: &io::Error) -> StreamFault
        ensures { result ≡ read_fault (error_kind error.now) }
    {
        match error.kind() {
            io::ErrorKind::OutOfMemory => StreamFault::Memory,
            _ => StreamFault::Input,
        }
    }

    /// The fault of a writer that has this error: want of memory as itself, else an output fault.
    pub fn of_writer(error: &io::Error) -> StreamFault
        ensures { result ≡ write_fault (error_kind error.now) }
    {
        match error.kind() {
            io::ErrorKind::OutOfMemory => StreamFault::Memory,
            _ => StreamFault::Output,
        }
    }
}

impl From<AllocError> for StreamFault {
    ghost from_gives = { λ _ e. e ≡ Memory };

    fn from(_error: AllocError) -> StreamFault {
        StreamFault::Memory
    }
}

/// Reads all that a reader gives.
pub fn read_input<R: Read>(alloc: Global, reader: &mut R) -> Result<Vec<u8>, StreamFault>
    ensures bytes { IfOk result (λ input.
        IfSome (R.remaining reader.old) (λ bytes. input.items ≡ bytes)) }
    ensures end { OnOk result (IsAtEnd (R.remaining reader.new)) }
    ensures fault { IfErr result IsInputFault }
{
    let mut input = Vec::new(alloc);
    match reader.read_to_end(&mut input) {
        Ok(_) => Ok(input),
        Err(error) => Err(StreamFault::of_reader(&error)),
    }
}
