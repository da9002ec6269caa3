//! Why there is no figure.
use cedar_bench_runner::NoClock;
use cedar_builders::BuildFault;
use cedar_entities::EntitiesError;
use cedar_evaluator::CallRefused;
use cedar_names::ParseErrors;
use cedar_parser::ParseError;
use std::alloc::{AllocError, AllocFailed};
use thiserror::Error;

/// Why a case has no figure.
#[derive(Debug, Drop, Error)]
pub enum CaseFault {
    /// Memory was wanted, and none was given.
    #[error("no memory")]
    Memory,
    /// A call was refused that should not be, or the other way round.
    #[error("not the answer that was expected")]
    Answer,
    /// The clock can't be read.
    #[error(transparent)]
    Clock(#[from] NoClock),
}

/// Refuses an answer that does not hold.
pub fn expect(holds: bool) -> Result<(), CaseFault> {
    if holds {
        Ok(())
    } else {
        Err(CaseFault::Answer)
    }
}

impl From<AllocError> for CaseFault {
    fn from(_: AllocError) -> CaseFault {
        CaseFault::Memory
    }
}

impl<T: Drop> From<AllocFailed<T>> for CaseFault {
    fn from(_: AllocFailed<T>) -> CaseFault {
        CaseFault::Memory
    }
}

impl From<ParseErrors> for CaseFault {
    fn from(error: ParseErrors) -> CaseFault {
        match error {
            ParseErrors::Memory => CaseFault::Memory,
            ParseErrors::NotNormalized { .. } | ParseErrors::Reserved(_) => CaseFault::Answer,
        }
    }
}

impl From<ParseError> for CaseFault {
    fn from(error: ParseError) -> CaseFault {
        match error {
            ParseError::Memory => CaseFault::Memory,
            ParseError::Syntax(_) => CaseFault::Answer,
        }
    }
}

impl From<EntitiesError> for CaseFault {
    fn from(error: EntitiesError) -> CaseFault {
        match error {
            EntitiesError::Memory => CaseFault::Memory,
            _ => CaseFault::Answer,
        }
    }
}

impl From<BuildFault<CallRefused>> for CaseFault {
    fn from(fault: BuildFault<CallRefused>) -> CaseFault {
        match fault {
            BuildFault::Memory => CaseFault::Memory,
            BuildFault::Build(_) => CaseFault::Answer,
        }
    }
}
