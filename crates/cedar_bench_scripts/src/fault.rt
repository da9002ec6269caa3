//! Why a case has no figure.
use cedar_bench_runner::NoClock;
use cedar_script::RunFault;
use std::alloc::AllocError;
use thiserror::Error;

/// Why a case has no figure.
#[derive(Debug, Drop, Error)]
pub enum ScriptFault {
    /// A script is refused.
    #[error(transparent)]
    Run(#[from] RunFault),
    /// The clock can't be read.
    #[error(transparent)]
    Clock(#[from] NoClock),
    /// There is no memory for the text of a script.
    #[error("no memory")]
    Memory,
}

impl From<AllocError> for ScriptFault {
    fn from(_: AllocError) -> ScriptFault {
        ScriptFault::Memory
    }
}
