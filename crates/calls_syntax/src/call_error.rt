//! Why a recorded call has no answer.
use std::alloc::{AllocError, AllocFailed};

/// Why a recorded call has no answer.
#[derive(Drop)]
pub enum CallError {
    /// Its first word names no call of these.
    UnknownCall,
    /// Its arguments are not what the call takes, or the line is no call.
    BadArguments,
    /// Answers that have to agree do not.
    Mismatch(&'static str),
    /// Memory was wanted, and none was given.
    Memory,
}

impl From<AllocError> for CallError {
    fn from(_: AllocError) -> CallError {
        CallError::Memory
    }
}

impl<T: Drop> From<AllocFailed<T>> for CallError {
    fn from(_: AllocFailed<T>) -> CallError {
        CallError::Memory
    }
}
