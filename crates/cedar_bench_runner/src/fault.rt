//! Why there is no figure.
use std::alloc::{AllocError, AllocFailed};
use std::fmt::Display;
use std::io;
use std::rc::RcStr;
use thiserror::Error;

/// The clock can't be read.
#[derive(Clone, Copy, Debug, Error)]
#[error("the clock can't be read")]
pub struct NoClock;

// Why a program ends before its end, where a case has no figure by F.
#[derive(Debug, Drop, Error)]
#[error_bound(F: Display)]
pub(crate) enum BenchFault<F> {
    // No case has a name with this beginning.
    #[error("no case begins with {word}")]
    Unknown { word: RcStr },
    // A case has no figure.
    #[error("{name}: {fault}")]
    Case { name: &'static str, fault: F },
    // The arguments can't be read, or a line can't be written.
    #[error("input or output fault")]
    Io,
    // Memory was wanted for something else than a case.
    #[error("no memory")]
    Memory,
}

impl<F> From<AllocError> for BenchFault<F> {
    fn from(_: AllocError) -> BenchFault<F> {
        BenchFault::Memory
    }
}

impl<F, T: Drop> From<AllocFailed<T>> for BenchFault<F> {
    fn from(_: AllocFailed<T>) -> BenchFault<F> {
        BenchFault::Memory
    }
}

impl<F> From<io::Error> for BenchFault<F> {
    fn from(_: io::Error) -> BenchFault<F> {
        BenchFault::Io
    }
}
