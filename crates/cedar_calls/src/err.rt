//! Why a call has no answer (what `extension.rs` asks of the evaluator's errors).
ghost use Rattle.std.specs.Prelude.{◌≡◌};

use cedar_names::{Loc, Name};
use std::alloc::{AllocError, AllocFailed};
use std::rc::RcStr;
use thiserror::Error;

/// Why a call of a function has no answer. Two are equal whatever the place of the call.
#[derive(Debug, Clone, Drop, Error)]
#[derive_where(PartialEq, Eq)]
pub enum EvaluationError {
    /// The function does not take this count of arguments.
    #[error("`{name}` takes {expected} arguments, not {actual}")]
    WrongNumArguments {
        /// The function.
        name: Name,
        /// The count that it takes; of a function that takes more as well, the least.
        expected: usize,
        /// The count that it was given.
        actual: usize,
        /// The place of the call. A function does not know it and gives none.
        #[derive_where(skip(EqHashOrd))]
        loc: Option<Loc>,
    },
    /// The function refused its arguments.
    #[error("{message}")]
    Function {
        /// The function.
        name: Name,
        /// What it says.
        message: RcStr,
    },
    /// There was no memory, or the function said so.
    #[error("no memory")]
    Memory,
}

impl From<AllocError> for EvaluationError {
    ghost use Rattle.cedar_calls.specs.declared.err.EvaluationError.TheVariants.{Memory};

    ghost from_gives = { λ _ e. e ≡ Memory };

    fn from(_: AllocError) -> EvaluationError {
        EvaluationError::Memory
    }
}

impl<T: Drop> From<AllocFailed<T>> for EvaluationError {
    ghost use Rattle.cedar_calls.specs.declared.err.EvaluationError.TheVariants.{Memory};

    ghost from_gives = { λ _ e. e ≡ Memory };

    fn from(_: AllocFailed<T>) -> EvaluationError {
        EvaluationError::Memory
    }
}
