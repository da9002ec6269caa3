//! Why an expression is no value (`value.rs`).
ghost use Rattle.std.specs.Prelude.{◌≡◌};

use cedar_names::Loc;
use std::alloc::{AllocError, AllocFailed};
use thiserror::Error;

/// Why an expression is no value.
#[derive(Debug, Clone, PartialEq, Eq, Drop, Error)]
pub enum NotValue {
    /// A node is no literal, set or record. The place, if known, is that of the first such node,
    /// where each node comes before its children and the values of a record come in the order of
    /// their keys.
    #[error("not a value")]
    NotValue { loc: Option<Loc> },
    /// There was no memory.
    #[error("no memory")]
    Memory,
}

impl From<AllocError> for NotValue {
    ghost use Rattle.cedar_values.specs.declared.not_value.NotValue.TheVariants.{Memory};

    ghost from_gives = { λ _ e. e ≡ Memory };

    fn from(_: AllocError) -> NotValue {
        NotValue::Memory
    }
}

impl<T: Drop> From<AllocFailed<T>> for NotValue {
    ghost use Rattle.cedar_values.specs.declared.not_value.NotValue.TheVariants.{Memory};

    ghost from_gives = { λ _ e. e ≡ Memory };

    fn from(_: AllocFailed<T>) -> NotValue {
        NotValue::Memory
    }
}
