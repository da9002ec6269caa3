//! The errors of substitution (`SubstitutionError` of Cedar's `expr.rs`).
ghost use Rattle.std.specs.Prelude.{◌≡◌, IfOk};
ghost use Rattle.cedar_builders.specs.SubstitutionErrors.{types_of};

use cedar_terms::Type;
use std::alloc::{AllocError, Global};
use thiserror::Error;

/// Why values were not substituted.
#[derive(Debug, Clone, PartialEq, Eq, Drop, Error)]
pub enum SubstitutionError {
    /// The value of an unknown has another type than the unknown's annotation says.
    #[error("expected a value of type {expected}, got a value of type {actual}")]
    TypeError { expected: Type, actual: Type },
    /// Memory was refused.
    #[error("no memory")]
    Memory,
}

impl SubstitutionError {
    /// A copy.
    pub fn clone(&self, _alloc: Global) -> Result<SubstitutionError, AllocError>
        ensures { IfOk result (λ e. types_of e ≡ types_of self.now) }
    {
        Clone::clone(self)
    }
}

impl From<AllocError> for SubstitutionError {
    ghost use Rattle.cedar_builders.specs.declared.substitution_error.SubstitutionError.TheVariants.{
      Memory,
    };

    ghost from_gives = { λ _ e. e ≡ Memory };

    fn from(_: AllocError) -> SubstitutionError {
        SubstitutionError::Memory
    }
}
