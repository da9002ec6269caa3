//! The errors of validation (`ExprValidationError` of Cedar's `expr.rs`).
ghost use Rattle.std.specs.Prelude.{◌≡◌, IfOk};
ghost use Rattle.cedar_validation.specs.ValidationErrors.{fault_of, fault_place};

use cedar_names::Name;
use std::alloc::{AllocError, Global};
use std::rc::RcStr;
use thiserror::Error;

/// What no text of Cedar could say.
#[derive(Debug, Clone, PartialEq, Eq, Drop, Error)]
pub enum ExprValidationError {
    /// A function is called that is not known.
    #[error("invalid expression: unknown extension function `{name}`")]
    UnknownFunction { name: Name },
    /// A function that is called as a method is called without arguments.
    #[error("invalid expression: method-style extension function `{name}` requires a receiver argument")]
    MissingReceiver { name: Name },
    /// An attribute of a path is no identifier that a user may define.
    #[error("invalid expression: extended has attribute `{attr}` is not a valid identifier")]
    InvalidAttribute { attr: RcStr },
    /// Memory was refused.
    #[error("no memory")]
    Memory,
}

impl ExprValidationError {
    /// A copy, with the place of its name.
    pub fn clone(&self, _alloc: Global) -> Result<ExprValidationError, AllocError>
        ensures fault { IfOk result (λ e. fault_of e ≡ fault_of self.now) }
        ensures place { IfOk result (λ e. fault_place e ≡ fault_place self.now) }
    {
        Clone::clone(self)
    }
}

impl From<AllocError> for ExprValidationError {
    ghost use Rattle.cedar_validation.specs.declared.expr_validation_error.ExprValidationError.TheVariants.{
      Memory,
    };

    ghost from_gives = { λ _ e. e ≡ Memory };

    fn from(_: AllocError) -> ExprValidationError {
        ExprValidationError::Memory
    }
}
