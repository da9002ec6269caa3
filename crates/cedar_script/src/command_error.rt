//! Why a line of the script is refused.
ghost use Rattle.std.specs.Prelude.{◌≡◌};
ghost use Rattle.cedar_script.specs.CommandErrors.{NamesClash, NamesCall};
ghost use Rattle.cedar_script.specs.declared.command_error.CommandError.TheVariants.{Memory};

use cedar_builders::{BuildFault, DuplicateKeyError, ExpressionConstructionError};
use cedar_evaluator::CallRefused;
use cedar_exprs::SubstitutionError;
use cedar_terms::Type;
use cedar_values::NotValue;
use std::alloc::{AllocError, AllocFailed, Global};
use thiserror::Error;

/// Why a line is refused; the text is the cause that is reported.
///
/// What takes much room is boxed, so that answers stay small on the way up.
#[derive(Debug, PartialEq, Eq, Drop, Error)]
pub enum CommandError {
    /// The bytes of the line are no text.
    #[error("not UTF-8")]
    NotUtf8,
    /// The words of the line are no command, or a number is out of its range.
    #[error("bad line")]
    BadLine,
    /// The command takes more expressions than the stack has.
    #[error("too few expressions")]
    TooFewExpressions,
    /// A key stands twice among the keys of a record.
    #[error("duplicate key `{}`", .0.key())]
    DuplicateKey(DuplicateKeyError),
    /// The expression to bind is no value.
    #[error("not a value")]
    NotAValue,
    /// The value of an unknown has another type than its annotation says.
    #[error("expected {}, actual {}", .0.expected, .0.actual)]
    TypeError(Box<TypeClash>),
    /// An expression to evaluate calls an extension function.
    #[error(transparent)]
    Called(Box<CallRefused>),
    /// Memory was wanted, and none was given.
    #[error("no memory")]
    Memory,
}

/// The type that an unknown is annotated with, and that of its value.
#[derive(Debug, PartialEq, Eq, Drop)]
pub struct TypeClash {
    pub expected: Type,
    pub actual: Type,
}

impl CommandError {
    /// The error of a line whose values can't be substituted; `Memory` where the box gets none.
    pub fn of_types(alloc: Global, error: SubstitutionError) -> CommandError
        ensures { NamesClash error result }
    {
        match error {
            SubstitutionError::TypeError { expected, actual } => {
                match Box::new(alloc, TypeClash { expected, actual }) {
                    Ok(clash) => CommandError::TypeError(clash),
                    Err(_) => CommandError::Memory,
                }
            }
            SubstitutionError::Memory => CommandError::Memory,
        }
    }

    /// The error of a line whose expression has no outcome; `Memory` where the box gets none.
    pub fn of_call(alloc: Global, fault: BuildFault<CallRefused>) -> CommandError
        ensures { NamesCall fault result }
    {
        match fault {
            BuildFault::Build(refused) => match Box::new(alloc, refused) {
                Ok(refused) => CommandError::Called(refused),
                Err(_) => CommandError::Memory,
            },
            BuildFault::Memory => CommandError::Memory,
        }
    }
}

impl From<AllocError> for CommandError {
    ghost from_gives = { λ _ e. e ≡ Memory };

    fn from(_error: AllocError) -> CommandError {
        CommandError::Memory
    }
}

impl<T: Drop> From<AllocFailed<T>> for CommandError {
    ghost from_gives = { λ _ e. e ≡ Memory };

    fn from(_refused: AllocFailed<T>) -> CommandError {
        CommandError::Memory
    }
}

impl From<ExpressionConstructionError> for CommandError {
    ghost use Rattle.cedar_script.specs.CommandErrors.{error_of_construction};

    ghost from_gives = { λ e r. r ≡ error_of_construction e };

    fn from(error: ExpressionConstructionError) -> CommandError {
        match error {
            ExpressionConstructionError::DuplicateKey(error) => CommandError::DuplicateKey(error),
            ExpressionConstructionError::Memory => CommandError::Memory,
        }
    }
}

impl From<NotValue> for CommandError {
    ghost use Rattle.cedar_script.specs.CommandErrors.{error_of_value};

    ghost from_gives = { λ e r. r ≡ error_of_value e };

    fn from(error: NotValue) -> CommandError {
        match error {
            NotValue::NotValue { .. } => CommandError::NotAValue,
            NotValue::Memory => CommandError::Memory,
        }
    }
}
