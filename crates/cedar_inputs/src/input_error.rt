//! Why a text gives no store of entities, or no request.
ghost use Rattle.std.specs.Prelude.{◌≡◌};
ghost use Rattle.cedar_inputs.specs.declared.input_error.InputError.TheVariants.{Memory};

use cedar_builders::ExpressionConstructionError;
use cedar_entities::EntitiesError;
use cedar_json::{JsonError, NoValue};
use std::alloc::{AllocError, AllocFailed, Global};
use thiserror::Error;

/// Why a text gives no store of entities, or no request.
#[derive(Debug, Drop, Error)]
pub enum InputError {
    /// It is no JSON, or not of the form that is wanted.
    #[error("{0}")]
    Json(JsonError),
    /// A value can't be had: the call of an extension function has a fault.
    #[error("{place}: {problem}")]
    NoValue { place: String, problem: String },
    /// The entities are no store.
    #[error("{0}")]
    Entities(EntitiesError),
    /// Memory was wanted, and none was given.
    #[error("no memory")]
    Memory,
}

impl InputError {
    // What is wrong with a part of the JSON, which a name stands for.
    pub(crate) fn of_part(alloc: Global, name: &str, failure: NoValue) -> InputError {
        InputError::from(JsonError::of_part(alloc, name, failure))
    }

    // Why pairs are no record: two have the same name.
    pub(crate) fn of_pairs(
        alloc: Global,
        place: &str,
        error: ExpressionConstructionError,
    ) -> InputError {
        let ExpressionConstructionError::DuplicateKey(error) = error else {
            return InputError::Memory;
        };
        match (String::from_str(alloc, place), format!(in alloc; "{error}")) {
            (Ok(place), Ok(problem)) => InputError::NoValue { place, problem },
            _ => InputError::Memory,
        }
    }
}

impl From<AllocError> for InputError {
    ghost from_gives = { λ _ e. e ≡ Memory };

    fn from(_: AllocError) -> InputError {
        InputError::Memory
    }
}

impl<T: Drop> From<AllocFailed<T>> for InputError {
    ghost from_gives = { λ _ e. e ≡ Memory };

    fn from(_: AllocFailed<T>) -> InputError {
        InputError::Memory
    }
}

impl From<JsonError> for InputError {
    fn from(error: JsonError) -> InputError {
        match error {
            JsonError::Memory => InputError::Memory,
            error => InputError::Json(error),
        }
    }
}

impl From<EntitiesError> for InputError {
    fn from(error: EntitiesError) -> InputError {
        match error {
            EntitiesError::Memory => InputError::Memory,
            error => InputError::Entities(error),
        }
    }
}
