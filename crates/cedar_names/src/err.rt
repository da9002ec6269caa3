//! Errors of the readers.
ghost use Rattle.std.specs.Prelude.{◌≡◌, IfOk};
ghost use Rattle.cedar_names.specs.declared.err.ParseErrors.TheVariants.{Memory, Reserved};
ghost use Rattle.cedar_names.specs.InternalNames.{bare_internal_name, internal_name_place};
ghost use Rattle.cedar_names.specs.Readers.{refused_name, refused_place};

use crate::internal_name::InternalName;
use std::alloc::{AllocError, AllocFailed, Global};
use std::fmt;
use thiserror::Error;

/// A name has the component `__cedar` where that is not allowed (Cedar's file `name.rs`, after
/// RFC 52).
#[derive(Clone, PartialEq, Eq, Hash, Drop, Error)]
#[error("The name `{name}` contains `__cedar`, which is reserved")]
pub struct ReservedNameError {
    pub(crate) name: InternalName,
}

impl fmt::Debug for ReservedNameError {
    fn fmt<W: fmt::Write>(&self, f: &mut fmt::Formatter<W>) -> fmt::Result {
        f.debug_tuple("ReservedNameError")
            .field(&self.name)
            .finish()
    }
}

impl ReservedNameError {
    /// The name that was refused.
    pub fn name(&self) -> &InternalName
        ensures name { bare_internal_name result.now ≡ refused_name self.now }
        ensures place { internal_name_place result.now ≡ refused_place self.now }
    {
        &self.name
    }

    /// A copy.
    pub fn clone(&self, _alloc: Global) -> Result<ReservedNameError, AllocError>
        ensures name { IfOk result (λ e. refused_name e ≡ refused_name self.now) }
        ensures place { IfOk result (λ e. refused_place e ≡ refused_place self.now) }
    {
        Clone::clone(self)
    }
}

/// Why a text was refused (Cedar's file `parser/err.rs`, without its reports).
#[derive(Debug, Clone, PartialEq, Eq, Drop, Error)]
pub enum ParseErrors {
    /// The text is outside the grammar of what was asked for, which `kind` names.
    #[error("not a normalized {kind}")]
    NotNormalized { kind: &'static str },
    /// The text is inside the grammar, and has the component `__cedar`.
    #[error(transparent)]
    Reserved(ReservedNameError),
    /// Memory was refused.
    #[error("no memory")]
    Memory,
}

impl From<ReservedNameError> for ParseErrors {
    ghost from_gives = { λ r e. e ≡ Reserved r };

    fn from(e: ReservedNameError) -> ParseErrors {
        ParseErrors::Reserved(e)
    }
}

impl From<AllocError> for ParseErrors {
    ghost from_gives = { λ _ e. e ≡ Memory };

    fn from(_: AllocError) -> ParseErrors {
        ParseErrors::Memory
    }
}

impl<T: Drop> From<AllocFailed<T>> for ParseErrors {
    ghost from_gives = { λ _ e. e ≡ Memory };

    fn from(_: AllocFailed<T>) -> ParseErrors {
        ParseErrors::Memory
    }
}
