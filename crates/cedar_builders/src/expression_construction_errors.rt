//! Errors of making expressions (Cedar's `expr.rs`).
ghost use Rattle.std.specs.Prelude.{◌≡◌, codes, IfOk};
ghost use Rattle.std.specs.Rc.{rc_str_bytes};
ghost use Rattle.cedar_builders.specs.declared.expression_construction_errors.ExpressionConstructionError.TheVariants.{
  DuplicateKey,
  Memory,
};
ghost use Rattle.cedar_builders.specs.Errors.{key_of, context_of, SaysTheSame};

use std::alloc::{AllocError, AllocFailed, Global};
use std::rc::RcStr;
use thiserror::Error;

/// The same key stood two or more times.
#[derive(Debug, Clone, PartialEq, Eq, Drop, Error)]
#[error("duplicate key `{key}` {context}")]
pub struct DuplicateKeyError {
    key: RcStr,
    context: &'static str,
}

impl DuplicateKeyError {
    /// The error for this key in a record literal.
    pub fn in_record_literal(key: RcStr) -> DuplicateKeyError
        ensures key { key_of result ≡ rc_str_bytes key }
        ensures context { context_of result ≡ codes "in record literal" }
    {
        DuplicateKeyError {
            key,
            context: "in record literal",
        }
    }

    /// The key that stood two or more times.
    pub fn key(&self) -> &str
        ensures { result.now ≡ key_of self.now }
    {
        self.key.as_str()
    }

    /// A copy, which shares the key and takes no memory.
    pub fn clone(&self, _alloc: Global) -> Result<DuplicateKeyError, AllocError>
        ensures key { IfOk result (λ e. key_of e ≡ key_of self.now) }
        ensures context { IfOk result (λ e. context_of e ≡ context_of self.now) }
    {
        Clone::clone(self)
    }
}

/// Why an expression was not made.
#[derive(Debug, Clone, PartialEq, Eq, Drop, Error)]
pub enum ExpressionConstructionError {
    /// The same key stood two or more times.
    #[error(transparent)]
    DuplicateKey(DuplicateKeyError),
    /// Memory was refused.
    #[error("no memory")]
    Memory,
}

impl ExpressionConstructionError {
    /// A copy, which shares the key and takes no memory.
    pub fn clone(&self, _alloc: Global) -> Result<ExpressionConstructionError, AllocError>
        ensures { IfOk result (SaysTheSame self.now) }
    {
        Clone::clone(self)
    }
}

impl From<DuplicateKeyError> for ExpressionConstructionError {
    ghost from_gives = { λ repeat error. error ≡ DuplicateKey repeat };

    fn from(repeat: DuplicateKeyError) -> ExpressionConstructionError {
        ExpressionConstructionError::DuplicateKey(repeat)
    }
}

impl From<AllocError> for ExpressionConstructionError {
    ghost from_gives = { λ _ error. error ≡ Memory };

    fn from(_: AllocError) -> ExpressionConstructionError {
        ExpressionConstructionError::Memory
    }
}

impl<T: Drop> From<AllocFailed<T>> for ExpressionConstructionError {
    ghost from_gives = { λ _ error. error ≡ Memory };

    fn from(_: AllocFailed<T>) -> ExpressionConstructionError {
        ExpressionConstructionError::Memory
    }
}
