//! The integers of Cedar (Cedar's file `integer.rs`).

/// An integer value: 64 bits with a sign.
pub type Integer = i64;

/// An integer as it stands in a source: the same.
pub type InputInteger = i64;
