//! What the texts of Cedar's extension types are read as, as functions of the text.
//!
//! The definitions stand in `specs/`; the crate has no code but the laws over them.
#![tactic(auto)]

pub mod laws;
