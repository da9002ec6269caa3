//! Value trees: what a value is without its places, for every type of extension values.
//!
//! The definitions stand in `specs/`; the crate has no code but the laws over them.
#![tactic(auto)]

pub mod laws;
