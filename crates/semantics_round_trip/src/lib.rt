//! Parsing and printing: a tree that was parsed can be written, and what is printed for it stands
//! for it again.
//!
//! The definitions stand in `specs/`; the crate has no code but the laws over them.
#![tactic(auto)]

pub mod laws;
