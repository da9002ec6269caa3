//! The meaning of an evaluator over a request, a store of entities and a table of functions, each
//! of which may be known in part.
//!
//! The definitions stand in `specs/`; the crate has no code but the laws over them.
#![tactic(auto)]

pub mod laws;
