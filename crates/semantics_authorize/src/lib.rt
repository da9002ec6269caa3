//! The meaning of the response to a request: policies, what their conditions come to, and the
//! decision.
//!
//! The definitions stand in `specs/`; the crate has no code but the laws over them.
#![tactic(auto)]

pub mod laws;
