//! The grammar of policies in Cedar's syntax: which tokens are policies, and which expression the
//! condition of a policy is.
//!
//! The definitions stand in `specs/`; the crate has no code but the laws over them.
#![tactic(auto)]

pub mod laws;
