//! The texts of Cedar's syntax: what is printed for each tree, and that it stands for the tree.
//!
//! The definitions stand in `specs/`; the crate has no code but the laws over them.
#![tactic(auto)]

pub mod laws;
