//! Input that is read to its end, and why a reader or a writer ends a program.
#![tactic(auto)]

mod streams;

pub use streams::{StreamFault, read_input};
