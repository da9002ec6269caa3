//! Scripts with their records: each script of a corpus is worked, and what it shows and how it ends
//! is compared with its record.
#![tactic(auto)]

mod comparison;
mod corpus;
#[cfg(test)]
mod tests;

pub use comparison::{CompareFault, Tally, compare, status};
pub use corpus::{Fault, Malformed};
