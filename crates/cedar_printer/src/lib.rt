//! The printer: expressions in Cedar's own syntax.
#![tactic(auto)]

mod phrase;
mod printer;

pub use phrase::{Phrase, RopePhrase};
pub use printer::{PolicyText, policy_text};
