//! A builder of expressions that refuses some calls, for recorded calls and tests of what comes of
//! a refusal. It is lawful where it makes `and` and `or` as the struct does.
#![tactic(auto)]

mod connectives;
mod refusal;
mod refusing;

pub use crate::connectives::{AsTheyStand, Connectives, Simplifying};
pub use crate::refusal::{Counted, Nothing, Numbered, Refusal};
pub use crate::refusing::{RefuseAt, RefuseCount, Refused, Refusing, refusing_makes_trees};
