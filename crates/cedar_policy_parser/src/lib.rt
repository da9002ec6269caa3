//! The parser of sets of policies and templates.
#![tactic(auto)]

mod annotations;
mod clauses;
mod entities;
mod parser;
mod scope;
mod seen;
mod stream;

pub use parser::parse_policies;
