//! The evaluator over a request, a store of entities and a table of functions, each of which may
//! be known in part.
#![tactic(auto)]

mod attributes;
mod binary;
mod bound;
mod evaluator;
mod known;
mod membership;
mod nodes;
pub mod operations;
mod plain_nodes;

pub use evaluator::RequestEvaluator;
