//! The partial evaluator over a request, a store of entities and values of unknowns, each of which
//! may be known in part: what it makes of a condition is a known value, or a residual that has the
//! condition's outcome wherever more is known.
#![tactic(auto)]

mod known;
pub mod laws;
mod nodes;
mod paths;
mod plain;
mod plain_nodes;
mod simplification;
mod walk;

pub use simplification::simplify;
