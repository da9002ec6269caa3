//! Decisions by texts of policies.
#![tactic(auto)]

mod deciding;
mod partial;
mod response;

pub use partial::decide_partial;
pub use response::{decide, decide_by};
