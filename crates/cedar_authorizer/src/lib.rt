//! Decisions: policies, what their conditions come to by what is known, and the response.
#![tactic(auto)]

mod authorize;
mod fault;
mod partial;
mod policy;
mod response;
mod tally;
mod verdict;

pub use authorize::is_authorized;
pub use cedar_policies::Effect;
pub use fault::{ConditionFault, PolicyError};
pub use partial::{PartialResponse, is_authorized_partial};
pub use policy::Policy;
pub use response::{Decision, Response};
