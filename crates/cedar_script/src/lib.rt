//! The language of scripts.
#![tactic(auto)]

mod command_error;
mod line;
mod pattern;
mod script;
mod work;

pub use cedar_streams::StreamFault;
pub use script::{RunFault, run};
