//! JSON in Cedar's forms, and what it stands for.
#![tactic(auto)]

mod entities;
mod json_error;
mod near_names;
mod no_value;
mod values;

pub use entities::{EntityJson, entities_of, uid_of};
pub use json_error::{JsonError, parse_json};
pub use near_names::{did_you_mean, nearest};
pub use no_value::NoValue;
pub use values::expr_of;
