//! Conditions in Cedar's own syntax, and their answers.
#![tactic(auto)]

mod answer;
mod call_faults;
mod calls;
mod faults;
mod hints;
mod layout;
mod problem;
mod refusals;
mod size;
mod styles;
mod unknowns;

pub use answer::{Answer, Residual, evaluate_condition};
pub use problem::Problem;
