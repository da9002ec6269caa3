//! Cedar's extension functions over values: decimals, IP addresses, moments and durations.
#![tactic(auto)]

mod answer;
mod calls;
mod decimals;
mod extension;
mod extension_value;
mod extensions;
pub mod laws;
mod ranges;
mod table;
mod texts;
mod times;

pub use answer::Answer;
pub use calls::{call, function_of};
pub use extension::BuiltinExtension;
pub use table::{BuiltinFunction, BuiltinFunctions};
