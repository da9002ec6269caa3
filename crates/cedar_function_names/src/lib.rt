//! The names of the functions of Cedar's extensions.
#![tactic(auto)]

mod function;
pub mod laws;

pub use function::ExtensionFunction;
