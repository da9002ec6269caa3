//! The values that the arguments of recorded calls stand for, and what the functions answer that
//! are stored for their extension values. `docs/CALLS.md` describes the language.
#![tactic(auto)]

mod keyed;
mod value_arguments;

pub use crate::keyed::{Echo, Keyed, NoValue, OneArgument, TwoArguments};
pub use crate::value_arguments::{
    KeyedValue, bindings, literals, number, value, value_pairs, values,
};
