//! Substitution of unknowns by values, and which values may be put.
mod function;
pub(crate) mod substitute;
mod typed;
