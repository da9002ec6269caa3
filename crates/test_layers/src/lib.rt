//! What no recorded call can say of the layers: the laws as they are called, calls through the
//! bound of a builder, the errors of making expressions, a user's own values and builders, data of
//! other types, expressions and shapes as keys, trees whose nodes share their children, builders
//! and writers that refuse, sorted slices, consequences of several contracts, and the names that
//! `cedar_ast` has.
//!
//! What calls answer is shown by `recorded_calls`.
#![tactic(auto)]

#[cfg(test)]
mod tests;
