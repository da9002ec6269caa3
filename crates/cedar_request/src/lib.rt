//! Requests, and what an evaluator asks of a store of entities and of a table of functions.
#![tactic(auto)]

mod context;
mod functions;
mod request;
mod store;

pub use context::Context;
pub use functions::{CallableFunction, CallableFunctions, NoFunction, NoFunctions};
pub use request::Request;
pub use store::{Dereference, EntityData, EntityStore};
