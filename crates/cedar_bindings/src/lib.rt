//! What names stand for, and how they are put into conditions.
#![tactic(auto)]

mod bindings;
mod names;
mod request;
mod usage;

pub use bindings::Bindings;
pub use cedar_json::JsonError as BindingsError;
pub use names::put_names;
pub use request::member;
