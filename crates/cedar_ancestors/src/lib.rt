//! What is above each node of a hierarchy: reached by one or more steps from child to parent.
#![tactic(auto)]

mod closure;
mod collecting;
mod keyed;
mod levels;
mod reach;
mod store;
#[cfg(test)]
mod tests;
mod walking;

pub use closure::{Closure, Refusal, is_within};
pub use collecting::HasParents;
pub use keyed::{Cyclic, Hierarchy};
pub use levels::find_cycle;
pub use reach::{Reach, Table};
pub use store::{HasKey, Store, StoreError};
pub use walking::all_above;
