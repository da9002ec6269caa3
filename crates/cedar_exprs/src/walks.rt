//! Walks over expressions: over the children of a node, over positions, and from the children up.
pub(crate) mod children;
mod entries;
pub(crate) mod expr_iterator;
pub(crate) mod not_restricted;
pub(crate) mod positions;
pub(crate) mod post_order;
pub(crate) mod results;
