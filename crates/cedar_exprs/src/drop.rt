//! How an expression is dropped, and what a drop keeps on its way.
pub(crate) mod dropping;
mod row_items;
mod subtrees;
