//! What an expression is, whatever its places and data: its order and its hash.
pub(crate) mod expr_shape_only;
pub(crate) mod hashing;
pub(crate) mod order;
