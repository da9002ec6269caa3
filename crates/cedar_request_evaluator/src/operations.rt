//! What a store answers of values, and bound unknowns, for walks that evaluate in part.
pub use crate::attributes::find_attribute;
pub use crate::binary::apply_to_values;
pub use crate::bound::{ValueWalk, post_order_with_values};
