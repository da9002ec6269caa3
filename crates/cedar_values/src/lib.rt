//! Values, sets of values and records of values, for any type of extension values.
#![tactic(auto)]

mod bounded_display;
mod dropping;
mod extension_value;
mod from_expr;
mod hash_form;
mod holds_extension;
mod keys_ascend;
pub mod laws;
mod literal_uids;
mod literals;
mod not_value;
mod partial_value;
mod put_last;
mod record;
mod row_items;
mod set;
mod substitution;
mod to_expr;
mod value;
mod waiting;
mod well_formed;

pub use bounded_display::{BoundedDisplay, BoundedToString};
pub use extension_value::{ExtensionValue, NoExtension, RepresentableExtensionValue};
pub use not_value::NotValue;
pub use partial_value::{ContainsUnknown, PartialValue, PartialValueToValueError, split};
pub use set::Set;
pub use substitution::{
    substitute_typed_values_into_expr, substitute_values_into_expr, try_into_expr_with_values,
};
pub use value::{Value, ValueKind};
pub use well_formed::WellFormedValue;
