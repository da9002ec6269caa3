//! The operations on values that the evaluator is made of, for builders that evaluate in part.
pub use crate::attributes::{attribute, has_path};
pub use crate::kinds::{
    as_bool, as_entity, as_extension, as_long, as_record, as_set, as_text, literal_value,
};
pub use crate::operators::{apply_one, apply_two, is_like, is_of_type};
pub use crate::rows::{record_of, split_pairs, split_row};
pub use crate::sets::{plain_set_of, set_of};
