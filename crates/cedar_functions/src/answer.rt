//! What calls of extension functions give.
use crate::extension::BuiltinExtension;

/// What a call gives: a literal or an extension value.
#[derive(Clone, Copy, Debug, PartialEq, Eq)]
pub enum Answer {
    Bool(bool),
    Long(i64),
    Extension(BuiltinExtension),
}
