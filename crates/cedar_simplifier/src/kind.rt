//! The two kinds of what is simplified.
use crate::tree::Tree;
use cedar_values::Value;

// A known value, or a residual.
#[derive(Debug, Drop)]
pub(crate) enum Kind<X> {
    Known(Value<X>),
    Residual(Tree),
}
