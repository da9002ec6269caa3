//! Bound values that simplification takes as they are.
use crate::simplified::Simplified;
use crate::simplifier::Simplifier;
use cedar_builders::BuildFault;
use cedar_exprs::ValueBuilder;
use cedar_values::laws::{no_extension_values, well_formed_parts};
use cedar_values::{NoExtension, WellFormedValue};
use semantics_simplify::laws::value_known;
use std::alloc::Global;
use std::convert::Infallible;

/// Each bound value is shared: it is known, and no expression of it is built. So an unknown costs
/// the same whatever the size of its value. The value keeps its place, where it has one.
pub struct SharedValue;

impl ValueBuilder<Simplifier, WellFormedValue> for SharedValue {
    fn build_value(
        alloc: Global,
        value: &WellFormedValue,
    ) -> Result<Simplified, BuildFault<Infallible>> {
        value_known::<NoExtension>();
        no_extension_values();
        well_formed_parts::<NoExtension>();
        Ok(Simplified::known(value.as_value().clone(alloc)?))
    }
}
