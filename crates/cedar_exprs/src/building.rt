//! Building of an expression by any builder, also with values put for unknowns.
pub(crate) mod bound;
pub(crate) mod build;
pub(crate) mod typed_build;
pub(crate) mod value_builder;
