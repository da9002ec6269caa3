//! Copies.
use crate::call_error::CallError;
use cedar_names::{Loc, Name, NonEmpty, RawName, Slot};
use cedar_terms::{Literal, Pattern, SchemaType, Type, Unknown};
use std::alloc::{AllocError, Global};
use std::rc::RcStr;

/// What can be copied, where there is memory.
pub trait Copied: Sized + Drop {
    fn copied(&self, alloc: Global) -> Result<Self, AllocError>;
}

/// A copy of a value, where it was made.
pub fn copy_of<T: Copied>(alloc: Global, made: Result<T, CallError>) -> Result<T, CallError> {
    let value = made?;
    Ok(value.copied(alloc)?)
}

impl Copied for Name {
    fn copied(&self, alloc: Global) -> Result<Name, AllocError> {
        self.clone(alloc)
    }
}

impl Copied for RawName {
    fn copied(&self, alloc: Global) -> Result<RawName, AllocError> {
        self.clone(alloc)
    }
}

impl Copied for Loc {
    fn copied(&self, alloc: Global) -> Result<Loc, AllocError> {
        self.clone(alloc)
    }
}

impl Copied for Slot {
    fn copied(&self, alloc: Global) -> Result<Slot, AllocError> {
        self.clone(alloc)
    }
}

impl Copied for NonEmpty<RcStr> {
    fn copied(&self, alloc: Global) -> Result<NonEmpty<RcStr>, AllocError> {
        self.clone(alloc)
    }
}

impl Copied for Literal {
    fn copied(&self, alloc: Global) -> Result<Literal, AllocError> {
        self.clone(alloc)
    }
}

impl Copied for Pattern {
    fn copied(&self, alloc: Global) -> Result<Pattern, AllocError> {
        self.clone(alloc)
    }
}

impl Copied for Type {
    fn copied(&self, alloc: Global) -> Result<Type, AllocError> {
        self.clone(alloc)
    }
}

impl Copied for SchemaType {
    fn copied(&self, alloc: Global) -> Result<SchemaType, AllocError> {
        self.clone(alloc)
    }
}

impl Copied for Unknown {
    fn copied(&self, alloc: Global) -> Result<Unknown, AllocError> {
        self.clone(alloc)
    }
}
