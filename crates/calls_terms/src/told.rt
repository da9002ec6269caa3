//! What names and identifiers say of themselves, and what refuses them.
use calls_syntax::{Answer, CallError, ok, place, quoted};
use cedar_names::{AnyId, Id, InternalName, Name, RawName, ReservedNameError, UnreservedId};
use std::alloc::Global;
use std::convert::AsRef;
use std::fmt::Display;

/// What says of itself what a call asks.
pub trait Told: Drop {
    fn told(&self, alloc: Global) -> Result<String, CallError>;
}

/// What a value says of itself, where it was made.
pub fn tell<T: Told>(alloc: Global, made: Result<T, CallError>) -> Result<String, CallError> {
    let value = made?;
    value.told(alloc)
}

/// `ok` and the text of the value, or what refused it.
pub fn ok_or_refused<T: Display + Drop, E: Told>(
    alloc: Global,
    made: Result<T, E>,
) -> Result<String, CallError> {
    match made {
        Ok(value) => ok(alloc, &value),
        Err(e) => e.told(alloc),
    }
}

impl Told for Id {
    fn told(&self, alloc: Global) -> Result<String, CallError> {
        Answer::new(alloc)
            .labelled("ok ", self)
            .labelled("reserved=", &self.is_reserved())
            .end()
    }
}

impl Told for UnreservedId {
    fn told(&self, alloc: Global) -> Result<String, CallError> {
        ok(alloc, self)
    }
}

impl Told for AnyId {
    fn told(&self, alloc: Global) -> Result<String, CallError> {
        ok(alloc, self)
    }
}

impl Told for InternalName {
    fn told(&self, alloc: Global) -> Result<String, CallError> {
        Answer::new(alloc)
            .labelled("ok ", self)
            .labelled("reserved=", &self.is_reserved())
            .labelled("unqualified=", &self.is_unqualified())
            .labelled_made("ns=", quoted_namespace(alloc, self))
            .labelled("base=", self.basename())
            .labelled_made("loc=", place(alloc, self.loc()))
            .end()
    }
}

fn quoted_namespace(alloc: Global, name: &InternalName) -> Result<String, CallError> {
    let namespace = name.namespace(alloc)?;
    quoted(alloc, namespace.as_str())
}

impl Told for Name {
    fn told(&self, alloc: Global) -> Result<String, CallError> {
        let internal: &InternalName = self.as_ref();
        internal.told(alloc)
    }
}

// By a copy.
impl Told for RawName {
    fn told(&self, alloc: Global) -> Result<String, CallError> {
        let copy = self.clone(alloc)?;
        told_raw(alloc, &copy)
    }
}

fn told_raw(alloc: Global, name: &RawName) -> Result<String, CallError> {
    Answer::new(alloc)
        .labelled("ok ", name)
        .labelled("unqualified=", &name.is_unqualified())
        .labelled_made("loc=", place(alloc, name.loc()))
        .end()
}

// By a copy.
impl Told for ReservedNameError {
    fn told(&self, alloc: Global) -> Result<String, CallError> {
        let copy = self.clone(alloc)?;
        told_reserved(alloc, &copy)
    }
}

fn told_reserved(alloc: Global, e: &ReservedNameError) -> Result<String, CallError> {
    Answer::new(alloc).labelled("reserved ", e.name()).end()
}

// A name that is no identifier alone.
impl Told for () {
    fn told(&self, alloc: Global) -> Result<String, CallError> {
        Answer::new(alloc).word(&"has-namespaces").end()
    }
}
