//! The texts and the copies of errors.
use crate::tests::made::{made, name, shows, text};
use cedar_builders::{BuildFault, DuplicateKeyError, ExpressionConstructionError};
use cedar_names::Name;
use std::alloc::AllocError;
use std::error::Error;
use std::process::Abort;

#[test]
fn want_of_memory_is_a_fault_of_building(rt: HostRuntime) {
    let fault: BuildFault<()> = BuildFault::from(AllocError);
    assert!(rt; matches!(fault, BuildFault::Memory));
}

// Whether an error has this text.
fn is_shown_error<E: Error>(rt: &(impl Abort + AllocGlobal), error: E, wanted: &str) -> bool {
    shows(rt, error, wanted)
}

#[test]
fn texts_of_faults_of_building(rt: HostRuntime) {
    let own = BuildFault::Build(name(&rt, "N::f"));
    assert!(rt; is_shown_error(&rt, own, "N::f"));
    let memory: BuildFault<Name> = BuildFault::from(AllocError);
    assert!(rt; is_shown_error(&rt, memory, "no memory"));
}

fn repeated(rt: &(impl Abort + AllocGlobal), key: &str) -> DuplicateKeyError {
    DuplicateKeyError::in_record_literal(text(rt, key))
}

// Whether a copy equals the error, and another key makes another error.
fn is_copied(rt: &(impl Abort + AllocGlobal), error: DuplicateKeyError) -> bool {
    let copy = made(rt, error.clone(rt.alloc()));
    copy == error && error != repeated(rt, "b")
}

#[test]
fn a_duplicate_key_is_named(rt: HostRuntime) {
    assert!(rt; repeated(&rt, "a").key() == "a");
    assert!(rt; is_copied(&rt, repeated(&rt, "a")));
}

fn refused(rt: &(impl Abort + AllocGlobal)) -> ExpressionConstructionError {
    ExpressionConstructionError::from(repeated(rt, "a"))
}

fn no_memory() -> ExpressionConstructionError {
    ExpressionConstructionError::from(AllocError)
}

// Whether a copy equals the error and has this text.
fn is_copy_shown(
    rt: &(impl Abort + AllocGlobal),
    error: ExpressionConstructionError,
    wanted: &str,
) -> bool {
    let copy = made(rt, error.clone(rt.alloc()));
    copy == error && shows(rt, copy, wanted)
}

#[test]
fn texts_of_construction_errors(rt: HostRuntime) {
    assert!(rt; is_copy_shown(&rt, refused(&rt), "duplicate key `a` in record literal"));
    assert!(rt; is_copy_shown(&rt, no_memory(), "no memory"));
    assert!(rt; refused(&rt) != no_memory());
}
