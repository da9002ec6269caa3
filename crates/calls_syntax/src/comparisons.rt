//! Comparisons, which have to agree.
use crate::answers::{boolean, sign};
use crate::call_error::CallError;
use std::alloc::{AllocError, Global};
use std::cmp::Ordering;
use std::hash::{DefaultHasher, Hash, Hasher};

/// The sign of two values, of which equality, order and hash have to agree, where both were made.
pub fn compare<T: Ord + Hash + Drop>(
    alloc: Global,
    a: Result<T, CallError>,
    b: Result<T, CallError>,
) -> Result<String, CallError> {
    let (a, b) = (a?, b?);
    let order = a.cmp(&b);
    agree(a == b, order, hash(&a) == hash(&b))?;
    sign(alloc, order)
}

/// Whether two values are equal, as the hashes of equal values have to be, where both were made.
pub fn equal<T: Eq + Hash + Drop>(
    alloc: Global,
    a: Result<T, CallError>,
    b: Result<T, CallError>,
) -> Result<String, CallError> {
    let (a, b) = (a?, b?);
    boolean(alloc, is_equal(&a, &b)?)
}

fn is_equal<T: Eq + Hash>(a: &T, b: &T) -> Result<bool, CallError> {
    let is_equal = *a == *b;
    holds(!is_equal || hash(a) == hash(b), "equality and hash")?;
    Ok(is_equal)
}

/// Refuses what has to agree and does not: `what` says which.
pub fn holds(agrees: bool, what: &'static str) -> Result<(), CallError> {
    if agrees {
        Ok(())
    } else {
        Err(CallError::Mismatch(what))
    }
}

/// Refuses two answers that are not the same.
pub fn same<T: PartialEq>(answer: &T, other: &T) -> Result<(), CallError> {
    holds(*answer == *other, "two answers")
}

/// The first of two answers that have to be the same, where there was memory for both.
pub fn agreed<T: PartialEq + Drop>(
    answer: Result<T, AllocError>,
    other: Result<T, AllocError>,
) -> Result<T, CallError> {
    let (answer, other) = (answer?, other?);
    same(&answer, &other)?;
    Ok(answer)
}

/// What a value feeds std's hasher, as one number.
pub fn hash<T: Hash>(value: &T) -> u64 {
    let mut state = DefaultHasher::new();
    value.hash(&mut state);
    state.finish()
}

// Refuses comparisons that do not agree: equal is ordered as equal, and hashes alike.
fn agree(equal: bool, order: Ordering, hash_alike: bool) -> Result<(), CallError> {
    let agrees = equal == order.is_eq() && (!equal || hash_alike);
    holds(agrees, "equality, order and hash")
}
