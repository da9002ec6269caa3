//! What a walk has made so far, from which a node takes what its children gave.
ghost use Rattle.std.specs.Prelude.{◌≡◌, ◌≤◌, ◌++◌, [], ◌∷◌, IfOk, length, map, vec_len};
ghost use Rattle.cedar_builders.specs.Keys.{IsAscending, keys_of};

use crate::expr::Expr;
use std::alloc::{AllocError, Global};
use std::collections::BTreeMap;
use std::rc::RcStr;

/// Puts an item on top. `push` would move it once more, since its error has the item.
#[inline(always)]
pub fn push_item<X: Drop>(done: &mut Vec<X>, out: X) -> Result<(), AllocError>
    ensures { IfOk result (λ _. done.new.items ≡ done.old.items ++ out ∷ []) }
{
    done.reserve(1)?;
    done.push_reserved(out);
    Ok(())
}

/// The last two results, which are taken off.
#[inline(always)]
pub fn take_two<X: Drop>(done: &mut Vec<X>) -> (X, X)
    requires { 2 ≤ vec_len done.old }
    ensures { done.old.items ≡ done.new.items ++ result.0 ∷ result.1 ∷ [] }
{
    let second = done.take_last();
    let first = done.take_last();
    (first, second)
}

// The last three results, which are taken off.
#[inline(always)]
pub(crate) fn take_three<X: Drop>(done: &mut Vec<X>) -> (X, X, X)
    requires { 3 ≤ vec_len done.old }
    ensures { done.old.items ≡ done.new.items ++ result.0 ∷ result.1 ∷ result.2 ∷ [] }
{
    let third = done.take_last();
    let (first, second) = take_two(done);
    (first, second, third)
}

/// The last results, this many, which are taken off.
pub fn take_many<X: Drop>(done: &mut Vec<X>, count: usize) -> Result<Vec<X>, AllocError>
    requires { count ≤ vec_len done.old }
    ensures taken { IfOk result (λ last. done.old.items ≡ done.new.items ++ last.items) }
    ensures count { IfOk result (λ last. length last.items ≡ count) }
{
    done.split_off(done.len() - count)
}

/// The keys of a map, each with one of as many values, in order.
pub fn keyed<T, X: Drop>(
    alloc: Global,
    pairs: &BTreeMap<RcStr, Expr<T>>,
    values: Vec<X>,
) -> Result<Vec<(RcStr, X)>, AllocError>
    requires { length values.items ≡ length pairs.now.entries }
    ensures keys { IfOk result (λ ps. keys_of ps.items ≡ keys_of pairs.now.entries) }
    ensures values { IfOk result (λ ps. map (λ p. p.1) ps.items ≡ values.items) }
    ensures ascending { IfOk result (λ ps. IsAscending (keys_of ps.items)) }
{
    let mut keyed = Vec::with_capacity(alloc, pairs.len())?;
    let mut rest = values.into_iter();
    for (key, _) in pairs.iter() {
        match rest.next() {
            Some(value) => keyed.push_reserved((key.clone()?, value)),
            None => unreachable!(),
        }
    }
    Ok(keyed)
}
