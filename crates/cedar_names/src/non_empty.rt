//! Lists of one item or more.
ghost use Rattle.std.specs.Prelude.{◌≡◌, map, IfOk};
ghost use Rattle.std.specs.Rc.{rc_str_bytes};
ghost use Rattle.std.specs.Iterator.{YieldsFirst, YieldsFirstRef, item_count};
ghost use Rattle.cedar_names.specs.NonEmpty.{list_of, rest_of, owned_rest_of};

use std::alloc::{AllocError, Global};
use std::rc::RcStr;
use std::{slice, vec};

/// A list of one item or more: its first item and the others (Cedar's crate takes it from the
/// crate `nonempty`).
///
/// It compares as the list of all its items.
#[derive(Debug, PartialEq, Eq, PartialOrd, Ord, Hash, Drop)]
pub struct NonEmpty<T> {
    pub head: T,
    pub tail: Vec<T>,
}

impl<T> NonEmpty<T> {
    /// The list of `head` and then `tail`.
    pub fn new(head: T, tail: Vec<T>) -> NonEmpty<T>
        ensures { result ≡ record { head = head; tail = tail } }
    {
        NonEmpty { head, tail }
    }

    /// Its items, from the first on.
    pub fn iter(&self) -> NonEmptyIter<'_, T>
        ensures { rest_of result ≡ list_of self.now }
    {
        NonEmptyIter {
            head: Some(&self.head),
            tail: self.tail.iter(),
        }
    }
}

impl NonEmpty<RcStr> {
    /// A copy, which shares the texts. Memory is taken for the list of those behind the first.
    pub fn clone(&self, _alloc: Global) -> Result<NonEmpty<RcStr>, AllocError>
        ensures { IfOk result (λ copy.
            map rc_str_bytes (list_of copy) ≡ map rc_str_bytes (list_of self.now)) }
    {
        Clone::clone(self)
    }
}

impl Clone for NonEmpty<RcStr> {
    ghost is_clone = { λ x copy.
        map rc_str_bytes (list_of copy) ≡ map rc_str_bytes (list_of x) };

    #[tactic(auto, using(crate::proofs::Clones::map_clones))]
    fn clone(&self) -> Result<NonEmpty<RcStr>, AllocError> {
        Ok(NonEmpty {
            head: self.head.clone()?,
            tail: self.tail.clone()?,
        })
    }
}

impl<'a, T> IntoIterator for &'a NonEmpty<T> {
    type Item = &'a T;

    type IntoIter = NonEmptyIter<'a, T>;

    ghost into_iter_gives = { λ x it. rest_of it ≡ list_of x.now };

    fn into_iter(self) -> NonEmptyIter<'a, T> {
        self.iter()
    }
}

impl<T: Drop> IntoIterator for NonEmpty<T> {
    type Item = T;

    type IntoIter = NonEmptyIntoIter<T>;

    ghost into_iter_gives = { λ x it. owned_rest_of it ≡ list_of x };

    fn into_iter(self) -> NonEmptyIntoIter<T> {
        NonEmptyIntoIter {
            head: Some(self.head),
            tail: self.tail.into_iter(),
        }
    }
}

/// The items of a `NonEmpty`, from the first on.
#[derive(Debug, Drop)]
pub struct NonEmptyIter<'a, T> {
    head: Option<&'a T>,
    tail: slice::Iter<'a, T>,
}

impl<'a, T> Iterator for NonEmptyIter<'a, T> {
    type Item = &'a T;

    ghost next_gives = { YieldsFirstRef rest_of };

    ghost remaining = { item_count rest_of };

    fn next(&mut self) -> Option<&'a T> {
        match self.head.take() {
            Some(head) => Some(head),
            None => self.tail.next(),
        }
    }
}

/// The items of a `NonEmpty` by value, from the first on.
#[derive(Drop)]
pub struct NonEmptyIntoIter<T> {
    head: Option<T>,
    tail: vec::IntoIter<T>,
}

impl<T: Drop> Iterator for NonEmptyIntoIter<T> {
    type Item = T;

    ghost next_gives = { YieldsFirst owned_rest_of };

    ghost remaining = { item_count owned_rest_of };

    fn next(&mut self) -> Option<T> {
        if let Some(head) = self.head.take() {
            return Some(head);
        }
        self.tail.next()
    }
}
