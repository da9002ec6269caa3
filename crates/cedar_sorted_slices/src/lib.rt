//! Strictly ascending slices as finite sets of classes.
//!
//! Two items are of one class where `cmp` answers `Equal`. A slice ascends strictly where each item
//! is less than the next; it then has one item of each of its classes. Nothing here takes memory.
#![tactic(auto)]

ghost use Rattle.std.specs.Prelude.{◌≡◌, ◌↔◌, IsTrue};
ghost use Rattle.std.specs.List.{IsDistinct};
ghost use Rattle.std.specs.List.Sorted.{IsStrictlySortedBy};
ghost use Rattle.std.specs.Ordering.{eq_by_cmp};
ghost use Rattle.cedar_sorted_slices.specs.Classes.{
  HaveNoneInCommon,
  IsClassesOf,
  IsPartOf,
  has_class,
  ascends,
};

pub mod laws;
mod merging;
mod searching;

use merging::{have_none_in_common, is_part_of};
use searching::{are_all_found, is_none_found};

// A slice is searched for each item of another that is at least this many times shorter. In one of
// 100,000 numbers the searches were measured to take as long as the walk at about 40 times; by the
// count of comparisons they meet at the binary logarithm of the length, which is 17 there.
const SEARCHED: usize = 32;

/// One item of each class, strictly ascending. Each is one of those handed in; of several in one
/// class it is not said which. No memory is taken but what the vector has.
pub fn into_ascending<T: Ord + Drop>(mut items: Vec<T>) -> Vec<T>
    ensures { IsClassesOf T.cmp result.items items.items }
{
    items.sort_unstable();
    items.dedup();
    items
}

/// Items of which no two are of one class, in their order. No memory is taken.
pub fn into_sorted<T: Ord>(mut distinct: Vec<T>) -> Vec<T>
    ensures { IsDistinct (eq_by_cmp T.cmp) distinct.items
        → IsClassesOf T.cmp result.items distinct.items }
{
    distinct.sort_unstable();
    distinct
}

/// Whether each item is less than the next.
pub fn is_ascending<T: Ord>(items: &[T]) -> bool
    ensures value { result ≡ ascends T.cmp items.now }
    ensures ascending { IsTrue result ↔ IsStrictlySortedBy T.cmp items.now }
{
    items.is_sorted_by(|a, b| a.cmp(b).is_lt())
}

/// Whether the class of a key is in a strictly ascending slice: a search by halving.
pub fn contains<T: Ord>(items: &[T], key: &T) -> bool
    ensures { IsStrictlySortedBy T.cmp items.now → result ≡ has_class T.cmp items.now key.now }
{
    items.binary_search(key).is_ok()
}

/// Whether each class of the first of two strictly ascending slices is in the second.
///
/// Where the first is much shorter each of its items is searched for, else both are walked once.
pub fn is_subset<T: Ord>(items: &[T], others: &[T]) -> bool
    ensures { IsStrictlySortedBy T.cmp items.now → IsStrictlySortedBy T.cmp others.now →
        IsTrue result ↔ IsPartOf T.cmp items.now others.now }
{
    if items.len() > others.len() {
        false
    } else if items.len() <= others.len() / SEARCHED {
        are_all_found(items, others)
    } else {
        is_part_of(items, others)
    }
}

/// Whether no class is in both of two strictly ascending slices.
///
/// Where one ends before the other begins that is seen at once; where one is much shorter each of
/// its items is searched for, else both are walked once.
pub fn is_disjoint<T: Ord>(items: &[T], others: &[T]) -> bool
    ensures { IsStrictlySortedBy T.cmp items.now → IsStrictlySortedBy T.cmp others.now →
        IsTrue result ↔ HaveNoneInCommon T.cmp items.now others.now }
{
    if ends_before(items, others) || ends_before(others, items) {
        true
    } else if items.len() <= others.len() / SEARCHED {
        is_none_found(items, others)
    } else if others.len() <= items.len() / SEARCHED {
        is_none_found(others, items)
    } else {
        have_none_in_common(items, others)
    }
}

// Whether one of two strictly ascending slices has no item, or ends before the other begins.
fn ends_before<T: Ord>(items: &[T], others: &[T]) -> bool
    ensures { IsStrictlySortedBy T.cmp items.now → IsStrictlySortedBy T.cmp others.now →
        IsTrue result → HaveNoneInCommon T.cmp items.now others.now }
{
    match (items.last(), others.first()) {
        (Some(last), Some(first)) => last < first,
        _ => true,
    }
}
