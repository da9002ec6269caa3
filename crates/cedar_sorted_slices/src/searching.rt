//! Each item of one slice is searched for in another.
ghost use Rattle.std.specs.Prelude.{◌↔◌, IsTrue};
ghost use Rattle.std.specs.List.Sorted.{IsStrictlySortedBy};
ghost use Rattle.cedar_sorted_slices.specs.Classes.{HaveNoneInCommon, IsPartOf};

use crate::contains;

// Whether each class of the first is in the second.
pub(crate) fn are_all_found<T: Ord>(items: &[T], others: &[T]) -> bool
    ensures { IsStrictlySortedBy T.cmp others.now →
        IsTrue result ↔ IsPartOf T.cmp items.now others.now }
{
    for item in items {
        if !contains(others, item) {
            return false;
        }
    }
    true
}

// Whether no class is in both.
pub(crate) fn is_none_found<T: Ord>(items: &[T], others: &[T]) -> bool
    ensures { IsStrictlySortedBy T.cmp others.now →
        IsTrue result ↔ HaveNoneInCommon T.cmp items.now others.now }
{
    for item in items {
        if contains(others, item) {
            return false;
        }
    }
    true
}
