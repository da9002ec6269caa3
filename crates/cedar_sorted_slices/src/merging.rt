//! One walk over two strictly ascending slices.
ghost use Rattle.std.specs.Prelude.{◌↔◌, IsTrue};
ghost use Rattle.std.specs.List.Sorted.{IsStrictlySortedBy};
ghost use Rattle.cedar_sorted_slices.specs.Classes.{HaveNoneInCommon, IsPartOf};

use std::cmp::Ordering;

// Whether each class of the first is in the second.
pub(crate) fn is_part_of<T: Ord>(mut items: &[T], mut others: &[T]) -> bool
    ensures { IsStrictlySortedBy T.cmp items.now → IsStrictlySortedBy T.cmp others.now →
        IsTrue result ↔ IsPartOf T.cmp items.now others.now }
{
    while let Some((item, items_left)) = items.split_first() {
        let Some((other, others_left)) = others.split_first() else {
            return false;
        };
        match item.cmp(other) {
            Ordering::Less => return false,
            Ordering::Equal => {
                items = items_left;
                others = others_left;
            }
            Ordering::Greater => others = others_left,
        }
    }
    true
}

// Whether no class is in both.
pub(crate) fn have_none_in_common<T: Ord>(mut items: &[T], mut others: &[T]) -> bool
    ensures { IsStrictlySortedBy T.cmp items.now → IsStrictlySortedBy T.cmp others.now →
        IsTrue result ↔ HaveNoneInCommon T.cmp items.now others.now }
{
    while let Some((item, items_left)) = items.split_first() {
        let Some((other, others_left)) = others.split_first() else {
            return true;
        };
        match item.cmp(other) {
            Ordering::Less => items = items_left,
            Ordering::Equal => return false,
            Ordering::Greater => others = others_left,
        }
    }
    true
}
