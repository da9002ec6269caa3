//! What a strictly ascending list is, among the lists of its classes, and what is asked of two
//! lists by their classes.
//!
//! Each function here does nothing: its contract is the law, for each ordered type.
ghost use Rattle.cedar_sorted_slices.specs.Classes.{AreAsLong, NoneIsAny, PartIsAll, TieWhereSame};

/// Two strictly ascending lists have the same classes just where they tie item by item; and then
/// they are equally long, so the length of one is the number of its classes.
pub fn ascending_lists_are_unique<T: Ord>()
    ensures ties { TieWhereSame T.cmp }
    ensures lengths { AreAsLong T.cmp }
{}

/// Each class of one list is in another just where the class of each of its items is: to ask item
/// by item is enough. Neither list has to ascend.
pub fn part_is_all<T: Ord>()
    ensures { PartIsAll T.cmp }
{}

/// Two lists have no class in common just where the class of no item of the one is in the other.
/// Neither list has to ascend.
pub fn none_is_any<T: Ord>()
    ensures { NoneIsAny T.cmp }
{}
