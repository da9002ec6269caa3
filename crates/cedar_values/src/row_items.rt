//! Items that are taken out of a row that is dropped: the members of a set or the values of a
//! record.
ghost use Rattle.std.specs.Prelude.{◌+◌, ◌≤◌, IfSome};
ghost use Rattle.cedar_iterative_drop.specs.Rows.{HandsOut, IsPut, IsTaken};
ghost use Rattle.cedar_values.specs.Counts.{kind_nodes};
ghost use Rattle.cedar_values.specs.Drops.{branch_of, entry_nodes, row_nodes, waiting_nodes};

use crate::value::{Value, ValueKind};
use cedar_iterative_drop::{Taken, after_leaf};
use std::collections::BTreeMap;
use std::rc::RcStr;

// A member that is no leaf. If a row waits it stands in the first member's place from then on. If
// none is taken, what is left of the row is leaves.
pub(crate) fn take_member<X: Drop>(
    members: &mut Vec<Value<X>>,
    waiting: Option<ValueKind<X>>,
) -> Taken<ValueKind<X>>
    ensures { IsTaken kind_nodes (row_nodes members.old.items) (waiting_nodes waiting)
        (row_nodes members.new.items) result }
{
    match waiting {
        Some(next) => match put_first(members, next) {
            Ok(Some(kind)) => Taken::Subtrees(kind),
            Ok(None) => after_leaf(last_branch(members), members.is_empty()),
            Err(next) => Taken::Nothing(Some(next)),
        },
        None => match last_branch(members) {
            Some(last) => Taken::Subtrees(last),
            None => Taken::Nothing(None),
        },
    }
}

// Puts what waits into the first member's place: what stood there, or, where there is no member,
// what waits.
#[inline(always)]
fn put_first<X: Drop>(
    members: &mut Vec<Value<X>>,
    next: ValueKind<X>,
) -> Result<Option<ValueKind<X>>, ValueKind<X>>
    ensures { IsPut kind_nodes (row_nodes members.old.items) (kind_nodes next)
        (row_nodes members.new.items) result }
{
    match members.first_mut() {
        Some(first) => Ok(first.replace_branch(next)),
        None => Err(next),
    }
}

// Takes off the last members, down to one that is no leaf, and drops the leaves.
#[inline(never)]
pub(crate) fn last_branch<X: Drop>(members: &mut Vec<Value<X>>) -> Option<ValueKind<X>>
    ensures gives { HandsOut branch_of members.old.items members.new.items result }
    ensures taken { IfSome result (λ last.
        kind_nodes last + row_nodes members.new.items ≤ row_nodes members.old.items) }
    ensures fewer { row_nodes members.new.items ≤ row_nodes members.old.items }
{
    'leaves: while let Some(member) = members.pop() {
        if let Some(kind) = member.into_branch() {
            return Some(kind);
        }
    }
    None
}

// As `take_member`, of a record.
pub(crate) fn take_value<X: Drop>(
    pairs: &mut BTreeMap<RcStr, Value<X>>,
    waiting: Option<ValueKind<X>>,
) -> Taken<ValueKind<X>>
    ensures { IsTaken kind_nodes (entry_nodes pairs.old.entries) (waiting_nodes waiting)
        (entry_nodes pairs.new.entries) result }
{
    match waiting {
        Some(next) => match put_first_value(pairs, next) {
            Ok(Some(kind)) => Taken::Subtrees(kind),
            Ok(None) => after_leaf(last_branch_value(pairs), pairs.is_empty()),
            Err(next) => Taken::Nothing(Some(next)),
        },
        None => match last_branch_value(pairs) {
            Some(last) => Taken::Subtrees(last),
            None => Taken::Nothing(None),
        },
    }
}

// As `put_first`, of a record.
#[inline(always)]
fn put_first_value<X: Drop>(
    pairs: &mut BTreeMap<RcStr, Value<X>>,
    next: ValueKind<X>,
) -> Result<Option<ValueKind<X>>, ValueKind<X>>
    ensures { IsPut kind_nodes (entry_nodes pairs.old.entries) (kind_nodes next)
        (entry_nodes pairs.new.entries) result }
{
    match pairs.first_entry() {
        Some(first) => Ok(first.into_mut().replace_branch(next)),
        None => Err(next),
    }
}

// As `last_branch`, of a record.
#[inline(never)]
pub(crate) fn last_branch_value<X: Drop>(
    pairs: &mut BTreeMap<RcStr, Value<X>>,
) -> Option<ValueKind<X>>
    ensures gives { HandsOut (λ p. branch_of p.1) pairs.old.entries pairs.new.entries result }
    ensures taken { IfSome result (λ last.
        kind_nodes last + entry_nodes pairs.new.entries ≤ entry_nodes pairs.old.entries) }
    ensures fewer { entry_nodes pairs.new.entries ≤ entry_nodes pairs.old.entries }
{
    'leaves: while let Some((key, value)) = pairs.pop_last() {
        drop(key);
        if let Some(kind) = value.into_branch() {
            return Some(kind);
        }
    }
    None
}
