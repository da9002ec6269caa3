//! Items that are taken out of a row that is dropped: the members of a set, the arguments of a call
//! or the values of a record.
ghost use Rattle.std.specs.Prelude.{◌+◌, ◌≤◌, IfSome};
ghost use Rattle.cedar_iterative_drop.specs.Rows.{HandsOut, IsPut, IsTaken};
ghost use Rattle.cedar_exprs.specs.Steps.{below_nodes, branch_of, field_nodes, if_row, item_nodes};

use crate::drop::subtrees::Subtrees;
use crate::expr::Expr;
use cedar_iterative_drop::{Taken, after_leaf};
use std::collections::BTreeMap;
use std::rc::RcStr;

// An item of a row. If a row waits it stands in the first item's place from then on. If none is
// taken, what is left of the row is leaves.
pub(crate) fn take_item<T: Drop>(
    items: &mut Vec<Expr<T>>,
    rows: Option<Subtrees<T>>,
) -> Taken<Subtrees<T>>
    ensures { IsTaken below_nodes (item_nodes items.old.items) (if_row rows)
        (item_nodes items.new.items) result }
{
    match rows {
        Some(next) => match put_first(items, next) {
            Ok(Some(below)) => Taken::Subtrees(below),
            Ok(None) => after_leaf(last_branch(items), items.is_empty()),
            Err(next) => Taken::Nothing(Some(next)),
        },
        None => match last_branch(items) {
            Some(last) => Taken::Subtrees(last),
            None => Taken::Nothing(None),
        },
    }
}

// Puts what waits into the first item's place: what stood there, or, where there is no item, what
// waits.
#[inline(always)]
fn put_first<T: Drop>(
    items: &mut Vec<Expr<T>>,
    next: Subtrees<T>,
) -> Result<Option<Subtrees<T>>, Subtrees<T>>
    ensures { IsPut below_nodes (item_nodes items.old.items) (below_nodes next)
        (item_nodes items.new.items) result }
{
    match items.first_mut() {
        Some(first) => Ok(first.replace_subtrees(next)),
        None => Err(next),
    }
}

// Takes off the last items, down to one that is no leaf, and drops the leaves.
#[inline(never)]
pub(crate) fn last_branch<T: Drop>(items: &mut Vec<Expr<T>>) -> Option<Subtrees<T>>
    ensures gives { HandsOut branch_of items.old.items items.new.items result }
    ensures taken { IfSome result (λ last.
        below_nodes last + item_nodes items.new.items ≤ item_nodes items.old.items) }
    ensures fewer { item_nodes items.new.items ≤ item_nodes items.old.items }
{
    'leaves: while let Some(item) = items.pop() {
        if let Some(below) = item.into_subtrees() {
            return Some(below);
        }
    }
    None
}

// As `take_item`, of a record.
pub(crate) fn take_value<T: Drop>(
    pairs: &mut BTreeMap<RcStr, Expr<T>>,
    rows: Option<Subtrees<T>>,
) -> Taken<Subtrees<T>>
    ensures { IsTaken below_nodes (field_nodes pairs.old.entries) (if_row rows)
        (field_nodes pairs.new.entries) result }
{
    match rows {
        Some(next) => match put_first_value(pairs, next) {
            Ok(Some(below)) => Taken::Subtrees(below),
            Ok(None) => after_leaf(last_branch_value(pairs), pairs.is_empty()),
            Err(next) => Taken::Nothing(Some(next)),
        },
        None => match last_branch_value(pairs) {
            Some(last) => Taken::Subtrees(last),
            None => Taken::Nothing(None),
        },
    }
}

// As `put_first`, of a record.
#[inline(always)]
fn put_first_value<T: Drop>(
    pairs: &mut BTreeMap<RcStr, Expr<T>>,
    next: Subtrees<T>,
) -> Result<Option<Subtrees<T>>, Subtrees<T>>
    ensures { IsPut below_nodes (field_nodes pairs.old.entries) (below_nodes next)
        (field_nodes pairs.new.entries) result }
{
    match pairs.first_entry() {
        Some(first) => Ok(first.into_mut().replace_subtrees(next)),
        None => Err(next),
    }
}

// As `last_branch`, of a record.
#[inline(never)]
pub(crate) fn last_branch_value<T: Drop>(
    pairs: &mut BTreeMap<RcStr, Expr<T>>,
) -> Option<Subtrees<T>>
    ensures gives { HandsOut (λ p. branch_of p.1) pairs.old.entries pairs.new.entries result }
    ensures taken { IfSome result (λ last.
        below_nodes last + field_nodes pairs.new.entries ≤ field_nodes pairs.old.entries) }
    ensures fewer { field_nodes pairs.new.entries ≤ field_nodes pairs.old.entries }
{
    'leaves: while let Some((key, value)) = pairs.pop_last() {
        drop(key);
        if let Some(below) = value.into_subtrees() {
            return Some(below);
        }
    }
    None
}
