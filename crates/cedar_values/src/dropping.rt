//! How a value is dropped.
ghost use Rattle.std.specs.Prelude.{◌≡◌, ℕ, ◌+◌, ◌<◌, ◌≤◌, suc, IfSome};
ghost use Rattle.cedar_iterative_drop.specs.Rows.{IsTaken};
ghost use Rattle.cedar_values.specs.Counts.{kind_nodes};
ghost use Rattle.cedar_values.specs.Drops.{
  IsStep,
  all_nodes,
  branch_of,
  branch_of_kind,
  entry_nodes,
  row_nodes,
  value_nodes,
  waiting_nodes,
};

use crate::row_items::{last_branch, last_branch_value, take_member, take_value};
use crate::set::Set;
use crate::value::{Value, ValueKind};
use cedar_iterative_drop::{LEVELS, Taken};
use std::collections::BTreeMap;
use std::rc::{Rc, RcStr};

// Drops a kind with all that it alone owns.
pub(crate) fn drop_kind<X: Drop>(kind: ValueKind<X>) {
    drop_near(kind, LEVELS);
}

// Drops a kind: so many levels by recursion, and what is deeper by the loop.
#[cycle(dropped)]
fn drop_near<X: Drop>(kind: ValueKind<X>, levels: u32) {
    if let Some(branch) = unless_leaf(kind) {
        if levels == 0 {
            drop_branch(branch);
        } else {
            drop_row(branch, levels - 1);
        }
    }
}

// Drops a kind that has values inside by a loop, without memory, and without the stack but where a
// weak pointer keeps a record.
//
// A row (the members of a set, the values of a record) that is gone into waits, in its own block,
// with the items that it still has: the first of them is the row that waits below it.
#[cycle(dropped)]
fn drop_branch<X: Drop>(kind: ValueKind<X>) {
    let mut left = remaining_of(kind);
    'down: loop {
        match enter_kind(left) {
            Step::Into(next) => left = next,
            Step::On(next) => left = next,
            Step::Row(row, next) => {
                drop_row(row, 0);
                match next {
                    Some(next) => left = next,
                    None => return,
                }
            }
            Step::End => return,
        }
    }
}

// What a drop has still to do.
struct Remaining<X> {
    // The kind that comes next.
    kind: ValueKind<X>,
    // The rows that wait, as the set or the record that is the innermost of them.
    waiting: Option<ValueKind<X>>,
}

// A step of a drop.
enum Step<X> {
    // Into an item of a row, which then waits.
    Into(Remaining<X>),
    // A value is gone.
    On(Remaining<X>),
    // A row that can't wait, and what is left beside it.
    Row(ValueKind<X>, Option<Remaining<X>>),
    // Nothing is left.
    End,
}

// Enters a kind: drops a literal or an extension value, and goes into a set or a record.
fn enter_kind<X: Drop>(left: Remaining<X>) -> Step<X>
    ensures { IsStep (kind_nodes left.kind) (all_nodes left) result }
{
    let Remaining { kind, waiting } = left;
    match kind {
        ValueKind::Lit(literal) => {
            drop(literal);
            go_up(waiting)
        }
        ValueKind::Set(set) => enter_members(set.into_row(), waiting),
        ValueKind::Record(pairs) => enter_pairs(pairs, waiting),
        ValueKind::ExtensionValue(value) => {
            drop(value);
            go_up(waiting)
        }
    }
}

// Goes up to what waits.
fn go_up<X: Drop>(waiting: Option<ValueKind<X>>) -> Step<X>
    ensures { (k n : ℕ) → waiting_nodes waiting < n → IsStep k n result }
{
    match resume_waiting(waiting) {
        Some(left) => Step::On(left),
        None => Step::End,
    }
}

// Resumes what waits, if anything does.
fn resume_waiting<X: Drop>(waiting: Option<ValueKind<X>>) -> Option<Remaining<X>>
    ensures { IfSome result (λ left. all_nodes left ≤ waiting_nodes waiting) }
{
    match waiting {
        Some(ValueKind::Set(set)) => Some(resume_members(set.into_row())),
        Some(ValueKind::Record(pairs)) => Some(resume_pairs(pairs)),
        Some(kind) => Some(remaining_of(kind)),
        None => None,
    }
}

// A kind beside which nothing waits.
fn remaining_of<X>(kind: ValueKind<X>) -> Remaining<X>
    ensures { all_nodes result ≡ kind_nodes kind }
{
    Remaining {
        kind,
        waiting: None,
    }
}

// Enters a member of a set, which then waits.
#[inline(never)]
fn enter_members<X: Drop>(row: Rc<Vec<Value<X>>>, waiting: Option<ValueKind<X>>) -> Step<X>
    ensures { IsStep (suc (row_nodes row.value.items))
        (suc (row_nodes row.value.items) + waiting_nodes waiting) result }
{
    let mut row = row;
    match Rc::get_mut(&mut row) {
        Some(members) => enter_item(
            take_member(members, waiting),
            ValueKind::Set(Set::of_row(row)),
        ),
        None => enter_item(Taken::Nothing(waiting), ValueKind::Set(Set::of_row(row))),
    }
}

// Enters a value of a record, which then waits.
#[inline(never)]
fn enter_pairs<X: Drop>(
    row: Rc<BTreeMap<RcStr, Value<X>>>,
    waiting: Option<ValueKind<X>>,
) -> Step<X>
    ensures { IsStep (suc (entry_nodes row.value.entries))
        (suc (entry_nodes row.value.entries) + waiting_nodes waiting) result }
{
    let mut row = row;
    match Rc::get_mut(&mut row) {
        Some(pairs) => enter_item(take_value(pairs, waiting), ValueKind::Record(row)),
        None => enter_item(Taken::Nothing(waiting), ValueKind::Record(row)),
    }
}

// Enters an item that was taken out of a set or a record, which then waits.
fn enter_item<X: Drop>(item: Taken<ValueKind<X>>, row: ValueKind<X>) -> Step<X>
    ensures { (m w n : ℕ) → IsTaken kind_nodes m w n item → kind_nodes row ≡ suc n
        → IsStep (suc m) (suc m + w) result }
{
    match item {
        Taken::Subtrees(kind) => Step::Into(Remaining {
            kind,
            waiting: Some(row),
        }),
        Taken::AfterLeaf(kind) => Step::On(Remaining {
            kind,
            waiting: Some(row),
        }),
        Taken::Nothing(waiting) => Step::Row(row, resume_waiting(waiting)),
    }
}

// Resumes a set that waits, at its last member that is no leaf.
fn resume_members<X: Drop>(row: Rc<Vec<Value<X>>>) -> Remaining<X>
    ensures { all_nodes result ≤ suc (row_nodes row.value.items) }
{
    let mut row = row;
    match Rc::get_mut(&mut row) {
        Some(members) => {
            let last = last_branch(members);
            resume_row(last, members.is_empty(), ValueKind::Set(Set::of_row(row)))
        }
        None => remaining_of(ValueKind::Set(Set::of_row(row))),
    }
}

// Resumes a record that waits, at its last value that is no leaf.
fn resume_pairs<X: Drop>(row: Rc<BTreeMap<RcStr, Value<X>>>) -> Remaining<X>
    ensures { all_nodes result ≤ suc (entry_nodes row.value.entries) }
{
    let mut row = row;
    match Rc::get_mut(&mut row) {
        Some(pairs) => {
            let last = last_branch_value(pairs);
            resume_row(last, pairs.is_empty(), ValueKind::Record(row))
        }
        None => remaining_of(ValueKind::Record(row)),
    }
}

// Resumes a set or a record that waits, at its last item. If it was the only one, it is taken to be
// what waits below, and the set or the record is done with.
fn resume_row<X>(last: Option<ValueKind<X>>, is_only: bool, row: ValueKind<X>) -> Remaining<X>
    ensures { all_nodes result ≡ waiting_nodes last + kind_nodes row }
{
    match last {
        Some(last) => {
            if is_only {
                Remaining {
                    kind: row,
                    waiting: Some(last),
                }
            } else {
                Remaining {
                    kind: last,
                    waiting: Some(row),
                }
            }
        }
        None => remaining_of(row),
    }
}

// Drops a row, so many levels by recursion.
#[cycle(dropped)]
fn drop_row<X: Drop>(row: ValueKind<X>, levels: u32) {
    match row {
        ValueKind::Lit(literal) => drop(literal),
        ValueKind::Set(set) => drop_members(set.into_row(), levels),
        ValueKind::Record(pairs) => drop_pairs(pairs, levels),
        ValueKind::ExtensionValue(value) => drop(value),
    }
}

#[cycle(dropped)]
fn drop_members<X: Drop>(row: Rc<Vec<Value<X>>>, levels: u32) {
    if let Some(mut row) = Rc::into_inner(row) {
        'each: while let Some(item) = row.pop() {
            drop_near(item.into_kind(), levels);
        }
        row.destroy_empty();
    }
}

#[cycle(dropped)]
fn drop_pairs<X: Drop>(row: Rc<BTreeMap<RcStr, Value<X>>>, levels: u32) {
    if let Some(mut row) = Rc::into_inner(row) {
        // From the last on: without its first entry, a node of the map has to move all others.
        'each: while let Some((key, item)) = row.pop_last() {
            drop(key);
            drop_near(item.into_kind(), levels);
        }
        row.destroy_empty();
    }
}

impl<X: Drop> Value<X> {
    // The kind. A leaf is dropped, and gives none.
    #[inline(always)]
    pub(crate) fn into_branch(self) -> Option<ValueKind<X>>
        ensures branch { result ≡ branch_of self }
        ensures nodes { IfSome result (λ kind. kind_nodes kind ≡ value_nodes self) }
    {
        unless_leaf(self.into_kind())
    }

    // The kind, in whose place another is put. Where it was a leaf, that is dropped and gives none.
    #[inline(always)]
    pub(crate) fn replace_branch(&mut self, kind: ValueKind<X>) -> Option<ValueKind<X>>
        ensures put { value_nodes self.new ≡ kind_nodes kind }
        ensures branch { result ≡ branch_of self.old }
        ensures taken { IfSome result (λ old. kind_nodes old ≡ value_nodes self.old) }
    {
        unless_leaf(self.replace_kind(kind))
    }
}

// Drops a kind that has no values inside.
#[inline(always)]
fn unless_leaf<X: Drop>(kind: ValueKind<X>) -> Option<ValueKind<X>>
    ensures branch { result ≡ branch_of_kind kind }
    ensures same { IfSome result (λ branch. branch ≡ kind) }
{
    match kind {
        ValueKind::Lit(literal) => {
            drop(literal);
            None
        }
        ValueKind::ExtensionValue(value) => {
            drop(value);
            None
        }
        branch => Some(branch),
    }
}
