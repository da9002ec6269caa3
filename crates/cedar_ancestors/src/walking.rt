//! A walk of what is reached from one index of a table.
ghost use Rattle.std.specs.Prelude.{◌≡◌, ◌↔◌, ℕ, ◌<◌, [], length, IfOk, OnOk};
ghost use Rattle.std.specs.List.{All, Contains};
ghost use Rattle.cedar_ancestors.specs.Marks.{IsAdded, IsMarked};
ghost use Rattle.cedar_ancestors.specs.Tables.{HasAllAbove, IsWithin};

use std::alloc::{AllocError, Global};

// Adds items to those found, as far as they are not yet found.
fn add_unseen(items: &[usize], seen: &mut [bool], found: &mut Vec<usize>) -> Result<(), AllocError>
    requires within { All (λ k. k < length seen.old) items.now }
    requires marked { IsMarked seen.old found.old.items }
    ensures marked { OnOk result (IsMarked seen.new found.new.items) }
    ensures added { OnOk result (IsAdded items.now found.old.items found.new.items) }
{
    for item in items {
        if !seen[*item] {
            found.push(*item)?;
            seen[*item] = true;
        }
    }
    Ok(())
}

// Takes back the marks of all that was found.
fn clear(seen: &mut [bool], found: &[usize])
    requires { IsMarked seen.old found.now }
    ensures { IsMarked seen.new [] }
{
    for item in found {
        seen[*item] = false;
    }
}

// What is above an index, in the order in which a walk by levels finds it.
pub(crate) fn above(
    alloc: Global,
    table: &[Vec<usize>],
    seen: &mut [bool],
    index: usize,
) -> Result<Vec<usize>, AllocError>
    requires within { IsWithin table.now }
    requires index { index < length table.now }
    requires long { length seen.old ≡ length table.now }
    requires unmarked { IsMarked seen.old [] }
    ensures unmarked { OnOk result (IsMarked seen.new []) }
    ensures all { IfOk result (λ found. HasAllAbove table.now index found.items) }
{
    let mut found = Vec::new(alloc);
    add_unseen(&table[index], seen, &mut found)?;
    let mut next = 0;
    while next < found.len() {
        let node = found[next];
        add_unseen(&table[node], seen, &mut found)?;
        next += 1;
    }
    clear(seen, &found);
    Ok(found)
}

/// What is above one index of a table, in the order in which a walk by levels finds it.
pub fn all_above(
    alloc: Global,
    table: &[Vec<usize>],
    index: usize,
) -> Result<Vec<usize>, AllocError>
    requires within { IsWithin table.now }
    requires index { index < length table.now }
    ensures { IfOk result (λ found. HasAllAbove table.now index found.items) }
{
    let mut seen = vec![in alloc; false; table.len()]?;
    above(alloc, table, &mut seen, index)
}
