//! Whether a table has a cycle: told in one pass where it has none.
ghost use Rattle.std.specs.Prelude.{◌≡◌, ℕ, ◌<◌, [], length, slice_index, IfErr, IfOk, IsTrue};
ghost use Rattle.std.specs.Prelude.{MatchOption, vec_len};
ghost use Rattle.std.specs.List.{All, Contains};
ghost use Rattle.cedar_ancestors.specs.Marks.{IsMarked};
ghost use Rattle.cedar_ancestors.specs.Tables.{IsAbove, IsAcyclic, IsInRow, IsWithin};

use crate::walking::above;
use std::alloc::{AllocError, Global};

// How often each index stands in a row.
fn counts_of(alloc: Global, table: &[Vec<usize>]) -> Result<Vec<usize>, AllocError>
    requires { IsWithin table.now }
    ensures { IfOk result (λ counts. length counts.items ≡ length table.now) }
{
    let mut counts = vec![in alloc; 0usize; table.len()]?;
    for row in table {
        count_row(&mut counts, row);
    }
    Ok(counts)
}

// Counts what stands in a row.
fn count_row(counts: &mut [usize], row: &[usize])
    requires { All (λ y. y < length counts.old) row.now }
{
    for index in row {
        counts[*index] = counts[*index].saturating_add(1);
    }
}

// The indexes that stand in no row.
fn uncounted(alloc: Global, counts: &[usize]) -> Result<Vec<usize>, AllocError>
    ensures { IfOk result (λ work. All (λ x. x < length counts.now) work.items) }
{
    let mut work = Vec::new(alloc);
    for (index, count) in counts.iter().enumerate() {
        if *count == 0 {
            work.push(index)?;
        }
    }
    Ok(work)
}

// Takes a row back from the counts; what stands in no other row is work from now on.
fn take_row(counts: &mut [usize], row: &[usize], work: &mut Vec<usize>) -> Result<(), AllocError>
    requires within { All (λ y. y < length counts.old) row.now }
    requires work { All (λ x. x < length counts.old) work.old.items }
    ensures { IfOk result (λ _. All (λ x. x < length counts.old) work.new.items) }
{
    for index in row {
        counts[*index] = counts[*index].saturating_sub(1);
        if counts[*index] == 0 {
            work.push(*index)?;
        }
    }
    Ok(())
}

// A number for each index. Where the table has no cycle, the numbers fall along each step; that is
// not proved here, but checked afterwards.
fn ranks_of(alloc: Global, table: &[Vec<usize>]) -> Result<Vec<usize>, AllocError>
    requires { IsWithin table.now }
    ensures { IfOk result (λ ranks. length ranks.items ≡ length table.now) }
{
    let mut counts = counts_of(alloc, table)?;
    let mut work = uncounted(alloc, &counts)?;
    let mut ranks = vec![in alloc; 0usize; table.len()]?;
    for rank in (0..table.len()).rev() {
        let Some(index) = work.pop() else {
            break;
        };
        ranks[index] = rank;
        take_row(&mut counts, &table[index], &mut work)?;
    }
    Ok(ranks)
}

// Whether the numbers of a row are below a number.
fn are_below(row: &[usize], ranks: &[usize], rank: usize) -> bool
    requires { All (λ y. y < length ranks.now) row.now }
    ensures { IsTrue result → All (λ y. slice_index ranks.now y < rank) row.now }
{
    for index in row {
        if ranks[*index] >= rank {
            return false;
        }
    }
    true
}

// Whether the numbers fall along each step.
fn all_fall(table: &[Vec<usize>], ranks: &[usize]) -> bool
    requires within { IsWithin table.now }
    requires long { length ranks.now ≡ length table.now }
    ensures { IsTrue result → IsAcyclic table.now }
{
    for (index, row) in table.iter().enumerate() {
        if !are_below(row, ranks, ranks[index]) {
            return false;
        }
    }
    true
}

// An index that is above itself: each one's walk is looked at.
fn first_cycle(alloc: Global, table: &[Vec<usize>]) -> Result<Option<usize>, AllocError>
    requires { IsWithin table.now }
    ensures { IfOk result (λ found. MatchOption found (IsAcyclic table.now)
        (λ x. IsAbove table.now x x)) }
{
    let mut seen = vec![in alloc; false; table.len()]?;
    for index in 0..table.len() {
        let found = above(alloc, table, &mut seen, index)?;
        if found.contains(&index) {
            return Ok(Some(index));
        }
    }
    Ok(None)
}

/// An index that is above itself, where there is one. Where there is none, the table is gone over
/// once; else maybe once for each index.
pub fn find_cycle(alloc: Global, table: &[Vec<usize>]) -> Result<Option<usize>, AllocError>
    requires { IsWithin table.now }
    ensures { IfOk result (λ found. MatchOption found (IsAcyclic table.now)
        (λ x. IsAbove table.now x x)) }
{
    let ranks = ranks_of(alloc, table)?;
    if all_fall(table, &ranks) {
        return Ok(None);
    }
    first_cycle(alloc, table)
}
