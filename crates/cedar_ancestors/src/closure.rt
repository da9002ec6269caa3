//! What is above each index of a table, made once, so that a question is one look-up.
ghost use Rattle.std.specs.Prelude.{◌≡◌, ◌↔◌, ℕ, ◌<◌, IfErr, IfOk, IsTrue, OnOk};
ghost use Rattle.cedar_ancestors.specs.Refusals.{IsRefusalOf};
ghost use Rattle.std.specs.List.{All, Contains};
ghost use Rattle.std.specs.List.Sorted.{IsNonDecreasing};
ghost use Rattle.cedar_ancestors.specs.declared.closure.Refusal.TheVariants.{Memory};
ghost use Rattle.cedar_ancestors.specs.Tables.{AllAscend, IsAcyclic, IsClosureOf, IsInRow};
ghost use Rattle.cedar_ancestors.specs.Tables.{IsWithin, row_at};

use crate::walking::above;
use std::alloc::{AllocError, AllocFailed, Global};
use std::marker::Model;

/// Why a table has no closure.
#[derive(Debug, Drop, PartialEq, Eq)]
pub enum Refusal {
    /// This index is above itself.
    Cycle(usize),
    /// The rows would have more indexes than they may.
    TooMany,
    /// There was too little memory.
    Memory,
}

impl From<AllocError> for Refusal {
    ghost from_gives = { λ _ e. e ≡ Memory };

    fn from(_: AllocError) -> Self {
        Refusal::Memory
    }
}

impl<T: Drop> From<AllocFailed<T>> for Refusal {
    ghost from_gives = { λ _ e. e ≡ Memory };

    fn from(_: AllocFailed<T>) -> Self {
        Refusal::Memory
    }
}

// Whether an ascending row has an index: a search by halving.
fn is_in(row: &[usize], index: usize) -> bool
    requires { IsNonDecreasing row.now }
    ensures { IsTrue result ↔ Contains row.now index }
{
    row.binary_search(&index).is_ok()
}

// The closure of a table, each row ascending, or an index that is above itself. All rows together
// have at most so many indexes.
fn close(alloc: Global, table: &[Vec<usize>], most: usize) -> Result<Vec<Vec<usize>>, Refusal>
    requires { IsWithin table.now }
    ensures closure { IfOk result (λ rows. IsClosureOf table.now rows.items) }
    ensures ascending { IfOk result (λ rows. AllAscend rows.items) }
    ensures acyclic { OnOk result (IsAcyclic table.now) }
    ensures refusal { IfErr result (IsRefusalOf table.now) }
{
    let mut seen = vec![in alloc; false; table.len()]?;
    let mut rows = Vec::new(alloc);
    let mut left = most;
    for index in 0..table.len() {
        let mut row = above(alloc, table, &mut seen, index)?;
        row.sort_unstable();
        if is_in(&row, index) {
            return Err(Refusal::Cycle(index));
        }
        if row.len() > left {
            return Err(Refusal::TooMany);
        }
        left -= row.len();
        rows.push(row)?;
    }
    Ok(rows)
}

/// What is above each index of a table.
#[derive(Drop)]
pub struct Closure {
    rows: Vec<Vec<usize>>,
}

impl Model for Closure {
    ghost use Rattle.std.specs.Prelude.{ℕ, List};
    ghost use Rattle.std.specs.Global.{Global};
    ghost use Rattle.std.specs.declared.vec.Vec.{Vec};
    ghost use Rattle.cedar_ancestors.specs.Tables.{AllAscend};

    ghost Value = { List (Vec ℕ Global) };

    ghost view = { λ c. c.rows.items };

    ghost invariant = { λ c. AllAscend c.rows.items };
}

impl Closure {
    /// The closure of a table, whose rows have indexes of the table alone.
    ///
    /// It is refused if an index is above itself, and the refusal names one; or if its rows would
    /// have more than `most` indexes together.
    pub fn of(alloc: Global, table: &[Vec<usize>], most: usize) -> Result<Closure, Refusal>
        requires { IsWithin table.now }
        ensures closure { IfOk result (IsClosureOf table.now) }
        ensures acyclic { OnOk result (IsAcyclic table.now) }
        ensures refusal { IfErr result (IsRefusalOf table.now) }
    {
        let rows = close(alloc, table, most)?;
        Ok(Closure { rows })
    }

    /// Whether `other` is above `index`: a search by halving in one row.
    pub fn has(&self, index: usize, other: usize) -> bool
        ensures { IsTrue result ↔ IsInRow self.now index other }
    {
        is_in(self.row(index), other)
    }

    /// What is above an index, ascending; nothing past the end.
    pub fn row(&self, index: usize) -> &[usize]
        ensures row { result.now ≡ row_at self.now index }
        ensures ascending { IsNonDecreasing result.now }
    {
        match self.rows.get(index) {
            Some(row) => row,
            None => &[],
        }
    }
}

// Whether each index of a row is below a count.
fn is_below_count(row: &[usize], count: usize) -> bool
    ensures { IsTrue result ↔ All (λ y. y < count) row.now }
{
    row.iter().all(|index| *index < count)
}

/// Whether the rows of a table have indexes of the table alone.
pub fn is_within(table: &[Vec<usize>]) -> bool
    ensures { IsTrue result ↔ IsWithin table.now }
{
    for row in table {
        if !is_below_count(row, table.len()) {
            return false;
        }
    }
    true
}
