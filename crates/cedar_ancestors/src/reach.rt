//! What is above each index: in rows, if these are short enough, else by a walk for each question.
ghost use Rattle.std.specs.Prelude.{◌≡◌, ◌↔◌, IfErr, IfOk, IsTrue, OnOk};
ghost use Rattle.cedar_ancestors.specs.Reach.{IsCyclicIn, IsReachOf, leads};
ghost use Rattle.cedar_ancestors.specs.Tables.{IsAbove, IsAcyclic, IsWithin};

use crate::closure::{Closure, Refusal};
use crate::keyed::Cyclic;
use crate::levels::find_cycle;
use crate::walking::all_above;
use std::alloc::{AllocError, Global};
use std::marker::Model;

/// A table whose rows have indexes of the table alone.
#[derive(Drop)]
pub struct Table {
    rows: Vec<Vec<usize>>,
}

impl Model for Table {
    ghost use Rattle.std.specs.Prelude.{ℕ, List};
    ghost use Rattle.std.specs.Global.{Global};
    ghost use Rattle.std.specs.declared.vec.Vec.{Vec};
    ghost use Rattle.cedar_ancestors.specs.Tables.{IsWithin};

    ghost Value = { List (Vec ℕ Global) };

    ghost view = { λ t. t.rows.items };

    ghost invariant = { λ t. IsWithin t.rows.items };
}

impl Table {
    fn new(rows: Vec<Vec<usize>>) -> Table
        requires { IsWithin rows.items }
        ensures { result ≡ rows.items }
    {
        Table { rows }
    }

    // Whether an index is above another: a walk, which ends when all that is above is found.
    fn is_above(&self, alloc: Global, index: usize, other: usize) -> Result<bool, AllocError>
        ensures { IfOk result (λ b. IsTrue b ↔ IsAbove self.now index other) }
    {
        if index >= self.rows.len() {
            return Ok(false);
        }
        let found = all_above(alloc, &self.rows, index)?;
        Ok(found.contains(&other))
    }
}

/// What is above each index.
#[derive(Drop)]
pub enum Reach {
    /// In a row for each index.
    Closed(Closure),
    /// By steps of a table.
    Walked(Table),
}

impl Reach {
    /// What is above each index of a table: in rows, if these have at most `most` indexes together.
    /// It is refused if an index is above itself, and the refusal names one.
    pub(crate) fn of(
        alloc: Global,
        table: Vec<Vec<usize>>,
        most: usize,
    ) -> Result<Reach, Cyclic<usize>>
        requires { IsWithin table.items }
        ensures reach { IfOk result (IsReachOf table.items) }
        ensures acyclic { OnOk result (IsAcyclic table.items) }
        ensures refusal { IfErr result (IsCyclicIn table.items) }
    {
        match Closure::of(alloc, &table, most) {
            Ok(closure) => Ok(Reach::Closed(closure)),
            Err(Refusal::Cycle(index)) => Err(Cyclic::At(index)),
            Err(Refusal::Memory) => Err(Cyclic::Memory),
            Err(Refusal::TooMany) => Reach::walked(alloc, table),
        }
    }

    // The table itself, if it has no cycle.
    fn walked(alloc: Global, table: Vec<Vec<usize>>) -> Result<Reach, Cyclic<usize>>
        requires { IsWithin table.items }
        ensures reach { IfOk result (IsReachOf table.items) }
        ensures acyclic { OnOk result (IsAcyclic table.items) }
        ensures refusal { IfErr result (IsCyclicIn table.items) }
    {
        match find_cycle(alloc, &table)? {
            Some(index) => Err(Cyclic::At(index)),
            None => Ok(Reach::Walked(Table::new(table))),
        }
    }

    /// Whether an index is above another.
    pub(crate) fn has(&self, alloc: Global, index: usize, other: usize) -> Result<bool, AllocError>
        ensures { IfOk result (λ b. IsTrue b ↔ leads self.now index other) }
    {
        match self {
            Reach::Closed(closure) => Ok(closure.has(index, other)),
            Reach::Walked(table) => table.is_above(alloc, index, other),
        }
    }
}
