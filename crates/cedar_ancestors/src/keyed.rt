//! Hierarchies of keys, each of which may list its parents.
ghost use Rattle.std.specs.Prelude.{◌≡◌, ◌↔◌, ◌<◌, length, IfErr, IfOk, IfSome, IsTrue, OnOk};
ghost use Rattle.std.specs.List.{IsDistinct};
ghost use Rattle.std.specs.Option.{is_some};
ghost use Rattle.cedar_sorted_slices.specs.Classes.{has_class};
ghost use Rattle.cedar_ancestors.specs.Keyed.{AreKnown, ClonesAreAlike, IsAncestorOf, IsAt};
ghost use Rattle.cedar_ancestors.specs.Keyed.{IsBelowIn, IsRowBy, IsTableOf, is_listed, lists};
ghost use Rattle.cedar_ancestors.specs.Hierarchies.{HasNoCycle, IsCyclicAmong, IsCyclicBy};
ghost use Rattle.cedar_ancestors.specs.Hierarchies.{IsHierarchyOf};
ghost use Rattle.cedar_ancestors.specs.declared.keyed.Cyclic.TheVariants.{Memory};

use crate::collecting::{HasParents, keys_of};
use crate::reach::Reach;
use indexmap::IndexSet;
use std::alloc::{AllocError, Global};
use std::collections::HashMap;
use std::hash::Hash;
use std::marker::Model;

// The index of a key among others: one look-up by hash.
fn index_of<K: Ord + Hash>(keys: &IndexSet<K>, key: &K) -> Option<usize>
    ensures at { IfSome result (IsAt K.cmp keys.now.keys key.now) }
    ensures found { is_some result ≡ has_class K.cmp keys.now.keys key.now }
{
    keys.get_index_of(key)
}

// The indexes of those of the keys that are among some parents.
fn indexes_of<K: Ord + Hash>(
    alloc: Global,
    keys: &IndexSet<K>,
    parents: &[K],
) -> Result<Vec<usize>, AllocError>
    requires { IsDistinct K.eq keys.now.keys }
    ensures { IfOk result (λ row. IsRowBy (has_class K.cmp parents.now) keys.now.keys row.items) }
{
    let mut row = Vec::new(alloc);
    for parent in parents {
        if let Some(index) = index_of(keys, parent) {
            row.push(index)?;
        }
    }
    Ok(row)
}

// The indexes of the parents of a key.
fn row_for<K: Ord + Hash, V: HasParents<K>>(
    alloc: Global,
    keys: &IndexSet<K>,
    parents: &HashMap<K, V>,
    key: &K,
) -> Result<Vec<usize>, AllocError>
    requires { IsDistinct K.eq keys.now.keys }
    ensures { IfOk result (λ row.
        IsRowBy (lists K.cmp V.parents_of parents.now.entries key.now) keys.now.keys row.items) }
{
    match parents.get(key) {
        Some(entry) => indexes_of(alloc, keys, entry.parents()),
        None => Ok(Vec::new(alloc)),
    }
}

// The table of the indexes of the parents of each key.
fn table_of<K: Ord + Hash, V: HasParents<K>>(
    alloc: Global,
    keys: &IndexSet<K>,
    parents: &HashMap<K, V>,
) -> Result<Vec<Vec<usize>>, AllocError>
    ensures distinct { OnOk result (IsDistinct K.eq keys.now.keys) }
    ensures rows { IfOk result (λ table.
        IsTableOf K.cmp V.parents_of keys.now.keys parents.now.entries table.items) }
{
    let mut table = Vec::new(alloc);
    for key in keys.as_slice() {
        let row = row_for(alloc, keys, parents, key)?;
        table.push(row)?;
    }
    Ok(table)
}

// What is above the index of each key.
fn reach_of<K: Ord + Hash, V: HasParents<K>>(
    alloc: Global,
    keys: &IndexSet<K>,
    parents: &HashMap<K, V>,
    most: usize,
) -> Result<Reach, Cyclic<usize>>
    requires { AreKnown K.cmp V.parents_of keys.now.keys parents.now.entries }
    ensures distinct { OnOk result (IsDistinct K.eq keys.now.keys) }
    ensures hierarchy { IfOk result (λ reach.
        IsHierarchyOf K.cmp V.parents_of parents.now.entries (keys.now.keys, reach)) }
    ensures acyclic { OnOk result (HasNoCycle K.cmp V.parents_of parents.now.entries) }
    ensures refusal { IfErr result
        (IsCyclicAmong K.cmp V.parents_of parents.now.entries keys.now.keys) }
{
    let table = table_of(alloc, keys, parents)?;
    Reach::of(alloc, table, most)
}

// The key of an index.
fn key_at<K: Ord + Hash + Drop>(mut keys: IndexSet<K>, index: usize) -> K
    requires { index < length keys.keys }
    ensures { IsAt K.cmp keys.keys result index }
{
    keys.swap_remove_index(index).unwrap()
}

/// Why there is no hierarchy.
#[derive(Debug, Drop, PartialEq, Eq)]
pub enum Cyclic<K> {
    /// This key is its own ancestor.
    At(K),
    /// There was too little memory.
    Memory,
}

impl<K> From<AllocError> for Cyclic<K> {
    ghost from_gives = { λ _ e. e ≡ Memory };

    fn from(_: AllocError) -> Self {
        Cyclic::Memory
    }
}

/// Which keys are below which: each key with all its ancestors.
#[derive(Drop)]
pub struct Hierarchy<K: Ord + Hash> {
    keys: IndexSet<K>,
    reach: Reach,
}

impl<K: Ord + Hash> Model for Hierarchy<K> {
    ghost use Rattle.std.specs.Prelude.{List};
    ghost use Rattle.std.specs.List.{IsDistinct};
    ghost use Rattle.cedar_ancestors.specs.declared.reach.Reach.{Reach};

    ghost Value = { List K × Reach };

    ghost view = { λ h. (h.keys.keys, h.reach) };

    ghost invariant = { λ h. IsDistinct K.eq h.keys.keys };
}

impl<K: Ord + Hash + Drop> Hierarchy<K> {
    // The hierarchy of keys of which some list their parents, refused as by `of`. The keys are all
    // that occur, in any order.
    pub(crate) fn with_keys<V: HasParents<K>>(
        alloc: Global,
        keys: IndexSet<K>,
        parents: &HashMap<K, V>,
        most: usize,
    ) -> Result<Hierarchy<K>, Cyclic<K>>
        requires { AreKnown K.cmp V.parents_of keys.keys parents.now.entries }
        ensures hierarchy { IfOk result (IsHierarchyOf K.cmp V.parents_of parents.now.entries) }
        ensures acyclic { OnOk result (HasNoCycle K.cmp V.parents_of parents.now.entries) }
        ensures refusal { IfErr result (IsCyclicBy K.cmp V.parents_of parents.now.entries) }
    {
        match reach_of(alloc, &keys, parents, most) {
            Ok(reach) => Ok(Hierarchy { keys, reach }),
            Err(Cyclic::At(_)) => Hierarchy::in_order(alloc, keys, parents, most),
            Err(Cyclic::Memory) => Err(Cyclic::Memory),
        }
    }

    // The same over the keys in ascending order: so the least key on a cycle is named.
    fn in_order<V: HasParents<K>>(
        alloc: Global,
        mut keys: IndexSet<K>,
        parents: &HashMap<K, V>,
        most: usize,
    ) -> Result<Hierarchy<K>, Cyclic<K>>
        requires { AreKnown K.cmp V.parents_of keys.keys parents.now.entries }
        ensures hierarchy { IfOk result (IsHierarchyOf K.cmp V.parents_of parents.now.entries) }
        ensures acyclic { OnOk result (HasNoCycle K.cmp V.parents_of parents.now.entries) }
        ensures refusal { IfErr result (IsCyclicBy K.cmp V.parents_of parents.now.entries) }
    {
        keys.sort()?;
        match reach_of(alloc, &keys, parents, most) {
            Ok(reach) => Ok(Hierarchy { keys, reach }),
            Err(Cyclic::At(index)) => Err(Cyclic::At(key_at(keys, index))),
            Err(Cyclic::Memory) => Err(Cyclic::Memory),
        }
    }

    /// Whether a key is below another: reached by one or more steps from child to parent.
    pub fn is_below(&self, alloc: Global, child: &K, ancestor: &K) -> Result<bool, AllocError>
        ensures { IfOk result
            (λ b. IsTrue b ↔ IsBelowIn K.cmp self.now child.now ancestor.now) }
    {
        let Some(from) = index_of(&self.keys, child) else {
            return Ok(false);
        };
        let Some(to) = index_of(&self.keys, ancestor) else {
            return Ok(false);
        };
        self.reach.has(alloc, from, to)
    }
}

impl<K: Clone + Ord + Hash> Hierarchy<K> {
    /// The hierarchy of keys of which some list their parents. A key without an entry has no
    /// parents, and is an ancestor if it is listed. The ancestors of each are kept if these are at
    /// most `most` together, else they are walked for each question.
    ///
    /// It is refused if a key is its own ancestor, and the refusal names the least one.
    pub fn of<V: HasParents<K>>(
        alloc: Global,
        parents: &HashMap<K, V>,
        most: usize,
    ) -> Result<Hierarchy<K>, Cyclic<K>>
        requires { ClonesAreAlike K.cmp K.is_clone }
        ensures hierarchy { IfOk result (IsHierarchyOf K.cmp V.parents_of parents.now.entries) }
        ensures acyclic { OnOk result (HasNoCycle K.cmp V.parents_of parents.now.entries) }
        ensures refusal { IfErr result (IsCyclicBy K.cmp V.parents_of parents.now.entries) }
    {
        let keys = keys_of(alloc, parents)?;
        Hierarchy::with_keys(alloc, keys, parents, most)
    }
}
