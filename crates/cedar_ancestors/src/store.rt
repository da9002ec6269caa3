//! Entries by key, each of which lists its parents; what is above each is made once.
ghost use Rattle.std.specs.Prelude.{◌≡◌, ◌↔◌, [], IfErr, IfNone, IfOk, IfSome, IsTrue, None, OnOk};
ghost use Rattle.std.specs.Option.{option_copied};
ghost use Rattle.cedar_ancestors.specs.Keyed.{ClonesAreAlike, IsAncestorOf, entry_at};
ghost use Rattle.cedar_ancestors.specs.Hierarchies.{HasNoCycle};
ghost use Rattle.cedar_ancestors.specs.Stores.{
  HasAdded,
  HasMore,
  HaveEntries,
  IsRefusalAt,
  IsRefusalOfAll,
  IsRefusedFor,
  IsRefusedStore,
  KnowsAllParents,
};
ghost use Rattle.cedar_ancestors.specs.declared.store.StoreError.TheVariants.{Memory};

use crate::collecting::{HasParents, keys_of};
use crate::keyed::{Cyclic, Hierarchy};
use std::alloc::{AllocError, AllocFailed, Global};
use std::collections::HashMap;
use std::hash::Hash;
use std::marker::Model;

/// An entry that has a key of its own.
pub trait HasKey<K>: HasParents<K> {
    /// The key.
    ghost key_of: { Self → K };

    fn key(&self) -> &K
        ensures { result.now ≡ key_of self.now };
}

/// Why there is no store.
#[derive(Debug, Drop, PartialEq, Eq)]
pub enum StoreError<K> {
    /// This key has two entries that differ.
    Duplicate(K),
    /// This key is its own ancestor.
    Cycle(K),
    /// This key is a parent, and has no entry.
    MissingParent(K),
    /// There was too little memory.
    Memory,
}

impl<K> From<AllocError> for StoreError<K> {
    ghost from_gives = { λ _ e. e ≡ Memory };

    fn from(_: AllocError) -> Self {
        StoreError::Memory
    }
}

impl<K, T: Drop> From<AllocFailed<T>> for StoreError<K> {
    ghost from_gives = { λ _ e. e ≡ Memory };

    fn from(_: AllocFailed<T>) -> Self {
        StoreError::Memory
    }
}

// Puts an entry at its key, unless an equal one is there.
fn add<K: Clone + Ord + Hash, V: HasKey<K> + Eq + Drop>(
    map: &mut HashMap<K, V>,
    entry: V,
) -> Result<(), StoreError<K>>
    requires { ClonesAreAlike K.cmp K.is_clone }
    ensures added { OnOk result
        (HasAdded K.cmp V.eq V.key_of map.old.entries map.new.entries entry) }
    ensures refusal { IfErr result (IsRefusalAt K.cmp V.eq V.key_of map.old.entries entry) }
{
    let key = entry.key().clone()?;
    match map.get(&key) {
        Some(known) => {
            if *known == entry {
                Ok(())
            } else {
                Err(StoreError::Duplicate(key))
            }
        }
        None => {
            map.insert(key, entry)?;
            Ok(())
        }
    }
}

// Puts each entry at its key.
fn add_all<K: Clone + Ord + Hash, V: HasKey<K> + Eq + Drop>(
    map: &mut HashMap<K, V>,
    entries: Vec<V>,
) -> Result<(), StoreError<K>>
    requires { ClonesAreAlike K.cmp K.is_clone }
    ensures added { OnOk result
        (HasMore K.cmp V.eq V.key_of map.old.entries map.new.entries entries.items) }
    ensures refusal { IfErr result
        (IsRefusalOfAll K.cmp V.eq V.key_of map.old.entries entries.items) }
{
    for entry in entries {
        add(map, entry)?;
    }
    Ok(())
}

// The first key that has no entry.
fn first_absent<'a, K: Ord + Hash, V>(map: &HashMap<K, V>, keys: &'a [K]) -> Option<&'a K>
    ensures none { IfNone result (HaveEntries K.cmp map.now.entries keys.now) }
    ensures some { IfSome result (λ k. entry_at K.cmp map.now.entries k.now ≡ None) }
{
    for key in keys {
        if !map.contains_key(key) {
            return Some(key);
        }
    }
    None
}

// The first key that has no entry, if each has to have one.
fn first_missing<'a, K: Ord + Hash, V>(
    map: &HashMap<K, V>,
    keys: &'a [K],
    needs: bool,
) -> Option<&'a K>
    ensures none { IfNone result (IsTrue needs → HaveEntries K.cmp map.now.entries keys.now) }
    ensures some { IfSome result (λ k. entry_at K.cmp map.now.entries k.now ≡ None) }
{
    if needs { first_absent(map, keys) } else { None }
}

/// Entries by key, and which keys are below which.
#[derive(Drop)]
pub struct Store<K: Ord + Hash, V: HasParents<K>> {
    entries: HashMap<K, V>,
    hierarchy: Hierarchy<K>,
}

impl<K: Ord + Hash, V: HasParents<K>> Model for Store<K, V> {
    ghost use Rattle.std.specs.Prelude.{List};
    ghost use Rattle.cedar_ancestors.specs.Hierarchies.{IsHierarchyOf};

    ghost Value = { List (K × V) };

    ghost view = { λ s. s.entries.entries };

    ghost invariant = { λ s. IsHierarchyOf K.cmp V.parents_of s.entries.entries s.hierarchy };
}

impl<K: Ord + Hash, V: HasParents<K>> Store<K, V> {
    /// The entry of a key: one look-up by hash.
    pub fn get(&self, key: &K) -> Option<&V>
        ensures { option_copied result ≡ entry_at K.cmp self.now key.now }
    {
        self.entries.get(key)
    }
}

impl<K: Ord + Hash + Drop, V: HasParents<K>> Store<K, V> {
    /// Whether a key is reached from another by one or more steps from child to parent.
    pub fn is_descendant_of(
        &self,
        alloc: Global,
        child: &K,
        ancestor: &K,
    ) -> Result<bool, AllocError>
        ensures { IfOk result (λ b. IsTrue b
            ↔ IsAncestorOf K.cmp V.parents_of self.now child.now ancestor.now) }
    {
        self.hierarchy.is_below(alloc, child, ancestor)
    }
}

impl<K: Clone + Ord + Hash, V: HasKey<K> + Eq + Drop> Store<K, V> {
    /// The store of these entries. The ancestors of each are kept if these are at most `most`
    /// together, else they are walked for each question.
    ///
    /// It is refused if two entries of one key differ, if a key is its own ancestor, or, if each
    /// parent `needs` an entry, if one has none; and the refusal names the key.
    pub fn of(
        alloc: Global,
        entries: Vec<V>,
        needs: bool,
        most: usize,
    ) -> Result<Store<K, V>, StoreError<K>>
        requires { ClonesAreAlike K.cmp K.is_clone }
        ensures added { IfOk result
            (λ store. HasMore K.cmp V.eq V.key_of [] store entries.items) }
        ensures parents { IfOk result
            (λ store. IsTrue needs → KnowsAllParents K.cmp V.parents_of store) }
        ensures acyclic { IfOk result (HasNoCycle K.cmp V.parents_of) }
        ensures refusal { IfErr result
            (IsRefusedStore K.cmp V.eq V.key_of V.parents_of [] entries.items) }
    {
        Store::grown(alloc, HashMap::new(alloc), entries, needs, most)
    }

    /// The store of its entries and of these, refused as by `of`.
    pub fn with(
        self,
        alloc: Global,
        more: Vec<V>,
        needs: bool,
        most: usize,
    ) -> Result<Store<K, V>, StoreError<K>>
        requires { ClonesAreAlike K.cmp K.is_clone }
        ensures added { IfOk result (λ store. HasMore K.cmp V.eq V.key_of self store more.items) }
        ensures parents { IfOk result
            (λ store. IsTrue needs → KnowsAllParents K.cmp V.parents_of store) }
        ensures acyclic { IfOk result (HasNoCycle K.cmp V.parents_of) }
        ensures refusal { IfErr result
            (IsRefusedStore K.cmp V.eq V.key_of V.parents_of self more.items) }
    {
        Store::grown(alloc, self.into_entries(), more, needs, most)
    }

    fn into_entries(self) -> HashMap<K, V>
        ensures { result.entries ≡ self }
    {
        let Store {
            entries,
            hierarchy: _,
        } = self;
        entries
    }

    // The store of what a map has and of these.
    fn grown(
        alloc: Global,
        map: HashMap<K, V>,
        more: Vec<V>,
        needs: bool,
        most: usize,
    ) -> Result<Store<K, V>, StoreError<K>>
        requires { ClonesAreAlike K.cmp K.is_clone }
        ensures added { IfOk result
            (λ store. HasMore K.cmp V.eq V.key_of map.entries store more.items) }
        ensures parents { IfOk result
            (λ store. IsTrue needs → KnowsAllParents K.cmp V.parents_of store) }
        ensures acyclic { IfOk result (HasNoCycle K.cmp V.parents_of) }
        ensures refusal { IfErr result
            (IsRefusedStore K.cmp V.eq V.key_of V.parents_of map.entries more.items) }
    {
        let mut map = map;
        add_all(&mut map, more)?;
        Store::made(alloc, map, needs, most)
    }

    // The store of what a map has.
    #[tactic(auto, using(crate::proofs::Storing::parents_known, crate::proofs::Storing::entry_alike))]
    fn made(
        alloc: Global,
        map: HashMap<K, V>,
        needs: bool,
        most: usize,
    ) -> Result<Store<K, V>, StoreError<K>>
        requires { ClonesAreAlike K.cmp K.is_clone }
        ensures entries { IfOk result (λ store. store ≡ map.entries) }
        ensures parents { OnOk result
            (IsTrue needs → KnowsAllParents K.cmp V.parents_of map.entries) }
        ensures acyclic { OnOk result (HasNoCycle K.cmp V.parents_of map.entries) }
        ensures refusal { IfErr result (IsRefusedFor K.cmp V.parents_of map.entries) }
    {
        let keys = keys_of(alloc, &map)?;
        if let Some(key) = first_missing(&map, keys.as_slice(), needs) {
            return Err(StoreError::MissingParent(key.clone()?));
        }
        match Hierarchy::with_keys(alloc, keys, &map, most) {
            Ok(hierarchy) => Ok(Store {
                entries: map,
                hierarchy,
            }),
            Err(Cyclic::At(key)) => Err(StoreError::Cycle(key)),
            Err(Cyclic::Memory) => Err(StoreError::Memory),
        }
    }
}
