//! The keys that occur in a map from keys to their parents.
ghost use Rattle.std.specs.Prelude.{◌≡◌, IfOk, IsTrue, OnOk};
ghost use Rattle.cedar_sorted_slices.specs.Classes.{IsPartOf, has_class};
ghost use Rattle.cedar_ancestors.specs.Keyed.{AreKnown, ClonesAreAlike};

use indexmap::IndexSet;
use std::alloc::{AllocError, Global};
use std::collections::HashMap;
use std::hash::Hash;

/// An entry that lists parents.
pub trait HasParents<K> {
    ghost use Rattle.std.specs.Prelude.{List};

    /// The parents that it lists.
    ghost parents_of: { Self → List K };

    fn parents(&self) -> &[K]
        ensures { result.now ≡ parents_of self.now };
}

impl<K> HasParents<K> for Vec<K> {
    ghost parents_of = { λ v. v.items };

    fn parents(&self) -> &[K] {
        self
    }
}

// Adds a clone of a key, unless the key is there.
fn add_clone<K: Clone + Ord + Hash>(keys: &mut IndexSet<K>, key: &K) -> Result<(), AllocError>
    requires { ClonesAreAlike K.cmp K.is_clone }
    ensures kept { OnOk result (IsPartOf K.cmp keys.old.keys keys.new.keys) }
    ensures added { OnOk result (IsTrue (has_class K.cmp keys.new.keys key.now)) }
{
    keys.insert(key.clone()?)?;
    Ok(())
}

// Adds a clone of each key that is not there.
fn add_clones<K: Clone + Ord + Hash>(keys: &mut IndexSet<K>, more: &[K]) -> Result<(), AllocError>
    requires { ClonesAreAlike K.cmp K.is_clone }
    ensures kept { OnOk result (IsPartOf K.cmp keys.old.keys keys.new.keys) }
    ensures added { OnOk result (IsPartOf K.cmp more.now keys.new.keys) }
{
    for key in more {
        add_clone(keys, key)?;
    }
    Ok(())
}

/// Clones of all keys that occur, each once.
pub(crate) fn keys_of<K: Clone + Ord + Hash, V: HasParents<K>>(
    alloc: Global,
    parents: &HashMap<K, V>,
) -> Result<IndexSet<K>, AllocError>
    requires { ClonesAreAlike K.cmp K.is_clone }
    ensures { IfOk result (λ keys. AreKnown K.cmp V.parents_of keys.keys parents.now.entries) }
{
    let mut keys = IndexSet::new(alloc);
    for (child, entry) in parents {
        add_clone(&mut keys, child)?;
        add_clones(&mut keys, entry.parents())?;
    }
    Ok(keys)
}
