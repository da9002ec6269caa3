//! Laws over the definitions alone, and what equality and order say of names.
ghost use Rattle.std.specs.Prelude.{◌≡◌, ◌≢◌, ◌↔◌, ◌++◌, [], IsTrue, Option, Some};
ghost use Rattle.std.specs.Cmp.Lexicographic.{pointwise, slice_cmp, slice_partial_cmp};
ghost use Rattle.std.specs.Hash as fed;
ghost use Rattle.cedar_names.specs.declared.internal_name.InternalName.{InternalName};
ghost use Rattle.cedar_names.specs.declared.name.Name.{Name};
ghost use Rattle.cedar_names.specs.declared.raw_name.RawName.{RawName};
ghost use Rattle.cedar_names.specs.declared.raw_name.ConditionalName.{ConditionalName};
ghost use Rattle.cedar_names.specs.declared.non_empty.NonEmpty.{NonEmpty};
ghost use Rattle.cedar_names.specs.Names.{BareName, IsNameOfIds, name_text, qualified};
ghost use Rattle.cedar_names.specs.NameOrder.{name_cmp};
ghost use Rattle.cedar_names.specs.InternalNames.{bare_internal_name};
ghost use Rattle.cedar_names.specs.PlainNames.{bare_name};
ghost use Rattle.cedar_names.specs.RawNames.{bare_raw_name, IsSameReference};
ghost use Rattle.cedar_names.specs.NonEmpty.{list_of};

use crate::internal_name::InternalName;
use crate::name::Name;
use crate::non_empty::NonEmpty;
use crate::raw_name::{ConditionalName, RawName};
use std::hash::Hash;

/// No two names have one text.
pub fn name_texts_differ()
    ensures { (m n : BareName) → IsNameOfIds m → IsNameOfIds n → name_text m ≡ name_text n → m ≡ n }
{}

/// A name with a namespace stays as it is, whatever namespace is given. So a name that was put
/// within a namespace stays in it: to qualify it once more, by any namespace or none, changes
/// nothing.
pub fn qualified_twice()
    ensures stays { (n : BareName) (ns : Option BareName) → n.path ≢ [] → qualified n ns ≡ n }
    ensures twice { (n ns : BareName) (further : Option BareName) →
        qualified (qualified n (Some ns)) further ≡ qualified n (Some ns) }
{}

/// Names are equal exactly where they are so without their places.
pub fn equal_names()
    ensures internal_names { (m n : InternalName) →
        IsTrue (⟦<InternalName as PartialEq>⟧.eq m n) ↔
        (bare_internal_name m ≡ bare_internal_name n) }
    ensures names { (m n : Name) →
        IsTrue (⟦<Name as PartialEq>⟧.eq m n) ↔ (bare_name m ≡ bare_name n) }
    ensures raw_names { (m n : RawName) →
        IsTrue (⟦<RawName as PartialEq>⟧.eq m n) ↔ (bare_raw_name m ≡ bare_raw_name n) }
    ensures conditional_names { (c d : ConditionalName) →
        IsTrue (⟦<ConditionalName as PartialEq>⟧.eq c d) ↔ IsSameReference c d }
{}

/// Names of each kind have the order of their bare names.
pub fn ordered_names()
    ensures internal_names { (m n : InternalName) →
        ⟦<InternalName as Ord>⟧.cmp m n ≡ name_cmp (bare_internal_name m) (bare_internal_name n) }
    ensures names { (m n : Name) →
        ⟦<Name as Ord>⟧.cmp m n ≡ name_cmp (bare_name m) (bare_name n) }
    ensures raw_names { (m n : RawName) →
        ⟦<RawName as Ord>⟧.cmp m n ≡ name_cmp (bare_raw_name m) (bare_raw_name n) }
{}

/// Lists of one item or more compare as the lists of all their items, and feed a hash their first
/// item and then the others as a list.
pub fn compared_lists<T: Ord + Hash>()
    ensures equal { (x y : NonEmpty T) →
        ⟦<NonEmpty<T> as PartialEq>⟧.eq x y ≡ pointwise T.eq (list_of x) (list_of y) }
    ensures partially_ordered { (x y : NonEmpty T) →
        ⟦<NonEmpty<T> as PartialOrd>⟧.partial_cmp x y ≡
        slice_partial_cmp T.partial_cmp (list_of x) (list_of y) }
    ensures ordered { (x y : NonEmpty T) →
        ⟦<NonEmpty<T> as Ord>⟧.cmp x y ≡ slice_cmp T.cmp (list_of x) (list_of y) }
    ensures hashed { (x : NonEmpty T) →
        ⟦<NonEmpty<T> as Hash>⟧.hash_input x ≡
        T.hash_input x.head ++ fed.slice T.hash_input x.tail.items }
{}
