//! The laws of values.
//!
//! A function here does nothing but carry its contract, which is the law, for each ordered type of
//! extension values.
ghost use Rattle.std.specs.Prelude.{◌≡◌, ◌↔◌, IsTrue, false, map, true};
ghost use Rattle.std.specs.Cmp.{IsTotalOrder};
ghost use Rattle.std.specs.BTreeMap.{BTreeMap};
ghost use Rattle.std.specs.Global.{Global};
ghost use Rattle.std.specs.declared.rc.Rc.{Rc};
ghost use Rattle.std.specs.declared.rc.RcStr.{RcStr};
ghost use Rattle.std.specs.List.{list_all, list_any};
ghost use Rattle.std.specs.List.Sorted.{IsStrictlySortedBy};
ghost use Rattle.cedar_sorted_slices.specs.Classes.{HaveSameClasses};
ghost use Rattle.cedar_terms.specs.Literals.{bare_literal};
ghost use Rattle.cedar_terms.specs.declared.literal.Literal.{Literal};
ghost use Rattle.cedar_builders.specs.Keys.{meant_pairs};
ghost use Rattle.semantics_values.specs.ValueOrder.{value_cmp, value_eq, values_cmp, values_eq};
ghost use Rattle.semantics_values.specs.BareValue as bare;
ghost use Rattle.semantics_values.specs.Laws.{BindsPlainValues};
ghost use Rattle.semantics_values.specs.AscendingKeys.{KeysAscend};
ghost use Rattle.semantics_values.specs.ValueExpr.{has_extension};
ghost use Rattle.semantics_values.specs.WellFormed.{is_well_formed};
ghost use Rattle.cedar_values.specs.BareValues.{
  bare_representable,
  bare_set,
  bare_value,
  bare_value_kind,
  extension_of,
  kind_of,
};
ghost use Rattle.cedar_values.specs.Holders as held;
ghost use Rattle.cedar_values.specs.PartialValues.{partial_eq};
ghost use Rattle.cedar_values.specs.Sets.{by_tree, members};
ghost use Rattle.cedar_values.specs.ValueMaps.{ThenIsBothOfMaps};
ghost use Rattle.cedar_values.specs.WellFormed.{kind_well_formed, set_well_formed, well_formed};
ghost use Rattle.cedar_values.specs.declared.value.ValueKind.TheVariants as kinds;
ghost use Rattle.cedar_values.specs.ValueMaps.{HasPlainValues, ValueMap, values_env};
ghost use Rattle.cedar_values.specs.WellFormedValues.{WellFormedMap, well_formed_env};
ghost use Rattle.cedar_values.specs.declared.partial_value.PartialValue.{PartialValue};
ghost use Rattle.cedar_values.specs.declared.extension_value.RepresentableExtensionValue.{
  RepresentableExtensionValue,
};
ghost use Rattle.cedar_values.specs.declared.set.Set.{Set};
ghost use Rattle.cedar_values.specs.declared.value.Value.{Value};
ghost use Rattle.cedar_values.specs.declared.value.ValueKind.{ValueKind};

use crate::extension_value::{ExtensionValue, NoExtension, RepresentableExtensionValue};
use crate::keys_ascend;
use crate::partial_value::PartialValue;
use crate::set::Set;
use crate::value::{Value, ValueKind};
use cedar_exprs::Expr;
pub use semantics_values::laws::{
    expressions_read_back, plain_where_none, reading_gives_one_value, then_is_both_of_values,
    values_are_ordered,
};

/// Values are ordered as their trees are, which is a total order, and equal where their trees are
/// the same.
pub fn order_of_values<X: Ord>()
    ensures order { (a b : Value _) → ⟦<Value<X> as Ord>⟧.cmp a b ≡ by_tree X.cmp a b }
    ensures total { IsTotalOrder (by_tree X.cmp) }
    ensures same { (a b : Value _) →
        ⟦<Value<X> as PartialEq>⟧.eq a b ≡ value_eq X.eq (bare_value a) (bare_value b) }
{}

/// Kinds of values are ordered as their trees are, and equal where their trees are the same.
pub fn order_of_kinds<X: Ord>()
    ensures order { (a b : ValueKind _) → ⟦<ValueKind<X> as Ord>⟧.cmp a b
        ≡ value_cmp X.cmp (bare_value_kind a) (bare_value_kind b) }
    ensures same { (a b : ValueKind _) → ⟦<ValueKind<X> as PartialEq>⟧.eq a b
        ≡ value_eq X.eq (bare_value_kind a) (bare_value_kind b) }
{}

/// Sets are ordered as the lists of their members are, and equal where these are the same.
pub fn order_of_sets<X: Ord>()
    ensures order { (a b : Set _) →
        ⟦<Set<X> as Ord>⟧.cmp a b ≡ values_cmp X.cmp (bare_set a) (bare_set b) }
    ensures same { (a b : Set _) →
        ⟦<Set<X> as PartialEq>⟧.eq a b ≡ values_eq X.eq (bare_set a) (bare_set b) }
{}

/// Extension values are ordered as the values of their type are, and equal where these are: the
/// representation that was given for one does not count.
pub fn order_of_extension_values<X: Ord>()
    ensures order { (a b : RepresentableExtensionValue _) →
        ⟦<RepresentableExtensionValue<X> as Ord>⟧.cmp a b
        ≡ X.cmp (extension_of a) (extension_of b) }
    ensures same { (a b : RepresentableExtensionValue _) →
        ⟦<RepresentableExtensionValue<X> as PartialEq>⟧.eq a b
        ≡ X.eq (extension_of a) (extension_of b) }
{}

/// Two well formed sets are equal just where each value that is in the one is in the other.
pub fn sets_are_finite_sets<X: Ord>()
    ensures { (a b : Set _) → IsTrue (set_well_formed X.cmp a) → IsTrue (set_well_formed X.cmp b)
        → IsTrue (⟦<Set<X> as PartialEq>⟧.eq a b)
        ↔ HaveSameClasses (by_tree X.cmp) (members a) (members b) }
{
    order_of_values::<X>();
}

/// Two partial values are equal where both are values that are the same, or both are equal
/// expressions.
pub fn equal_partial_values<X: Ord>()
    ensures { (a b : PartialValue _) → ⟦<PartialValue<X> as PartialEq>⟧.eq a b
        ≡ partial_eq X.eq ⟦<Expr as PartialEq>⟧.eq a b }
{
    order_of_values::<X>();
}

/// One map of values and then another binds what both together bind, where the first one has no
/// extension values: nothing can be substituted inside its values.
pub fn then_is_both_of_maps<X: ExtensionValue + Ord>()
    ensures { ThenIsBothOfMaps X.type_name X.canonical }
{
    then_is_both_of_values::<X>();
}

/// The tree of a value, and whether it is well formed, by its kind.
pub fn values_by_kind<X: Ord>()
    ensures kind { (v : Value X) → bare_value v ≡ bare_value_kind (kind_of v) }
    ensures set { (s : Set X) → bare_value_kind (kinds.Set s)
        ≡ bare.SetValue (bare.values_of (map bare_value (members s))) }
    ensures record { (m : Rc (BTreeMap (RcStr Global) (Value X)) Global) →
        bare_value_kind (kinds.Record m)
        ≡ bare.RecordValue (bare.pairs_of (meant_pairs bare_value m.value.entries)) }
    ensures kept { (v : Value X) →
        well_formed X.cmp v ≡ kind_well_formed X.cmp (kind_of v) }
    ensures lit_kept { (l : Literal) → IsTrue (kind_well_formed X.cmp (kinds.Lit l)) }
    ensures set_kept { (s : Set X) →
        kind_well_formed X.cmp (kinds.Set s) ≡ set_well_formed X.cmp s }
    ensures record_kept { (m : Rc (BTreeMap (RcStr Global) (Value X)) Global) →
        kind_well_formed X.cmp (kinds.Record m)
        ≡ list_all (λ e. well_formed X.cmp e.1) m.value.entries }
{}

/// A map of values without extension values binds such values.
pub fn maps_bind_plain_values<X: ExtensionValue>()
    ensures { (m : ValueMap _) → HasPlainValues m
        → BindsPlainValues X.canonical (values_env X.type_name X.canonical m) }
{}

/// A map of well formed values binds values without extension values, whatever the comparisons by
/// which they are well formed.
pub fn well_formed_maps_bind_plain_values()
    ensures { (R : _) (E : _) (P : _) (m : WellFormedMap held.NoExtension R E P) →
        BindsPlainValues {X = held.NoExtension} held.held_call (well_formed_env m) }
{
    no_extension_values();
}

/// The tree of a set has its members' trees as children; a literal and an extension value are a
/// tree alone. `values_by_kind` says the same of values and records.
pub fn trees_of_values<X>()
    ensures members { (s : Set X) → bare.list_of (bare_set s) ≡ map bare_value (members s) }
    ensures set { (s : Set X) → bare_value_kind (kinds.Set s) ≡ bare.SetValue (bare_set s) }
    ensures literal { (l : Literal) →
        bare_value_kind {X = X} (kinds.Lit l) ≡ bare.LitValue (bare_literal l) }
    ensures extension { (e : Rc (RepresentableExtensionValue X) Global) →
        bare_value_kind (kinds.ExtensionValue e) ≡ bare_representable e.value }
{}

/// What is inside of a well formed value is well formed, and so is its tree: the members of a well
/// formed set ascend strictly and are well formed, as the values of a well formed record are.
pub fn well_formed_parts<X: Ord>()
    ensures tree { (v : Value X) → IsTrue (well_formed X.cmp v)
        → IsTrue (is_well_formed X.cmp (bare_value v)) }
    ensures ascending { (s : Set X) → IsTrue (set_well_formed X.cmp s)
        → IsStrictlySortedBy (by_tree X.cmp) (members s) }
    ensures members { (s : Set X) → IsTrue (set_well_formed X.cmp s)
        → IsTrue (list_all (well_formed X.cmp) (members s)) }
    ensures set { (s : Set X) → IsTrue (kind_well_formed X.cmp (kinds.Set s))
        → IsTrue (set_well_formed X.cmp s) }
    ensures values { (m : Rc (BTreeMap (RcStr Global) (Value X)) Global) →
        IsTrue (kind_well_formed X.cmp (kinds.Record m))
        → IsTrue (list_all (λ e. well_formed X.cmp e.1) m.value.entries) }
    ensures extension { (e : Rc (RepresentableExtensionValue X) Global) →
        IsTrue (kind_well_formed X.cmp (kinds.ExtensionValue e)) }
{
    order_of_values::<X>();
}

/// The keys of each record inside a value strictly ascend, by bytes.
///
/// This one walks the value, since it is the maps inside that know the order of their keys.
pub fn value_keys_ascend<X>(value: &Value<X>)
    ensures { KeysAscend (bare_value value.now) }
{
    keys_ascend::walk(value);
}

/// Whether an extension value is inside of a value: none is in a literal, and in a set or a record
/// where one is in a member or in a value.
pub fn plain_values<X>()
    ensures literals { (l : Literal) →
        has_extension (bare_value_kind {X = X} (kinds.Lit l)) ≡ false }
    ensures sets { (s : Set X) → has_extension (bare_value_kind (kinds.Set s))
        ≡ list_any (λ v. has_extension (bare_value v)) (members s) }
    ensures records { (m : Rc (BTreeMap (RcStr Global) (Value X)) Global) →
        has_extension (bare_value_kind (kinds.Record m))
        ≡ list_any (λ e. has_extension (bare_value e.1)) m.value.entries }
    ensures extensions { (e : Rc (RepresentableExtensionValue X) Global) →
        has_extension (bare_value_kind (kinds.ExtensionValue e)) ≡ true }
{}

/// There is no extension value where these are `NoExtension`, so none is inside of a value, nor of
/// the values of a map.
pub fn no_extension_values()
    ensures none { held.NoExtension → ⊥ }
    ensures plain { (t : bare.BareValue held.NoExtension) → has_extension t ≡ false }
    ensures maps { (m : ValueMap held.NoExtension) → HasPlainValues m }
{
    plain_where_none::<NoExtension>();
}
