//! Values with their places (`value.rs`).
ghost use Rattle.std.specs.Prelude.{◌≡◌, ◌↔◌, None, IsTrue, IfOk, map, option_map};
ghost use Rattle.std.specs.List.{list_all};
ghost use Rattle.std.specs.Option.{option_copied};
ghost use Rattle.cedar_terms.specs.Literals.{bare_literal};
ghost use Rattle.cedar_sorted_slices.specs.Classes.{IsClassesOf};
ghost use Rattle.semantics_values.specs.BareValue as bare;
ghost use Rattle.semantics_values.specs.ValueOrder.{value_eq};
ghost use Rattle.semantics_values.specs.ValueTypes.{value_type};
ghost use Rattle.cedar_values.specs.BareValues.{
  bare_value,
  bare_value_kind,
  kind_of,
  value_place,
};
ghost use Rattle.cedar_values.specs.Kinds.{
  IsCopy,
  IsKindCopy,
  IsRecordWith,
  IsSetWith,
  IsValueCopy,
};
ghost use Rattle.cedar_values.specs.Places.{is_lit_value, literal_of, literal_value, unplaced};
ghost use Rattle.cedar_values.specs.Records.{IsLastOfEach};
ghost use Rattle.cedar_values.specs.Sets.{by_tree, has_hash_form, members};
ghost use Rattle.cedar_values.specs.WellFormed.{kind_well_formed, well_formed};

use crate::dropping::drop_kind;
use crate::extension_value::{ExtensionValue, NoExtension, RepresentableExtensionValue};
use crate::laws::order_of_values;
use crate::literals::literal_value;
use crate::record::last_of_each;
use crate::set::Set;
use cedar_names::Loc;
use cedar_terms::{Literal, StaticallyTyped, Type};
use std::alloc::{AllocError, Global};
use std::collections::BTreeMap;
use std::mem;
use std::rc::{Rc, RcStr};

/// A value with the place where it was written, if known.
///
/// Values compare by their kinds; places and the representations of extension values do not count.
#[cycle(value)]
#[derive(Debug)]
#[derive_where(PartialEq, Eq, PartialOrd, Ord; X)]
pub struct Value<X = NoExtension> {
    value: ValueKind<X>,
    #[derive_where(skip(EqHashOrd))]
    loc: Option<Loc>,
}

/// The kinds of values, in their order.
#[cycle(value)]
#[derive(Debug, PartialEq, Eq, PartialOrd, Ord, Drop)]
pub enum ValueKind<X = NoExtension> {
    /// A literal.
    Lit(Literal),
    /// A set.
    Set(Set<X>),
    /// A record, by key.
    Record(Rc<BTreeMap<RcStr, Value<X>>>),
    /// A value of an extension.
    ExtensionValue(Rc<RepresentableExtensionValue<X>>),
}

impl<X: Drop> Drop for Value<X> {
    fn drop(self) {
        drop_kind(self.into_kind());
    }
}

impl<X> Value<X> {
    /// A value of a kind, at a place.
    pub fn new(kind: ValueKind<X>, loc: Option<Loc>) -> Value<X>
        ensures kind { kind_of result ≡ kind }
        ensures place { value_place result ≡ loc }
        ensures well_formed { (R : _) → well_formed R result ≡ kind_well_formed R kind }
    {
        Value { value: kind, loc }
    }

    /// The kind.
    pub fn value_kind(&self) -> &ValueKind<X>
        ensures { result.now ≡ kind_of self.now }
    {
        &self.value
    }

    /// The place, if it is known.
    pub fn source_loc(&self) -> Option<&Loc>
        ensures { option_copied result ≡ value_place self.now }
    {
        self.loc.as_ref()
    }

    /// The literal, if it is one. Takes no memory.
    pub fn try_as_lit(&self) -> Option<&Literal>
        ensures { option_map (λ l. bare_literal l.now) result ≡ literal_of (bare_value self.now) }
    {
        self.value.try_as_lit()
    }

    /// The record of these keys and values.
    pub fn record_arc(pairs: Rc<BTreeMap<RcStr, Value<X>>>, loc: Option<Loc>) -> Value<X>
        ensures kind { kind_of result ≡ ValueKind.Record pairs }
        ensures place { value_place result ≡ loc }
        ensures well_formed { (R : _) → well_formed R result
            ≡ list_all (λ e. well_formed R e.1) pairs.value.entries }
    {
        Value::new(ValueKind::record_arc(pairs), loc)
    }
}

impl<X: Drop> Value<X> {
    /// The kind alone.
    pub fn into_kind(self) -> ValueKind<X>
        ensures { result ≡ kind_of self }
    {
        let Value { value, loc: _ } = self;
        value
    }

    /// The kind and the place: what `new` takes.
    pub fn into_parts(self) -> (ValueKind<X>, Option<Loc>)
        ensures kind { result.0 ≡ kind_of self }
        ensures place { result.1 ≡ value_place self }
    {
        let Value { value, loc } = self;
        (value, loc)
    }

    // The kind, in whose place another is put.
    pub(crate) fn replace_kind(&mut self, kind: ValueKind<X>) -> ValueKind<X>
        ensures taken { result ≡ kind_of self.old }
        ensures put { kind_of self.new ≡ kind }
    {
        mem::replace(&mut self.value, kind)
    }

    /// The same value at another place, or at none. The places inside stay.
    pub fn with_maybe_source_loc(self, loc: Option<Loc>) -> Value<X>
        ensures kind { kind_of result ≡ kind_of self }
        ensures place { value_place result ≡ loc }
        ensures well_formed { (R : _) → well_formed R result ≡ well_formed R self }
    {
        let Value { value, loc: _ } = self;
        Value { value, loc }
    }

    // The same value at no place.
    fn unplaced(self) -> Value<X>
        ensures { result ≡ unplaced self }
    {
        self.with_maybe_source_loc(None)
    }

    // Whether it is a literal.
    fn is_literal(&self) -> bool
        ensures { result ≡ is_lit_value (bare_value self.now) }
    {
        match self.value_kind() {
            ValueKind::Lit(_) => true,
            ValueKind::Set(_) => false,
            ValueKind::Record(_) => false,
            ValueKind::ExtensionValue(_) => false,
        }
    }

    /// A copy, which shares what is inside and takes no memory.
    pub fn clone(&self, _alloc: Global) -> Result<Value<X>, AllocError>
        ensures tree { IfOk result (λ v. bare_value v ≡ bare_value self.now) }
        ensures place { IfOk result (λ v. value_place v ≡ value_place self.now) }
        ensures inside { IfOk result (λ v. IsCopy (kind_of self.now) (kind_of v)) }
        ensures well_formed { IfOk result (λ v. (R : _) →
            well_formed R v ≡ well_formed R self.now) }
    {
        self.copied()
    }

    // A copy.
    fn copied(&self) -> Result<Value<X>, AllocError>
        ensures tree { IfOk result (λ v. bare_value v ≡ bare_value self.now) }
        ensures place { IfOk result (λ v. value_place v ≡ value_place self.now) }
        ensures inside { IfOk result (λ v. IsCopy (kind_of self.now) (kind_of v)) }
        ensures well_formed { IfOk result (λ v. (R : _) →
            well_formed R v ≡ well_formed R self.now) }
    {
        let kind = self.value.copied()?;
        let loc = self.loc.clone()?;
        Ok(Value::new(kind, loc))
    }
}

impl<X: Drop> Clone for Value<X> {
    ghost is_clone = { IsValueCopy };

    fn clone(&self) -> Result<Value<X>, AllocError> {
        self.copied()
    }
}

// Whether all of them are literals.
pub(crate) fn are_literals<X: Drop>(values: &[Value<X>]) -> bool
    ensures { result ≡ list_all (λ v. is_lit_value (bare_value v)) values.now }
{
    values.iter().all(|value| value.is_literal())
}

// The values at no place.
pub(crate) fn without_places<X: Drop>(
    alloc: Global,
    values: Vec<Value<X>>,
) -> Result<Vec<Value<X>>, AllocError>
    ensures { IfOk result (λ made. made.items ≡ map unplaced values.items) }
{
    values
        .into_iter()
        .map(|value| value.unplaced())
        .collect(alloc)
}

// The literals as values, at no place.
pub(crate) fn literal_values<X: Drop>(
    alloc: Global,
    lits: Vec<Literal>,
) -> Result<Vec<Value<X>>, AllocError>
    ensures { IfOk result (λ made. made.items ≡ map literal_value lits.items) }
{
    lits.into_iter()
        .map(|literal| literal_value(literal))
        .collect(alloc)
}

impl<X: Ord + Drop> Value<X> {
    /// The set without members.
    pub fn empty_set(alloc: Global, loc: Option<Loc>) -> Result<Value<X>, AllocError>
        ensures tree { IfOk result (λ v. bare_value v ≡ bare.SetValue bare.no_values) }
        ensures well_formed { IfOk result (λ v. IsTrue (well_formed X.cmp v)) }
        ensures hash_form { IfOk result (λ v. IsSetWith
            (λ s. IsTrue (has_hash_form s)) (kind_of v)) }
        ensures place { IfOk result (λ v. value_place v ≡ loc) }
    {
        let kind = ValueKind::empty_set(alloc)?;
        Ok(Value::new(kind, loc))
    }

    /// The record without keys.
    pub fn empty_record(alloc: Global, loc: Option<Loc>) -> Result<Value<X>, AllocError>
        ensures tree { IfOk result (λ v. bare_value v ≡ bare.RecordValue bare.no_pairs) }
        ensures well_formed { IfOk result (λ v. IsTrue (well_formed X.cmp v)) }
        ensures place { IfOk result (λ v. value_place v ≡ loc) }
    {
        let kind = ValueKind::empty_record(alloc)?;
        Ok(Value::new(kind, loc))
    }

    /// The set of some values, as `Set::new` makes it.
    pub fn set(
        alloc: Global,
        values: Vec<Value<X>>,
        loc: Option<Loc>,
    ) -> Result<Value<X>, AllocError>
        ensures classes { IfOk result (λ v. IsSetWith
            (λ s. IsClassesOf (by_tree X.cmp) (members s) values.items) (kind_of v)) }
        ensures well_formed { IfOk result (λ v. IsTrue (list_all (well_formed X.cmp) values.items)
            → IsTrue (well_formed X.cmp v)) }
        ensures hash_form { IfOk result (λ v. IsSetWith
            (λ s. IsTrue (has_hash_form s)) (kind_of v)) }
        ensures place { IfOk result (λ v. value_place v ≡ loc) }
    {
        let kind = ValueKind::set(alloc, values)?;
        Ok(Value::new(kind, loc))
    }

    /// The set of some literals. Its members are at no place.
    pub fn set_of_lits(
        alloc: Global,
        lits: Vec<Literal>,
        loc: Option<Loc>,
    ) -> Result<Value<X>, AllocError>
        ensures classes { IfOk result (λ v. IsSetWith
            (λ s. IsClassesOf (by_tree X.cmp) (members s) (map literal_value lits.items))
            (kind_of v)) }
        ensures well_formed { IfOk result (λ v. IsTrue (well_formed X.cmp v)) }
        ensures hash_form { IfOk result (λ v. IsSetWith
            (λ s. IsTrue (has_hash_form s)) (kind_of v)) }
        ensures place { IfOk result (λ v. value_place v ≡ loc) }
    {
        let kind = ValueKind::set_of_lits(alloc, lits)?;
        Ok(Value::new(kind, loc))
    }

    /// The set of some values, at no place; its members stay at theirs.
    pub fn from_vec(alloc: Global, values: Vec<Value<X>>) -> Result<Value<X>, AllocError>
        ensures classes { IfOk result (λ v. IsSetWith
            (λ s. IsClassesOf (by_tree X.cmp) (members s) values.items) (kind_of v)) }
        ensures well_formed { IfOk result (λ v. IsTrue (list_all (well_formed X.cmp) values.items)
            → IsTrue (well_formed X.cmp v)) }
        ensures hash_form { IfOk result (λ v. IsSetWith
            (λ s. IsTrue (has_hash_form s)) (kind_of v)) }
        ensures place { IfOk result (λ v. value_place v ≡ None) }
    {
        Value::set(alloc, values, None)
    }

    /// The record of some pairs: of equal keys the last counts.
    pub fn record(
        alloc: Global,
        pairs: Vec<(RcStr, Value<X>)>,
        loc: Option<Loc>,
    ) -> Result<Value<X>, AllocError>
        ensures pairs { IfOk result (λ v. IsRecordWith (IsLastOfEach pairs.items) (kind_of v)) }
        ensures well_formed { IfOk result (λ v.
            IsTrue (list_all (λ p. well_formed X.cmp p.1) pairs.items)
            → IsTrue (well_formed X.cmp v)) }
        ensures place { IfOk result (λ v. value_place v ≡ loc) }
    {
        let kind = ValueKind::record(alloc, pairs)?;
        Ok(Value::new(kind, loc))
    }

    /// Whether the two are the same value, at the same place or both at none. The places inside do
    /// not count.
    pub fn eq_and_same_source_loc(&self, other: &Value<X>) -> bool
        ensures { IsTrue result
            ↔ (IsTrue (value_eq X.eq (bare_value self.now) (bare_value other.now))
            × (value_place self.now ≡ value_place other.now)) }
    {
        order_of_values::<X>();
        self == other && self.loc == other.loc
    }

    /// Whether each set inside is well formed, as `Set::is_well_formed` says.
    #[cycle(well_formed)]
    pub fn is_well_formed(&self) -> bool
        ensures { result ≡ well_formed X.cmp self.now }
    {
        self.value.is_well_formed()
    }
}

impl<X> ValueKind<X> {
    /// The record of these keys and values.
    pub fn record_arc(pairs: Rc<BTreeMap<RcStr, Value<X>>>) -> ValueKind<X>
        ensures kind { result ≡ ValueKind.Record pairs }
        ensures well_formed { (R : _) → kind_well_formed R result
            ≡ list_all (λ e. well_formed R e.1) pairs.value.entries }
    {
        ValueKind::Record(pairs)
    }

    /// The literal, if it is one. Takes no memory.
    pub fn try_as_lit(&self) -> Option<&Literal>
        ensures { option_map (λ l. bare_literal l.now) result
            ≡ literal_of (bare_value_kind self.now) }
    {
        match self {
            ValueKind::Lit(literal) => Some(literal),
            ValueKind::Set(_) => None,
            ValueKind::Record(_) => None,
            ValueKind::ExtensionValue(_) => None,
        }
    }
}

impl<X: Drop> ValueKind<X> {
    /// A copy, which shares what is inside and takes no memory.
    pub fn clone(&self, _alloc: Global) -> Result<ValueKind<X>, AllocError>
        ensures tree { IfOk result (λ k. bare_value_kind k ≡ bare_value_kind self.now) }
        ensures inside { IfOk result (λ k. IsCopy self.now k) }
        ensures well_formed { IfOk result (λ k. (R : _) →
            kind_well_formed R k ≡ kind_well_formed R self.now) }
    {
        self.copied()
    }

    // A copy.
    fn copied(&self) -> Result<ValueKind<X>, AllocError>
        ensures tree { IfOk result (λ k. bare_value_kind k ≡ bare_value_kind self.now) }
        ensures inside { IfOk result (λ k. IsCopy self.now k) }
        ensures well_formed { IfOk result (λ k. (R : _) →
            kind_well_formed R k ≡ kind_well_formed R self.now) }
    {
        match self {
            ValueKind::Lit(literal) => Ok(ValueKind::Lit(Clone::clone(literal)?)),
            ValueKind::Set(set) => Ok(ValueKind::Set(set.copied()?)),
            ValueKind::Record(pairs) => Ok(ValueKind::Record(pairs.clone()?)),
            ValueKind::ExtensionValue(value) => Ok(ValueKind::ExtensionValue(value.clone()?)),
        }
    }
}

impl<X: Drop> Clone for ValueKind<X> {
    ghost is_clone = { IsKindCopy };

    fn clone(&self) -> Result<ValueKind<X>, AllocError> {
        self.copied()
    }
}

impl<X: Ord + Drop> ValueKind<X> {
    /// The set without members.
    pub fn empty_set(alloc: Global) -> Result<ValueKind<X>, AllocError>
        ensures tree { IfOk result (λ k. bare_value_kind k ≡ bare.SetValue bare.no_values) }
        ensures well_formed { IfOk result (λ k. IsTrue (kind_well_formed X.cmp k)) }
        ensures hash_form { IfOk result (IsSetWith (λ s. IsTrue (has_hash_form s))) }
    {
        let set = Set::empty(alloc)?;
        Ok(ValueKind::Set(set))
    }

    /// The record without keys.
    pub fn empty_record(alloc: Global) -> Result<ValueKind<X>, AllocError>
        ensures tree { IfOk result (λ k. bare_value_kind k ≡ bare.RecordValue bare.no_pairs) }
        ensures well_formed { IfOk result (λ k. IsTrue (kind_well_formed X.cmp k)) }
    {
        let map = Rc::new(alloc, BTreeMap::new(alloc))?;
        Ok(ValueKind::Record(map))
    }

    /// The set of some values, as `Set::new` makes it.
    pub fn set(alloc: Global, values: Vec<Value<X>>) -> Result<ValueKind<X>, AllocError>
        ensures classes { IfOk result (IsSetWith
            (λ s. IsClassesOf (by_tree X.cmp) (members s) values.items)) }
        ensures well_formed { IfOk result (λ k. IsTrue (list_all (well_formed X.cmp) values.items)
            → IsTrue (kind_well_formed X.cmp k)) }
        ensures hash_form { IfOk result (IsSetWith (λ s. IsTrue (has_hash_form s))) }
    {
        let set = Set::new(alloc, values)?;
        Ok(ValueKind::Set(set))
    }

    /// The set of some literals. Its members are at no place.
    pub fn set_of_lits(alloc: Global, lits: Vec<Literal>) -> Result<ValueKind<X>, AllocError>
        ensures classes { IfOk result (IsSetWith
            (λ s. IsClassesOf (by_tree X.cmp) (members s) (map literal_value lits.items))) }
        ensures well_formed { IfOk result (λ k. IsTrue (kind_well_formed X.cmp k)) }
        ensures hash_form { IfOk result (IsSetWith (λ s. IsTrue (has_hash_form s))) }
    {
        let set = Set::from_lits(alloc, lits)?;
        Ok(ValueKind::Set(set))
    }

    /// The set of some values; its members stay at their places.
    pub fn from_vec(alloc: Global, values: Vec<Value<X>>) -> Result<ValueKind<X>, AllocError>
        ensures classes { IfOk result (IsSetWith
            (λ s. IsClassesOf (by_tree X.cmp) (members s) values.items)) }
        ensures well_formed { IfOk result (λ k. IsTrue (list_all (well_formed X.cmp) values.items)
            → IsTrue (kind_well_formed X.cmp k)) }
        ensures hash_form { IfOk result (IsSetWith (λ s. IsTrue (has_hash_form s))) }
    {
        ValueKind::set(alloc, values)
    }

    /// The record of some pairs: of equal keys the last counts.
    pub fn record(alloc: Global, pairs: Vec<(RcStr, Value<X>)>) -> Result<ValueKind<X>, AllocError>
        ensures pairs { IfOk result (IsRecordWith (IsLastOfEach pairs.items)) }
        ensures well_formed { IfOk result (λ k.
            IsTrue (list_all (λ p. well_formed X.cmp p.1) pairs.items)
            → IsTrue (kind_well_formed X.cmp k)) }
    {
        let entries = last_of_each(alloc, pairs)?;
        let map = Rc::new(alloc, entries)?;
        Ok(ValueKind::Record(map))
    }

    /// Whether each set inside is well formed, as `Set::is_well_formed` says.
    #[cycle(well_formed)]
    pub fn is_well_formed(&self) -> bool
        ensures { result ≡ kind_well_formed X.cmp self.now }
    {
        match self {
            ValueKind::Lit(_) => true,
            ValueKind::Set(set) => set.is_well_formed(),
            ValueKind::Record(pairs) => {
                for value in pairs.values() {
                    if !value.is_well_formed() {
                        return false;
                    }
                }
                true
            }
            ValueKind::ExtensionValue(_) => true,
        }
    }
}

impl<X: ExtensionValue> StaticallyTyped for ValueKind<X> {
    ghost bare_type_of = { λ k. value_type X.type_name (bare_value_kind k) };

    fn type_of(&self, alloc: Global) -> Result<Type, AllocError> {
        match self {
            ValueKind::Lit(literal) => literal.type_of(alloc),
            ValueKind::Set(_) => Ok(Type::Set),
            ValueKind::Record(_) => Ok(Type::Record),
            ValueKind::ExtensionValue(value) => value.type_of(alloc),
        }
    }
}

impl<X: ExtensionValue> StaticallyTyped for Value<X> {
    ghost bare_type_of = { λ v. value_type X.type_name (bare_value v) };

    fn type_of(&self, alloc: Global) -> Result<Type, AllocError> {
        self.value_kind().type_of(alloc)
    }
}
