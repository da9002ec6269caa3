//! Sets of values (`value.rs`).
ghost use Rattle.std.specs.Prelude.{
  ◌≡◌,
  ◌↔◌,
  [],
  List,
  IsTrue,
  IfOk,
  IfSome,
  is_some,
  length,
  map,
  option_map,
};
ghost use Rattle.std.specs.Cmp.{IsTotalOrder};
ghost use Rattle.std.specs.List.{list_all};
ghost use Rattle.std.specs.Slice.Iter.{iter_rest};
ghost use Rattle.cedar_sorted_slices.specs.Classes.{
  HaveNoneInCommon,
  HaveSameClasses,
  IsClassesOf,
  IsPartOf,
  has_class,
};
ghost use Rattle.cedar_values.specs.BareValues.{bare_value};
ghost use Rattle.cedar_values.specs.HashForms.{literals_of};
ghost use Rattle.cedar_values.specs.Places.{gathered, is_lit_value, literal_value};
ghost use Rattle.cedar_values.specs.Sets.{
  HoldsJust,
  IsSetCopy,
  by_tree,
  has_hash_form,
  hashed_literals,
  members,
};
ghost use Rattle.cedar_values.specs.WellFormed.{set_well_formed, well_formed};

use crate::extension_value::NoExtension;
use crate::hash_form::{is_among, is_hash_form, share, with_hash_form};
use crate::laws::order_of_values;
use crate::value::{Value, are_literals, literal_values, without_places};
use cedar_terms::Literal;
use std::alloc::{AllocError, Global};
use std::collections::HashSet;
use std::rc::Rc;
use std::slice;

/// A set of values, as the strictly ascending list of its members. Where all of them are literals,
/// as those of the empty set are, they are kept by hash too.
#[cycle(value)]
#[derive(Drop)]
#[derive_where(Debug, PartialEq, Eq, PartialOrd, Ord; X)]
pub struct Set<X = NoExtension> {
    authoritative: Rc<Vec<Value<X>>>,
    #[derive_where(skip(EqHashOrd))]
    fast: Option<Rc<HashSet<Literal>>>,
}

impl<X: Drop> Set<X> {
    // The set with these members, in this order, and with these literals by hash.
    fn of_members(
        alloc: Global,
        values: Vec<Value<X>>,
        literals: Option<Rc<HashSet<Literal>>>,
    ) -> Result<Set<X>, AllocError>
        ensures members { IfOk result (λ s. members s ≡ values.items) }
        ensures hashed { IfOk result (λ s. hashed_literals s
            ≡ option_map (λ h. literals_of h.value) literals) }
    {
        let members = Rc::new(alloc, values)?;
        Ok(Set {
            authoritative: members,
            fast: literals,
        })
    }

    // The list of members alone.
    pub(crate) fn into_row(self) -> Rc<Vec<Value<X>>>
        ensures { members self ≡ result.value.items }
    {
        let Set {
            authoritative,
            fast,
        } = self;
        drop(fast);
        authoritative
    }

    // A list of members without their hash form, as it waits while a value is dropped.
    pub(crate) fn of_row(row: Rc<Vec<Value<X>>>) -> Set<X>
        ensures { members result ≡ row.value.items }
    {
        Set {
            authoritative: row,
            fast: None,
        }
    }

    /// A copy, which shares the members in both their forms and takes no memory.
    pub fn clone(&self, _alloc: Global) -> Result<Set<X>, AllocError>
        ensures members { IfOk result (λ s. members s ≡ members self.now) }
        ensures well_formed { IfOk result (λ s. (R : _) →
            set_well_formed R s ≡ set_well_formed R self.now) }
        ensures hash_form { IfOk result (λ s. has_hash_form s ≡ has_hash_form self.now) }
    {
        self.copied()
    }

    // A copy.
    pub(crate) fn copied(&self) -> Result<Set<X>, AllocError>
        ensures { IfOk result (IsSetCopy self.now) }
    {
        let fast = share(&self.fast)?;
        let members = self.authoritative.clone()?;
        Ok(Set {
            authoritative: members,
            fast,
        })
    }
}

impl<X: Drop> Clone for Set<X> {
    ghost is_clone = { IsSetCopy };

    fn clone(&self) -> Result<Set<X>, AllocError> {
        self.copied()
    }
}

impl<X> Set<X> {
    /// The members, strictly ascending.
    pub fn authoritative(&self) -> &[Value<X>]
        ensures { result.now ≡ members self.now }
    {
        self.authoritative.as_slice()
    }

    // The members by hash, if they are kept so.
    fn hash_form(&self) -> Option<&HashSet<Literal>>
        ensures { option_map (λ h. literals_of h.now) result ≡ hashed_literals self.now }
    {
        match &self.fast {
            Some(literals) => Some(literals),
            None => None,
        }
    }

    /// An iterator over the members, in their order.
    pub fn iter(&self) -> slice::Iter<'_, Value<X>>
        ensures { iter_rest result ≡ members self.now }
    {
        self.authoritative().iter()
    }

    /// How many members there are: of a well formed set, how many classes it has.
    pub fn len(&self) -> usize
        ensures members { result ≡ length (members self.now) }
        ensures classes { (R : _) → IsTotalOrder (by_tree R) → IsTrue (set_well_formed R self.now)
            → (xs : List (Value _)) → IsClassesOf (by_tree R) xs (members self.now)
            → result ≡ length xs }
    {
        self.authoritative().len()
    }

    /// Whether there is no member.
    pub fn is_empty(&self) -> bool
        ensures { IsTrue result ↔ (members self.now ≡ []) }
    {
        self.authoritative().is_empty()
    }

    /// The members by hash: given exactly where all of them are literals, and so of the empty set.
    /// Each call that makes a set makes one of which this holds.
    ///
    /// The hasher is std's default, `FoldHasher`, whose seed is fixed: sets made in the same way
    /// list their literals in the same order, and whoever chooses the literals can make them
    /// collide.
    pub fn fast(&self) -> Option<&HashSet<Literal>>
        ensures given { IsTrue (has_hash_form self.now)
            → is_some result ≡ list_all (λ v. is_lit_value (bare_value v)) (members self.now) }
        ensures just { IsTrue (has_hash_form self.now)
            → (R : _) → IfSome result (λ h. HoldsJust R (members self.now) h.now) }
        ensures well_formed { (R : _) → IsTrue (set_well_formed R self.now)
            → IsTrue (has_hash_form self.now) }
    {
        self.hash_form()
    }
}

impl<X: Ord + Drop> Set<X> {
    /// The set without members.
    pub fn empty(alloc: Global) -> Result<Set<X>, AllocError>
        ensures members { IfOk result (λ s. members s ≡ []) }
        ensures well_formed { IfOk result (λ s. IsTrue (set_well_formed X.cmp s)) }
        ensures hash_form { IfOk result (λ s. IsTrue (has_hash_form s)) }
    {
        let literals = Rc::new(alloc, HashSet::new(alloc))?;
        Set::of_members(alloc, Vec::new(alloc), Some(literals))
    }

    /// The set of some values: one of each that are the same, with its place. Of literals alone it
    /// is the first; otherwise it is not said which.
    pub fn new(alloc: Global, values: Vec<Value<X>>) -> Result<Set<X>, AllocError>
        ensures classes { IfOk result (λ s. IsClassesOf (by_tree X.cmp) (members s) values.items) }
        ensures well_formed { IfOk result (λ s. IsTrue (list_all (well_formed X.cmp) values.items)
            → IsTrue (set_well_formed X.cmp s)) }
        ensures hash_form { IfOk result (λ s. IsTrue (has_hash_form s)) }
    {
        let (members, literals) = with_hash_form(alloc, values)?;
        Set::of_members(alloc, members, literals)
    }

    /// The set of some literals. Its members are at no place.
    pub fn from_lits(alloc: Global, lits: Vec<Literal>) -> Result<Set<X>, AllocError>
        ensures classes { IfOk result (λ s.
            IsClassesOf (by_tree X.cmp) (members s) (map literal_value lits.items)) }
        ensures well_formed { IfOk result (λ s. IsTrue (set_well_formed X.cmp s)) }
        ensures hash_form { IfOk result (λ s. IsTrue (has_hash_form s)) }
    {
        let values = literal_values(alloc, lits)?;
        Set::new(alloc, values)
    }

    /// The set of some values, as `new` makes it (`FromIterator` of Cedar's file); but where all of
    /// them are literals, its members are at no place.
    pub fn from_values(alloc: Global, values: Vec<Value<X>>) -> Result<Set<X>, AllocError>
        ensures classes { IfOk result (λ s.
            IsClassesOf (by_tree X.cmp) (members s) (gathered values.items)) }
        ensures same { IfOk result (λ s. HaveSameClasses (by_tree X.cmp) (members s) values.items) }
        ensures well_formed { IfOk result (λ s. IsTrue (list_all (well_formed X.cmp) values.items)
            → IsTrue (set_well_formed X.cmp s)) }
        ensures hash_form { IfOk result (λ s. IsTrue (has_hash_form s)) }
    {
        if are_literals(&values) {
            let values = without_places(alloc, values)?;
            Set::new(alloc, values)
        } else {
            Set::new(alloc, values)
        }
    }

    /// Whether a value that is the same is a member: in a set of literals one look-up by hash, else
    /// a search by halving.
    pub fn contains(&self, value: &Value<X>) -> bool
        ensures { IsTrue (set_well_formed X.cmp self.now)
            → result ≡ has_class (by_tree X.cmp) (members self.now) value.now }
    {
        order_of_values::<X>();
        match self.hash_form() {
            Some(literals) => is_among(value, literals),
            None => cedar_sorted_slices::contains(self.authoritative(), value),
        }
    }

    /// Whether each member is one of the other's.
    pub fn is_subset(&self, other: &Set<X>) -> bool
        ensures { IsTrue (set_well_formed X.cmp self.now) → IsTrue (set_well_formed X.cmp other.now)
            → IsTrue result ↔ IsPartOf (by_tree X.cmp) (members self.now) (members other.now) }
    {
        order_of_values::<X>();
        match (self.hash_form(), other.hash_form()) {
            (Some(literals), Some(others)) if is_short_beside(literals, others) => {
                literals.is_subset(others)
            }
            (None, Some(_)) => false,
            _ => cedar_sorted_slices::is_subset(self.authoritative(), other.authoritative()),
        }
    }

    /// Whether no member is one of the other's.
    pub fn is_disjoint(&self, other: &Set<X>) -> bool
        ensures { IsTrue (set_well_formed X.cmp self.now) → IsTrue (set_well_formed X.cmp other.now)
            → IsTrue result
            ↔ HaveNoneInCommon (by_tree X.cmp) (members self.now) (members other.now) }
    {
        order_of_values::<X>();
        match (self.hash_form(), other.hash_form()) {
            (Some(literals), Some(others)) if is_short_beside(literals, others) => {
                literals.is_disjoint(others)
            }
            (Some(literals), Some(others)) if is_short_beside(others, literals) => {
                others.is_disjoint(literals)
            }
            _ => cedar_sorted_slices::is_disjoint(self.authoritative(), other.authoritative()),
        }
    }

    /// Whether this set, and each set inside, is well formed: its list ascends strictly, and its
    /// members are kept by hash exactly where all of them are literals.
    ///
    /// Members and literals by hash are counted, and each member is looked up by hash, so the time
    /// is proportional to what is inside.
    #[cycle(well_formed)]
    pub fn is_well_formed(&self) -> bool
        ensures { result ≡ set_well_formed X.cmp self.now }
    {
        order_of_values::<X>();
        for member in self.authoritative.iter() {
            if !member.is_well_formed() {
                return false;
            }
        }
        let members = self.authoritative.as_slice();
        cedar_sorted_slices::is_ascending(members) && is_hash_form(members, self.hash_form())
    }
}

// Whether some literals are looked up one by one in others: these are twice as many, or more. Else
// two sets of literals are compared by one walk over their ascending lists.
fn is_short_beside(literals: &HashSet<Literal>, others: &HashSet<Literal>) -> bool {
    literals.len() <= others.len() / 2
}
