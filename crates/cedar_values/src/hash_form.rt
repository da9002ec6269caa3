//! The literals of a set by hash, which it keeps beside its members (`fast` of Cedar's `Set`).
ghost use Rattle.std.specs.Prelude.{◌≡◌, ◌∷◌, IsTrue, IfOk, OnOk, map, not, option_map};
ghost use Rattle.std.specs.List.{IsDistinct, list_all};
ghost use Rattle.cedar_sorted_slices.specs.Classes.{IsClassesOf};
ghost use Rattle.cedar_terms.specs.LiteralOrder.{literal_eq};
ghost use Rattle.cedar_terms.specs.Literals.{bare_literal};
ghost use Rattle.cedar_values.specs.BareValues.{bare_value};
ghost use Rattle.cedar_values.specs.HashForms.{
  HasLiterals,
  is_among,
  is_hash_form,
  is_literal_among,
  literals_in,
  literals_of,
};
ghost use Rattle.cedar_values.specs.Sets.{HaveEachOf, by_tree};

use crate::laws::order_of_values;
use crate::value::{Value, are_literals};
use cedar_terms::Literal;
use semantics_values::laws::values_are_ordered;
use std::alloc::{AllocError, Global};
use std::collections::HashSet;
use std::rc::Rc;

// Room is made at first for so many literals at most: of many values few may be different.
const FIRST_ROOM: usize = 128;

// The members of the set of some values, strictly ascending, and their hash form: of literals,
// which are kept by hash as they come, the first of each is sorted, and no search for repeats
// follows.
pub(crate) fn with_hash_form<X: Ord + Drop>(
    alloc: Global,
    values: Vec<Value<X>>,
) -> Result<(Vec<Value<X>>, Option<Rc<HashSet<Literal>>>), AllocError>
    ensures classes { IfOk result (λ made.
        IsClassesOf (by_tree X.cmp) made.0.items values.items) }
    ensures hashed { IfOk result (λ made. IsTrue (is_hash_form (map bare_value made.0.items)
        (option_map (λ h. literals_of h.value) made.1))) }
{
    order_of_values::<X>();
    values_are_ordered::<X>();
    if !are_literals(&values) {
        return Ok((cedar_sorted_slices::into_ascending(values), None));
    }
    let (firsts, literals) = firsts_by_hash(alloc, values)?;
    let literals = Rc::new(alloc, literals)?;
    Ok((cedar_sorted_slices::into_sorted(firsts), Some(literals)))
}

// The first value of each literal, every value that is none, and the literals by hash.
//
// They are taken in the order in which the values are handed in, in which their texts lie in memory
// beside one another more often than in their own.
fn firsts_by_hash<X: Ord + Drop>(
    alloc: Global,
    values: Vec<Value<X>>,
) -> Result<(Vec<Value<X>>, HashSet<Literal>), AllocError>
    ensures each { IfOk result (λ made. HaveEachOf X.cmp made.0.items values.items) }
    ensures hashed { IfOk result (λ made.
        HasLiterals (literals_in (map bare_value made.0.items)) made.1) }
    ensures distinct { IfOk result (λ made.
        IsDistinct literal_eq (literals_in (map bare_value made.0.items))) }
{
    values_are_ordered::<X>();
    let mut firsts = Vec::with_capacity(alloc, values.len())?;
    let mut literals = HashSet::with_capacity(alloc, values.len().min(FIRST_ROOM))?;
    for value in values {
        let is_first = match value.try_as_lit() {
            Some(literal) => add_literal(alloc, &mut literals, literal)?,
            None => true,
        };
        if is_first {
            firsts.push(value)?;
        }
    }
    Ok((firsts, literals))
}

// The same literals, shared.
pub(crate) fn share(
    literals: &Option<Rc<HashSet<Literal>>>,
) -> Result<Option<Rc<HashSet<Literal>>>, AllocError>
    ensures { IfOk result (λ copy. option_map (λ h. literals_of h.value) copy
        ≡ option_map (λ h. literals_of h.value) literals.now) }
{
    match literals {
        Some(literals) => Ok(Some(literals.clone()?)),
        None => Ok(None),
    }
}

// Adds a copy of a literal, if it is new, and says whether it was.
fn add_literal(
    alloc: Global,
    literals: &mut HashSet<Literal>,
    literal: &Literal,
) -> Result<bool, AllocError>
    ensures literals { OnOk result
        (HasLiterals (bare_literal literal.now ∷ literals_of literals.old) literals.new) }
    ensures is_new { IfOk result (λ is_new.
        is_new ≡ not (is_among (literals_of literals.old) (bare_literal literal.now))) }
{
    Ok(literals.insert(literal.clone(alloc)?)?)
}

// Whether it is the hash form of members of which no two are the same literal.
//
// It has as many literals as there are members, and each member is looked up.
pub(crate) fn is_hash_form<X: Drop>(
    members: &[Value<X>],
    literals: Option<&HashSet<Literal>>,
) -> bool
    ensures { IsDistinct literal_eq (literals_in (map bare_value members.now)) →
        result ≡ is_hash_form (map bare_value members.now)
        (option_map (λ h. literals_of h.now) literals.entry) }
{
    match literals {
        Some(literals) => literals.len() == members.len() && are_among(members, literals),
        None => !are_literals(members),
    }
}

// Whether each member is one of the literals.
fn are_among<X>(members: &[Value<X>], literals: &HashSet<Literal>) -> bool
    ensures { result ≡ list_all
        (λ v. is_literal_among (literals_of literals.now) (bare_value v)) members.now }
{
    members.iter().all(|member| is_among(member, literals))
}

// Whether a value is one of the literals.
pub(crate) fn is_among<X>(value: &Value<X>, literals: &HashSet<Literal>) -> bool
    ensures { result ≡ is_literal_among (literals_of literals.now) (bare_value value.now) }
{
    match value.try_as_lit() {
        Some(literal) => literals.contains(literal),
        None => false,
    }
}
