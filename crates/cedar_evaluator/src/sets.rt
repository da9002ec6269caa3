//! The sets that an evaluation makes.
ghost use Rattle.std.specs.Prelude.{◌≡◌, IfOk, IsTrue, map};
ghost use Rattle.std.specs.List.{list_all};
ghost use Rattle.cedar_values.specs.BareValues.{bare_value};
ghost use Rattle.cedar_values.specs.Sets.{by_tree};
ghost use Rattle.cedar_values.specs.WellFormed.{well_formed};
ghost use Rattle.semantics_eval.specs.Rows.{ascending_list, set_outcome, set_value};
ghost use Rattle.cedar_evaluator.specs.Outcomes.{meaning_of};

use crate::outcome::Outcome;
use crate::rows::split_row;
use cedar_sorted_slices::is_ascending;
use cedar_values::laws::{no_extension_values, order_of_values, values_by_kind};
use cedar_values::{NoExtension, Set, Value, ValueKind};
use semantics_eval::laws::{ascending_lists, one_list};
use semantics_values::laws::values_are_ordered;
use std::alloc::{AllocError, Global};
use std::collections::BTreeSet;

/// The set of some values: of those that are equal, the last is a member.
///
/// Where none is equal to another and their order is that of values, they are taken as they are.
/// Without extension values `plain_set_of` gives the same, faster.
pub fn set_of<X: Ord + Drop>(alloc: Global, values: Vec<Value<X>>) -> Result<Value<X>, AllocError>
    ensures tree { IfOk result (λ v. bare_value v
        ≡ set_value X.cmp (map bare_value values.items)) }
    ensures well_formed { IsTrue (list_all (well_formed X.cmp) values.items)
        → IfOk result (λ v. IsTrue (well_formed X.cmp v)) }
{
    values_are_ordered::<X>();
    values_by_kind::<X>();
    ascending_lists::<X>();
    let set = Set::new(alloc, ascending_of(alloc, values)?)?;
    Ok(Value::new(ValueKind::Set(set), None))
}

// The values, strictly ascending: the last of those that are equal.
fn ascending_of<X: Ord + Drop>(
    alloc: Global,
    values: Vec<Value<X>>,
) -> Result<Vec<Value<X>>, AllocError>
    ensures { IfOk result (λ vs. vs.items ≡ ascending_list (by_tree X.cmp) values.items) }
{
    order_of_values::<X>();
    if is_ascending(&values) {
        Ok(values)
    } else {
        inserted_from_last(alloc, values)
    }
}

// The values, strictly ascending: each is inserted, from the last on, unless its equal is there.
fn inserted_from_last<X: Ord + Drop>(
    alloc: Global,
    mut values: Vec<Value<X>>,
) -> Result<Vec<Value<X>>, AllocError>
    ensures { IfOk result (λ vs. vs.items ≡ ascending_list (by_tree X.cmp) values.items) }
{
    order_of_values::<X>();
    let mut members = BTreeSet::new(alloc);
    while let Some(value) = values.pop() {
        members.insert(value)?;
    }
    members.into_iter().collect(alloc)
}

/// The set of some values without extension values.
pub fn plain_set_of(
    alloc: Global,
    values: Vec<Value<NoExtension>>,
) -> Result<Value<NoExtension>, AllocError>
    ensures tree { IfOk result (λ v. bare_value v
        ≡ set_value ⟦<NoExtension as Ord>⟧.cmp (map bare_value values.items)) }
    ensures well_formed { IsTrue (list_all (well_formed ⟦<NoExtension as Ord>⟧.cmp) values.items)
        → IfOk result (λ v. IsTrue (well_formed ⟦<NoExtension as Ord>⟧.cmp v)) }
{
    values_are_ordered::<NoExtension>();
    values_by_kind::<NoExtension>();
    one_list::<NoExtension>();
    no_extension_values();
    let set = Set::new(alloc, values)?;
    Ok(Value::new(ValueKind::Set(set), None))
}

// The set of some outcomes without extension values, or the first fault.
pub(crate) fn plain_set(alloc: Global, members: Vec<Outcome>) -> Result<Outcome, AllocError>
    ensures { IfOk result (λ m. meaning_of m
        ≡ set_outcome ⟦<NoExtension as Ord>⟧.cmp (map meaning_of members.items)) }
{
    match split_row(alloc, members)? {
        Ok(values) => Ok(Outcome::of_value(plain_set_of(alloc, values)?)),
        Err(fault) => Ok(Outcome::of_fault(fault)),
    }
}
