//! The outcomes of a node's children: their values, or the first fault.
ghost use Rattle.std.specs.Prelude.{◌≡◌, IfOk, IsTrue, OnOk, map};
ghost use Rattle.std.specs.BTreeMap.{insert_entry};
ghost use Rattle.std.specs.List.{list_all};
ghost use Rattle.std.specs.Result.{result_err};
ghost use Rattle.cedar_builders.specs.Fold.{on_one};
ghost use Rattle.cedar_builders.specs.Keys.{IsAscending, keys_of, meant_pairs};
ghost use Rattle.cedar_builders.specs.Walks.{first_of};
ghost use Rattle.semantics_values.specs.BareValue.{RecordValue, pairs_of};
ghost use Rattle.cedar_values.specs.BareValues.{bare_value};
ghost use Rattle.cedar_values.specs.Records.{key_cmp};
ghost use Rattle.cedar_values.specs.WellFormed.{well_formed};
ghost use Rattle.semantics_eval.specs.Rows.{all_pairs, all_values};
ghost use Rattle.cedar_evaluator.specs.Outcomes.{
  faulted,
  meaning_of,
  placed_fault_of,
  unplaced,
};

use crate::fault::EvaluationFault;
use crate::outcome::Outcome;
use cedar_values::Value;
use cedar_values::laws::values_by_kind;
use std::alloc::{AllocError, Global};
use std::collections::BTreeMap;
use std::rc::{Rc, RcStr};

/// The values of some outcomes, or the first fault with its place.
pub fn split_row<X: Ord + Drop>(
    alloc: Global,
    row: Vec<Outcome<X>>,
) -> Result<Result<Vec<Value<X>>, EvaluationFault>, AllocError>
    ensures values { IfOk result (λ split.
        on_one (λ vs. map bare_value vs.items) (faulted (unplaced split))
        ≡ all_values (map meaning_of row.items)) }
    ensures fault { IfOk result (λ split.
        result_err split ≡ first_of placed_fault_of row.items) }
    ensures well_formed { IfOk result (λ split. IfOk split (λ vs.
        IsTrue (list_all (well_formed X.cmp) vs.items))) }
{
    let mut values = Vec::with_capacity(alloc, row.len())?;
    for outcome in row {
        match outcome.into_result() {
            Ok(value) => values.push(value)?,
            Err(fault) => return Ok(Err(fault)),
        }
    }
    Ok(Ok(values))
}

/// The keys and values of a record, or the first fault with its place.
pub fn split_pairs<X: Ord + Drop>(
    alloc: Global,
    row: Vec<(RcStr, Outcome<X>)>,
) -> Result<Result<Vec<(RcStr, Value<X>)>, EvaluationFault>, AllocError>
    ensures pairs { IfOk result (λ split.
        on_one (λ ps. meant_pairs bare_value ps.items) (faulted (unplaced split))
        ≡ all_pairs (meant_pairs meaning_of row.items)) }
    ensures fault { IfOk result (λ split.
        result_err split ≡ first_of (λ p. placed_fault_of p.1) row.items) }
    ensures keys { IfOk result (λ split. IfOk split (λ ps.
        keys_of ps.items ≡ keys_of row.items)) }
    ensures well_formed { IfOk result (λ split. IfOk split (λ ps.
        IsTrue (list_all (λ p. well_formed X.cmp p.1) ps.items))) }
{
    let mut pairs = Vec::with_capacity(alloc, row.len())?;
    for (key, outcome) in row {
        match outcome.into_result() {
            Ok(value) => pairs.push((key, value))?,
            Err(fault) => return Ok(Err(fault)),
        }
    }
    Ok(Ok(pairs))
}

/// The record of some pairs whose keys ascend, by bytes.
pub fn record_of<X: Ord + Drop>(
    alloc: Global,
    pairs: Vec<(RcStr, Value<X>)>,
) -> Result<Value<X>, AllocError>
    ensures tree { IsAscending (keys_of pairs.items) → IfOk result (λ v. bare_value v
        ≡ RecordValue (pairs_of (meant_pairs bare_value pairs.items))) }
    ensures well_formed { IsTrue (list_all (λ p. well_formed X.cmp p.1) pairs.items)
        → IfOk result (λ v. IsTrue (well_formed X.cmp v)) }
{
    values_by_kind::<X>();
    let values = Rc::new(alloc, by_key(alloc, pairs)?)?;
    Ok(Value::record_arc(values, None))
}

// The values of some pairs by their keys.
fn by_key<X: Ord + Drop>(
    alloc: Global,
    pairs: Vec<(RcStr, Value<X>)>,
) -> Result<BTreeMap<RcStr, Value<X>>, AllocError>
    ensures same { IsAscending (keys_of pairs.items) → IfOk result (λ m. m.entries ≡ pairs.items) }
    ensures well_formed { IsTrue (list_all (λ p. well_formed X.cmp p.1) pairs.items)
        → IfOk result (λ m. IsTrue (list_all (λ e. well_formed X.cmp e.1) m.entries)) }
{
    let mut values = BTreeMap::new(alloc);
    for (key, value) in pairs {
        insert_value(&mut values, key, value)?;
    }
    Ok(values)
}

// Puts a value to a key.
fn insert_value<V: Drop>(
    map: &mut BTreeMap<RcStr, V>,
    key: RcStr,
    value: V,
) -> Result<(), AllocError>
    ensures { OnOk result
        (map.new.entries ≡ insert_entry key_cmp map.old.entries key value) }
{
    map.insert(key, value)?;
    Ok(())
}
