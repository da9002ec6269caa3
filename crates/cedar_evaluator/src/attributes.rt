//! Attributes of records.
ghost use Rattle.std.specs.Prelude.{◌≡◌, IfOk, IfSome, IsTrue, Ok, map, option_map};
ghost use Rattle.std.specs.List.{list_all};
ghost use Rattle.std.specs.Rc.{rc_str_bytes};
ghost use Rattle.cedar_builders.specs.Fold.{on_one};
ghost use Rattle.cedar_builders.specs.Keys.{meant_pairs};
ghost use Rattle.cedar_values.specs.BareValues.{bare_value};
ghost use Rattle.cedar_values.specs.WellFormed.{well_formed};
ghost use Rattle.semantics_eval.specs.Attributes as meant;
ghost use Rattle.semantics_eval.specs.Outcomes.{truth};
ghost use Rattle.cedar_evaluator.specs.Kinds as kinds;
ghost use Rattle.cedar_evaluator.specs.Outcomes.{bare_fault, faulted};

use crate::fault::EvalFault;
use crate::kinds::{as_entity, as_record};
use cedar_values::Value;
use std::collections::BTreeMap;
use std::rc::RcStr;

// Why a value that is no record has no attributes.
fn no_record<X>(value: &Value<X>) -> EvalFault
    ensures { bare_fault result ≡ kinds.no_record (bare_value value.now) }
{
    match as_entity(value) {
        Some(_) => EvalFault::Store,
        None => EvalFault::WrongType,
    }
}

// The value at a key of a record, if it has the key.
pub(crate) fn look_up<'a, X: Ord>(
    pairs: &'a BTreeMap<RcStr, Value<X>>,
    key: &RcStr,
) -> Option<&'a Value<X>>
    ensures found { option_map (λ v. bare_value v.now) result
        ≡ kinds.at_key (rc_str_bytes key.now) (meant_pairs bare_value pairs.now.entries) }
    ensures well_formed { IsTrue (list_all (λ e. well_formed X.cmp e.1) pairs.now.entries)
        → IfSome result (λ v. IsTrue (well_formed X.cmp v.now)) }
{
    pairs.get(key.as_str())
}

/// The value of an attribute, if the record has it. Of an entity the store alone could tell it
/// (`Store`); any other value is no record (`WrongType`).
pub fn attribute<'a, X: Ord>(
    value: &'a Value<X>,
    key: &RcStr,
) -> Result<Option<&'a Value<X>>, EvalFault>
    ensures found { on_one (λ o. option_map (λ v. bare_value v.now) o) (faulted result)
        ≡ kinds.found_in (rc_str_bytes key.now) (bare_value value.now) }
    ensures well_formed { IsTrue (well_formed X.cmp value.now)
        → IfOk result (λ o. IfSome o (λ v. IsTrue (well_formed X.cmp v.now))) }
{
    match as_record(value) {
        Some(pairs) => Ok(look_up(pairs, key)),
        None => Err(no_record(value)),
    }
}

/// Whether a path of attributes is there: `Store` where it meets an entity, `WrongType` where it
/// meets what is neither that nor a record.
pub fn has_path<X: Ord>(value: &Value<X>, first: &RcStr, rest: &[RcStr]) -> Result<bool, EvalFault>
    ensures { on_one (λ b. truth {X = X} b) (faulted result)
        ≡ meant.has_path (Ok (bare_value value.now)) (rc_str_bytes first.now)
        (map rc_str_bytes rest.now) }
{
    let mut here = value;
    let mut key = first;
    for next in rest {
        match attribute(here, key) {
            Ok(Some(inner)) => {
                here = inner;
                key = next;
            }
            Ok(None) => return Ok(false),
            Err(fault) => return Err(fault),
        }
    }
    match attribute(here, key) {
        Ok(found) => Ok(found.is_some()),
        Err(fault) => Err(fault),
    }
}
