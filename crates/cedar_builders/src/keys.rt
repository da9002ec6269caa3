//! Maps of pairs that come in any order.
ghost use Rattle.std.specs.Prelude.{◌≡◌, IfOk, IfErr, OnOk, IsTrue, codes};
ghost use Rattle.cedar_builders.specs.Keys.{
  keys_of,
  are_distinct,
  keyed,
  in_key_order,
  IsFirstRepeat,
  IsAscending,
  HasRepeat,
};
ghost use Rattle.cedar_builders.specs.Errors.{key_of, context_of, OnDuplicateKey};
ghost use Rattle.cedar_builders.specs.declared.expression_construction_errors.ExpressionConstructionError.TheVariants as error;

use crate::expression_construction_errors::{DuplicateKeyError, ExpressionConstructionError};
use std::alloc::Global;
use std::collections::BTreeMap;
use std::rc::RcStr;

/// The map of these pairs, as a record has it.
///
/// The first pair whose key stood before it is refused as a duplicate key.
pub fn collect_distinct<A: Drop>(
    alloc: Global,
    pairs: Vec<(RcStr, A)>,
) -> Result<BTreeMap<RcStr, A>, ExpressionConstructionError>
    ensures made { IfOk result (λ m. keyed m.entries ≡ in_key_order (keyed pairs.items)) }
    ensures distinct { OnOk result (IsTrue (are_distinct (keys_of pairs.items))) }
    ensures refused { IfErr result (OnDuplicateKey
        (λ e. IsFirstRepeat (keys_of pairs.items) (key_of e))) }
    ensures context { IfErr result (OnDuplicateKey
        (λ e. context_of e ≡ codes "in record literal")) }
    ensures repeats { IfErr result (OnDuplicateKey (λ _. HasRepeat (keys_of pairs.items))) }

    // Pairs that come in order stay as they come.
    ensures kept { IsAscending (keys_of pairs.items)
        → IfOk result (λ m. keyed m.entries ≡ keyed pairs.items) }
    ensures accepts { IsAscending (keys_of pairs.items) → IfErr result (λ e. e ≡ error.Memory) }
{
    let mut values = BTreeMap::new(alloc);
    for (key, value) in pairs {
        if values.contains_key(key.as_str()) {
            return Err(DuplicateKeyError::in_record_literal(key).into());
        }
        drop(values.insert(key, value)?);
    }
    Ok(values)
}
