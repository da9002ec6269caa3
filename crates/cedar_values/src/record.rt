//! Pairs as the entries of a record.
ghost use Rattle.std.specs.Prelude.{IfOk};
ghost use Rattle.cedar_values.specs.Records.{IsLastOfEach};

use std::alloc::{AllocError, Global};
use std::collections::BTreeMap;
use std::rc::RcStr;

// The map that has, at each key of the pairs, the last value that they give to it.
pub(crate) fn last_of_each<V: Drop>(
    alloc: Global,
    pairs: Vec<(RcStr, V)>,
) -> Result<BTreeMap<RcStr, V>, AllocError>
    ensures { IfOk result (λ map. IsLastOfEach pairs.items map.entries) }
{
    pairs.into_iter().collect(alloc)
}
