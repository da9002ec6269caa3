//! Maps that are made in the order of their keys.
ghost use Rattle.std.specs.Prelude.{◌≡◌, OnOk, ◌++◌, ◌∷◌, []};
ghost use Rattle.cedar_values.specs.Keyed.{IsAbove};

use std::alloc::AllocError;
use std::collections::BTreeMap;
use std::rc::RcStr;

// Puts a pair behind those that are there.
pub(crate) fn put_last<V: Drop>(
    map: &mut BTreeMap<RcStr, V>,
    key: RcStr,
    value: V,
) -> Result<(), AllocError>
    ensures { OnOk result
        (IsAbove key map.old.entries → map.new.entries ≡ map.old.entries ++ (key, value) ∷ []) }
{
    map.insert(key, value)?;
    Ok(())
}
