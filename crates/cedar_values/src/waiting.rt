//! What waits while a walk looks at the values inside of a value: the sets' members and the
//! records' values, on the heap, so that no depth ends the walk.
ghost use Rattle.std.specs.Prelude.{◌≡◌, ◌++◌, OnOk, map};
ghost use Rattle.cedar_exprs.specs.Walks.{referents};
ghost use Rattle.cedar_values.specs.BareValues.{kind_of};
ghost use Rattle.cedar_values.specs.Sets.{members};

use crate::set::Set;
use crate::value::{Value, ValueKind};
use std::alloc::AllocError;
use std::collections::BTreeMap;
use std::rc::RcStr;

// Puts the members of a set behind what waits.
pub(crate) fn push_members<'a, X>(
    waiting: &mut Vec<&'a ValueKind<X>>,
    set: &'a Set<X>,
) -> Result<(), AllocError>
    ensures { OnOk result (referents waiting.new.items
        ≡ referents waiting.old.items ++ map kind_of (members set.now)) }
{
    let members = set.authoritative();
    for member in members {
        waiting.push(member.value_kind())?;
    }
    Ok(())
}

// Puts the values of a record behind what waits.
pub(crate) fn push_values<'a, X>(
    waiting: &mut Vec<&'a ValueKind<X>>,
    pairs: &'a BTreeMap<RcStr, Value<X>>,
) -> Result<(), AllocError>
    ensures { OnOk result (referents waiting.new.items
        ≡ referents waiting.old.items ++ map (λ e. kind_of e.1) pairs.now.entries) }
{
    for (_, value) in pairs.iter() {
        waiting.push(value.value_kind())?;
    }
    Ok(())
}
