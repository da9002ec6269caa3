//! Whether the keys of each record inside a value ascend: they do, as the maps inside know.
ghost use Rattle.semantics_values.specs.BareValue as bare;
ghost use Rattle.semantics_values.specs.AscendingKeys.{KeysAscend};
ghost use Rattle.cedar_values.specs.BareValues.{bare_set, bare_value, bare_value_kind};
ghost use Rattle.cedar_values.specs.Conversions.{bare_pairs};

use crate::set::Set;
use crate::value::{Value, ValueKind};
use std::collections::BTreeMap;
use std::rc::RcStr;

// Those inside a value.
#[cycle(keys_ascend)]
pub(crate) fn walk<X>(value: &Value<X>)
    ensures { KeysAscend (bare_value value.now) }
{
    walk_kind(value.value_kind())
}

// Those inside a kind.
#[cycle(keys_ascend)]
fn walk_kind<X>(kind: &ValueKind<X>)
    ensures { KeysAscend (bare_value_kind kind.now) }
{
    match kind {
        ValueKind::Lit(_) => {}
        ValueKind::Set(set) => walk_members(set),
        ValueKind::Record(pairs) => walk_pairs(pairs),
        ValueKind::ExtensionValue(_) => {}
    }
}

// Those inside the members of a set.
#[cycle(keys_ascend)]
#[tactic(auto, unfolding(crate::specs::Sets::members))]
fn walk_members<X>(set: &Set<X>)
    ensures { KeysAscend (bare.SetValue (bare_set set.now)) }
{
    let members = set.authoritative();
    for member in members {
        walk(member);
    }
}

// Those of a record, and those inside its values.
#[cycle(keys_ascend)]
fn walk_pairs<X>(pairs: &BTreeMap<RcStr, Value<X>>)
    ensures { KeysAscend (bare.RecordValue (bare_pairs pairs.now.entries)) }
{
    for (_, value) in pairs.iter() {
        walk(value);
    }
}
