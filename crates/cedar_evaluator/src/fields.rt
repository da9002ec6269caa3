//! Records as they are handed on while an expression is evaluated.
ghost use Rattle.std.specs.Prelude.{◌≡◌, IfSome, IsTrue, MatchResult, ok_or, option_map};
ghost use Rattle.std.specs.Rc.{rc_str_bytes};
ghost use Rattle.cedar_values.specs.BareValues.{bare_value, bare_value_kind};
ghost use Rattle.cedar_values.specs.WellFormed.{kind_well_formed, well_formed};
ghost use Rattle.cedar_values.specs.declared.value.ValueKind.TheVariants as kinds;
ghost use Rattle.semantics_eval.specs.Attributes.{get_in};
ghost use Rattle.semantics_eval.specs.Outcomes.{Missing};

use crate::attributes::look_up;
use cedar_values::laws::values_by_kind;
use cedar_values::{NoExtension, Value, ValueKind};
use std::collections::BTreeMap;
use std::rc::{Rc, RcStr};

// The well formed values of a record, shared, by key.
#[derive(Drop)]
pub(crate) struct Fields {
    pairs: Rc<BTreeMap<RcStr, Value<NoExtension>>>,
    ghost kept: { IsTrue (kind_well_formed ⟦<NoExtension as Ord>⟧.cmp (kinds.Record pairs)) },
}

impl Fields {
    // The record that a value at no place is. Any other comes back: what has a place keeps it.
    pub(crate) fn of(value: Value<NoExtension>) -> Result<Fields, Value<NoExtension>>
        requires { IsTrue (well_formed ⟦<NoExtension as Ord>⟧.cmp value) }
        ensures { MatchResult result
            (λ f. bare_value_kind (kinds.Record f.pairs) ≡ bare_value value)
            (λ v. (bare_value v ≡ bare_value value)
            × IsTrue (well_formed ⟦<NoExtension as Ord>⟧.cmp v)) }
    {
        values_by_kind::<NoExtension>();
        match value.into_parts() {
            (ValueKind::Record(pairs), None) => Ok(Fields { pairs }),
            (kind, source_loc) => Err(Value::new(kind, source_loc)),
        }
    }

    // The record, at no place.
    pub(crate) fn into_value(self) -> Value<NoExtension>
        ensures tree { bare_value result ≡ bare_value_kind (kinds.Record self.pairs) }
        ensures well_formed { IsTrue (well_formed ⟦<NoExtension as Ord>⟧.cmp result) }
    {
        values_by_kind::<NoExtension>();
        Value::record_arc(self.pairs, None)
    }

    // The value at a key.
    pub(crate) fn at(&self, key: &RcStr) -> Option<&Value<NoExtension>>
        ensures found { ok_or (option_map (λ v. bare_value v.now) result) Missing
            ≡ get_in (rc_str_bytes key.now) (bare_value_kind (kinds.Record self.now.pairs)) }
        ensures well_formed { IfSome result (λ v.
            IsTrue (well_formed ⟦<NoExtension as Ord>⟧.cmp v.now)) }
    {
        values_by_kind::<NoExtension>();
        look_up(&self.pairs, key)
    }
}
