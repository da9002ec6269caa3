//! What a value is, by its kind.
ghost use Rattle.std.specs.Prelude.{◌≡◌, IfSome, IsTrue, map, option_copied, option_map};
ghost use Rattle.cedar_terms.specs.Entities.{bare_entity_uid};
ghost use Rattle.cedar_terms.specs.Literals.{bare_literal};
ghost use Rattle.std.specs.List.{list_all};
ghost use Rattle.cedar_builders.specs.Keys.{meant_pairs};
ghost use Rattle.semantics_values.specs.BareValue.{LitValue};
ghost use Rattle.cedar_values.specs.BareValues.{bare_value};
ghost use Rattle.cedar_values.specs.Sets.{members};
ghost use Rattle.cedar_values.specs.WellFormed.{set_well_formed, well_formed};
ghost use Rattle.semantics_eval.specs.Outcomes.{truth_of};
ghost use Rattle.cedar_evaluator.specs.Kinds.{entity_of, extension_in, long_of, members_of};
ghost use Rattle.cedar_evaluator.specs.Kinds.{pairs_in, text_of};

use cedar_terms::{EntityUID, Integer, Literal};
use cedar_values::laws::{trees_of_values, values_by_kind};
use cedar_values::{Set, Value, ValueKind};
use std::collections::BTreeMap;
use std::rc::RcStr;

/// The value of a literal, at no place.
pub fn literal_value<X: Ord + Drop>(literal: Literal) -> Value<X>
    ensures tree { bare_value result ≡ LitValue (bare_literal literal) }
    ensures well_formed { IsTrue (well_formed X.cmp result) }
{
    values_by_kind::<X>();
    Value::new(ValueKind::Lit(literal), None)
}

/// The Boolean, if it is one.
pub fn as_bool<X>(value: &Value<X>) -> Option<bool>
    ensures { result ≡ truth_of (bare_value value.now) }
{
    match value.try_as_lit() {
        Some(Literal::Bool(truth)) => Some(*truth),
        _ => None,
    }
}

/// The integer, if it is one.
pub fn as_long<X>(value: &Value<X>) -> Option<Integer>
    ensures { result ≡ long_of (bare_value value.now) }
{
    match value.try_as_lit() {
        Some(Literal::Long(number)) => Some(*number),
        _ => None,
    }
}

/// The text, if it is one.
pub fn as_text<X>(value: &Value<X>) -> Option<&str>
    ensures { option_map (λ s. s.now) result ≡ text_of (bare_value value.now) }
{
    match value.try_as_lit() {
        Some(Literal::String(text)) => Some(text.as_str()),
        _ => None,
    }
}

/// The entity, if it is one.
pub fn as_entity<X>(value: &Value<X>) -> Option<&EntityUID>
    ensures { option_map (λ u. bare_entity_uid u.now) result ≡ entity_of (bare_value value.now) }
{
    match value.try_as_lit() {
        Some(Literal::EntityUID(entity)) => Some(entity),
        _ => None,
    }
}

/// The extension value, if it is one.
pub fn as_extension<X: Ord>(value: &Value<X>) -> Option<&X>
    ensures { option_copied result ≡ extension_in (bare_value value.now) }
{
    values_by_kind::<X>();
    trees_of_values::<X>();
    match value.value_kind() {
        ValueKind::ExtensionValue(extension) => Some(extension.value()),
        ValueKind::Lit(_) => None,
        ValueKind::Set(_) => None,
        ValueKind::Record(_) => None,
    }
}

/// The set, if it is one.
pub fn as_set<X: Ord>(value: &Value<X>) -> Option<&Set<X>>
    ensures members { option_map (λ s. map bare_value (members s.now)) result
        ≡ members_of (bare_value value.now) }
    ensures well_formed { IsTrue (well_formed X.cmp value.now)
        → IfSome result (λ s. IsTrue (set_well_formed X.cmp s.now)) }
{
    values_by_kind::<X>();
    match value.value_kind() {
        ValueKind::Set(set) => Some(set),
        ValueKind::Lit(_) => None,
        ValueKind::Record(_) => None,
        ValueKind::ExtensionValue(_) => None,
    }
}

/// The record, if it is one.
pub fn as_record<X: Ord>(value: &Value<X>) -> Option<&BTreeMap<RcStr, Value<X>>>
    ensures pairs { option_map (λ m. meant_pairs bare_value m.now.entries) result
        ≡ pairs_in (bare_value value.now) }
    ensures well_formed { IsTrue (well_formed X.cmp value.now)
        → IfSome result (λ m. IsTrue (list_all (λ e. well_formed X.cmp e.1) m.now.entries)) }
{
    values_by_kind::<X>();
    match value.value_kind() {
        ValueKind::Record(pairs) => Some(pairs),
        ValueKind::Lit(_) => None,
        ValueKind::Set(_) => None,
        ValueKind::ExtensionValue(_) => None,
    }
}
