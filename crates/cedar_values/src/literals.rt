//! Literals, and what becomes a literal, as values at no place.
#![tactic(auto, using(crate::proofs::Levels::literal_kept))]

ghost use Rattle.std.specs.Prelude.{◌≡◌, IsTrue};
ghost use Rattle.cedar_values.specs.Places.{IsLiteralFrom, IsLiteralKindFrom, literal_value};
ghost use Rattle.cedar_values.specs.WellFormed.{kind_well_formed, well_formed};

use crate::value::{Value, ValueKind};
use cedar_terms::Literal;

/// A literal, or what becomes one: a Boolean, an integer, a text or an entity.
impl<X, L: Into<Literal>> From<L> for ValueKind<X> {
    ghost from_gives = { IsLiteralKindFrom L.converts };

    fn from(value: L) -> ValueKind<X>
        ensures literal { IsLiteralKindFrom L.converts value result }
        ensures well_formed { (R : _) → IsTrue (kind_well_formed R result) }
    {
        ValueKind::Lit(value.into())
    }
}

/// A literal, or what becomes one, at no place.
impl<X, L: Into<Literal>> From<L> for Value<X> {
    ghost from_gives = { IsLiteralFrom L.converts };

    fn from(value: L) -> Value<X>
        ensures literal { IsLiteralFrom L.converts value result }
        ensures well_formed { (R : _) → IsTrue (well_formed R result) }
    {
        literal_value(value.into())
    }
}

// A literal at no place.
pub(crate) fn literal_value<X>(literal: Literal) -> Value<X>
    ensures value { result ≡ literal_value literal }
    ensures well_formed { (R : _) → IsTrue (well_formed R result) }
{
    Value::new(ValueKind::Lit(literal), None)
}
