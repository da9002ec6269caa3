//! Which values may be put where an unknown stands (`SubstitutionFunction` of Cedar's `expr.rs`).
ghost use Rattle.std.specs.Prelude.{None};
ghost use Rattle.cedar_terms.specs.Types.{bare_type};
ghost use Rattle.cedar_terms.specs.Unknowns.{bare_unknown};
ghost use Rattle.cedar_builders.specs.TypeClash.{TwoTypes, Refusals, difference, mismatch};
ghost use Rattle.cedar_exprs.specs.Refusals.{clash_types, no_clash, Refuses};

use crate::restricted_expr::SubstituteValue;
use crate::walks::post_order::PostOrderFault;
use cedar_terms::{Type, Unknown};
use std::alloc::Global;
use std::convert::Infallible;

// Which values may be put where an unknown stands.
pub(crate) trait SubstitutionFunction {
    // Why a value may not.
    type Refusal: Drop;

    // What is refused.
    ghost refuses: { Refusals };

    // The types that a refusal names.
    ghost types_of: { Self.Refusal → TwoTypes };

    // Refuses a value that may not be put where the unknown stands.
    fn check<V: SubstituteValue>(
        alloc: Global,
        unknown: &Unknown,
        value: &V,
    ) -> Result<(), PostOrderFault<Self::Refusal>>
        ensures { Refuses types_of
            (refuses (bare_unknown unknown.now).annotation (V.bare_type_of value.now)) result };
}

// Every value may.
pub(crate) enum UntypedSubstitution {}

impl SubstitutionFunction for UntypedSubstitution {
    type Refusal = Infallible;

    ghost refuses = { λ annotation ty. None };

    ghost types_of = { no_clash };

    fn check<V: SubstituteValue>(
        _: Global,
        _: &Unknown,
        _: &V,
    ) -> Result<(), PostOrderFault<Infallible>> {
        Ok(())
    }
}

// A value may that has the type which the unknown is annotated with, if it is.
pub(crate) enum TypedSubstitution {}

// An annotation, and the type of a value, where they differ.
#[derive(Drop)]
pub(crate) struct Clash {
    pub(crate) expected: Type,
    pub(crate) actual: Type,
}

// A refusal is boxed, so that answers stay small on the way up.
impl SubstitutionFunction for TypedSubstitution {
    type Refusal = Box<Clash>;

    ghost refuses = { mismatch };

    ghost types_of = { clash_types };

    fn check<V: SubstituteValue>(
        alloc: Global,
        unknown: &Unknown,
        value: &V,
    ) -> Result<(), PostOrderFault<Box<Clash>>> {
        match &unknown.type_annotation {
            None => Ok(()),
            Some(expected) => check_type(alloc, expected, value.value_type(alloc)?),
        }
    }
}

// Refuses another type than is expected.
fn check_type(
    alloc: Global,
    expected: &Type,
    actual: Type,
) -> Result<(), PostOrderFault<Box<Clash>>>
    ensures { Refuses clash_types (difference (bare_type expected.now) (bare_type actual)) result }
{
    if *expected == actual {
        return Ok(());
    }
    let expected = expected.clone(alloc)?;
    let clash = Box::new(alloc, Clash { expected, actual })?;
    Err(PostOrderFault::Refused(clash))
}
