//! The laws of the evaluator.
//!
//! Each function here does nothing: its contract is the law.
ghost use Rattle.cedar_evaluator.specs.Laws.{DecidedStays, NeverOpen, ValueKept};

use crate::evaluator::Evaluator;
use cedar_builders::ExprBuilder;
use cedar_values::NoExtension;
use cedar_values::laws::{maps_bind_plain_values, no_extension_values, well_formed_parts};
use semantics_eval::laws as outcomes;

/// The expression of a well formed value evaluates to that value: `to_expr` and then
/// `try_into_expr::<Evaluator>` give it back.
pub fn value_kept()
    ensures { ValueKept ⟦<Evaluator as ExprBuilder>⟧.ops ⟦<Evaluator as ExprBuilder>⟧.meaning_of
        ⟦<NoExtension as Ord>⟧.cmp }
{
    outcomes::value_kept::<NoExtension>();
    no_extension_values();
    well_formed_parts::<NoExtension>();
}

/// What is decided stays: where unknowns are bound to the values of a map, and the outcome is a
/// value, a refused call or any fault but `Open`, it is the same where a second map binds further
/// unknowns. Where both maps bind one, the first counts.
pub fn decided_stays()
    ensures { DecidedStays ⟦<Evaluator as ExprBuilder>⟧.ops
        ⟦<Evaluator as ExprBuilder>⟧.meaning_of }
{
    outcomes::decided_stays::<NoExtension>();
    no_extension_values();
    maps_bind_plain_values::<NoExtension>();
}

/// What is closed is decided: where a map binds each unknown, and there is no variable and no slot,
/// the outcome is not `Open`.
pub fn never_open()
    ensures { NeverOpen ⟦<Evaluator as ExprBuilder>⟧.ops ⟦<Evaluator as ExprBuilder>⟧.meaning_of }
{
    outcomes::never_open::<NoExtension>();
    no_extension_values();
    maps_bind_plain_values::<NoExtension>();
}
