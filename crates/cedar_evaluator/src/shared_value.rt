//! Bound values that evaluation takes as they are.
ghost use Rattle.std.specs.Prelude.{◌≡◌, IfOk, IfErr, Ok, Err};
ghost use Rattle.cedar_values.specs.BareValues.{bare_value};
ghost use Rattle.cedar_values.specs.WellFormedValues.{value_of};
ghost use Rattle.cedar_evaluator.specs.Outcomes.{
  bare_fault,
  fault_in,
  meaning_of,
  placed_result_of,
};

use crate::compact::CompactOutcome;
use crate::compact_evaluator::CompactEvaluator;
use crate::evaluator::Evaluator;
use crate::fault::{CallRefused, EvaluationFault};
use crate::outcome::Outcome;
use cedar_builders::BuildFault;
use cedar_exprs::{ThroughExpr, ValueBuilder};
use cedar_values::laws::{no_extension_values, well_formed_parts};
use cedar_values::{NoExtension, Value, WellFormedValue};
use semantics_eval::laws::value_kept;
use std::alloc::{AllocError, Global};

/// Each bound value is shared: its outcome is the value itself, and no expression of it is built.
/// So an unknown costs the same whatever the size of its value.
pub struct SharedValue;

impl ValueBuilder<Evaluator, WellFormedValue> for SharedValue {
    fn build_value(
        alloc: Global,
        value: &WellFormedValue,
    ) -> Result<Outcome, BuildFault<CallRefused>> {
        value_kept::<NoExtension>();
        no_extension_values();
        well_formed_parts::<NoExtension>();
        Ok(Outcome::share(alloc, value)?)
    }
}

// The same, in little room.
pub(crate) struct CompactSharedValue;

impl ValueBuilder<CompactEvaluator, WellFormedValue> for CompactSharedValue {
    fn build_value(
        alloc: Global,
        value: &WellFormedValue,
    ) -> Result<CompactOutcome, BuildFault<CallRefused>> {
        value_kept::<NoExtension>();
        no_extension_values();
        well_formed_parts::<NoExtension>();
        Ok(CompactOutcome::copy_of(alloc, value.as_value())?)
    }
}

// A literal is taken as it is, and any other value is built from its expression.
pub(crate) struct CompactValue;

impl ValueBuilder<CompactEvaluator, Value<NoExtension>> for CompactValue {
    fn build_value(
        alloc: Global,
        value: &Value<NoExtension>,
    ) -> Result<CompactOutcome, BuildFault<CallRefused>> {
        match value.try_as_lit() {
            Some(literal) => Ok(CompactOutcome::lit(alloc, literal.clone(alloc)?)?),
            None => {
                <ThroughExpr as ValueBuilder<CompactEvaluator, Value<NoExtension>>>::build_value(
                    alloc, value,
                )
            }
        }
    }
}

impl Outcome {
    // A value that is known to be well formed: a copy, which shares what is inside.
    fn share(alloc: Global, value: &WellFormedValue) -> Result<Outcome, AllocError>
        ensures { IfOk result (λ m. meaning_of m ≡ Ok (bare_value (value_of value.now))) }
    {
        Ok(Outcome::of_value(value.as_value().clone(alloc)?))
    }
}

impl<X: Ord + Drop> Outcome<X> {
    /// The value as one that an unknown may be bound to, or why and where there is none. It is not
    /// looked at.
    ///
    /// ```rust
    /// if let Ok(value) = evaluate(alloc, &limit, &values)?.into_value() {
    ///     drop(values.insert(RcStr::from_str(alloc, "limit")?, value)?);
    /// }
    /// ```
    pub fn into_value(self) -> Result<WellFormedValue<X>, EvaluationFault>
        ensures value { IfOk result (λ w. meaning_of self ≡ Ok (bare_value (value_of w))) }
        ensures fault { IfErr result (λ e. meaning_of self ≡ Err (bare_fault (fault_in e))) }
        ensures placed { IfErr result (λ e. placed_result_of self ≡ Err e) }
    {
        match self.into_result() {
            Ok(value) => Ok(WellFormedValue::new_unchecked(value)),
            Err(fault) => Err(fault),
        }
    }
}
