//! The outcome of an expression.
ghost use Rattle.std.specs.Prelude.{◌≢◌, Err, IfOk, IsTrue, Result};
ghost use Rattle.cedar_names.specs.Names.{BareName};
ghost use Rattle.cedar_names.specs.PlainNames.{bare_name};
ghost use Rattle.cedar_builders.specs.Answers.{Gives};
ghost use Rattle.cedar_builders.specs.Environment.{fold};
ghost use Rattle.cedar_exprs.specs.BareExpr.{bare_expr};
ghost use Rattle.cedar_values.specs.Holders.{NoExtension, plain_env};
ghost use Rattle.cedar_values.specs.WellFormedValues.{well_formed_env};
ghost use Rattle.semantics_eval.specs.Evaluator.{evaluator_ops};
ghost use Rattle.semantics_eval.specs.Laws.{is_closed};
ghost use Rattle.semantics_eval.specs.Outcomes as meant;
ghost use Rattle.semantics_eval.specs.Outcomes.{Open};
ghost use Rattle.cedar_evaluator.specs.Compact.{compact_meaning};
ghost use Rattle.cedar_evaluator.specs.Outcomes.{meaning_of};

use crate::compact::CompactOutcome;
use crate::compact_evaluator::CompactEvaluator;
use crate::fault::CallRefused;
use crate::outcome::Outcome;
use crate::shared_value::{CompactSharedValue, CompactValue};
use cedar_builders::BuildFault;
use cedar_exprs::Expr;
use cedar_values::laws::{
    maps_bind_plain_values, no_extension_values, well_formed_maps_bind_plain_values,
};
use cedar_values::{NoExtension, Value, WellFormedValue};
use semantics_eval::laws::never_open;
use std::alloc::Global;
use std::collections::HashMap;
use std::rc::RcStr;

/// The outcome of an expression, where the unknowns that `values` binds are these values.
///
/// A value that is no literal is written out as an expression and evaluated at each unknown that it
/// is bound to: take `evaluate_shared` where values are not small.
///
/// The error is the first call of an extension function, children before parents and each in field
/// order, or memory ran out.
pub fn evaluate(
    alloc: Global,
    expr: &Expr,
    values: &HashMap<RcStr, Value<NoExtension>>,
) -> Result<Outcome, BuildFault<CallRefused>>
    ensures outcome { Gives meaning_of (λ (refused : CallRefused). bare_name refused.name)
        (fold (evaluator_ops ⟦<NoExtension as Ord>⟧.cmp ⟦<NoExtension as PartialEq>⟧.eq)
        (plain_env values.now) (bare_expr expr.now))
        result }
    ensures decided { IsTrue (is_closed (plain_env values.now) (bare_expr expr.now))
        → IfOk result (λ m. meaning_of m ≢ Err Open) }
{
    maps_bind_plain_values::<NoExtension>();
    never_open::<NoExtension>();
    no_extension_values();
    of_compact(expr.try_into_expr_by::<CompactEvaluator, Value, CompactValue>(alloc, values))
}

/// The same, where each value is shared: an unknown costs the same whatever the size of its value.
///
/// ```rust
/// let mut values = HashMap::new(alloc);
/// drop(values.insert(RcStr::from_str(alloc, "limit")?, limit)?);
/// let outcome = evaluate_shared(alloc, &expr, &values)?;
/// ```
pub fn evaluate_shared(
    alloc: Global,
    expr: &Expr,
    values: &HashMap<RcStr, WellFormedValue>,
) -> Result<Outcome, BuildFault<CallRefused>>
    ensures outcome { Gives meaning_of (λ (refused : CallRefused). bare_name refused.name)
        (fold (evaluator_ops ⟦<NoExtension as Ord>⟧.cmp ⟦<NoExtension as PartialEq>⟧.eq)
        (well_formed_env values.now) (bare_expr expr.now))
        result }
    ensures decided { IsTrue (is_closed (well_formed_env values.now) (bare_expr expr.now))
        → IfOk result (λ m. meaning_of m ≢ Err Open) }
{
    well_formed_maps_bind_plain_values();
    never_open::<NoExtension>();
    of_compact(expr.try_into_expr_by::<CompactEvaluator, WellFormedValue, CompactSharedValue>(
        alloc, values,
    ))
}

// The outcome that was handed on in little room.
fn of_compact(
    made: Result<CompactOutcome, BuildFault<CallRefused>>,
) -> Result<Outcome, BuildFault<CallRefused>>
    ensures { (wanted : Result (meant.Outcome NoExtension) BareName) →
        Gives compact_meaning (λ (refused : CallRefused). bare_name refused.name) wanted made
        → Gives meaning_of (λ (refused : CallRefused). bare_name refused.name) wanted result }
{
    match made {
        Ok(compact) => Ok(compact.into_outcome()),
        Err(fault) => Err(fault),
    }
}
