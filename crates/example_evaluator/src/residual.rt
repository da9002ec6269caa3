//! The residual of a rule where only some of its unknowns are known.
ghost use Rattle.cedar_ast.specs.Answers.{Gives};
ghost use Rattle.cedar_ast.specs.Environment.{fold};
ghost use Rattle.cedar_ast.specs.Evaluations.{both, plain_env};
ghost use Rattle.cedar_ast.specs.Exprs.{bare_expr};

use cedar_ast::evaluator::{CallRefused, Evaluator, Outcome, evaluate};
use cedar_ast::expr_builder::ExprBuilder;
use cedar_ast::simplifier::simplify;
use cedar_ast::{BuildFault, Expr, Value};
use cedar_sketch::Sketch;
use std::alloc::{AllocError, Global};
use std::collections::HashMap;
use std::rc::RcStr;

/// The text of the rule's value, if it is known, or of its residual.
pub fn residual_text(
    alloc: Global,
    rule: &Expr,
    now: &HashMap<RcStr, Value>,
) -> Result<String, AllocError> {
    let simplified = simplify(alloc, rule, now)?;
    if let Some(value) = simplified.as_value() {
        return format!(in alloc; "{value}");
    }
    simplified
        .into_expr(alloc)?
        .into_expr::<Sketch>(alloc)?
        .to_text(alloc)
}

/// What a rule comes to where two maps bind its unknowns: the outcome, with the second one, of the
/// residual by the first one.
pub fn outcome_of_residual(
    alloc: Global,
    rule: &Expr,
    now: &HashMap<RcStr, Value>,
    later: &HashMap<RcStr, Value>,
) -> Result<Outcome, BuildFault<CallRefused>>
    ensures { let B = ⟦<Evaluator as ExprBuilder>⟧ in
        let envs = both (plain_env now.now) (plain_env later.now) in
        Gives B.meaning_of B.fault_of (fold B.ops envs (bare_expr rule.now)) result }
{
    let residual = simplify(alloc, rule, now)?.into_expr(alloc)?;
    evaluate(alloc, &residual, later)
}
