//! A decision in two steps: by what is known first, and by the rest only where that leaves it open.
ghost use Rattle.std.specs.Prelude.{◌≡◌, ◌↔◌, Err, IsOkAnd, IsTrue};
ghost use Rattle.cedar_ast.specs.Answers.{Gives};
ghost use Rattle.cedar_ast.specs.Environment.{fold};
ghost use Rattle.cedar_ast.specs.Evaluations.{IsDecided, both, meaning_of, plain_env};
ghost use Rattle.cedar_ast.specs.Exprs.{bare_expr};
ghost use Rattle.semantics_eval.specs.Outcomes.{Open};

use cedar_ast::evaluator::laws::decided_stays;
use cedar_ast::evaluator::{CallRefused, EvalFault, Evaluator, Outcome, evaluate};
use cedar_ast::expr_builder::ExprBuilder;
use cedar_ast::laws::{plain_where_none, substituted_twice, then_is_both_of_maps};
use cedar_ast::{BuildFault, Expr, NoExtension, Value};
use std::alloc::Global;
use std::collections::HashMap;
use std::rc::RcStr;

/// What a rule comes to where two maps bind its unknowns. Where both bind one, the first counts.
///
/// The answer is always that of both maps (`in_both`). Yet a rule that the first one decides is not
/// evaluated again: its outcome stays, whatever the second one binds (`stays`).
pub fn decide(
    alloc: Global,
    rule: &Expr,
    first: &HashMap<RcStr, Value>,
    second: &HashMap<RcStr, Value>,
) -> Result<Outcome, BuildFault<CallRefused>>
    ensures in_both { let B = ⟦<Evaluator as ExprBuilder>⟧ in
        let envs = both (plain_env first.now) (plain_env second.now) in
        Gives B.meaning_of B.fault_of (fold B.ops envs (bare_expr rule.now)) result }
    ensures stays { let B = ⟦<Evaluator as ExprBuilder>⟧ in
        let early = fold B.ops (plain_env first.now) (bare_expr rule.now) in
        IsDecided B.meaning_of early → Gives B.meaning_of B.fault_of early result }
{
    decided_stays();
    let early = evaluate(alloc, rule, first);
    if is_open(&early) {
        decide_in_both(alloc, rule, first, second)
    } else {
        early
    }
}

// Whether an answer is the outcome that may change where more is known.
fn is_open(answer: &Result<Outcome, BuildFault<CallRefused>>) -> bool
    ensures { IsTrue result ↔ IsOkAnd answer.now (λ outcome. meaning_of outcome ≡ Err Open) }
{
    match answer {
        Ok(outcome) => match outcome.as_result() {
            Ok(_) => false,
            Err(fault) => matches!(fault.fault(), EvalFault::Open),
        },
        Err(_) => false,
    }
}

// Puts what the first map binds into the rule, and evaluates that with the second one.
fn decide_in_both(
    alloc: Global,
    rule: &Expr,
    first: &HashMap<RcStr, Value>,
    second: &HashMap<RcStr, Value>,
) -> Result<Outcome, BuildFault<CallRefused>>
    ensures { let B = ⟦<Evaluator as ExprBuilder>⟧ in
        let envs = both (plain_env first.now) (plain_env second.now) in
        Gives B.meaning_of B.fault_of (fold B.ops envs (bare_expr rule.now)) result }
{
    substituted_twice::<Evaluator>();
    then_is_both_of_maps::<NoExtension>();
    plain_where_none::<NoExtension>();
    let substituted = rule.substitute(alloc, first)?;
    evaluate(alloc, &substituted, second)
}
