//! What the condition of a policy comes to.
ghost use Rattle.std.specs.Prelude.{◌≡◌, IfOk, Ok, Err};
ghost use Rattle.cedar_builders.specs.BareExpr.{BareExpr};
ghost use Rattle.cedar_exprs.specs.BareExpr.{bare_expr};
ghost use Rattle.semantics_request.specs.Evaluator.{evaluated};
ghost use Rattle.semantics_authorize.specs.Policies as meant;
ghost use Rattle.semantics_authorize.specs.Policies.{verdict};
ghost use Rattle.cedar_evaluator.specs.Outcomes.{bare_fault, fault_in, meaning_of};
ghost use Rattle.cedar_request_evaluator.specs.Knowledge.{functions_of, knowledge_of};
ghost use Rattle.cedar_authorizer.specs.Verdicts.{bare_verdict};

use crate::fault::{ConditionFault, PolicyError};
use cedar_builders::BuildFault;
use cedar_evaluator::operations::as_bool;
use cedar_evaluator::{EvalFault, EvaluationFault, Outcome};
use cedar_exprs::Expr;
use cedar_names::Loc;
use cedar_request::{CallableFunctions, EntityStore};
use cedar_request_evaluator::RequestEvaluator;
use std::alloc::{AllocError, Global};

// What a condition comes to.
#[derive(Debug, Drop)]
pub(crate) enum Verdict {
    // It is true.
    Satisfied,
    // It is false.
    Unsatisfied,
    // It is neither.
    Failed(PolicyError),
    // Too little is known.
    Undecided,
}

// Who says what a condition comes to.
pub(crate) trait Judge {
    // What it says of a condition.
    ghost verdict_by: { Self → BareExpr → meant.Verdict };

    // What a condition comes to.
    fn verdict(&self, alloc: Global, condition: &Expr) -> Result<Verdict, AllocError>
        ensures { IfOk result (λ v. bare_verdict v
            ≡ verdict_by self.now (bare_expr condition.now)) };
}

// By what is known.
impl<X: Ord + Drop, S: EntityStore<X>, T: CallableFunctions<X>> Judge
    for RequestEvaluator<'_, X, S, T> {
    ghost verdict_by = { λ w e. verdict (evaluated X.cmp X.eq (functions_of T.bare_functions w)
        (knowledge_of S.bare_entities w) e) };

    fn verdict(&self, alloc: Global, condition: &Expr) -> Result<Verdict, AllocError> {
        match self.evaluate(alloc, condition) {
            Ok(outcome) => outcome_verdict(alloc, outcome, condition.source_loc()),
            Err(BuildFault::Build(refused)) => Ok(Verdict::Failed(PolicyError::Refused(refused))),
            Err(BuildFault::Memory) => Err(AllocError),
        }
    }
}

// What an outcome says of the condition at this place.
fn outcome_verdict<X: Ord + Drop>(
    alloc: Global,
    outcome: Outcome<X>,
    source_loc: Option<&Loc>,
) -> Result<Verdict, AllocError>
    ensures { IfOk result (λ v. bare_verdict v ≡ verdict (Ok (meaning_of outcome))) }
{
    match outcome.into_result() {
        Ok(value) => match as_bool(&value) {
            Some(true) => Ok(Verdict::Satisfied),
            Some(false) => Ok(Verdict::Unsatisfied),
            None => {
                let place = Loc::clone_option(alloc, source_loc)?;
                let fault = EvaluationFault::new(EvalFault::WrongType, place);
                Ok(fault_verdict::<X>(fault))
            }
        },
        Err(fault) => Ok(fault_verdict::<X>(fault)),
    }
}

// What a fault says of a condition.
fn fault_verdict<X>(fault: EvaluationFault) -> Verdict
    ensures { bare_verdict result ≡ verdict {X = X} (Ok (Err (bare_fault (fault_in fault)))) }
{
    match ConditionFault::new(fault) {
        Ok(fault) => Verdict::Failed(PolicyError::Mistaken(fault)),
        Err(_) => Verdict::Undecided,
    }
}
