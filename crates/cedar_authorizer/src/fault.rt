//! Why the condition of a policy is neither true nor false.
ghost use Rattle.std.specs.Prelude.{IsTrue};
ghost use Rattle.cedar_evaluator.specs.Outcomes.{fault_in};
ghost use Rattle.cedar_authorizer.specs.Mistakes.{is_mistake};

use cedar_evaluator::{CallRefused, EvalFault, EvaluationFault};
use std::fmt;
use thiserror::Error;

/// Why a condition has no truth value, although enough is known: any fault but `Open`, with its
/// place. Its text is that of the fault.
#[derive(Debug, Drop, Error)]
pub struct ConditionFault {
    fault: EvaluationFault,
    ghost kept: { IsTrue (is_mistake (fault_in fault)) },
}

impl ConditionFault {
    ghost use Rattle.std.specs.Prelude.{◌≡◌, false, MatchResult};
    ghost use Rattle.cedar_authorizer.specs.Verdicts.{fault_of};

    /// The fault, if it is none of `Open`; else it comes back.
    pub fn new(fault: EvaluationFault) -> Result<ConditionFault, EvaluationFault>
        ensures { MatchResult result
            (λ f. fault_of f ≡ fault)
            (λ f. (f ≡ fault) × (is_mistake (fault_in fault) ≡ false)) }
    {
        match fault.fault() {
            EvalFault::Open => Err(fault),
            _ => Ok(ConditionFault { fault }),
        }
    }

    /// The fault, with its place.
    pub fn as_fault(&self) -> &EvaluationFault
        ensures same { result.now ≡ fault_of self.now }
        ensures mistake { IsTrue (is_mistake (fault_in result.now)) }
    {
        &self.fault
    }
}

impl fmt::Display for ConditionFault {
    ghost use Rattle.std.specs.Prelude.{Some};
    ghost use Rattle.cedar_evaluator.specs.Outcomes.{bare_fault, fault_in};
    ghost use Rattle.cedar_evaluator.specs.Texts.{fault_text};
    ghost use Rattle.cedar_authorizer.specs.Verdicts.{fault_of};

    ghost output = { λ f. Some (fault_text (bare_fault (fault_in (fault_of f)))) };

    fn fmt<W: fmt::Write>(&self, f: &mut fmt::Formatter<W>) -> fmt::Result {
        write!(f, "{}", self.fault)
    }
}

/// Why a policy has an error. Its text is that of the fault, or of the refusal.
#[derive(Debug, Drop, Error)]
pub enum PolicyError {
    /// Its condition has a fault, or is no Boolean.
    #[error(transparent)]
    Mistaken(ConditionFault),
    /// Its condition calls a function that is not in the table.
    #[error(transparent)]
    Refused(CallRefused),
}
