//! The methods of decimals.
ghost use Rattle.std.specs.Prelude.{◌≡◌};
ghost use Rattle.semantics_eval.specs.Outcomes.{settled};
ghost use Rattle.cedar_functions.specs.Answers.{answered};
ghost use Rattle.cedar_functions.specs.Functions as meant;

use crate::answer::Answer;
use cedar_evaluator::EvalFault;
use cedar_extensions::Decimal;
use cedar_function_names::ExtensionFunction;

// What a method gives of two decimals.
#[tactic(auto, using(crate::proofs::Tested::less, crate::proofs::Tested::less_or_equal))]
pub(crate) fn of_decimals(
    function: ExtensionFunction,
    left: Decimal,
    right: Decimal,
) -> Result<Answer, EvalFault>
    ensures { answered result ≡ settled (meant.of_decimals function left right) }
{
    match function {
        ExtensionFunction::LessThan => Ok(Answer::Bool(left.less_than(right))),
        ExtensionFunction::LessThanOrEqual => Ok(Answer::Bool(left.less_than_or_equal(right))),
        ExtensionFunction::GreaterThan => Ok(Answer::Bool(left.greater_than(right))),
        ExtensionFunction::GreaterThanOrEqual => {
            Ok(Answer::Bool(left.greater_than_or_equal(right)))
        }
        _ => Err(EvalFault::WrongType),
    }
}
