//! The methods of moments and durations.
ghost use Rattle.std.specs.Prelude.{◌≡◌, ℤ};
ghost use Rattle.cedar_extensions.specs.Datetimes.{IsMoment, IsSpan};
ghost use Rattle.semantics_eval.specs.Outcomes.{settled};
ghost use Rattle.cedar_functions.specs.Answers.{answered};
ghost use Rattle.cedar_functions.specs.Functions as meant;

use crate::answer::Answer;
use crate::extension::BuiltinExtension;
use cedar_evaluator::EvalFault;
use cedar_extensions::{Datetime, DatetimeError, Duration};
use cedar_function_names::ExtensionFunction;

// A moment, or that there is none.
#[tactic(auto, using(crate::proofs::Moments::moment_some, crate::proofs::Moments::moment_none))]
fn moment(made: Result<Datetime, DatetimeError>) -> Result<Answer, EvalFault>
    ensures { (n : ℤ) → IsMoment n made → answered result ≡ settled (meant.moment_at n) }
{
    match made {
        Ok(moment) => Ok(Answer::Extension(BuiltinExtension::Datetime(moment))),
        Err(_) => Err(EvalFault::Overflow),
    }
}

// A duration, or that there is none.
#[tactic(auto, using(crate::proofs::Moments::span_some, crate::proofs::Moments::span_none))]
fn span(made: Result<Duration, DatetimeError>) -> Result<Answer, EvalFault>
    ensures { (n : ℤ) → IsSpan n made → answered result ≡ settled (meant.span_of n) }
{
    match made {
        Ok(duration) => Ok(Answer::Extension(BuiltinExtension::Duration(duration))),
        Err(_) => Err(EvalFault::Overflow),
    }
}

// What a method gives of a moment.
pub(crate) fn of_datetime(
    function: ExtensionFunction,
    datetime: Datetime,
) -> Result<Answer, EvalFault>
    ensures { answered result ≡ settled (meant.of_datetime function datetime) }
{
    match function {
        ExtensionFunction::ToDate => moment(datetime.to_date()),
        ExtensionFunction::ToTime => {
            Ok(Answer::Extension(BuiltinExtension::Duration(datetime.to_time())))
        }
        _ => Err(EvalFault::WrongType),
    }
}

// What a method gives of a duration.
pub(crate) fn of_duration(
    function: ExtensionFunction,
    duration: Duration,
) -> Result<Answer, EvalFault>
    ensures { answered result ≡ settled (meant.of_duration function duration) }
{
    match function {
        ExtensionFunction::ToMilliseconds => Ok(Answer::Long(duration.to_milliseconds())),
        ExtensionFunction::ToSeconds => Ok(Answer::Long(duration.to_seconds())),
        ExtensionFunction::ToMinutes => Ok(Answer::Long(duration.to_minutes())),
        ExtensionFunction::ToHours => Ok(Answer::Long(duration.to_hours())),
        ExtensionFunction::ToDays => Ok(Answer::Long(duration.to_days())),
        _ => Err(EvalFault::WrongType),
    }
}

// What a method gives of a moment and a duration.
pub(crate) fn of_datetime_and_duration(
    function: ExtensionFunction,
    datetime: Datetime,
    duration: Duration,
) -> Result<Answer, EvalFault>
    ensures { answered result
        ≡ settled (meant.of_datetime_and_duration function datetime duration) }
{
    match function {
        ExtensionFunction::Offset => moment(datetime.offset(duration)),
        _ => Err(EvalFault::WrongType),
    }
}

// What a method gives of two moments.
pub(crate) fn of_datetimes(
    function: ExtensionFunction,
    datetime: Datetime,
    other: Datetime,
) -> Result<Answer, EvalFault>
    ensures { answered result ≡ settled (meant.of_datetimes function datetime other) }
{
    match function {
        ExtensionFunction::DurationSince => span(datetime.duration_since(other)),
        _ => Err(EvalFault::WrongType),
    }
}
