//! What functions give of extension values.
ghost use Rattle.std.specs.Prelude.{◌≡◌};
ghost use Rattle.semantics_eval.specs.Outcomes.{settled};
ghost use Rattle.cedar_functions.specs.Answers.{answered};
ghost use Rattle.cedar_functions.specs.Functions as meant;

use crate::answer::Answer;
use crate::decimals::of_decimals;
use crate::extension::BuiltinExtension;
use crate::ranges::{of_range, of_ranges};
use crate::times::{of_datetime, of_datetime_and_duration, of_datetimes, of_duration};
use cedar_evaluator::EvalFault;
use cedar_extensions::{Datetime, Decimal, IpAddr};
use cedar_function_names::ExtensionFunction;

// Of one extension value.
pub(crate) fn of_extension(
    function: ExtensionFunction,
    value: BuiltinExtension,
) -> Result<Answer, EvalFault>
    ensures { answered result ≡ settled (meant.of_extension function value) }
{
    match value {
        BuiltinExtension::Decimal(_) => Err(EvalFault::WrongType),
        BuiltinExtension::IpAddr(range) => of_range(function, range),
        BuiltinExtension::Datetime(datetime) => of_datetime(function, datetime),
        BuiltinExtension::Duration(duration) => of_duration(function, duration),
    }
}

// Of two extension values.
pub(crate) fn of_extensions(
    function: ExtensionFunction,
    left: BuiltinExtension,
    right: BuiltinExtension,
) -> Result<Answer, EvalFault>
    ensures { answered result ≡ settled (meant.of_extensions function left right) }
{
    match left {
        BuiltinExtension::Decimal(decimal) => of_decimal_and(function, decimal, right),
        BuiltinExtension::IpAddr(range) => of_range_and(function, range, right),
        BuiltinExtension::Datetime(datetime) => of_datetime_and(function, datetime, right),
        BuiltinExtension::Duration(_) => Err(EvalFault::WrongType),
    }
}

// Of a decimal and an extension value.
fn of_decimal_and(
    function: ExtensionFunction,
    left: Decimal,
    right: BuiltinExtension,
) -> Result<Answer, EvalFault>
    ensures { answered result
        ≡ settled (meant.of_extensions function (BuiltinExtension.Decimal left) right) }
{
    match right {
        BuiltinExtension::Decimal(right) => of_decimals(function, left, right),
        BuiltinExtension::IpAddr(_) => Err(EvalFault::WrongType),
        BuiltinExtension::Datetime(_) => Err(EvalFault::WrongType),
        BuiltinExtension::Duration(_) => Err(EvalFault::WrongType),
    }
}

// Of a range of addresses and an extension value.
fn of_range_and(
    function: ExtensionFunction,
    left: IpAddr,
    right: BuiltinExtension,
) -> Result<Answer, EvalFault>
    ensures { answered result
        ≡ settled (meant.of_extensions function (BuiltinExtension.IpAddr left) right) }
{
    match right {
        BuiltinExtension::IpAddr(right) => of_ranges(function, left, right),
        BuiltinExtension::Decimal(_) => Err(EvalFault::WrongType),
        BuiltinExtension::Datetime(_) => Err(EvalFault::WrongType),
        BuiltinExtension::Duration(_) => Err(EvalFault::WrongType),
    }
}

// Of a moment and an extension value.
fn of_datetime_and(
    function: ExtensionFunction,
    left: Datetime,
    right: BuiltinExtension,
) -> Result<Answer, EvalFault>
    ensures { answered result
        ≡ settled (meant.of_extensions function (BuiltinExtension.Datetime left) right) }
{
    match right {
        BuiltinExtension::Datetime(right) => of_datetimes(function, left, right),
        BuiltinExtension::Duration(right) => of_datetime_and_duration(function, left, right),
        BuiltinExtension::Decimal(_) => Err(EvalFault::WrongType),
        BuiltinExtension::IpAddr(_) => Err(EvalFault::WrongType),
    }
}
