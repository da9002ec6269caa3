//! The functions that make a value of a text.
ghost use Rattle.std.specs.Prelude.{◌≡◌, option_map};
ghost use Rattle.semantics_extensions.specs.Readings.{
  datetime_in,
  decimal_in,
  duration_in,
  ip_addr_in,
};
ghost use Rattle.semantics_eval.specs.Outcomes.{settled};
ghost use Rattle.cedar_functions.specs.Answers.{answered};
ghost use Rattle.cedar_functions.specs.Functions as meant;
ghost use Rattle.cedar_functions.specs.declared.extension.BuiltinExtension.TheVariants as of;

use crate::answer::Answer;
use crate::extension::BuiltinExtension;
use cedar_evaluator::EvalFault;
use cedar_extensions::{Datetime, Decimal, Duration, IpAddr};
use cedar_function_names::ExtensionFunction;
use semantics_extensions::laws::readings_are_exact;

// The decimal that a text stands for.
#[tactic(auto, using(crate::proofs::Read::read))]
fn read_decimal(text: &str) -> Option<BuiltinExtension>
    ensures { result ≡ option_map of.Decimal (decimal_in text.now) }
{
    readings_are_exact();
    match text.parse::<Decimal>() {
        Ok(decimal) => Some(BuiltinExtension::Decimal(decimal)),
        Err(_) => None,
    }
}

// The range of addresses that a text stands for.
#[tactic(auto, using(crate::proofs::Read::read))]
fn read_ip(text: &str) -> Option<BuiltinExtension>
    ensures { result ≡ option_map of.IpAddr (ip_addr_in text.now) }
{
    readings_are_exact();
    match text.parse::<IpAddr>() {
        Ok(range) => Some(BuiltinExtension::IpAddr(range)),
        Err(_) => None,
    }
}

// The moment that a text stands for.
#[tactic(auto, using(crate::proofs::Read::read))]
fn read_datetime(text: &str) -> Option<BuiltinExtension>
    ensures { result ≡ option_map of.Datetime (datetime_in text.now) }
{
    readings_are_exact();
    match text.parse::<Datetime>() {
        Ok(moment) => Some(BuiltinExtension::Datetime(moment)),
        Err(_) => None,
    }
}

// The duration that a text stands for.
#[tactic(auto, using(crate::proofs::Read::read))]
fn read_duration(text: &str) -> Option<BuiltinExtension>
    ensures { result ≡ option_map of.Duration (duration_in text.now) }
{
    readings_are_exact();
    match text.parse::<Duration>() {
        Ok(duration) => Some(BuiltinExtension::Duration(duration)),
        Err(_) => None,
    }
}

// What is read, or a fault.
fn made(read: Option<BuiltinExtension>) -> Result<Answer, EvalFault>
    ensures { answered result ≡ settled (meant.made read) }
{
    match read {
        Some(value) => Ok(Answer::Extension(value)),
        None => Err(EvalFault::WrongType),
    }
}

// What a function gives of a text.
pub(crate) fn of_text(function: ExtensionFunction, text: &str) -> Result<Answer, EvalFault>
    ensures { answered result ≡ settled (meant.of_text function text.now) }
{
    match function {
        ExtensionFunction::Decimal => made(read_decimal(text)),
        ExtensionFunction::Ip => made(read_ip(text)),
        ExtensionFunction::Datetime => made(read_datetime(text)),
        ExtensionFunction::Duration => made(read_duration(text)),
        _ => Err(EvalFault::WrongType),
    }
}
