//! Faults of calls of extension functions in words.
use crate::faults::Type;
use crate::problem::Words;
use cedar_function_names::ExtensionFunction;
use cedar_names::Name;
use cedar_terms::Literal;
use cedar_values::{ExtensionValue, Value, ValueKind};
use std::alloc::{AllocError, Global};

const TEXT: &str = "a string";

const DECIMAL: &str = "a decimal";

const ADDRESS: &str = "an IP address";

const DATETIME: &str = "a datetime";

const DURATION: &str = "a duration";

/// Which argument of a call has the wrong type, or the text that its function does not take.
pub(crate) fn call_words<X: ExtensionValue + Ord>(
    alloc: Global,
    fn_name: &Name,
    first: &Value<X>,
    second: Option<&Value<X>>,
) -> Result<Option<Words>, AllocError> {
    let name = fn_name.to_string(alloc)?;
    let Some(function) = ExtensionFunction::from_name(&name) else {
        return Ok(None);
    };
    let wrong = match (
        wrong_argument(alloc, &name, first_wanted(function), first)?,
        second,
    ) {
        (None, Some(second)) => wrong_argument(alloc, &name, second_wanted(function), second)?,
        (wrong, _) => wrong,
    };
    match (wrong, first.value_kind()) {
        (None, ValueKind::Lit(Literal::String(text))) => {
            let message = format!(in alloc; "`{name}` has no value for the text {text:?}")?;
            Ok(Some(Words::message(message)))
        }
        (wrong, _) => Ok(wrong),
    }
}

// That an argument is not of the type that a function wants.
fn wrong_argument<X: ExtensionValue + Ord>(
    alloc: Global,
    name: &str,
    wanted: &str,
    argument: &Value<X>,
) -> Result<Option<Words>, AllocError> {
    let found = type_words(alloc, argument)?;
    if found == wanted {
        return Ok(None);
    }
    let message = format!(in alloc; "`{name}` wants {wanted}, not {found}")?;
    Ok(Some(Words::message(message)))
}

// The type of the first argument, for a method the value before the dot.
fn first_wanted(function: ExtensionFunction) -> &'static str {
    match function {
        ExtensionFunction::Ip
        | ExtensionFunction::Decimal
        | ExtensionFunction::Datetime
        | ExtensionFunction::Duration => TEXT,
        ExtensionFunction::IsIpv4
        | ExtensionFunction::IsIpv6
        | ExtensionFunction::IsLoopback
        | ExtensionFunction::IsMulticast
        | ExtensionFunction::IsInRange => ADDRESS,
        ExtensionFunction::LessThan
        | ExtensionFunction::LessThanOrEqual
        | ExtensionFunction::GreaterThan
        | ExtensionFunction::GreaterThanOrEqual => DECIMAL,
        ExtensionFunction::Offset
        | ExtensionFunction::DurationSince
        | ExtensionFunction::ToDate
        | ExtensionFunction::ToTime => DATETIME,
        ExtensionFunction::ToMilliseconds
        | ExtensionFunction::ToSeconds
        | ExtensionFunction::ToMinutes
        | ExtensionFunction::ToHours
        | ExtensionFunction::ToDays => DURATION,
    }
}

// The type of the second argument: that of the first, but for one function.
fn second_wanted(function: ExtensionFunction) -> &'static str {
    match function {
        ExtensionFunction::Offset => DURATION,
        function => first_wanted(function),
    }
}

// The type of a value, as a message names it.
fn type_words<X: ExtensionValue + Ord>(
    alloc: Global,
    value: &Value<X>,
) -> Result<&'static str, AllocError> {
    match value.value_kind() {
        ValueKind::ExtensionValue(extension) => {
            let name = extension.value().typename(alloc)?;
            Ok(extension_words(&name.to_string(alloc)?))
        }
        _ => Ok(Type::of(value).words()),
    }
}

fn extension_words(type_name: &str) -> &'static str {
    match type_name {
        "decimal" => DECIMAL,
        "ipaddr" => ADDRESS,
        "datetime" => DATETIME,
        "duration" => DURATION,
        _ => Type::Extension.words(),
    }
}
