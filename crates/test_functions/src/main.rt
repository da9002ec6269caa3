//! Calls Cedar's extension functions: one call a line of standard input, as
//! `isInRange ip=10.0.0.1 ip=10.0.0.0/8`. The stored answers are those of Cedar's documentation, or
//! were worked by hand.
#![tactic(auto)]

use anyhow::Result;
use cedar_evaluator::EvalFault;
use cedar_exprs::Expr;
use cedar_function_names::ExtensionFunction;
use cedar_functions::{BuiltinExtension, call, function_of};
use cedar_names::{FromNormalizedStr, Name};
use cedar_printer::policy_text;
use cedar_terms::Literal;
use cedar_values::{BoundedToString, ExtensionValue, Value, ValueKind, WellFormedValue};
use std::alloc::{AllocError, Global};

fn main(rt: HostRuntime) -> Result<()> {
    for line in rt.lines(rt.alloc()) {
        let line = line?;
        let answer = answer(rt.alloc(), line.as_str())?;
        println!(rt; "{line}: {answer}")?;
    }
    Ok(())
}

// What a line asks: a function of some arguments, how a name is called, how a value is written and
// what its type is called.
fn answer(alloc: Global, line: &str) -> Result<String, AllocError> {
    let (word, rest) = line.split_once(" ").unwrap_or((line, ""));
    match word {
        "style" => style(alloc, rest),
        "written" => written(alloc, rest),
        "type" => type_of(alloc, rest),
        _ => called(alloc, word, rest),
    }
}

// How a name is called, and with how many arguments.
fn style(alloc: Global, name: &str) -> Result<String, AllocError> {
    match ExtensionFunction::from_name(name) {
        Some(function) => {
            let noun = if function.is_method() {
                "method"
            } else {
                "function"
            };
            format!(in alloc; "{} is a {noun} of {}", function.name(), function.arity())
        }
        None => String::from_str(alloc, "no such function"),
    }
}

// A value in Cedar's syntax, and its text.
fn written(alloc: Global, word: &str) -> Result<String, AllocError> {
    let Some(value) = argument(alloc, word)? else {
        return String::from_str(alloc, "no value");
    };
    let short = value.to_string_unbounded(alloc)?;
    let expr: Expr = value.to_expr(alloc)?;
    let text = policy_text(alloc, &expr)?.text;
    format!(in alloc; "{text} {short}")
}

// The name of a value's type, and whether its values compare by `<` in Cedar.
fn type_of(alloc: Global, word: &str) -> Result<String, AllocError> {
    match extension(alloc, word)? {
        Some(extension) => {
            let name = extension.typename(alloc)?.to_string(alloc)?;
            let is_compared = extension.supports_operator_overloading();
            format!(in alloc; "{name} {is_compared}")
        }
        None => String::from_str(alloc, "no extension value"),
    }
}

// The extension value that a word stands for.
fn extension(alloc: Global, word: &str) -> Result<Option<BuiltinExtension>, AllocError> {
    match argument(alloc, word)? {
        Some(value) => match value.value_kind() {
            ValueKind::ExtensionValue(extension) => Ok(Some(*extension.value())),
            _ => Ok(None),
        },
        None => Ok(None),
    }
}

// What a function gives.
fn called(alloc: Global, name: &str, rest: &str) -> Result<String, AllocError> {
    let Some(function) = named(alloc, name) else {
        return String::from_str(alloc, "no such function");
    };
    match arguments(alloc, rest)? {
        Some(args) => shown(alloc, call(alloc, function, &args)?),
        None => String::from_str(alloc, "no such argument"),
    }
}

// The function of a name, which may be in a namespace.
fn named(alloc: Global, name: &str) -> Option<ExtensionFunction> {
    match Name::from_normalized_str(alloc, name) {
        Ok(name) => function_of(&name),
        Err(_) => None,
    }
}

// The values that words stand for.
fn arguments(
    alloc: Global,
    words: &str,
) -> Result<Option<Vec<Value<BuiltinExtension>>>, AllocError> {
    let mut args = Vec::new(alloc);
    for word in words.split(' ') {
        match argument(alloc, word)? {
            Some(arg) => args.push(arg)?,
            None if word.is_empty() => {}
            None => return Ok(None),
        }
    }
    Ok(Some(args))
}

// The value that a word stands for, as `long=3`, `text=1.5` and `decimal=1.5`.
fn argument(alloc: Global, word: &str) -> Result<Option<Value<BuiltinExtension>>, AllocError> {
    let Some((kind, text)) = word.split_once("=") else {
        return Ok(None);
    };
    match kind {
        "text" => Ok(Some(literal(Literal::from_text(alloc, text)?))),
        "long" => Ok(text.parse::<i64>().ok().map(|n| literal(Literal::Long(n)))),
        "bool" => Ok(Some(literal(Literal::Bool(text == "true")))),
        _ => made(alloc, kind, text),
    }
}

// The value that a function makes of a text.
fn made(
    alloc: Global,
    name: &str,
    text: &str,
) -> Result<Option<Value<BuiltinExtension>>, AllocError> {
    let Some(function) = ExtensionFunction::from_name(name) else {
        return Ok(None);
    };
    let args = vec![in alloc; literal(Literal::from_text(alloc, text)?)]?;
    match call(alloc, function, &args)? {
        Ok(value) => Ok(Some(value.into_value())),
        Err(_) => Ok(None),
    }
}

fn literal(literal: Literal) -> Value<BuiltinExtension> {
    Value::new(ValueKind::Lit(literal), None)
}

// A value, or why there is none.
fn shown(
    alloc: Global,
    made: Result<WellFormedValue<BuiltinExtension>, EvalFault>,
) -> Result<String, AllocError> {
    match made {
        Ok(value) => match value.as_value().value_kind() {
            ValueKind::ExtensionValue(extension) => format!(in alloc; "{}", extension.value()),
            _ => value.as_value().to_string_unbounded(alloc),
        },
        Err(EvalFault::WrongType) => String::from_str(alloc, "wrong type"),
        Err(EvalFault::Overflow) => String::from_str(alloc, "overflow"),
        Err(fault) => format!(in alloc; "{fault}"),
    }
}
