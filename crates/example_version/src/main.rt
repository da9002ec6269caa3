//! An extension type, from its values and functions to a call and the validation of an expression.
#![tactic(auto)]

mod functions;
mod version;

ghost use Rattle.std.specs.Prelude.{IfOk};
ghost use Rattle.cedar_calls.specs.Functions.{return_type_of};
ghost use Rattle.cedar_calls.specs.Types.{IsOfType, declared};
ghost use Rattle.example_version.specs.Versions.{version_name};

use crate::functions::{extension, version_value};
use crate::version::{Version, name, read};
use cedar_calls::{EvaluationError, ExtensionFunction, Extensions};
use cedar_exprs::Expr;
use cedar_terms::Literal;
use cedar_values::{PartialValue, Value};
use std::alloc::{AllocError, Global};
use std::io;
use std::rc::RcStr;

fn main(rt: HostRuntime) -> io::Result<()> {
    let alloc = rt.alloc();
    let extensions = Extensions::new(vec![in alloc; extension(alloc)?]?);
    println!(rt; "{}", versions(alloc)?)?;
    show_comparison(&rt, &extensions, "isOlder")?;
    show_comparison(&rt, &extensions, "isCompatible")?;
    show_validation(&rt, &extensions, "isOlder")?;
    show_validation(&rt, &extensions, "isOlderThan")?;
    show_validation(&rt, &no_extensions(alloc), "isOlder")
}

// The set of some versions, of which two are equal; one of the texts is none.
fn versions(alloc: Global) -> Result<Value<Version>, AllocError> {
    let mut members = Vec::new(alloc);
    for text in ["2.10", "10.0", "2.9", "2.010", "two"] {
        if let Some((major, minor)) = read(text) {
            members.push(version_value(alloc, major, minor)?)?;
        }
    }
    Value::set(alloc, members, None)
}

// Calls the function on 2.9 and 2.10, and prints its answer.
fn show_comparison(
    rt: &HostRuntime,
    extensions: &Extensions<Version>,
    function: &str,
) -> io::Result<()> {
    let alloc = rt.alloc();
    let args = vec![in alloc; version_value(alloc, 2, 9)?, version_value(alloc, 2, 10)?]?;
    let Some(found) = extensions.func(&name(alloc, function)?) else {
        return println!(rt; "{function} is not known");
    };
    match call(alloc, found, &args) {
        Ok(PartialValue::Value(value)) => println!(rt; "{function}: {value}"),
        Ok(PartialValue::Residual(_)) => println!(rt; "{function} has no value yet"),
        Err(error) => println!(rt; "{function}: {error}"),
    }
}

/// What a function of an extension of versions answers.
///
/// The contract is that of `ExtensionFunction::call`: a value has the type that the function
/// declares. It rests on what is known of the function since it was stored.
fn call(
    alloc: Global,
    function: &ExtensionFunction<Version>,
    args: &[Value<Version>],
) -> Result<PartialValue<Version>, EvaluationError>
    ensures { IfOk result (IsOfType version_name (declared (return_type_of function.now))) }
{
    function.call(alloc, args)
}

// The table without any extension: it knows no function.
fn no_extensions(alloc: Global) -> Extensions<Version> {
    Extensions::new(Vec::new(alloc))
}

// Prints whether `version("2.9").f(version("2.10"))` is an expression over these extensions.
fn show_validation(
    rt: &HostRuntime,
    extensions: &Extensions<Version>,
    function: &str,
) -> io::Result<()> {
    let expr = comparison(rt.alloc(), function)?;
    match expr.try_validate(rt.alloc(), extensions) {
        Ok(_expr) => println!(rt; "{function}: valid"),
        Err(error) => println!(rt; "{function}: {error}"),
    }
}

fn comparison(alloc: Global, function: &str) -> Result<Expr, AllocError> {
    let args = vec![in alloc; version_expr(alloc, "2.9")?, version_expr(alloc, "2.10")?]?;
    Expr::call_extension_fn(alloc, name(alloc, function)?, args)
}

// The call of `version` on a text.
fn version_expr(alloc: Global, text: &str) -> Result<Expr, AllocError> {
    let text = Expr::val(Literal::String(RcStr::from_str(alloc, text)?));
    Expr::call_extension_fn(alloc, name(alloc, "version")?, vec![in alloc; text]?)
}
