//! Functions stored in an extension, and called from there, for any extension values.
//!
//! Where the extension values are a box's, as `NoExtension`, what holds a stored function can't be
//! named: the checker knows such a function only behind a type parameter. So these are generic.
ghost use Rattle.std.specs.Prelude.{Some};
ghost use Rattle.cedar_calls.specs.Calls.{IsPassedOn};
ghost use Rattle.cedar_calls.specs.Types.{Keeps, declared};

use cedar_calls::{CallStyle, EvaluationError, Extension, ExtensionFunction, ExtensionFunctions};
use cedar_names::Name;
use cedar_terms::SchemaType;
use cedar_values::{ExtensionValue, PartialValue, Value};
use std::alloc::{AllocError, Global};
use std::io;

const STYLE: CallStyle = CallStyle::FunctionStyle;

/// What a stored function of no arguments answers: what the function itself may answer.
pub fn answer<X: ExtensionFunctions>(
    alloc: Global,
    name: Name,
    func: X::Nullary,
    returns: SchemaType,
) -> Result<PartialValue<X>, EvaluationError>
    requires { (r : _) → X.Nullary.gives func r → Keeps X.type_name (declared (Some returns)) r }
    ensures { (r : _) × X.Nullary.gives func r × IsPassedOn r result }
{
    let function = ExtensionFunction::<X>::nullary(name, STYLE, func, returns);
    function.call(alloc, &Vec::new(alloc))
}

/// Stores and calls a function of no arguments.
pub fn nullary<X: ExtensionFunctions>(
    rt: &HostRuntime,
    f: &str,
    func: X::Nullary,
    returns: SchemaType,
) -> io::Result<()>
    requires { (r : _) → X.Nullary.gives func r → Keeps X.type_name (declared (Some returns)) r }
{
    let function = ExtensionFunction::<X>::nullary(name(rt, f)?, STYLE, func, returns);
    call(rt, function, &Vec::new(rt.alloc()))
}

/// Stores and calls a function of one number.
pub fn unary<X: ExtensionFunctions>(
    rt: &HostRuntime,
    f: &str,
    func: X::Unary,
    returns: SchemaType,
    args: &[Value<X>],
) -> io::Result<()>
    requires { (x : _) (r : _) → X.Unary.gives func x r
        → Keeps X.type_name (declared (Some returns)) r }
{
    let f = name(rt, f)?;
    let takes = SchemaType::Long;
    call(
        rt,
        ExtensionFunction::<X>::unary(rt.alloc(), f, STYLE, func, returns, takes)?,
        args,
    )
}

/// Stores and calls a function of two numbers.
pub fn binary<X: ExtensionFunctions>(
    rt: &HostRuntime,
    f: &str,
    func: X::Binary,
    returns: SchemaType,
    args: &[Value<X>],
) -> io::Result<()>
    requires { (x : _) (y : _) (r : _) → X.Binary.gives func x y r
        → Keeps X.type_name (declared (Some returns)) r }
{
    let f = name(rt, f)?;
    let takes = (SchemaType::Long, SchemaType::Long);
    call(
        rt,
        ExtensionFunction::<X>::binary(rt.alloc(), f, STYLE, func, returns, takes)?,
        args,
    )
}

/// Stores and calls a function of three numbers.
pub fn ternary<X: ExtensionFunctions>(
    rt: &HostRuntime,
    f: &str,
    func: X::Ternary,
    returns: SchemaType,
    args: &[Value<X>],
) -> io::Result<()>
    requires { (x : _) (y : _) (z : _) (r : _) → X.Ternary.gives func x y z r
        → Keeps X.type_name (declared (Some returns)) r }
{
    let f = name(rt, f)?;
    let takes = (SchemaType::Long, SchemaType::Long, SchemaType::Long);
    call(
        rt,
        ExtensionFunction::<X>::ternary(rt.alloc(), f, STYLE, func, returns, takes)?,
        args,
    )
}

/// Stores and calls a function of two or more numbers.
pub fn variadic<X: ExtensionFunctions>(
    rt: &HostRuntime,
    f: &str,
    func: X::Variadic,
    returns: SchemaType,
    args: &[Value<X>],
) -> io::Result<()>
    requires { (x : _) (xs : _) (r : _) → X.Variadic.gives func x xs r
        → Keeps X.type_name (declared (Some returns)) r }
{
    let f = name(rt, f)?;
    let takes = (SchemaType::Long, SchemaType::Long);
    call(
        rt,
        ExtensionFunction::<X>::variadic(rt.alloc(), f, STYLE, func, returns, takes)?,
        args,
    )
}

/// The name of a text.
pub fn name(rt: &HostRuntime, text: &str) -> Result<Name, AllocError> {
    Name::parse_unqualified_name(rt.alloc(), text).map_err(|_| AllocError)
}

// Stores a function in an extension, calls it from there, and prints its answer.
fn call<X: ExtensionFunctions>(
    rt: &HostRuntime,
    function: ExtensionFunction<X>,
    args: &[Value<X>],
) -> io::Result<()> {
    let f = function.name().clone(rt.alloc())?;
    let mut functions = Vec::new(rt.alloc());
    functions.push(function)?;
    let extension = Extension::new(
        rt.alloc(),
        name(rt, "boxes")?,
        functions,
        Vec::new(rt.alloc()),
    )?;
    match extension.get_func(&f) {
        Some(stored) => show(rt, &f, &stored.call(rt.alloc(), args)),
        None => println!(rt; "{f} is not stored"),
    }
}

/// Prints what a function answers.
pub fn show<X: ExtensionValue>(
    rt: &HostRuntime,
    f: &Name,
    answer: &Result<PartialValue<X>, EvaluationError>,
) -> io::Result<()> {
    match answer {
        Ok(PartialValue::Value(value)) => println!(rt; "{f}: {value}"),
        Ok(PartialValue::Residual(_)) => println!(rt; "{f}: not known"),
        Err(e) => println!(rt; "{f}: {e}"),
    }
}
