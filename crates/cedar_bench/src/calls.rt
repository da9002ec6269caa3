//! The cases of `cedar_calls`, and of validation by the functions of an extension.
use crate::count::{Count, Total, total_name};
use crate::fault::CaseFault;
use crate::trees::{Leaves, sums};
use cedar_bench_runner::Stopwatch;
use cedar_calls::{CallStyle, Extension, ExtensionFunction, Extensions};
use cedar_terms::SchemaType;
use cedar_values::{PartialValue, Value};
use std::alloc::{AllocError, Global};
use std::time::Duration;

/// Calls a function of one argument so often.
pub fn time_unary(rt: &HostRuntime, count: usize) -> Result<Duration, CaseFault> {
    time_calls(rt, &total_of_one(rt.alloc())?, count, 1)
}

/// Calls a function of any number of arguments so often, with three.
pub fn time_variadic(rt: &HostRuntime, count: usize) -> Result<Duration, CaseFault> {
    time_calls(rt, &total_of_any(rt.alloc())?, count, 3)
}

// So many calls, each of so many numbers.
fn time_calls(
    rt: &HostRuntime,
    function: &ExtensionFunction<Count>,
    count: usize,
    width: i64,
) -> Result<Duration, CaseFault> {
    let arguments = lists(rt.alloc(), count, width)?;
    let watch = Stopwatch::start(rt);
    watch.stop(call_with_each(rt.alloc(), function, &arguments))
}

/// Validates a tree of so many nodes, in which every eighth leaf is a call.
pub fn time_validate(rt: &HostRuntime, nodes: usize) -> Result<Duration, CaseFault> {
    let known = total_alone(rt.alloc())?;
    let expr = sums(rt.alloc(), Leaves::WithCalls, nodes)?;
    let watch = Stopwatch::start(rt);
    watch.stop(expr.try_validate(rt.alloc(), &known))
}

// The numbers from 0 on.
fn numbers(alloc: Global, width: i64) -> Result<Vec<Value<Count>>, AllocError> {
    let mut numbers = Vec::new(alloc);
    for x in 0..width {
        numbers.push(Value::from(x))?;
    }
    Ok(numbers)
}

// As many lists of so many numbers.
fn lists(alloc: Global, count: usize, width: i64) -> Result<Vec<Vec<Value<Count>>>, AllocError> {
    let mut lists = Vec::new(alloc);
    for _ in 0..count {
        lists.push(numbers(alloc, width)?)?;
    }
    Ok(lists)
}

fn total_of_one(alloc: Global) -> Result<ExtensionFunction<Count>, CaseFault> {
    Ok(ExtensionFunction::unary(
        alloc,
        total_name(alloc)?,
        CallStyle::FunctionStyle,
        Total,
        SchemaType::Long,
        SchemaType::Long,
    )?)
}

fn total_of_any(alloc: Global) -> Result<ExtensionFunction<Count>, CaseFault> {
    Ok(ExtensionFunction::variadic(
        alloc,
        total_name(alloc)?,
        CallStyle::FunctionStyle,
        Total,
        SchemaType::Long,
        (SchemaType::Long, SchemaType::Long),
    )?)
}

// How many of the calls answer a value.
fn call_with_each(
    alloc: Global,
    function: &ExtensionFunction<Count>,
    arguments: &[Vec<Value<Count>>],
) -> Result<usize, CaseFault> {
    let mut known: usize = 0;
    for arguments in arguments {
        match function.call(alloc, arguments)? {
            PartialValue::Value(_) => known = known.saturating_add(1),
            PartialValue::Residual(_) => {}
        }
    }
    Ok(known)
}

// The extension of a function of no arguments.
fn total_alone(alloc: Global) -> Result<Extensions<Count>, CaseFault> {
    let name = total_name(alloc)?;
    let function = ExtensionFunction::nullary(
        name,
        CallStyle::FunctionStyle,
        Total,
        SchemaType::Long,
    );
    let functions = vec![in alloc; function]?;
    let extension = Extension::new(alloc, total_name(alloc)?, functions, Vec::new(alloc))?;
    Ok(Extensions::new(vec![in alloc; extension]?))
}
