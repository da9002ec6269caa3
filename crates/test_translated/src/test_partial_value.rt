//! Tests of `partial_value.rs`.
use crate::said::{long, title};
use cedar_exprs::Expr;
use cedar_values::{PartialValue, Value, split};
use either::Either;
use std::io;

/// Runs them.
pub fn run(rt: &HostRuntime) -> io::Result<()> {
    split_values(rt)?;
    split_residuals(rt)?;
    split_residuals2(rt)?;
    split_residuals3(rt)
}

fn value(n: i64) -> PartialValue {
    PartialValue::Value(Value::from(n))
}

fn residual(n: i64) -> PartialValue {
    PartialValue::Residual(long(n))
}

fn split_values(rt: &HostRuntime) -> io::Result<()> {
    title(rt, "partial_value: split_values")?;
    show_split(rt, vec![in rt.alloc(); value(1), value(2)]?)
}

fn split_residuals(rt: &HostRuntime) -> io::Result<()> {
    title(rt, "partial_value: split_residuals")?;
    show_split(
        rt,
        vec![in rt.alloc(); value(1), residual(2), value(3), residual(4)]?,
    )
}

fn split_residuals2(rt: &HostRuntime) -> io::Result<()> {
    title(rt, "partial_value: split_residuals2")?;
    show_split(
        rt,
        vec![in rt.alloc(); value(1), value(2), residual(3), residual(4)]?,
    )
}

fn split_residuals3(rt: &HostRuntime) -> io::Result<()> {
    title(rt, "partial_value: split_residuals3")?;
    show_split(
        rt,
        vec![in rt.alloc(); residual(1), residual(2), value(3), value(4)]?,
    )
}

// Prints the parts.
fn show_split(rt: &HostRuntime, items: Vec<PartialValue>) -> io::Result<()> {
    match split(rt.alloc(), items)? {
        Either::Left(values) => show_values(rt, &values.collect(rt.alloc())?),
        Either::Right(exprs) => show_residuals(rt, &exprs.collect(rt.alloc())?),
    }
}

// Prints whether the values are 1 and 2.
fn show_values(rt: &HostRuntime, values: &Vec<Value>) -> io::Result<()> {
    let wanted = vec![in rt.alloc(); Value::from(1), Value::from(2)]?;
    println!(rt; "  values 1, 2: {}", *values == wanted)
}

// Prints whether the residuals are 1 to 4.
fn show_residuals(rt: &HostRuntime, exprs: &Vec<Expr>) -> io::Result<()> {
    let wanted = vec![in rt.alloc(); long(1), long(2), long(3), long(4)]?;
    println!(rt; "  residuals 1, 2, 3, 4: {}", *exprs == wanted)
}
