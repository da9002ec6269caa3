//! What tests say, and what they make.
use cedar_exprs::Expr;
use cedar_terms::{Literal, Unknown};
use cedar_values::Value;
use std::alloc::{AllocError, Global};
use std::io;
use std::rc::RcStr;

/// Names a test, by its file and its function.
pub fn title(rt: &HostRuntime, test: &str) -> io::Result<()> {
    println!(rt; "{test}")
}

/// Prints an assertion of a test, and whether it holds.
pub fn says(rt: &HostRuntime, what: &str, holds: bool) -> io::Result<()> {
    println!(rt; "  {what}: {holds}")
}

/// A shared text.
pub fn text(alloc: Global, text: &str) -> Result<RcStr, AllocError> {
    RcStr::from_str(alloc, text)
}

/// The expression of a number.
pub fn long(n: i64) -> Expr {
    Expr::val(Literal::Long(n))
}

/// The expression of a truth value.
pub fn boolean(b: bool) -> Expr {
    Expr::val(Literal::Bool(b))
}

/// An unknown without a type.
pub fn unknown(alloc: Global, name: &str) -> Result<Unknown, AllocError> {
    Ok(Unknown::new_untyped(text(alloc, name)?))
}

/// The value of a text.
pub fn string_value(alloc: Global, s: &str) -> Result<Value, AllocError> {
    Ok(Value::from(text(alloc, s)?))
}
