//! Tests of `expr_iterator.rs`.
use crate::said::{boolean, long, says, text, title};
use cedar_builders::ExpressionConstructionError;
use cedar_exprs::Expr;
use std::alloc::{AllocError, Global};
use std::collections::HashSet;
use std::io;

/// Runs them.
pub fn run(rt: &HostRuntime) -> io::Result<()> {
    and(rt)?;
    or(rt)?;
    set_duplicates(rt)?;
    record(rt)?;
    duplicates(rt)?;
    deeply_nested(rt)
}

// The different subexpressions.
fn subexpressions(alloc: Global, e: &Expr) -> Result<HashSet<&Expr>, AllocError> {
    let mut set = HashSet::new(alloc);
    for expr in e.subexpressions(alloc)? {
        set.insert(expr)?;
    }
    Ok(set)
}

// Whether the subexpressions are the expression and two more.
fn is_with_two(alloc: Global, e: &Expr, first: &Expr, second: &Expr) -> Result<bool, AllocError> {
    let mut wanted = HashSet::new(alloc);
    wanted.insert(e)?;
    wanted.insert(first)?;
    wanted.insert(second)?;
    Ok(subexpressions(alloc, e)? == wanted)
}

fn and(rt: &HostRuntime) -> io::Result<()> {
    title(rt, "expr_iterator: and")?;
    let e = Expr::and(rt.alloc(), long(1), boolean(false))?;
    let holds = is_with_two(rt.alloc(), &e, &long(1), &boolean(false))?;
    says(rt, "itself, 1 and false", holds)
}

fn or(rt: &HostRuntime) -> io::Result<()> {
    title(rt, "expr_iterator: or")?;
    let e = Expr::or(rt.alloc(), long(1), boolean(false))?;
    let holds = is_with_two(rt.alloc(), &e, &long(1), &boolean(false))?;
    says(rt, "itself, 1 and false", holds)
}

fn set_duplicates(rt: &HostRuntime) -> io::Result<()> {
    title(rt, "expr_iterator: set_duplicates")?;
    let e = Expr::set(
        rt.alloc(),
        vec![in rt.alloc(); boolean(true), boolean(true)]?,
    )?;
    let v: Vec<&Expr> = e.subexpressions(rt.alloc())?.collect(rt.alloc())?;
    println!(rt; "  len: {}", v.len())?;
    let part = boolean(true);
    says(rt, "contains true", v.contains(&&part))
}

fn record(rt: &HostRuntime) -> io::Result<()> {
    title(rt, "expr_iterator: record")?;
    match record_of_two(rt.alloc()) {
        Ok(e) => {
            let holds = is_with_two(rt.alloc(), &e, &boolean(false), &boolean(true))?;
            says(rt, "itself, false and true", holds)
        }
        Err(error) => println!(rt; "  {error}"),
    }
}

fn record_of_two(alloc: Global) -> Result<Expr, ExpressionConstructionError> {
    let pairs = vec![in alloc;
        (text(alloc, "test")?, boolean(true)),
        (text(alloc, "another")?, boolean(false)),
    ]?;
    Expr::record(alloc, pairs)
}

fn duplicates(rt: &HostRuntime) -> io::Result<()> {
    title(rt, "expr_iterator: duplicates")?;
    let e = Expr::ite(rt.alloc(), boolean(true), boolean(true), boolean(true))?;
    let v: Vec<&Expr> = e.subexpressions(rt.alloc())?.collect(rt.alloc())?;
    println!(rt; "  len: {}", v.len())?;
    says(rt, "contains itself", v.contains(&&e))?;
    let part = boolean(true);
    says(rt, "contains true", v.contains(&&part))
}

// `1 && 0`
fn innermost(alloc: Global) -> Result<Expr, AllocError> {
    Expr::and(alloc, long(1), long(0))
}

// `(1 && 0).attr2`
fn inner(alloc: Global) -> Result<Expr, AllocError> {
    Expr::get_attr(alloc, innermost(alloc)?, text(alloc, "attr2")?)
}

fn deeply_nested(rt: &HostRuntime) -> io::Result<()> {
    title(rt, "expr_iterator: deeply_nested")?;
    let e = Expr::get_attr(rt.alloc(), inner(rt.alloc())?, text(rt.alloc(), "attr1")?)?;
    show_within(rt, &e, "itself", &e)?;
    show_within(rt, &e, "(1 && 0).attr2", &inner(rt.alloc())?)?;
    show_within(rt, &e, "1 && 0", &innermost(rt.alloc())?)?;
    show_within(rt, &e, "1", &long(1))?;
    show_within(rt, &e, "0", &long(0))
}

// Prints whether an expression is a subexpression.
fn show_within(rt: &HostRuntime, e: &Expr, name: &str, part: &Expr) -> io::Result<()> {
    let mut found = false;
    for expr in e.subexpressions(rt.alloc())? {
        found = found || expr == part;
    }
    println!(rt; "  contains {name}: {found}")
}
