//! A text of great depth.
use cedar_exprs::Expr;
use cedar_parser::{ParseError, parse_expr};
use cedar_printer::policy_text;
use std::alloc::{AllocError, Global};
use std::io;

/// Shows that depth, of so many levels, ends neither parsing nor printing.
pub fn show(rt: &HostRuntime, levels: usize) -> io::Result<()> {
    let text = nested(rt.alloc(), levels)?;
    match parse_expr(rt.alloc(), &text) {
        Ok(expr) => show_length(rt, &expr, levels),
        Err(ParseError::Syntax(error)) => println!(rt; "\n{error}"),
        Err(ParseError::Memory) => Err(AllocError.into()),
    }
}

fn show_length(rt: &HostRuntime, expr: &Expr, levels: usize) -> io::Result<()> {
    let length = policy_text(rt.alloc(), expr)?.text.len();
    let each = length.checked_div(levels).unwrap_or(0);
    println!(rt; "\nconditionals in one another are read, and printed in {each} bytes a level")
}

// Brackets, conditionals and signs, this many of each, in one another.
fn nested(alloc: Global, levels: usize) -> Result<String, AllocError> {
    let mut text = String::new(alloc);
    for _ in 0..levels {
        text.push_str("(if true then -(")?;
    }
    text.push('1')?;
    for _ in 0..levels {
        text.push_str(") else 2)")?;
    }
    Ok(text)
}
