//! Texts that are parsed.
use crate::places::are_pieces;
use cedar_exprs::Expr;
use cedar_parser::{ParseError, SyntaxError, parse_expr};
use cedar_printer::policy_text;
use cedar_sketch::Sketch;
use std::alloc::{AllocError, Global};
use std::io;

/// Shows what each text of a file is parsed to.
pub fn show(rt: &HostRuntime, texts: &str) -> io::Result<()> {
    for text in texts.split("\n\n") {
        let text = text.trim_end();
        println!(rt; "\n{text}")?;
        match parse_expr(rt.alloc(), text) {
            Ok(expr) => show_tree(rt, text, &expr)?,
            Err(ParseError::Syntax(error)) => show_error(rt, text, &error)?,
            Err(ParseError::Memory) => return Err(AllocError.into()),
        }
    }
    Ok(())
}

// Shows a tree, how it is printed, and whether a node is at a place that it was not parsed from.
fn show_tree(rt: &HostRuntime, text: &str, expr: &Expr) -> io::Result<()> {
    if !are_pieces(rt.alloc(), text, expr)? {
        println!(rt; "  has a node at another place")?;
    }
    println!(rt; "  is {}", tree_text(rt.alloc(), expr)?)?;
    println!(rt; "  or {}", policy_text(rt.alloc(), expr)?.text)
}

fn tree_text(alloc: Global, expr: &Expr) -> Result<String, AllocError> {
    expr.into_expr::<Sketch>(alloc)?.to_text(alloc)
}

fn show_error(rt: &HostRuntime, text: &str, error: &SyntaxError) -> io::Result<()> {
    println!(rt; "  {error}")?;
    println!(rt; "{}", error.excerpt(text))
}
