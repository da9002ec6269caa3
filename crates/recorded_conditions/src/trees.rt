//! Trees that are printed and parsed again.
use crate::places::are_pieces;
use calls_decode::expr;
use calls_syntax::{CallError, sexprs};
use cedar_exprs::Expr;
use cedar_parser::{ParseError, SyntaxError, parse_expr};
use cedar_printer::policy_text;
use std::alloc::{AllocError, Global};
use std::io::{self, BufRead as _, BufReader};
use thiserror::Error;

/// Compares each tree of standard input with what its text is parsed to, and shows those that
/// differ.
pub fn read_back(rt: &HostRuntime) -> io::Result<()> {
    let mut trees = 0_u64;
    let mut failed = 0_u64;
    for line in BufReader::new(rt.alloc(), rt.reader())?.lines(rt.alloc()) {
        let line = line?;
        trees = trees.saturating_add(1);
        if let Some(failure) = compare(rt.alloc(), &line)? {
            failed = failed.saturating_add(1);
            println!(rt; "{failure}: {line}")?;
        }
    }
    println!(rt; "{trees} trees, {failed} failed")
}

// What may be wrong with a line.
#[derive(Debug, Drop, Error)]
enum Failure {
    #[error("another tree is read")]
    Differs,
    #[error("what is printed is not read, {0}")]
    Refused(SyntaxError),
    #[error("a node has another place")]
    Misplaced,
    #[error("this is no tree")]
    NoTree,
}

// Prints the tree of a line, parses that and compares.
fn compare(alloc: Global, line: &str) -> Result<Option<Failure>, AllocError> {
    match tree(alloc, line) {
        Ok(tree) => compare_tree(alloc, &tree),
        Err(CallError::Memory) => Err(AllocError),
        Err(_) => Ok(Some(Failure::NoTree)),
    }
}

fn compare_tree(alloc: Global, tree: &Expr) -> Result<Option<Failure>, AllocError> {
    let text = policy_text(alloc, tree)?.text;
    match parse_expr(alloc, &text) {
        Ok(read) if !tree.eq_shape(&read) => Ok(Some(Failure::Differs)),
        Ok(read) if !are_pieces(alloc, &text, &read)? => Ok(Some(Failure::Misplaced)),
        Ok(_) => Ok(None),
        Err(ParseError::Syntax(error)) => Ok(Some(Failure::Refused(error))),
        Err(ParseError::Memory) => Err(AllocError),
    }
}

// The tree of a line.
fn tree(alloc: Global, line: &str) -> Result<Expr, CallError> {
    match sexprs(alloc, line)?.as_slice() {
        [sexpr] => expr(alloc, sexpr),
        _ => Err(CallError::BadArguments),
    }
}
