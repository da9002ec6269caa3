//! The cases of parsing: conditions of so many bytes.
use crate::fault::CaseFault;
use cedar_bench_runner::Stopwatch;
use cedar_parser::parse_expr;
use std::alloc::{AllocError, Global};
use std::time::Duration;

/// What a condition repeats.
#[derive(Clone, Copy)]
pub enum Syntax {
    /// `principal.age == 1 && principal.age == 1 && ..`.
    Chain,
    /// `((..principal..))`.
    Brackets,
    /// `[[1, "two"], [1, "two"], ..]`.
    Sets,
    /// `context.contains(1).contains(1)..`.
    Methods,
}

/// Parses a condition of about so many bytes.
pub fn time_parse(rt: &HostRuntime, syntax: Syntax, bytes: usize) -> Result<Duration, CaseFault> {
    let text = syntax.text(rt.alloc(), bytes)?;
    let watch = Stopwatch::start(rt);
    watch.stop(parse_expr(rt.alloc(), &text))
}

impl Syntax {
    fn text(self, alloc: Global, bytes: usize) -> Result<String, AllocError> {
        match self {
            Syntax::Chain => repeated(alloc, "", "principal.age == 1 && ", "true", bytes),
            Syntax::Brackets => brackets(alloc, bytes / 2),
            Syntax::Sets => repeated(alloc, "[", "[1, \"two\"], ", "0]", bytes),
            Syntax::Methods => repeated(alloc, "context", ".contains(1)", "", bytes),
        }
    }
}

// So many bytes of a part again and again, between what stands before and after it.
fn repeated(
    alloc: Global,
    before: &str,
    part: &str,
    after: &str,
    bytes: usize,
) -> Result<String, AllocError> {
    let mut text = String::from_str(alloc, before)?;
    for _ in 0..bytes.checked_div(part.len()).unwrap_or(0) {
        text.push_str(part)?;
    }
    text.push_str(after)?;
    Ok(text)
}

// A variable in so many brackets.
fn brackets(alloc: Global, count: usize) -> Result<String, AllocError> {
    let closing = repeated(alloc, "", ")", "", count)?;
    repeated(
        alloc,
        "",
        "(",
        &format!(in alloc; "principal{closing}")?,
        count,
    )
}
