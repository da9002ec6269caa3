//! Conditions with their answers.
use crate::known::{answer, bound};
use anyhow::Result;
use cedar_bindings::Bindings;

/// Shows each line of a file of conditions, and below a condition its answer.
pub fn show(rt: &HostRuntime, lines: &str) -> Result<()> {
    let mut bindings = Bindings::new(rt.alloc());
    for line in lines.lines() {
        println!(rt; "{line}")?;
        match line.strip_prefix("bind ") {
            Some(json) => bindings = bound(rt, json)?,
            None if is_passed_over(line) => {}
            None => println!(rt; "{}", answer(rt.alloc(), line, &bindings)?)?,
        }
    }
    Ok(())
}

// Whether a line is blank or a comment.
fn is_passed_over(line: &str) -> bool {
    line.is_empty() || line.starts_with("//")
}
