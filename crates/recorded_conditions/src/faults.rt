//! Conditions with a fault each.
use crate::known::{answer, bound};
use anyhow::Result;
use cedar_bindings::Bindings;
use cedar_conditions::Answer;
use std::alloc::{AllocError, Global};

/// Compares the answer to each condition of a file with what stands below it there, and shows those
/// that differ. Blank lines stand between conditions; the first line says what names stand for.
pub fn compare(rt: &HostRuntime, blocks: &str) -> Result<()> {
    let mut bindings = Bindings::new(rt.alloc());
    let mut faults = 0_u64;
    let mut failed = 0_u64;
    for block in blocks.split("\n\n") {
        if let Some(json) = block.strip_prefix("bind ") {
            bindings = bound(rt, json)?;
        } else if let Some((condition, wanted)) = block.split_once('\n') {
            faults = faults.saturating_add(1);
            let answer = answer(rt.alloc(), condition, &bindings)?;
            if !is_fault(rt.alloc(), &answer, wanted.trim_end())? {
                failed = failed.saturating_add(1);
                println!(rt; "{condition}\n{answer}")?;
            }
        }
    }
    println!(rt; "{faults} faults, {failed} failed")?;
    Ok(())
}

// Whether an answer is a fault with this text.
fn is_fault(alloc: Global, answer: &Answer, wanted: &str) -> Result<bool, AllocError> {
    let text = answer.to_string(alloc)?;
    Ok(matches!(answer, Answer::Fault(_)) && text.as_str() == wanted)
}
