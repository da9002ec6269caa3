//! What walks over an expression give.
use calls_decode::sketch;
use calls_syntax::{Answer, CallError, holds, join, place};
use cedar_exprs::{Expr, ExprIterator, SlotRef};
use cedar_terms::Unknown;
use std::alloc::Global;

/// Each position.
pub fn positions(alloc: Global, e: &Expr) -> Result<String, CallError> {
    let mut text = String::new(alloc);
    for position in e.subexpressions(alloc)? {
        join(&mut text, " | ", &sketch(alloc, position)?)?;
    }
    Ok(text)
}

/// How many positions there are.
pub fn count(alloc: Global, e: &Expr) -> Result<String, CallError> {
    let mut count = 0u64;
    for _ in ExprIterator::new(alloc, e)? {
        count = count.saturating_add(1);
    }
    Ok(format!(in alloc; "{count}")?)
}

/// Each slot with its place.
pub fn slots(alloc: Global, e: &Expr) -> Result<String, CallError> {
    let mut text = String::new(alloc);
    for slot in e.slots(alloc)? {
        join(&mut text, " | ", &slot_text(alloc, &slot)?)?;
    }
    Ok(text)
}

// The slot that is borrowed has its own place.
fn slot_text(alloc: Global, borrowed: &SlotRef) -> Result<String, CallError> {
    let slot = borrowed.to_slot(alloc)?;
    holds(
        slot.loc.as_ref() == borrowed.loc && slot.id == borrowed.id,
        "a slot and its copy",
    )?;
    Answer::new(alloc)
        .word(&slot.id)
        .labelled_made("@", place(alloc, slot.loc.as_ref()))
        .end()
}

/// Each unknown.
pub fn unknowns(alloc: Global, e: &Expr) -> Result<String, CallError> {
    let mut text = String::new(alloc);
    for unknown in e.unknowns(alloc)? {
        join(&mut text, " | ", &unknown_text(alloc, unknown)?)?;
    }
    Ok(text)
}

fn unknown_text(alloc: Global, unknown: &Unknown) -> Result<String, CallError> {
    sketch(alloc, &Expr::unknown(unknown.clone(alloc)?))
}
