//! Answers, prints and parses conditions in Cedar's own syntax; those stored here were worked by
//! hand, or are trees of recorded calls.
//!
//! The first argument names a file of conditions, one a line: each is shown with its answer. The
//! second names a file of conditions that have a fault, each with the answer that a reference
//! evaluator gives (`tools/fault_places`): those that get another answer are shown. Each line of
//! standard input is a tree, written as `docs/CALLS.md` says: it is printed, what was printed is
//! parsed, the two trees are compared, and each node with the piece of text at its place. The third
//! argument names a file of texts with blank lines between them: each is parsed, and the program
//! shows its tree, and how it is printed again, or why it is no expression. At last it parses a
//! text as many levels deep as the fourth argument says.
#![tactic(auto)]

mod conditions;
mod deep;
mod faults;
mod known;
mod places;
mod texts;
mod trees;

use anyhow::{Result, bail};
use std::{env, fs};

fn main(rt: HostRuntime) -> Result<()> {
    let (conditions_file, faults_file, texts_file, levels) = arguments(&rt)?;
    conditions::show(&rt, &fs::read_to_string(&rt, &conditions_file)?)?;
    println!(rt)?;
    faults::compare(&rt, &fs::read_to_string(&rt, &faults_file)?)?;
    trees::read_back(&rt)?;
    texts::show(&rt, &fs::read_to_string(&rt, &texts_file)?)?;
    deep::show(&rt, levels)?;
    Ok(())
}

// The files of conditions, of faults and of texts, and the number of levels.
fn arguments(rt: &HostRuntime) -> Result<(String, String, String, usize)> {
    let mut words = env::args(rt)?.skip(1);
    match (
        words.next(),
        words.next(),
        words.next(),
        words.next().and_then(|word| word.parse().ok()),
    ) {
        (Some(conditions), Some(faults), Some(texts), Some(levels)) => {
            Ok((conditions, faults, texts, levels))
        }
        _ => bail!("usage: recorded_conditions CONDITIONS FAULTS TEXTS LEVELS"),
    }
}
