//! Evaluates conditions over requests, and decides requests. The answers that are stored here were
//! worked by hand from Cedar's public documentation; the program shows what gets another one.
//!
//! The first argument names a file of conditions. Its first line is a store of entities, as JSON. A
//! line `request JSON` sets the request from there on; a line `CONDITION => ANSWER` is a condition
//! with its value, or why it has none.
//!
//! The second names a file of decisions, in sections with a blank line between two. A section is a
//! title, a store of entities, as JSON, and lines with an answer each:
//!
//! - `policies TEXT => ANSWER`: the policies from there on; `ok` and how many, or why the text is
//!   refused, and then there are still those before;
//! - `decide PRINCIPAL ACTION TYPE ID CONTEXT => ANSWER`: the request of `User::"PRINCIPAL"` to do
//!   `Action::"ACTION"` with `TYPE::"ID"`, the context as JSON; the decision, the determining
//!   policies, and behind `errors` the policies that have one. A word with `::` is an entity as it
//!   stands (`App::User::"alice"`), and `?` is a part that is not known.
//!
//! Other lines are headings.
#![tactic(auto)]

mod conditions;
mod decisions;
mod inputs;
mod tally;

use anyhow::{Result, bail};
use std::{env, fs};

fn main(rt: HostRuntime) -> Result<()> {
    conditions::compare(&rt, &file(&rt, 1)?)?;
    decisions::compare(&rt, &file(&rt, 2)?)
}

// The text of the file that an argument names.
fn file(rt: &HostRuntime, number: usize) -> Result<String> {
    match env::args(rt)?.nth(number) {
        Some(name) => Ok(fs::read_to_string(rt, &name)?),
        None => bail!("usage: recorded_decisions CONDITIONS DECISIONS"),
    }
}
