//! Times what decides requests: texts parsed, extension values, stores of entities, and policies.
//!
//! With no arguments the cases are listed. A case runs if an argument is a beginning of its name,
//! or if there are options alone. A line for each figure: the case, the size, and the least time of
//! a run in seconds. `--quick` takes the two least sizes of a case alone; `--check` runs it once at
//! the least one, and leaves the time out.
#![tactic(auto)]

mod cases;
mod deciding;
mod entities;
mod extensions;
mod fault;
mod membership;
mod nodes;
mod parsing;
mod policies;

use crate::cases::CASES;
use cedar_bench_runner::bench;
use std::process::ExitCode;

fn main(rt: HostRuntime) -> ExitCode {
    bench(&rt, &CASES)
}
