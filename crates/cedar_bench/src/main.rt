//! Times the calls that the layers exist for, each over inputs of several sizes.
//!
//! With no arguments the cases are listed. A case runs if an argument is a beginning of its name,
//! or if there are options alone. A line for each figure: the case, the size, and the least time of
//! a run in seconds. `--quick` takes the two least sizes of a case alone; `--check` runs it once at
//! the least one, and leaves the time out.
#![tactic(auto)]

mod calls;
mod cases;
mod context;
mod count;
mod evaluator;
mod expressions;
mod fault;
mod names;
mod patterns;
mod sets;
mod simplifier;
mod trees;
mod values;

use crate::cases::CASES;
use cedar_bench_runner::bench;
use std::process::ExitCode;

fn main(rt: HostRuntime) -> ExitCode {
    bench(&rt, &CASES)
}
