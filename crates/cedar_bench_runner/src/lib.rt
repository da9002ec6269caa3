//! What the programs of benchmarks share: their arguments, the runs of a case, and the clock.
#![tactic(auto)]

mod fault;
mod runner;
mod stopwatch;
mod wanted;

pub use fault::NoClock;
pub use runner::{Case, Entry, bench};
pub use stopwatch::Stopwatch;
