//! Answers recorded calls from standard input. Of the answers that are stored here the first were
//! worked by hand, those of evaluations given by two evaluators written by hand in other languages,
//! and the last recorded of the crate's own code.
#![tactic(auto)]

mod answer;
mod outcomes;
mod plain_values;
mod simplified;

use crate::answer::run;
use std::io;
use std::process::ExitCode;

fn main(rt: HostRuntime) -> ExitCode {
    match run(rt.alloc(), &mut rt.reader(), &mut io::writer(&rt)) {
        Ok(()) => ExitCode::SUCCESS,
        Err(fault) => {
            // Where even standard error is closed, the status alone tells.
            let _ = eprintln!(rt; "{fault}");
            ExitCode::from(2)
        }
    }
}
