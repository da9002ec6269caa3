//! Decides requests by policies in Cedar's syntax, and evaluates, checks, formats and links them.
#![tactic(auto)]

mod answers;
mod authorize;
mod check;
mod evaluate;
mod failure;
mod format;
mod inputs;
mod known;
mod link;
mod options;
mod report;
mod residual;
mod status;
mod words;

use crate::failure::Failure;
use crate::status::Status;
use clap::ArgMatches;
use std::process::ExitCode;

fn main(rt: HostRuntime) -> ExitCode {
    match run(&rt) {
        Ok(status) => ExitCode::from(status.code()),
        Err(failure) => {
            // Where even standard error is closed, the status alone tells.
            let _ = eprintln!(rt; "error: {failure}");
            ExitCode::from(failure.status().code())
        }
    }
}

// Does what the arguments ask for.
fn run(rt: &HostRuntime) -> Result<Status, Failure> {
    let words = inputs::words(rt)?;
    match options::parse(rt.alloc(), &words) {
        Ok(options) => obey(rt, &options),
        Err(error) => explain(rt, &error),
    }
}

// Does what the subcommand says.
fn obey(rt: &HostRuntime, options: &ArgMatches<'_>) -> Result<Status, Failure> {
    match options.subcommand() {
        Some(("authorize", options)) => authorize::run(rt, options),
        Some(("evaluate", options)) => evaluate::run(rt, options),
        Some(("check-parse", options)) => check::run(rt, options),
        Some(("format", options)) => format::run(rt, options),
        Some(("link", options)) => link::run(rt, options),
        _ => Err(Failure::no_subcommand()),
    }
}

// Prints the help that was asked for, or what is wrong with the arguments.
fn explain(rt: &HostRuntime, error: &clap::Error) -> Result<Status, Failure> {
    if error.kind() == clap::error::ErrorKind::OutOfMemory {
        return Err(Failure::Memory);
    }
    error.print(rt)?;
    Ok(if error.use_stderr() {
        Status::Failure
    } else {
        Status::Success
    })
}
