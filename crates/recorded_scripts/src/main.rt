//! Works the scripts of a corpus from standard input, and compares what they show and how they end
//! with their records.
#![tactic(auto)]

use recorded_corpus::{compare, status};
use std::io;
use std::process::ExitCode;

fn main(rt: HostRuntime) -> ExitCode {
    let compared = compare(rt.alloc(), &mut rt.reader(), &mut io::writer(&rt));
    if let Err(fault) = &compared {
        // Where even standard error is closed, the status alone tells.
        let _ = eprintln!(rt; "{fault}");
    }
    ExitCode::from(status(&compared))
}
