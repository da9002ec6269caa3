//! Reads a script of expressions from standard input, works it line by line, and prints the trees
//! that it asks for.
#![tactic(auto)]

use cedar_script::run;
use std::io;
use std::process::ExitCode;

fn main(rt: HostRuntime) -> ExitCode {
    match run(rt.alloc(), &mut rt.reader(), &mut io::writer(&rt)) {
        Ok(()) => ExitCode::SUCCESS,
        Err(fault) => {
            // Where even standard error is closed, the status alone tells.
            let _ = eprintln!(rt; "{fault}");
            ExitCode::from(fault.status())
        }
    }
}
