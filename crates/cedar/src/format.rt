//! Prints policies in one layout.
use crate::failure::Failure;
use crate::inputs;
use crate::status::Status;
use clap::ArgMatches;

/// Prints the policies of a file, a blank line between two.
pub fn run(rt: &HostRuntime, options: &ArgMatches<'_>) -> Result<Status, Failure> {
    let source = inputs::read_source(rt, options, "policies")?;
    let set = inputs::policies(rt, &source)?;
    let mut is_first = true;
    for policy in set.policies() {
        if !is_first {
            println!(rt)?;
        }
        is_first = false;
        let text = policy.template.to_text(rt.alloc())?;
        print!(rt; "{text}")?;
    }
    Ok(Status::Success)
}
