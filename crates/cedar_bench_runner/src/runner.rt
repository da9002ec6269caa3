//! Lists the cases of a program, or runs those that its arguments name.
use crate::fault::BenchFault;
use crate::wanted::{CHECK, QUICK, beginning, has_option, is_wanted, sizes_of};
use std::alloc::Global;
use std::fmt::Display;
use std::process::ExitCode;
use std::rc::RcStr;
use std::time::Duration;
use std::{env, io};

// Runs go on until they have taken this time in all, in milliseconds.
const ENOUGH: u64 = 300;

const FEWEST_RUNS: usize = 3;

const MOST_RUNS: usize = 300;

/// What a case times.
pub trait Case: Copy {
    /// Why it has no figure.
    type Fault: Display + Drop;

    /// The time of one call over an input of this size.
    fn time(self, rt: &HostRuntime, size: usize) -> Result<Duration, Self::Fault>;
}

/// The name of a case, its sizes from the least up, and what it times.
pub type Entry<C> = (&'static str, &'static [usize], C);

/// The work of a program that times cases.
///
/// With no arguments the cases are listed. A case runs if an argument is a beginning of its name,
/// or if there are options alone. A line for each figure: the case, the size, and the least time of
/// a run in seconds. `--quick` takes the two least sizes of a case alone; `--check` runs it once at
/// the least one, and leaves the time out.
///
/// ```rust
/// fn main(rt: HostRuntime) -> ExitCode {
///     bench(&rt, &[("names-read", &[1_000, 10_000], Call::ReadNames)])
/// }
/// ```
pub fn bench<C: Case>(rt: &HostRuntime, cases: &[Entry<C>]) -> ExitCode {
    match list_or_run(rt, cases) {
        Ok(()) => ExitCode::SUCCESS,
        Err(fault) => {
            // Where even standard error is closed, the status alone tells.
            let _ = eprintln!(rt; "{fault}");
            ExitCode::from(2)
        }
    }
}

fn list_or_run<C: Case>(rt: &HostRuntime, cases: &[Entry<C>]) -> Result<(), BenchFault<C::Fault>> {
    let arguments: Vec<String> = env::args(rt)?.skip(1).collect(rt.alloc())?;
    if arguments.is_empty() {
        list(rt, cases)
    } else {
        run(rt, cases, &arguments)
    }
}

// Writes the name of each case on a line.
fn list<C: Case>(rt: &HostRuntime, cases: &[Entry<C>]) -> Result<(), BenchFault<C::Fault>> {
    for (name, _, _) in cases {
        println!(rt; "{name}")?;
    }
    Ok(())
}

fn run<C: Case>(
    rt: &HostRuntime,
    cases: &[Entry<C>],
    arguments: &[String],
) -> Result<(), BenchFault<C::Fault>> {
    check(rt.alloc(), cases, arguments)?;
    let is_check = has_option(arguments, CHECK);
    let is_quick = has_option(arguments, QUICK);
    for (name, sizes, case) in cases {
        if is_wanted(arguments, name) {
            if is_check {
                check_case(rt, name, sizes, *case)?;
            } else {
                run_case(rt, name, sizes_of(is_quick, sizes), *case)?;
            }
        }
    }
    Ok(())
}

// Refuses the first argument that should be the beginning of a name, and is not.
fn check<C: Case>(
    alloc: Global,
    cases: &[Entry<C>],
    arguments: &[String],
) -> Result<(), BenchFault<C::Fault>> {
    for argument in arguments {
        if let Some(word) = beginning(argument)
            && !is_known(cases, word)
        {
            return Err(BenchFault::Unknown {
                word: RcStr::from_str(alloc, word)?,
            });
        }
    }
    Ok(())
}

// Whether the name of a case begins so.
fn is_known<C: Case>(cases: &[Entry<C>], beginning: &str) -> bool {
    for (name, _, _) in cases {
        if name.starts_with(beginning) {
            return true;
        }
    }
    false
}

// Runs the case once at its least size.
fn check_case<C: Case>(
    rt: &HostRuntime,
    name: &'static str,
    sizes: &[usize],
    case: C,
) -> Result<(), BenchFault<C::Fault>> {
    let Some(size) = sizes.first() else {
        return Ok(());
    };
    match case.time(rt, *size) {
        Ok(_) => Ok(println!(rt; "{name} {size}")?),
        Err(fault) => Err(BenchFault::Case { name, fault }),
    }
}

fn run_case<C: Case>(
    rt: &HostRuntime,
    name: &'static str,
    sizes: &[usize],
    case: C,
) -> Result<(), BenchFault<C::Fault>> {
    for size in sizes {
        match least_time(rt, case, *size) {
            Ok(time) => print_time(rt, name, *size, time)?,
            Err(fault) => return Err(BenchFault::Case { name, fault }),
        }
    }
    Ok(())
}

// The least time of some runs of the case.
fn least_time<C: Case>(rt: &HostRuntime, case: C, size: usize) -> Result<Duration, C::Fault> {
    let mut least = Duration::MAX;
    let mut spent = Duration::ZERO;
    for count in 1..MOST_RUNS {
        let time = case.time(rt, size)?;
        least = least.min(time);
        spent = spent.saturating_add(time);
        if count >= FEWEST_RUNS && spent >= Duration::from_millis(ENOUGH) {
            break;
        }
    }
    Ok(least)
}

fn print_time(rt: &HostRuntime, name: &str, size: usize, time: Duration) -> Result<(), io::Error> {
    println!(rt;
        "{name} {size} {}.{:09}",
        time.as_secs(),
        time.subsec_nanos()
    )?;
    Ok(())
}
