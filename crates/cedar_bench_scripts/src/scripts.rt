//! The cases: each script is read from a text in memory, and written into a vector.
use crate::fault::ScriptFault;
use cedar_bench_runner::{Case, Entry, Stopwatch};
use cedar_script::{RunFault, run};
use std::alloc::{AllocError, Global};
use std::time::Duration;

/// What a script does.
#[derive(Clone, Copy)]
pub enum Script {
    /// A set of numbers.
    Flat,
    /// A chain of `and`s.
    DeepAnd,
    /// Names that are bound, and put in.
    Bind,
    /// Records of two.
    Records,
    /// A text that is shown again and again.
    Show,
    /// Tests of texts against patterns.
    Like,
}

// Numbers of lines.
const LINES: [usize; 3] = [1_000, 10_000, 100_000];

/// The name of each case, its sizes from the least up, and its script.
pub static CASES: [Entry<Script>; 6] = [
    ("script-flat", &LINES, Script::Flat),
    ("script-deep-and", &LINES, Script::DeepAnd),
    ("script-bind", &LINES, Script::Bind),
    ("script-records", &LINES, Script::Records),
    ("script-show", &LINES, Script::Show),
    ("script-like", &LINES, Script::Like),
];

impl Case for Script {
    type Fault = ScriptFault;

    // The time of a script that does it so often.
    fn time(self, rt: &HostRuntime, size: usize) -> Result<Duration, ScriptFault> {
        let text = self.text(rt.alloc(), size)?;
        let watch = Stopwatch::start(rt);
        watch.stop(shown(rt.alloc(), &text))
    }
}

fn shown(alloc: Global, script: &str) -> Result<Vec<u8>, RunFault> {
    let mut reader = script.as_bytes();
    let mut writer = Vec::new(alloc);
    run(alloc, &mut reader, &mut writer)?;
    Ok(writer)
}

impl Script {
    fn text(self, alloc: Global, count: usize) -> Result<String, AllocError> {
        match self {
            Script::Flat => flat(alloc, count),
            Script::DeepAnd => deep_and(alloc, count),
            Script::Bind => bind(alloc, count),
            Script::Records => repeated(alloc, "", "long 1\nbool true\nrecord b a\n", count),
            Script::Show => repeated(alloc, "string banana\n", "show\n", count),
            Script::Like => repeated(alloc, "", "string banana\nlike b*n*a\n", count),
        }
    }
}

// A set of numbers.
fn flat(alloc: Global, count: usize) -> Result<String, AllocError> {
    let mut script = String::new(alloc);
    for i in 0..count {
        script.push_str(&format!(in alloc; "long {i}\n")?)?;
    }
    script.push_str(&format!(in alloc; "set {count}\nshow\n")?)?;
    Ok(script)
}

// A chain of `and`s, each the left side of the next, over an unknown that is bound at last.
fn deep_and(alloc: Global, count: usize) -> Result<String, AllocError> {
    let mut script = String::from_str(alloc, "unknown x\n")?;
    for _ in 0..count {
        script.push_str("bool true\nand\n")?;
    }
    script.push_str("bool true\nbind x\nsubstitute\nshow\n")?;
    Ok(script)
}

// So many names, each bound to a number, and the set of them, in which they are put in.
fn bind(alloc: Global, count: usize) -> Result<String, AllocError> {
    let mut script = String::new(alloc);
    for i in 0..count {
        script.push_str(&format!(in alloc; "long {i}\nbind x{i}\n")?)?;
    }
    for i in 0..count {
        script.push_str(&format!(in alloc; "unknown x{i}\n")?)?;
    }
    script.push_str(&format!(in alloc; "set {count}\nsubstitute\n")?)?;
    Ok(script)
}

// A beginning, and the same lines so often.
fn repeated(
    alloc: Global,
    beginning: &str,
    lines: &str,
    count: usize,
) -> Result<String, AllocError> {
    let mut script = String::from_str(alloc, beginning)?;
    for _ in 0..count {
        script.push_str(lines)?;
    }
    Ok(script)
}
