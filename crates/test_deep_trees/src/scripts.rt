//! Scripts that nest expressions, and that bind, substitute, simplify, show and evaluate them.

use cedar_script::{RunFault, run};
use std::alloc::{AllocError, Global};
use std::io;

// A script that nests an expression.
#[derive(Drop)]
struct Nest {
    name: &'static str,
    // What is inside.
    beginning: &'static str,
    // The lines of a level.
    level: &'static str,
    levels: usize,
    // What is done to the nest.
    ending: &'static str,
}

impl Nest {
    // Levels round an unknown, which is open first and bound then.
    fn of_unknown(name: &'static str, level: &'static str, levels: usize) -> Nest {
        Nest {
            name,
            beginning: "unknown x\n",
            level,
            levels,
            ending: "show\ntyped\neval\nsimplify\n\
                bool true\nbind x\ntyped\nsubstitute\nsimplify\nshow\n",
        }
    }

    // Sums of a number and an unknown, which is open first and bound then.
    fn of_sums(name: &'static str, level: &'static str, levels: usize) -> Nest {
        Nest {
            name,
            beginning: "unknown x\n",
            level,
            levels,
            ending: "eval\nlong 1\nbind x\neval\nsimplify\nshow\n",
        }
    }

    // Levels of a value, which is bound and put in.
    fn of_value(name: &'static str, level: &'static str, levels: usize) -> Nest {
        Nest {
            name,
            beginning: "bool true\n",
            level,
            levels,
            ending: "bind x\nunknown x\ntyped\nshow\n\
                unknown x\nsubstitute\nshow\nunknown x\nsimplify\nshow\n",
        }
    }

    fn script(&self, alloc: Global) -> Result<String, AllocError> {
        let mut script = String::from_str(alloc, self.beginning)?;
        for _ in 0..self.levels {
            script.push_str(self.level)?;
        }
        script.push_str(self.ending)?;
        Ok(script)
    }
}

/// Works each script, and prints how long what it shows is.
pub fn work_scripts(rt: &HostRuntime, levels: usize) -> io::Result<()> {
    // Records take most memory, and a value that is bound is walked over most often.
    let (records, bound) = (levels / 10, levels / 100);
    let nests = [
        Nest::of_unknown("!", "!\n", levels),
        Nest::of_unknown("and", "bool true\nand\n", levels),
        Nest::of_unknown("set", "set 1\n", levels),
        Nest::of_unknown("record", "record a\n", records),
        Nest::of_unknown("like", "like a*\n", levels),
        Nest::of_sums("+", "long 1\n+\n", levels),
        Nest::of_value("bound set", "set 1\n", bound),
        Nest::of_value("bound record", "record a\n", bound),
    ];
    for nest in &nests {
        let name = nest.name;
        let script = nest.script(rt.alloc())?;
        match shown(rt.alloc(), &script) {
            Ok(text) => {
                let each = text.len().checked_div(nest.levels).unwrap_or(0);
                println!(rt; "{name}: shown in {each} bytes a level")?
            }
            Err(fault) => println!(rt; "{name}: {fault}")?,
        }
    }
    Ok(())
}

// All that a script shows.
fn shown(alloc: Global, script: &str) -> Result<Vec<u8>, RunFault> {
    let mut reader = script.as_bytes();
    let mut writer = Vec::new(alloc);
    run(alloc, &mut reader, &mut writer)?;
    Ok(writer)
}
