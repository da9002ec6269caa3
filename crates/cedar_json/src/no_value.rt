//! Why a piece of JSON stands for no value.
ghost use Rattle.std.specs.Prelude.{◌≡◌, ◌++◌, IfOk, string_bytes};
ghost use Rattle.cedar_json.specs.declared.no_value.NoValue.TheVariants.{Memory};

use std::alloc::{AllocError, AllocFailed, Global};

/// Why JSON stands for no value.
#[derive(Debug, Drop)]
pub enum NoValue {
    /// The path that leads to the member that stands for none, as `.roles[2]`, and what is wrong
    /// with it.
    Because { path: String, problem: String },
    /// Memory was wanted, and none was given.
    Memory,
}

impl NoValue {
    ghost use Rattle.std.specs.Prelude.{[]};
    ghost use Rattle.cedar_builders.specs.BareExpr.{Text};
    ghost use Rattle.cedar_json.specs.Refusals.{IsBecause};

    /// The problem with the piece itself.
    pub fn because(alloc: Global, problem: &str) -> NoValue
        ensures { IsBecause [] problem.now result }
    {
        match String::from_str(alloc, problem) {
            Ok(problem) => NoValue::Because {
                path: String::new(alloc),
                problem,
            },
            Err(_) => NoValue::Memory,
        }
    }

    // The same of a piece around it, from which this step leads.
    pub(crate) fn behind(self, step: String) -> NoValue
        ensures because { (path problem : Text) → IsBecause path problem self
            → IsBecause (string_bytes step ++ path) problem result }
        ensures memory { self ≡ Memory → result ≡ Memory }
    {
        match self {
            NoValue::Because { path, problem } => match joined(step, &path) {
                Ok(path) => NoValue::Because { path, problem },
                Err(_) => NoValue::Memory,
            },
            NoValue::Memory => NoValue::Memory,
        }
    }
}

// A path, and behind it another.
fn joined(mut path: String, rest: &str) -> Result<String, AllocError>
    ensures { IfOk result (λ made. string_bytes made ≡ string_bytes path ++ rest.now) }
{
    path.push_str(rest)?;
    Ok(path)
}

impl From<AllocError> for NoValue {
    ghost from_gives = { λ _ e. e ≡ Memory };

    fn from(_error: AllocError) -> NoValue {
        NoValue::Memory
    }
}

impl<T: Drop> From<AllocFailed<T>> for NoValue {
    ghost from_gives = { λ _ e. e ≡ Memory };

    fn from(_refused: AllocFailed<T>) -> NoValue {
        NoValue::Memory
    }
}
