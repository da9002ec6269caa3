//! Why the program does not do what it is asked for.
ghost use Rattle.std.specs.Prelude.{◌≡◌};
ghost use Rattle.cedar.specs.declared.failure.Failure.TheVariants.{Memory};

use crate::status::Status;
use anyhow::anyhow;
use cedar_bindings::BindingsError;
use cedar_inputs::InputError;
use cedar_parser::ParseError;
use cedar_policies::LinkError;
use std::alloc::{AllocError, AllocFailed};
use std::io;
use thiserror::Error;

/// Why the program does not do what it is asked for.
#[derive(Debug, Drop, Error)]
pub enum Failure {
    /// The arguments are wrong, or a file can't be read or written, or holds what it should not.
    #[error("{0}")]
    Wrong(anyhow::Error),
    /// Memory was wanted, and none was given.
    #[error("no memory")]
    Memory,
}

impl Failure {
    /// The status that the program ends with.
    pub fn status(&self) -> Status {
        match self {
            Failure::Wrong(_) => Status::Failure,
            Failure::Memory => Status::Memory,
        }
    }

    /// A file can't be read.
    pub fn of_file(file: &str, error: &io::Error) -> Failure {
        match error.kind() {
            io::ErrorKind::OutOfMemory => Failure::Memory,
            _ => Failure::Wrong(anyhow!("{file}: {error}")),
        }
    }

    /// A file does not hold what it should.
    pub fn of_input(file: &str, error: &InputError) -> Failure {
        match error {
            InputError::Memory => Failure::Memory,
            _ => Failure::Wrong(anyhow!("{file}: {error}")),
        }
    }

    /// The value of an option is no entity.
    pub fn of_entity(name: &str, text: &str, error: &InputError) -> Failure {
        match error {
            InputError::Memory => Failure::Memory,
            _ => Failure::Wrong(anyhow!(
                "--{name}: `{text}` is no entity: one is written User::\"alice\""
            )),
        }
    }

    /// A text, which a file or an argument holds, can't be parsed.
    pub fn of_syntax(file: &str, text: &str, error: &ParseError) -> Failure {
        match error {
            ParseError::Syntax(error) => {
                let line = error.line;
                let column = error.column;
                let problem = error.problem;
                let excerpt = error.excerpt(text);
                Failure::Wrong(anyhow!("{file}:{line}:{column}: {problem}\n{excerpt}"))
            }
            ParseError::Memory => Failure::Memory,
        }
    }

    /// A file or an argument binds no names.
    pub fn of_bindings(file: &str, error: &BindingsError) -> Failure {
        match error {
            BindingsError::Memory => Failure::Memory,
            _ => Failure::Wrong(anyhow!("{file}: {error}")),
        }
    }

    /// A part of a request is not there.
    pub fn of_missing(name: &str) -> Failure {
        Failure::Wrong(anyhow!(
            "the request has no {name}: give --{name}, or --partial if it is not known"
        ))
    }

    /// A template is not linked.
    pub fn of_link(id: &str, error: &LinkError) -> Failure {
        match error {
            LinkError::Memory => Failure::Memory,
            _ => Failure::Wrong(anyhow!("policy `{id}`: {error}")),
        }
    }

    /// No policy has this identifier.
    pub fn of_template(file: &str, id: &str) -> Failure {
        Failure::Wrong(anyhow!("{file}: no template is called `{id}`"))
    }

    /// Standard input is wanted twice.
    pub fn input_twice() -> Failure {
        Failure::Wrong(anyhow!("`-`, standard input, can be read once"))
    }

    /// Nothing is named that could be checked.
    pub fn nothing_to_check() -> Failure {
        Failure::Wrong(anyhow!("--policies, --entities or --expression is wanted"))
    }

    /// No subcommand was given.
    pub fn no_subcommand() -> Failure {
        Failure::Wrong(anyhow!("a subcommand is wanted: see --help"))
    }

    /// An argument is no text.
    pub fn of_argument(number: usize) -> Failure {
        Failure::Wrong(anyhow!("argument {number} is no UTF-8"))
    }
}

impl From<io::Error> for Failure {
    fn from(error: io::Error) -> Failure {
        match error.kind() {
            io::ErrorKind::OutOfMemory => Failure::Memory,
            _ => Failure::Wrong(anyhow!("{error}")),
        }
    }
}

impl From<AllocError> for Failure {
    ghost from_gives = { λ _ e. e ≡ Memory };

    fn from(_error: AllocError) -> Failure {
        Failure::Memory
    }
}

impl<T: Drop> From<AllocFailed<T>> for Failure {
    fn from(_: AllocFailed<T>) -> Failure {
        Failure::Memory
    }
}
