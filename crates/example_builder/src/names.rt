//! What the example's builder makes, and why it makes nothing.
ghost use Rattle.std.specs.Prelude.{◌≡◌, ◌++◌, [], IfOk};
ghost use Rattle.example_builder.specs.UnknownNames.{texts_of};

use cedar_ast::Name;
use std::alloc::{AllocError, Global};
use std::rc::RcStr;

/// Names of unknowns, in the order in which they stand. A name that stands twice is there twice.
#[derive(Debug, Drop)]
pub struct Names {
    /// The names.
    pub names: Vec<RcStr>,
}

impl Names {
    /// No name.
    pub fn none(alloc: Global) -> Names
        ensures { texts_of result ≡ [] }
    {
        Names {
            names: Vec::new(alloc),
        }
    }

    /// These names and then the others.
    pub fn join(mut self, mut others: Names) -> Result<Names, AllocError>
        ensures { IfOk result (λ found. texts_of found ≡ texts_of self ++ texts_of others) }
    {
        self.names.append(&mut others.names)?;
        Ok(self)
    }
}

/// Why an expression has no list of names: it calls this function.
#[derive(Debug, Drop)]
pub struct CallRefused {
    /// The name of the function that is called.
    pub fn_name: Name,
}
