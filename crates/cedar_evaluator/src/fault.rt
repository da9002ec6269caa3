//! Why an expression has no value.
ghost use Rattle.std.specs.Prelude.{◌≡◌};
ghost use Rattle.std.specs.Option.{option_copied};
ghost use Rattle.cedar_evaluator.specs.Outcomes.{fault_in, place_in};

use cedar_names::{Loc, Name};
use std::fmt;
use thiserror::Error;

/// Why an evaluation gives no value. `Open` may change where more unknowns are bound; the others
/// never do. Its text is `fault: open`, `fault: type`, `fault: overflow`, `fault: missing` or
/// `fault: store`.
#[derive(Clone, Copy, Debug, PartialEq, Eq, Error)]
pub enum EvalFault {
    /// A part is not known: a variable, a slot, or an unknown that is not bound.
    Open,
    /// A value has the wrong type for what is asked of it.
    WrongType,
    /// A result of arithmetic is outside 64 bits.
    Overflow,
    /// A record lacks the attribute.
    Missing,
    /// The store of entities alone could answer: `in`, tags, attributes of entities; or a table of
    /// functions: the order of two extension values.
    Store,
}

impl fmt::Display for EvalFault {
    ghost use Rattle.std.specs.Prelude.{Some};
    ghost use Rattle.cedar_evaluator.specs.Outcomes.{bare_fault};
    ghost use Rattle.cedar_evaluator.specs.Texts.{fault_text};

    ghost output = { λ fault. Some (fault_text (bare_fault fault)) };

    fn fmt<W: fmt::Write>(&self, f: &mut fmt::Formatter<W>) -> fmt::Result {
        match self {
            EvalFault::Open => write!(f, "fault: open"),
            EvalFault::WrongType => write!(f, "fault: type"),
            EvalFault::Overflow => write!(f, "fault: overflow"),
            EvalFault::Missing => write!(f, "fault: missing"),
            EvalFault::Store => write!(f, "fault: store"),
        }
    }
}

/// Why an evaluation gives no value, and where: the place of the first node, in the order of
/// evaluation, that has operands with values and no value itself.
///
/// Its text is that of the fault. Places do not compare.
#[derive(Debug, Drop, Error)]
#[derive_where(PartialEq, Eq)]
pub struct EvaluationFault {
    fault: EvalFault,
    #[derive_where(skip(EqHashOrd))]
    source_loc: Option<Loc>,
}

impl EvaluationFault {
    /// A fault that comes up at this place.
    pub fn new(fault: EvalFault, source_loc: Option<Loc>) -> EvaluationFault
        ensures fault { fault_in result ≡ fault }
        ensures place { place_in result ≡ source_loc }
    {
        EvaluationFault { fault, source_loc }
    }

    /// Why there is no value.
    pub fn fault(&self) -> EvalFault
        ensures { result ≡ fault_in self.now }
    {
        self.fault
    }

    /// The place of the node at which the fault came up, if it has one.
    pub fn source_loc(&self) -> Option<&Loc>
        ensures { option_copied result ≡ place_in self.now }
    {
        self.source_loc.as_ref()
    }
}

impl fmt::Display for EvaluationFault {
    ghost use Rattle.std.specs.Prelude.{Some};
    ghost use Rattle.cedar_evaluator.specs.Outcomes.{bare_fault, fault_in};
    ghost use Rattle.cedar_evaluator.specs.Texts.{fault_text};

    ghost output = { λ e. Some (fault_text (bare_fault (fault_in e))) };

    fn fmt<W: fmt::Write>(&self, f: &mut fmt::Formatter<W>) -> fmt::Result {
        write!(f, "{}", self.fault)
    }
}

/// The call of an extension function is refused: an evaluation here has no functions.
#[derive(Debug, PartialEq, Eq, Drop, Error)]
#[error("call of `{name}` refused")]
pub struct CallRefused {
    /// The name of the function that is called.
    pub name: Name,
}
