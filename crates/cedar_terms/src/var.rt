//! The variables of a request (Cedar's file `expr.rs`).
ghost use Rattle.std.specs.Prelude.{◌≡◌, ◌≢◌, IfNone, IfOk, IfSome, Some};
ghost use Rattle.cedar_terms.specs.Ops.{var_of, var_text};
ghost use Rattle.cedar_terms.specs.declared.var.Var.{Var};

use crate::known::{known_id, known_unreserved_id};
use cedar_names::{Id, PrincipalOrResource, UnreservedId};
use std::alloc::{AllocError, Global};
use std::fmt;

/// The variables of a request. They order as they stand here.
#[derive(Clone, Copy, Debug, PartialEq, Eq, PartialOrd, Ord, Hash)]
pub enum Var {
    /// The principal of the request.
    Principal,
    /// The action of the request.
    Action,
    /// The resource of the request.
    Resource,
    /// The context of the request.
    Context,
}

impl Var {
    /// The variable that has this text, which is the one that it is shown by.
    pub fn from_text(text: &str) -> Option<Var>
        ensures found { IfSome result (λ var. text.now ≡ var_text var) }
        ensures every { IfNone result ((var : Var) → text.now ≢ var_text var) }
    {
        match text {
            "principal" => Some(Var::Principal),
            "action" => Some(Var::Action),
            "resource" => Some(Var::Resource),
            "context" => Some(Var::Context),
            _ => None,
        }
    }

    /// The variable's text as an identifier.
    pub fn to_id(self, alloc: Global) -> Result<Id, AllocError>
        ensures { IfOk result (λ id. id ≡ var_text self) }
    {
        known_id(alloc, self.text())
    }

    /// The variable's text as an identifier that is not reserved.
    pub fn to_unreserved_id(self, alloc: Global) -> Result<UnreservedId, AllocError>
        ensures { IfOk result (λ id. id ≡ var_text self) }
    {
        known_unreserved_id(alloc, self.text())
    }

    // Its text.
    fn text(self) -> &'static str
        ensures { result.now ≡ var_text self }
    {
        match self {
            Var::Principal => "principal",
            Var::Action => "action",
            Var::Resource => "resource",
            Var::Context => "context",
        }
    }
}

impl From<PrincipalOrResource> for Var {
    ghost from_gives = { λ v var. var ≡ var_of v };

    fn from(v: PrincipalOrResource) -> Var {
        match v {
            PrincipalOrResource::Principal => Var::Principal,
            PrincipalOrResource::Resource => Var::Resource,
        }
    }
}

impl fmt::Display for Var {
    ghost output = { λ var. Some (var_text var) };

    fn fmt<W: fmt::Write>(&self, f: &mut fmt::Formatter<W>) -> fmt::Result {
        write!(f, "{}", self.text())
    }
}
