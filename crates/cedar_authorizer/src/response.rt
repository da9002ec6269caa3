//! The response to a request (Cedar's `Response` and its `Diagnostics`).

use crate::fault::PolicyError;
use std::rc::RcStr;

/// A decision.
#[derive(Clone, Copy, Debug, PartialEq, Eq)]
pub enum Decision {
    /// The request is allowed.
    Allow,
    /// It is denied.
    Deny,
}

/// The response to a request.
#[derive(Debug, Drop)]
pub struct Response {
    /// The decision, if it is known yet: whatever else comes to be known, it stays.
    pub decision: Option<Decision>,
    /// The identifiers of the determining policies, in their order: the forbids that apply, if any
    /// do, else the permits that apply.
    pub determining: Vec<RcStr>,
    /// The policies that have an error, in their order: such a policy changes nothing else.
    pub errors: Vec<(RcStr, PolicyError)>,
}
