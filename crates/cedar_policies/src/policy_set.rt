//! Policies and templates with their identifiers.
ghost use Rattle.std.specs.Prelude.{◌≡◌, IsTrue};
ghost use Rattle.cedar_builders.specs.Keys.{are_distinct};
ghost use Rattle.cedar_policies.specs.PolicySets.{ids_of, policies_of};

use crate::policy::Template;
use std::rc::RcStr;

/// A policy or a template with its identifier.
#[derive(Debug, Drop)]
pub struct Policy {
    /// What it is called.
    pub id: RcStr,
    /// What it says.
    pub template: Template,
}

/// Policies and templates with their identifiers, of which no two are the same, in the order in
/// which they were parsed.
#[derive(Debug, Drop)]
pub struct PolicySet {
    policies: Vec<Policy>,
}

impl PolicySet {
    /// The set of these policies.
    pub fn new(policies: Vec<Policy>) -> PolicySet
        requires { IsTrue (are_distinct (ids_of policies.items)) }
        ensures { policies_of result ≡ policies.items }
    {
        PolicySet { policies }
    }

    /// All of them.
    pub fn policies(&self) -> &[Policy]
        ensures { result.now ≡ policies_of self.now }
    {
        &self.policies
    }

    /// The policies and templates themselves.
    pub fn into_policies(self) -> Vec<Policy>
        ensures { result.items ≡ policies_of self }
    {
        self.policies
    }
}
