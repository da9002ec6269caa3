//! Decides a request of which not all is known.
use crate::failure::Failure;
use crate::inputs::Source;
use crate::known::Known;
use crate::status::Status;
use cedar_authorizer::{PartialResponse, Policy};
use cedar_policies::{ActionConstraint, Annotation, Clause, ScopeConstraint, Template};
use std::alloc::{AllocError, Global};
use std::rc::RcStr;

/// Prints ALLOW or DENY; or UNKNOWN and the residual policies, which give the answer of all
/// policies wherever more is known.
pub fn authorize(
    rt: &HostRuntime,
    policies: &Source<'_>,
    known: &Known,
) -> Result<Status, Failure> {
    match policies.parsed(known.decide_partial(rt.alloc(), &policies.text))? {
        PartialResponse::Allow => {
            println!(rt; "ALLOW")?;
            Ok(Status::Success)
        }
        PartialResponse::Deny => {
            println!(rt; "DENY")?;
            Ok(Status::Deny)
        }
        PartialResponse::Residual(residual) => {
            println!(rt; "UNKNOWN")?;
            print(rt, &residual)?;
            Ok(Status::Unknown)
        }
    }
}

// Prints residual policies, a blank line before each.
fn print(rt: &HostRuntime, residual: &[Policy]) -> Result<(), Failure> {
    for policy in residual {
        let text = text_of(rt.alloc(), policy)?;
        print!(rt; "\n{text}")?;
    }
    Ok(())
}

// A residual policy as a text: its condition is that of the whole.
fn text_of(alloc: Global, policy: &Policy) -> Result<String, AllocError> {
    let id = Annotation {
        key: RcStr::from_str(alloc, "id")?,
        value: policy.id().clone()?,
    };
    let condition = Clause::When(policy.condition().clone(alloc)?);
    let template = Template {
        annotations: vec![in alloc; id]?,
        effect: policy.effect(),
        principal: ScopeConstraint::Any,
        action: ActionConstraint::Any,
        resource: ScopeConstraint::Any,
        clauses: vec![in alloc; condition]?,
    };
    template.to_text(alloc)
}
