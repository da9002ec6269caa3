//! Conditions over a request and a store of one's own: alice asks to view a photo of the beach.
#![tactic(auto)]

mod store;

use crate::store::{Entry, Photos};
use anyhow::Result;
use cedar_authorizer::{
    Decision, Effect, PartialResponse, Policy, Response, is_authorized, is_authorized_partial,
};
use cedar_builders::BuildFault;
use cedar_names::{FromNormalizedStr, Name};
use cedar_parser::{ParseError, parse_expr};
use cedar_printer::policy_text;
use cedar_request::{Context, NoFunctions, Request};
use cedar_request_evaluator::RequestEvaluator;
use cedar_request_simplifier::simplify;
use cedar_terms::{EntityType, EntityUID, Literal};
use cedar_values::{NoExtension, Value, WellFormedValue};
use std::alloc::Global;
use std::collections::HashMap;
use std::io;
use std::rc::{Rc, RcStr};

// Shown with their outcomes.
const CONDITIONS: [&str; 23] = [
    // alice is in the group of friends.
    "principal in Group::\"friends\"",
    "principal in principal",
    "principal in resource",
    "principal in [resource, Group::\"friends\"]",
    "principal in [Group::\"friends\", 1]",
    "1 in Group::\"friends\"",
    // carol is not in the store: she is in herself alone.
    "User::\"carol\" in User::\"carol\"",
    "User::\"carol\" in Group::\"friends\"",
    "User::\"carol\" has age",
    "User::\"carol\".age",
    "User::\"carol\".hasTag(\"team\")",
    "User::\"carol\".getTag(\"team\")",
    // Nothing is known of bob, nor of the context.
    "User::\"bob\" in Group::\"friends\"",
    "User::\"bob\" has age",
    "context.age < 3",
    "principal == resource && context.age < 3",
    // Attributes, tags and a call.
    "resource.owner == principal",
    "resource.rating",
    "resource has owner.age",
    "{a: {b: 1}} has a.b",
    "principal.getTag(\"team\")",
    "principal.hasTag(1)",
    "decimal(\"1.0\")",
];

// Shown with their residuals: what is known is put in, and what depends on the context stays.
const OPEN_CONDITIONS: [&str; 6] = [
    "principal in Group::\"friends\" && context.age < 3",
    "principal.getTag(\"team\") == context.team",
    "if resource.owner == principal then context.mfa else false",
    "User::\"bob\" has age && context.mfa",
    "resource has owner.age || context.mfa",
    "resource has owner || context.mfa",
];

fn main(rt: HostRuntime) -> Result<()> {
    let alloc = rt.alloc();
    let photos = Photos {
        alice: Entry::Alice(text_value(alloc, "blue")?),
        beach: Entry::Beach(entity_value(alloc, "User", "alice")?),
    };
    let request = viewing(alloc, None)?;
    let values = HashMap::new(alloc);
    let evaluator = RequestEvaluator::new(&request, &photos, &NoFunctions, &values);
    for text in CONDITIONS {
        show(&rt, &evaluator, text)?;
    }
    for text in OPEN_CONDITIONS {
        show_residual(&rt, &evaluator, text)?;
    }
    // Decisions: while nothing is known of the context, with the residual policies, ..
    let policies = policies(alloc)?;
    show_response(&rt, &is_authorized(alloc, &evaluator, &policies)?)?;
    let residual = residual(is_authorized_partial(alloc, &evaluator, &policies)?, alloc);
    show_policies(&rt, &residual)?;
    // .. and with an empty context, by all the policies and by the residual ones.
    let request = viewing(alloc, Some(Context::empty(alloc)?))?;
    let evaluator = RequestEvaluator::new(&request, &photos, &NoFunctions, &values);
    show_response(&rt, &is_authorized(alloc, &evaluator, &policies)?)?;
    show_response(&rt, &is_authorized(alloc, &evaluator, &residual)?)?;
    Ok(())
}

// alice asks to view the photo.
fn viewing(alloc: Global, context: Option<Context>) -> Result<Request> {
    Ok(Request::new(
        Some(entity(alloc, "User", "alice")?),
        Some(entity(alloc, "Action", "view")?),
        Some(entity(alloc, "Photo", "beach")?),
        context,
    ))
}

// Friends may view, and bob; so may all a photo of more than three stars; but no blocked user.
fn policies(alloc: Global) -> Result<Vec<Policy>> {
    let mut policies = Vec::new(alloc);
    policies.push(policy(
        alloc,
        "friends",
        Effect::Permit,
        "principal in Group::\"friends\"",
    )?)?;
    policies.push(policy(alloc, "bob", Effect::Permit, "principal == User::\"bob\"")?)?;
    policies.push(policy(alloc, "stars", Effect::Permit, "resource.rating > 3")?)?;
    policies.push(policy(
        alloc,
        "blocked",
        Effect::Forbid,
        "context has blocked && context.blocked",
    )?)?;
    Ok(policies)
}

fn policy(alloc: Global, id: &str, effect: Effect, text: &str) -> Result<Policy> {
    let condition = parse_expr(alloc, text)?;
    Ok(Policy::new(RcStr::from_str(alloc, id)?, effect, condition))
}

// Prints the decision, the determining policies and the errors.
fn show_response(rt: &HostRuntime, response: &Response) -> io::Result<()> {
    match response.decision {
        Some(Decision::Allow) => println!(rt; "allow")?,
        Some(Decision::Deny) => println!(rt; "deny")?,
        None => println!(rt; "not known yet")?,
    }
    for id in &response.determining {
        println!(rt; "  because of {id}")?;
    }
    for (id, error) in &response.errors {
        println!(rt; "  {id}: {error}")?;
    }
    Ok(())
}

// The residual policies, where nothing is decided.
fn residual(response: PartialResponse, alloc: Global) -> Vec<Policy> {
    match response {
        PartialResponse::Residual(policies) => policies,
        _ => Vec::new(alloc),
    }
}

// Prints which policies are residual.
fn show_policies(rt: &HostRuntime, policies: &[Policy]) -> io::Result<()> {
    for policy in policies {
        println!(rt; "  residual: {}", policy.id())?;
    }
    Ok(())
}

// Prints a condition and its outcome.
fn show(
    rt: &HostRuntime,
    evaluator: &RequestEvaluator<'_, NoExtension, Photos, NoFunctions>,
    text: &str,
) -> io::Result<()> {
    match parse_expr(rt.alloc(), text) {
        Ok(condition) => match evaluator.evaluate(rt.alloc(), &condition) {
            Ok(outcome) => println!(rt; "{text} => {outcome}"),
            Err(BuildFault::Build(refused)) => println!(rt; "{text} => {refused}"),
            Err(BuildFault::Memory) => println!(rt; "no memory"),
        },
        Err(ParseError::Syntax(error)) => println!(rt; "{error}\n{}", error.excerpt(text)),
        Err(ParseError::Memory) => println!(rt; "no memory"),
    }
}

// Prints a condition and what it is simplified to.
fn show_residual(
    rt: &HostRuntime,
    evaluator: &RequestEvaluator<'_, NoExtension, Photos, NoFunctions>,
    text: &str,
) -> Result<()> {
    let alloc = rt.alloc();
    let condition = parse_expr(alloc, text)?;
    let residual = simplify(alloc, evaluator, &condition)?.into_expr(alloc)?;
    println!(rt; "{text} => {}", policy_text(alloc, &residual)?.text)?;
    Ok(())
}

fn entity(alloc: Global, ty: &str, eid: &str) -> Result<Rc<EntityUID>> {
    let ty = EntityType::from(Name::from_normalized_str(alloc, ty)?);
    Ok(Rc::new(alloc, EntityUID::new(ty, RcStr::from_str(alloc, eid)?))?)
}

fn entity_value(alloc: Global, ty: &str, eid: &str) -> Result<WellFormedValue> {
    let uid = entity(alloc, ty, eid)?;
    Ok(well_formed(Literal::EntityUID(uid)))
}

fn text_value(alloc: Global, text: &str) -> Result<WellFormedValue> {
    Ok(well_formed(Literal::String(RcStr::from_str(alloc, text)?)))
}

fn well_formed(literal: Literal) -> WellFormedValue {
    WellFormedValue::new_unchecked(Value::<NoExtension>::from(literal))
}
