//! Decides a request.
use crate::failure::Failure;
use crate::inputs::{self, Source};
use crate::known::Known;
use crate::status::Status;
use crate::{report, residual};
use cedar_authorizer::{Decision, Response};
use cedar_bindings::Bindings;
use clap::ArgMatches;

const FILES: [&str; 4] = ["policies", "entities", "request-json", "context"];

/// Prints ALLOW or DENY, and which policies have an error.
pub fn run(rt: &HostRuntime, options: &ArgMatches<'_>) -> Result<Status, Failure> {
    if !inputs::reads_input_once(options, &FILES) {
        return Err(Failure::input_twice());
    }
    let request = if options.get_flag("partial") {
        inputs::partial_request(rt, options)?
    } else {
        inputs::request(rt, options)?
    };
    let known = Known {
        request,
        entities: inputs::entities(rt, options)?,
        bindings: Bindings::new(rt.alloc()),
    };
    let policies = inputs::read_source(rt, options, "policies")?;
    if options.get_flag("partial") {
        return residual::authorize(rt, &policies, &known);
    }
    let response = policies.parsed(known.decide(rt.alloc(), &policies.text))?;
    if options.get_flag("json") {
        report::print_json(rt, &policies, &response)?;
    } else {
        report::print(rt, &policies, &response, options.get_flag("verbose"))?;
    }
    warn_of_templates(rt, &policies)?;
    Ok(status_of(&response))
}

// Warns of templates, which decide nothing.
fn warn_of_templates(rt: &HostRuntime, policies: &Source<'_>) -> Result<(), Failure> {
    let text = policies.text.as_str();
    if !text.contains("?principal") && !text.contains("?resource") {
        return Ok(());
    }
    for policy in inputs::policies(rt, policies)?.policies() {
        if policy.template.is_template() {
            let file = policies.file;
            let id = &policy.id;
            eprintln!(rt;
                "warning: {file}: `{id}` is a template, and decides nothing until it is linked"
            )?;
        }
    }
    Ok(())
}

fn status_of(response: &Response) -> Status {
    match response.decision {
        Some(Decision::Allow) => Status::Success,
        Some(Decision::Deny) => Status::Deny,
        None => Status::Unknown,
    }
}
