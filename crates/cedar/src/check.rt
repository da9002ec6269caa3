//! Checks that texts can be parsed.
use crate::failure::Failure;
use crate::inputs;
use crate::status::Status;
use cedar_parser::parse_expr;
use clap::ArgMatches;
use std::alloc::Global;

const INPUTS: [&str; 3] = ["policies", "entities", "expression"];

/// Says nothing if policies, entities and an expression, as far as they are given, can be parsed.
pub fn run(rt: &HostRuntime, options: &ArgMatches<'_>) -> Result<Status, Failure> {
    if INPUTS.iter().all(|name| options.get_str(name).is_none()) {
        return Err(Failure::nothing_to_check());
    }
    if !inputs::reads_input_once(options, &INPUTS) {
        return Err(Failure::input_twice());
    }
    if options.get_str("policies").is_some() {
        let source = inputs::read_source(rt, options, "policies")?;
        drop(inputs::policies(rt, &source)?);
    }
    if options.get_str("entities").is_some() {
        drop(inputs::entities(rt, options)?);
    }
    if options.get_str("expression").is_some() {
        let text = inputs::expression(rt, options)?;
        check_expression(rt.alloc(), &text)?;
    }
    Ok(Status::Success)
}

fn check_expression(alloc: Global, text: &str) -> Result<(), Failure> {
    match parse_expr(alloc, text) {
        Ok(_) => Ok(()),
        Err(error) => Err(Failure::of_syntax("expression", text, &error)),
    }
}
