//! The cases of texts of policies.
use crate::fault::{CaseFault, expect};
use cedar_bench_runner::Stopwatch;
use cedar_policies::PolicySet;
use cedar_policy_parser::parse_policies;
use std::alloc::{AllocError, Global};
use std::time::Duration;

/// Parses a text of so many policies.
pub fn time_parse(rt: &HostRuntime, count: usize) -> Result<Duration, CaseFault> {
    let text = text_of_policies(rt.alloc(), count)?;
    let watch = Stopwatch::start(rt);
    watch.stop(parse_policies(rt.alloc(), &text))
}

/// Prints so many policies, and compares what is printed with the text that was parsed.
pub fn time_print(rt: &HostRuntime, count: usize) -> Result<Duration, CaseFault> {
    let text = text_of_policies(rt.alloc(), count)?;
    let policies = parse_policies(rt.alloc(), &text)?;
    let watch = Stopwatch::start(rt);
    watch.stop(print(rt.alloc(), &policies, &text))
}

fn print(alloc: Global, policies: &PolicySet, wanted: &str) -> Result<(), CaseFault> {
    let mut text = String::new(alloc);
    for policy in policies.policies() {
        text.push_str(&policy.template.to_text(alloc)?)?;
    }
    expect(text.as_str() == wanted)
}

/// The text of so many policies, of which each tenth forbids.
pub fn text_of_policies(alloc: Global, count: usize) -> Result<String, AllocError> {
    let mut text = String::new(alloc);
    for number in 0..count {
        text.push_str(&text_of_policy(alloc, number)?)?;
    }
    Ok(text)
}

fn text_of_policy(alloc: Global, number: usize) -> Result<String, AllocError> {
    let effect = if number % 10 == 9 { "forbid" } else { "permit" };
    format!(in alloc;
        "@id(\"policy {number}\")\n{effect}(\n  principal in Node::\"{}\",\n  \
        action == Action::\"0\",\n  resource\n)\nwhen {{ principal.age < {number} && \
        resource.age == 0 }};\n",
        number % 100
    )
}
