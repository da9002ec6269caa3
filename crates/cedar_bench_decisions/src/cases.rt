//! The cases, a line each.
use crate::fault::CaseFault;
use crate::parsing::Syntax;
use crate::{deciding, entities, extensions, membership, parsing, policies};
use cedar_bench_runner::{Case, Entry};
use std::time::Duration;

/// What a case times.
#[derive(Clone, Copy)]
pub enum Call {
    Parse(Syntax),
    Decimals,
    Addresses,
    MakeEntities,
    AskEntities,
    InAncestor,
    InSet,
    ParsePolicies,
    PrintPolicies,
    DecideByPolicies,
    DecideOverEntities,
}

impl Case for Call {
    type Fault = CaseFault;

    fn time(self, rt: &HostRuntime, size: usize) -> Result<Duration, CaseFault> {
        match self {
            Call::Parse(syntax) => parsing::time_parse(rt, syntax, size),
            Call::Decimals => extensions::time_decimals(rt, size),
            Call::Addresses => extensions::time_addresses(rt, size),
            Call::MakeEntities => entities::time_make(rt, size),
            Call::AskEntities => entities::time_ask(rt, size),
            Call::InAncestor => membership::time_deep(rt, size),
            Call::InSet => membership::time_set(rt, size),
            Call::ParsePolicies => policies::time_parse(rt, size),
            Call::PrintPolicies => policies::time_print(rt, size),
            Call::DecideByPolicies => deciding::time_policies(rt, size),
            Call::DecideOverEntities => deciding::time_entities(rt, size),
        }
    }
}

// Numbers of bytes, or of entities of a store.
const TO_A_MILLION: [usize; 4] = [1_000, 10_000, 100_000, 1_000_000];

// Numbers of texts, of conditions or of policies.
const TO_A_HUNDRED_THOUSAND: [usize; 3] = [1_000, 10_000, 100_000];

// Numbers of members of a set.
const MEMBERS: [usize; 4] = [10, 100, 1_000, 10_000];

/// The name of each case, its sizes from the least up, and its call.
pub static CASES: [Entry<Call>; 14] = [
    ("parse-chain", &TO_A_MILLION, Call::Parse(Syntax::Chain)),
    (
        "parse-brackets",
        &TO_A_MILLION,
        Call::Parse(Syntax::Brackets),
    ),
    ("parse-sets", &TO_A_MILLION, Call::Parse(Syntax::Sets)),
    ("parse-methods", &TO_A_MILLION, Call::Parse(Syntax::Methods)),
    ("extension-decimals", &TO_A_HUNDRED_THOUSAND, Call::Decimals),
    (
        "extension-addresses",
        &TO_A_HUNDRED_THOUSAND,
        Call::Addresses,
    ),
    ("entities-make", &TO_A_MILLION, Call::MakeEntities),
    ("entities-ask", &TO_A_MILLION, Call::AskEntities),
    ("in-deep", &TO_A_HUNDRED_THOUSAND, Call::InAncestor),
    ("in-set", &MEMBERS, Call::InSet),
    (
        "policies-parse",
        &TO_A_HUNDRED_THOUSAND,
        Call::ParsePolicies,
    ),
    (
        "policies-print",
        &TO_A_HUNDRED_THOUSAND,
        Call::PrintPolicies,
    ),
    (
        "decide-policies",
        &TO_A_HUNDRED_THOUSAND,
        Call::DecideByPolicies,
    ),
    ("decide-entities", &TO_A_MILLION, Call::DecideOverEntities),
];
