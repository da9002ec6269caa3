//! The cases, a line each.
use crate::evaluator::Rule;
use crate::expressions::Input::{self, Balanced, Deep, Records, Unbound, Wide};
use crate::fault::CaseFault;
use crate::patterns::Wild;
use crate::sets::Members::{self, Few, Longs, Nested, Strings};
use crate::simplifier::Rest;
use crate::{calls, context, evaluator, expressions, names, patterns, sets, simplifier, values};
use cedar_bench_runner::{Case, Entry};
use std::time::Duration;

/// What a case times.
#[derive(Clone, Copy)]
pub enum Call {
    ReadNames,
    RefuseNames,
    SortNames,
    QualifyNames,
    Match(Wild),
    MatchUsual,
    Substitute(Input),
    SubstituteTyped,
    Drop(Input),
    Build,
    Show,
    Walk,
    CmpShape,
    NewSet(Members),
    DropSet(Members),
    Contains(Members),
    Subset(Members),
    Disjoint(Members),
    Equal(Members),
    Order(Members),
    FromLits,
    FromValues,
    SubsetMixed,
    ToExpr,
    FromExpr,
    Text,
    DeepText,
    SubstituteValues,
    CallUnary,
    CallVariadic,
    Validate,
    Evaluate(Rule),
    EvaluateContext,
    EvaluatePolicies,
    Simplify(Rest),
    SimplifyContext,
}

impl Case for Call {
    type Fault = CaseFault;

    fn time(self, rt: &HostRuntime, size: usize) -> Result<Duration, CaseFault> {
        match self {
            Call::ReadNames => names::time_read(rt, size),
            Call::RefuseNames => names::time_refuse(rt, size),
            Call::SortNames => names::time_sort(rt, size),
            Call::QualifyNames => names::time_qualify(rt, size),
            Call::Match(wild) => patterns::time_match(rt, wild, size),
            Call::MatchUsual => patterns::time_match_usual(rt, size),
            Call::Substitute(input) => expressions::time_substitute(rt, input, size),
            Call::SubstituteTyped => expressions::time_substitute_typed(rt, size),
            Call::Drop(input) => expressions::time_drop(rt, input, size),
            Call::Build => expressions::time_build(rt, size),
            Call::Show => expressions::time_show(rt, size),
            Call::Walk => expressions::time_walk(rt, size),
            Call::CmpShape => expressions::time_cmp_shape(rt, size),
            Call::NewSet(members) => sets::time_new(rt, members, size),
            Call::DropSet(members) => sets::time_drop(rt, members, size),
            Call::Contains(members) => sets::time_contains(rt, members, size),
            Call::Subset(members) => sets::time_subset(rt, members, size),
            Call::Disjoint(members) => sets::time_disjoint(rt, members, size),
            Call::Equal(members) => sets::time_equal(rt, members, size),
            Call::Order(members) => sets::time_order(rt, members, size),
            Call::FromLits => sets::time_from_lits(rt, size),
            Call::FromValues => sets::time_from_values(rt, size),
            Call::SubsetMixed => sets::time_subset_mixed(rt, size),
            Call::ToExpr => values::time_to_expr(rt, size),
            Call::FromExpr => values::time_from_expr(rt, size),
            Call::Text => values::time_text(rt, size),
            Call::DeepText => values::time_deep_text(rt, size),
            Call::SubstituteValues => values::time_substitute(rt, size),
            Call::CallUnary => calls::time_unary(rt, size),
            Call::CallVariadic => calls::time_variadic(rt, size),
            Call::Validate => calls::time_validate(rt, size),
            Call::Evaluate(rule) => evaluator::time_evaluate(rt, rule, size),
            Call::EvaluateContext => context::time_evaluate(rt, size),
            Call::EvaluatePolicies => context::time_policies(rt, size),
            Call::Simplify(rest) => simplifier::time_simplify(rt, rest, size),
            Call::SimplifyContext => context::time_simplify(rt, size),
        }
    }
}

// Numbers of names.
const NAMES: [usize; 1] = [100_000];

// Numbers of characters.
const CHARS: [usize; 4] = [1_000, 10_000, 100_000, 1_000_000];

// Numbers of characters that a pattern goes through again and again.
const AGAIN: [usize; 4] = [1_000, 3_000, 10_000, 30_000];

// Numbers of texts.
const TEXTS: [usize; 1] = [100_000];

// Numbers of nodes of a full tree of two children each.
const FULL: [usize; 4] = [1_023, 8_191, 131_071, 1_048_575];

// Numbers of nodes of a set, and of a chain.
const NODES: [usize; 4] = [1_000, 10_000, 100_000, 1_000_000];

// Numbers of nodes of records of ten records and so on, two to five deep.
const RECORDS: [usize; 4] = [111, 1_111, 11_111, 111_111];

// Numbers of nodes of records of ten that are asked, nested so.
const ASKED: [usize; 4] = [122, 1_222, 12_222, 122_222];

// Numbers of members of a set.
const MEMBERS: [usize; 4] = [100, 1_000, 10_000, 100_000];

// Numbers of members of a record that is bound.
const CONTEXT: [usize; 3] = [10, 1_000, 100_000];

// Numbers of conditions.
const POLICIES: [usize; 1] = [1_000];

// Numbers of sets inside one another.
const SETS: [usize; 3] = [10, 100, 1_000];

// Numbers of calls.
const CALLS: [usize; 3] = [1_000, 10_000, 100_000];

/// The name of each case, its sizes from the least up, and its call.
pub static CASES: [Entry<Call>; 72] = [
    ("names-read", &NAMES, Call::ReadNames),
    ("names-refuse", &NAMES, Call::RefuseNames),
    ("names-sort", &NAMES, Call::SortNames),
    ("names-qualify", &NAMES, Call::QualifyNames),
    ("wild-restart", &AGAIN, Call::Match(Wild::Restart)),
    ("wild-stars", &CHARS, Call::Match(Wild::Stars)),
    ("wild-literal", &CHARS, Call::Match(Wild::Literal)),
    ("wild-unicode", &CHARS, Call::Match(Wild::Unicode)),
    ("wild-usual", &TEXTS, Call::MatchUsual),
    ("subst-balanced", &FULL, Call::Substitute(Balanced)),
    ("subst-unbound", &FULL, Call::Substitute(Unbound)),
    ("subst-typed", &FULL, Call::SubstituteTyped),
    ("subst-wide", &NODES, Call::Substitute(Wide)),
    ("subst-records", &RECORDS, Call::Substitute(Records)),
    ("subst-deep", &NODES, Call::Substitute(Deep)),
    ("drop-balanced", &FULL, Call::Drop(Balanced)),
    ("drop-wide", &NODES, Call::Drop(Wide)),
    ("drop-records", &RECORDS, Call::Drop(Records)),
    ("drop-deep", &NODES, Call::Drop(Deep)),
    ("build", &FULL, Call::Build),
    ("show", &FULL, Call::Show),
    ("walk", &FULL, Call::Walk),
    ("cmp-shape", &FULL, Call::CmpShape),
    ("set-new-longs", &MEMBERS, Call::NewSet(Longs)),
    ("set-new-strings", &MEMBERS, Call::NewSet(Strings)),
    ("set-new-nested", &MEMBERS, Call::NewSet(Nested)),
    ("set-new-few", &MEMBERS, Call::NewSet(Few)),
    ("set-drop-longs", &MEMBERS, Call::DropSet(Longs)),
    ("set-drop-strings", &MEMBERS, Call::DropSet(Strings)),
    ("set-drop-nested", &MEMBERS, Call::DropSet(Nested)),
    ("set-drop-few", &MEMBERS, Call::DropSet(Few)),
    ("set-contains-longs", &MEMBERS, Call::Contains(Longs)),
    ("set-contains-strings", &MEMBERS, Call::Contains(Strings)),
    ("set-contains-nested", &MEMBERS, Call::Contains(Nested)),
    ("set-contains-few", &MEMBERS, Call::Contains(Few)),
    ("set-subset-longs", &MEMBERS, Call::Subset(Longs)),
    ("set-subset-strings", &MEMBERS, Call::Subset(Strings)),
    ("set-subset-nested", &MEMBERS, Call::Subset(Nested)),
    ("set-subset-few", &MEMBERS, Call::Subset(Few)),
    ("set-disjoint-longs", &MEMBERS, Call::Disjoint(Longs)),
    ("set-disjoint-strings", &MEMBERS, Call::Disjoint(Strings)),
    ("set-disjoint-nested", &MEMBERS, Call::Disjoint(Nested)),
    ("set-disjoint-few", &MEMBERS, Call::Disjoint(Few)),
    ("set-equal-longs", &MEMBERS, Call::Equal(Longs)),
    ("set-equal-strings", &MEMBERS, Call::Equal(Strings)),
    ("set-equal-nested", &MEMBERS, Call::Equal(Nested)),
    ("set-equal-few", &MEMBERS, Call::Equal(Few)),
    ("set-order-longs", &MEMBERS, Call::Order(Longs)),
    ("set-order-strings", &MEMBERS, Call::Order(Strings)),
    ("set-order-nested", &MEMBERS, Call::Order(Nested)),
    ("set-order-few", &MEMBERS, Call::Order(Few)),
    ("set-from-lits", &MEMBERS, Call::FromLits),
    ("set-from-values", &MEMBERS, Call::FromValues),
    ("set-subset-mixed", &MEMBERS, Call::SubsetMixed),
    ("value-to-expr", &MEMBERS, Call::ToExpr),
    ("value-from-expr", &MEMBERS, Call::FromExpr),
    ("value-text", &MEMBERS, Call::Text),
    ("value-text-deep", &SETS, Call::DeepText),
    ("subst-values", &MEMBERS, Call::SubstituteValues),
    ("call-unary", &CALLS, Call::CallUnary),
    ("call-variadic", &CALLS, Call::CallVariadic),
    ("validate", &FULL, Call::Validate),
    ("eval-balanced", &FULL, Call::Evaluate(Rule::Balanced)),
    ("eval-deep", &NODES, Call::Evaluate(Rule::Deep)),
    ("eval-records", &ASKED, Call::Evaluate(Rule::Records)),
    ("eval-sets", &MEMBERS, Call::Evaluate(Rule::Sets)),
    ("eval-context", &CONTEXT, Call::EvaluateContext),
    ("eval-policies", &POLICIES, Call::EvaluatePolicies),
    ("simplify-balanced", &FULL, Call::Simplify(Rest::Balanced)),
    ("simplify-closed", &FULL, Call::Simplify(Rest::Closed)),
    ("simplify-open", &FULL, Call::Simplify(Rest::Open)),
    ("simplify-context", &CONTEXT, Call::SimplifyContext),
];
