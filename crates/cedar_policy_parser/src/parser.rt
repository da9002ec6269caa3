//! From texts to policies.
ghost use Rattle.std.specs.Prelude.{
  ◌≡◌,
  ◌∷◌,
  ◌<◌,
  IfErr,
  IfOk,
  IsTrue,
  List,
  MatchResult,
  length,
};
ghost use Rattle.std.specs.Rc.{rc_str_bytes};
ghost use Rattle.cedar_builders.specs.Keys.{are_distinct};
ghost use Rattle.cedar_lexer.specs.TokenStreams.{tokens_left};
ghost use Rattle.cedar_lexer.specs.declared.error.ParseError.TheVariants.{Memory as NoMemory};
ghost use Rattle.cedar_lexer.specs.declared.parse_failure.ParseFailure.TheVariants.{Memory};
ghost use Rattle.cedar_lexer.specs.declared.token.TokenKind.TheVariants as kinds;
ghost use Rattle.semantics_grammar.specs.Lexemes.{Lexeme, lexeme};
ghost use Rattle.cedar_parser.specs.Meant.{here};
ghost use Rattle.cedar_parser.specs.Refused.{IsToldIn, IsWithin, stop_of};
ghost use Rattle.semantics_policies.specs.Grammar.{ArePolicies, IsPolicy, effect_text};
ghost use Rattle.semantics_policies.specs.Identifiers.{policy_id, policy_ids};
ghost use Rattle.cedar_policies.specs.Policies.{bare_effect, bare_policy};
ghost use Rattle.cedar_policies.specs.PolicySets.{AreNamed, bare_policies, ids_of, policies_of};
ghost use Rattle.semantics_policies.specs.Policies.{BarePolicy, Effect as BareEffect};
ghost use Rattle.cedar_policy_parser.specs.Complete.{Completes};
ghost use Rattle.cedar_policy_parser.specs.Streams.{ArePoliciesOf, IsEffectTaken, IsSound, Parses};

use crate::annotations::annotations;
use crate::clauses::clauses;
use crate::scope::parse_scope;
use crate::seen::SeenTexts;
use crate::stream::{Source, wanted};
use cedar_lexer::laws::tokens_are_unique;
use cedar_lexer::{ParseError, ParseFailure, TokenKind, TokenStream, tokenize};
use cedar_policies::{Effect, Policy, PolicySet, Template};
use std::alloc::{AllocError, Global};
use std::rc::RcStr;

/// Parses policies and templates, one behind the other. Each has an identifier: the text of its
/// annotation `@id`, or else `policy` and its number, from 0 on.
///
/// ```text
/// @id("owners")
/// permit(principal, action in [Action::"read", Action::"write"], resource is Photo)
/// when { resource.owner == principal }
/// unless { resource.locked };
/// ```
pub fn parse_policies(alloc: Global, text: &str) -> Result<PolicySet, ParseError>
    ensures parses { IfOk result (λ s. ArePoliciesOf text.now (bare_policies (policies_of s))) }
    ensures ids { IfOk result (λ s. ids_of (policies_of s)
        ≡ policy_ids 0 (bare_policies (policies_of s))) }
    ensures distinct { IfOk result (λ s. IsTrue (are_distinct (ids_of (policies_of s)))) }
    ensures told { IfErr result (IsToldIn text.now) }
    ensures complete { (ps : List BarePolicy) → ArePoliciesOf text.now ps →
        IsTrue (are_distinct (policy_ids 0 ps)) →
        MatchResult result (λ s. bare_policies (policies_of s) ≡ ps) (λ e. e ≡ NoMemory) }
{
    match parse(alloc, text) {
        Ok(policies) => Ok(PolicySet::new(policies)),
        Err(failure) => Err(failure.in_text(text)),
    }
}

fn parse(alloc: Global, text: &str) -> Result<Vec<Policy>, ParseFailure>
    ensures parses { IfOk result (λ ps. ArePoliciesOf text.now (bare_policies ps.items)) }
    ensures named { IfOk result (λ ps. AreNamed ps.items) }
    ensures refused { IfErr result (IsWithin (length text.now)) }
    ensures complete { (ps : List BarePolicy) → ArePoliciesOf text.now ps →
        IsTrue (are_distinct (policy_ids 0 ps)) →
        MatchResult result (λ found. bare_policies found.items ≡ ps) (λ e. e ≡ Memory) }
{
    tokens_are_unique();
    let found = tokenize(alloc, text)?;
    let source = Source {
        alloc,
        text: RcStr::from_str(alloc, text)?,
    };
    policies(&source, TokenStream::new(&found))
}

// Parses all tokens as policies.
fn policies(source: &Source, tokens: TokenStream<'_>) -> Result<Vec<Policy>, ParseFailure>
    requires { IsSound tokens }
    ensures parses { IfOk result (λ ps. ArePolicies (here tokens.entry) (bare_policies ps.items)) }
    ensures named { IfOk result (λ ps. AreNamed ps.items) }
    ensures refused { IfErr result (IsWithin (stop_of tokens.entry)) }
    ensures complete { (ps : List BarePolicy) → ArePolicies (here tokens.entry) ps →
        IsTrue (are_distinct (policy_ids 0 ps)) →
        MatchResult result (λ found. bare_policies found.items ≡ ps) (λ e. e ≡ Memory) }
{
    let mut left = tokens;
    let mut ids = SeenTexts::new(source.alloc);
    let mut policies = Vec::new(source.alloc);
    'policies: while !left.is_empty() {
        let place = left.first().span;
        let next = numbered(source, policies.len(), &mut left)?;
        let is_new = ids.note(&next.id)?;
        if !is_new {
            return Err(ParseFailure::Syntax(place, "a policy before this has the same identifier"));
        }
        policies.push(next)?;
    }
    Ok(policies)
}

// Parses the policy with this number.
fn numbered(
    source: &Source,
    number: usize,
    tokens: &mut TokenStream<'_>,
) -> Result<Policy, ParseFailure>
    requires { IsSound tokens.old }
    ensures parses { Parses (λ ts p rest. IsPolicy ts (bare_policy p.template) rest)
        tokens.old tokens.new result }
    ensures fewer { IfOk result (λ _. tokens_left tokens.new < tokens_left tokens.old) }
    ensures named { IfOk result (λ p.
        rc_str_bytes p.id ≡ policy_id number (bare_policy p.template)) }
    ensures complete { Completes (λ p. bare_policy p.template) IsPolicy
        tokens.old tokens.new result }
{
    let template = policy(source, tokens)?;
    let id = id_of(source.alloc, number, &template)?;
    Ok(Policy { id, template })
}

// The identifier of a policy with this number.
fn id_of(alloc: Global, number: usize, template: &Template) -> Result<RcStr, AllocError>
    ensures { IfOk result (λ id. rc_str_bytes id ≡ policy_id number (bare_policy template.now)) }
{
    match template.annotation("id") {
        Some(id) => id.clone(),
        None => RcStr::from_string(format!(in alloc; "policy{number}")?),
    }
}

// Parses a policy, up to and with its semicolon.
#[tactic(auto, using(crate::proofs::Wholes::policy_rules))]
fn policy(source: &Source, tokens: &mut TokenStream<'_>) -> Result<Template, ParseFailure>
    requires { IsSound tokens.old }
    ensures parses { Parses (λ ts p rest. IsPolicy ts (bare_policy p) rest)
        tokens.old tokens.new result }
    ensures fewer { IfOk result (λ _. tokens_left tokens.new < tokens_left tokens.old) }
    ensures complete { Completes bare_policy IsPolicy tokens.old tokens.new result }
{
    let annotations = annotations(source, tokens)?;
    let effect = effect(tokens)?;
    wanted(tokens, TokenKind::OpenRound, "`(` is wanted here")?;
    let scope = parse_scope(source, tokens)?;
    let clauses = clauses(source, tokens)?;
    wanted(
        tokens,
        TokenKind::Semicolon,
        "`when`, `unless` or `;` is wanted here",
    )?;
    Ok(Template {
        annotations,
        effect,
        principal: scope.principal,
        action: scope.action,
        resource: scope.resource,
        clauses,
    })
}

// Parses `permit` or `forbid`.
#[tactic(auto, using(crate::proofs::Bodies::effect_parsed))]
fn effect(tokens: &mut TokenStream<'_>) -> Result<Effect, ParseFailure>
    requires { IsSound tokens.old }
    ensures taken { MatchResult result
        (λ e. IsEffectTaken (effect_text (bare_effect e)) tokens.old tokens.new)
        (IsWithin (stop_of tokens.old)) }
    ensures complete { (e : BareEffect) (rest : List Lexeme) →
        here tokens.old ≡ lexeme kinds.Word (effect_text e) ∷ rest →
        MatchResult result (λ found. bare_effect found ≡ e) (λ _. ⊥) }
{
    let word = wanted(
        tokens,
        TokenKind::Word,
        "`permit` or `forbid` is wanted here",
    )?;
    match word.text {
        "permit" => Ok(Effect::Permit),
        "forbid" => Ok(Effect::Forbid),
        _ => Err(ParseFailure::Syntax(word.span, "`permit` or `forbid` is wanted here")),
    }
}
