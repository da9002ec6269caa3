//! The scope of a policy: what it says of principal, action and resource.
ghost use Rattle.std.specs.Prelude.{◌≡◌, ◌∷◌, IsOk, List, MatchResult};
ghost use Rattle.cedar_terms.specs.Entities.{bare_entity_type, bare_entity_uid};
ghost use Rattle.cedar_terms.specs.Ops.{var_text};
ghost use Rattle.cedar_lexer.specs.declared.token.TokenKind.TheVariants as kinds;
ghost use Rattle.semantics_grammar.specs.Lexemes.{Lexeme, lexeme};
ghost use Rattle.semantics_grammar.specs.Written.{IsPath};
ghost use Rattle.cedar_lexer.specs.declared.parse_failure.ParseFailure.TheVariants.{Memory};
ghost use Rattle.cedar_parser.specs.Meant.{here};
ghost use Rattle.cedar_parser.specs.Refused.{IsWithin, stop_of};
ghost use Rattle.semantics_policies.specs.Conditions.{operand_tree};
ghost use Rattle.semantics_policies.specs.Grammar.{
  EndsScope,
  IsActionScope,
  IsScope,
  IsWholeScope,
};
ghost use Rattle.semantics_policies.specs.Policies.{
  ActionConstraint as BareActionConstraint,
  ScopeConstraint as BareScopeConstraint,
};
ghost use Rattle.cedar_policies.specs.Policies.{bare_action, bare_operand, bare_scope};
ghost use Rattle.cedar_policy_parser.specs.Complete.{
  Completes,
  IsActionScopeUpTo,
  IsActionUpTo,
  IsBehindIn,
  IsBehindIs,
  IsOperandUpTo,
  IsPathUpTo,
  IsScopeUpTo,
};
ghost use Rattle.cedar_policy_parser.specs.Scopes.{
  BeginsWithAction,
  IsActionBehindIn,
  IsScopeBehindIs,
  IsScopeOf,
  IsWholeScopeOf,
};
ghost use Rattle.cedar_policy_parser.specs.Streams.{BeginsWithExpr, IsSound, IsTokenTaken, Parses};

use crate::entities::{are_actions, entities_in, entity_in, is_action, members_in, slot_in};
use crate::stream::{Source, expression, wanted, word};
use cedar_lexer::{ParseFailure, Token, TokenKind, TokenStream};
use cedar_names::SlotId;
use cedar_names::laws::name_texts_differ;
use cedar_parser::parse_entity_type;
use cedar_policies::{ActionConstraint, EntityOrSlot, ScopeConstraint};
use cedar_terms::{EntityType, EntityUID, Var};
use std::rc::Rc;

/// What a scope says.
#[derive(Drop)]
pub(crate) struct Scope {
    pub(crate) principal: ScopeConstraint,
    pub(crate) action: ActionConstraint,
    pub(crate) resource: ScopeConstraint,
}

/// Parses a scope, up to and with its bracket at the end.
#[tactic(auto, using(crate::proofs::Wholes::scope_parsed, crate::proofs::Taken::within_rest))]
pub(crate) fn parse_scope(
    source: &Source,
    tokens: &mut TokenStream<'_>,
) -> Result<Scope, ParseFailure>
    requires { IsSound tokens.old }
    ensures parses { Parses IsWholeScopeOf tokens.old tokens.new result }
    ensures complete { (p : BareScopeConstraint) (a : BareActionConstraint)
        (r : BareScopeConstraint) (rest : List Lexeme) → IsWholeScope (here tokens.old) p a r rest
        → MatchResult result
        (λ s. IsScopeOf s p a r × (here tokens.new ≡ rest)) (λ e. e ≡ Memory) }
{
    let principal = constraint(source, Var::Principal, SlotId::Principal, tokens)?;
    wanted(
        tokens,
        TokenKind::Comma,
        "a comma and `action` are wanted here",
    )?;
    let action = action_constraint(source, tokens)?;
    wanted(
        tokens,
        TokenKind::Comma,
        "a comma and `resource` are wanted here",
    )?;
    let resource = constraint(source, Var::Resource, SlotId::Resource, tokens)?;
    close(tokens)?;
    Ok(Scope {
        principal,
        action,
        resource,
    })
}

// Takes the bracket at the end of a scope, with maybe a comma before it.
#[tactic(auto, using(crate::proofs::Constraints::close_rules))]
fn close(tokens: &mut TokenStream<'_>) -> Result<(), ParseFailure>
    requires { IsSound tokens.old }
    ensures parses { Parses (λ ts _ rest. EndsScope ts rest) tokens.old tokens.new result }
    ensures complete { (rest : List Lexeme) → EndsScope (here tokens.old) rest →
        MatchResult result (λ _. here tokens.new ≡ rest) (λ _. ⊥) }
{
    match tokens.first().kind {
        TokenKind::Comma => {
            wanted(tokens, TokenKind::Comma, "a comma is wanted here")?;
            wanted(tokens, TokenKind::CloseRound, "`)` is wanted here")?;
            Ok(())
        }
        _ => {
            wanted(tokens, TokenKind::CloseRound, "`)` is wanted here")?;
            Ok(())
        }
    }
}

// Parses what the scope says of the principal or the resource, whose slot this is.
#[tactic(auto, using(crate::proofs::Constraints::constraint_rules))]
fn constraint(
    source: &Source,
    var: Var,
    slot: SlotId,
    tokens: &mut TokenStream<'_>,
) -> Result<ScopeConstraint, ParseFailure>
    requires { IsSound tokens.old }
    ensures parses { Parses (λ ts c rest. IsScope var slot ts (bare_scope c) rest)
        tokens.old tokens.new result }
    ensures complete { Completes bare_scope (IsScopeUpTo var slot)
        tokens.old tokens.new result }
{
    variable(var, tokens)?;
    match tokens.first().kind {
        TokenKind::Equal => {
            wanted(tokens, TokenKind::Equal, "`==` is wanted here")?;
            Ok(ScopeConstraint::Eq(operand(source, slot, tokens)?))
        }
        TokenKind::In => {
            wanted(tokens, TokenKind::In, "`in` is wanted here")?;
            Ok(ScopeConstraint::In(operand(source, slot, tokens)?))
        }
        TokenKind::Is => {
            wanted(tokens, TokenKind::Is, "`is` is wanted here")?;
            type_constraint(source, slot, tokens)
        }
        _ => Ok(ScopeConstraint::Any),
    }
}

// Parses what stands behind `is`: a type of entities, and maybe what they are in.
#[tactic(auto, using(crate::proofs::Constraints::type_rules))]
fn type_constraint(
    source: &Source,
    slot: SlotId,
    tokens: &mut TokenStream<'_>,
) -> Result<ScopeConstraint, ParseFailure>
    requires { IsSound tokens.old }
    ensures parses { Parses (λ ts c rest. IsScopeBehindIs slot ts (bare_scope c) rest)
        tokens.old tokens.new result }
    ensures complete { Completes bare_scope (IsBehindIs slot) tokens.old tokens.new result }
{
    let ty = entity_type(source, tokens)?;
    match tokens.first().kind {
        TokenKind::In => {
            wanted(tokens, TokenKind::In, "`in` is wanted here")?;
            Ok(ScopeConstraint::IsIn(ty, operand(source, slot, tokens)?))
        }
        _ => Ok(ScopeConstraint::Is(ty)),
    }
}

// Parses a type of entities.
fn entity_type(source: &Source, tokens: &mut TokenStream<'_>) -> Result<EntityType, ParseFailure>
    requires { IsSound tokens.old }
    ensures parses { Parses (λ ts ty rest. IsPath ts (bare_entity_type ty) rest)
        tokens.old tokens.new result }
    ensures complete { Completes bare_entity_type IsPathUpTo tokens.old tokens.new result }
{
    name_texts_differ();
    parse_entity_type(source.alloc, tokens)
}

// Parses an entity, or this slot.
#[tactic(auto, using(crate::proofs::Constraints::operand_rules))]
fn operand(
    source: &Source,
    slot: SlotId,
    tokens: &mut TokenStream<'_>,
) -> Result<EntityOrSlot, ParseFailure>
    requires { IsSound tokens.old }
    ensures parses { Parses
        (λ ts o rest. BeginsWithExpr ts (operand_tree slot (bare_operand o)) rest)
        tokens.old tokens.new result }
    ensures complete { Completes bare_operand (IsOperandUpTo slot)
        tokens.old tokens.new result }
{
    let (expr, place) = expression(source, tokens)?;
    if let Some(uid) = entity_in(&expr)? {
        return Ok(EntityOrSlot::Entity(uid));
    }
    match slot_in(&expr) {
        Some(found) if found == slot => Ok(EntityOrSlot::Slot),
        Some(_) => Err(ParseFailure::Syntax(place, "this slot stands for the other variable")),
        None => Err(ParseFailure::Syntax(place, "an entity or a slot is wanted here")),
    }
}

// Parses what the scope says of the action.
#[tactic(auto, using(crate::proofs::Constraints::action_constraint_rules))]
fn action_constraint(
    source: &Source,
    tokens: &mut TokenStream<'_>,
) -> Result<ActionConstraint, ParseFailure>
    requires { IsSound tokens.old }
    ensures parses { Parses (λ ts c rest. IsActionScope ts (bare_action c) rest)
        tokens.old tokens.new result }
    ensures complete { Completes bare_action IsActionScopeUpTo tokens.old tokens.new result }
{
    variable(Var::Action, tokens)?;
    match tokens.first().kind {
        TokenKind::Equal => {
            wanted(tokens, TokenKind::Equal, "`==` is wanted here")?;
            Ok(ActionConstraint::Eq(action(source, tokens)?))
        }
        TokenKind::In => {
            wanted(tokens, TokenKind::In, "`in` is wanted here")?;
            actions(source, tokens)
        }
        _ => Ok(ActionConstraint::Any),
    }
}

// Parses an action.
#[tactic(auto, using(crate::proofs::Constraints::action_rules))]
fn action(source: &Source, tokens: &mut TokenStream<'_>) -> Result<Rc<EntityUID>, ParseFailure>
    requires { IsSound tokens.old }
    ensures parses { Parses (λ ts u rest. BeginsWithAction ts (bare_entity_uid u.value) rest)
        tokens.old tokens.new result }
    ensures complete { Completes (λ u. bare_entity_uid u.value) IsActionUpTo
        tokens.old tokens.new result }
{
    let (expr, place) = expression(source, tokens)?;
    let Some(uid) = entity_in(&expr)? else {
        return Err(ParseFailure::Syntax(place, "an action is wanted here"));
    };
    if is_action(&uid) {
        Ok(uid)
    } else {
        Err(ParseFailure::Syntax(place, "the type of an action has to be `Action`"))
    }
}

// Parses what stands behind `action in`: an action, or a set of actions.
#[tactic(auto, using(crate::proofs::Constraints::actions_rules))]
fn actions(source: &Source, tokens: &mut TokenStream<'_>) -> Result<ActionConstraint, ParseFailure>
    requires { IsSound tokens.old }
    ensures parses { Parses (λ ts c rest. IsActionBehindIn ts (bare_action c) rest)
        tokens.old tokens.new result }
    ensures complete { Completes bare_action IsBehindIn tokens.old tokens.new result }
{
    let (expr, place) = expression(source, tokens)?;
    if let Some(uid) = entity_in(&expr)? {
        if !is_action(&uid) {
            return Err(ParseFailure::Syntax(place, "the type of an action has to be `Action`"));
        }
        return Ok(ActionConstraint::In(uid));
    }
    let Some(members) = members_in(&expr) else {
        return Err(ParseFailure::Syntax(place, "an action or a set of actions is wanted here"));
    };
    let Some(uids) = entities_in(source.alloc, members)? else {
        return Err(ParseFailure::Syntax(place, "this set has members that are no entities"));
    };
    if !are_actions(&uids) {
        return Err(ParseFailure::Syntax(place, "the type of each action has to be `Action`"));
    }
    Ok(ActionConstraint::InSet(uids))
}

// Parses a variable.
fn variable<'a>(var: Var, tokens: &mut TokenStream<'a>) -> Result<Token<'a>, ParseFailure>
    requires { IsSound tokens.old }
    ensures taken { MatchResult result
        (λ t. (t.text.now ≡ var_text var) × IsTokenTaken kinds.Word t tokens.old tokens.new)
        (IsWithin (stop_of tokens.old)) }
    ensures present { (rest : List Lexeme) →
        here tokens.old ≡ lexeme kinds.Word (var_text var) ∷ rest → IsOk result }
{
    match var {
        Var::Principal => word(tokens, "principal", "`principal` is wanted here"),
        Var::Action => word(tokens, "action", "`action` is wanted here"),
        Var::Resource => word(tokens, "resource", "`resource` is wanted here"),
        Var::Context => word(tokens, "context", "`context` is wanted here"),
    }
}
