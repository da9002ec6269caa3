//! The clauses of a policy.
ghost use Rattle.std.specs.Prelude.{◌≡◌, ◌∷◌, ◌≤◌, IsOk, MatchResult, map};
ghost use Rattle.cedar_exprs.specs.BareExpr.{bare_expr};
ghost use Rattle.cedar_lexer.specs.declared.token.TokenKind.TheVariants as kinds;
ghost use Rattle.semantics_grammar.specs.Lexemes.{lexeme};
ghost use Rattle.cedar_parser.specs.Meant.{here};
ghost use Rattle.cedar_parser.specs.Refused.{IsWithin, stop_of};
ghost use Rattle.semantics_policies.specs.Grammar.{AreClauses, IsClause, is_slot_token};
ghost use Rattle.cedar_policies.specs.Policies.{bare_clause};
ghost use Rattle.cedar_policy_parser.specs.Complete.{AreClausesUpTo, Completes};
ghost use Rattle.cedar_policy_parser.specs.Streams.{HasNoSlot, IsBody, IsSound, Parses};

use crate::stream::{Source, group, maybe, parse_group, wanted};
use cedar_exprs::Expr;
use cedar_lexer::{ParseFailure, Token, TokenKind, TokenStream};
use cedar_policies::Clause;

/// Parses the clauses of a policy, one behind the other.
#[tactic(auto, using(crate::proofs::Taken::within_rest))]
pub(crate) fn clauses(
    source: &Source,
    tokens: &mut TokenStream<'_>,
) -> Result<Vec<Clause>, ParseFailure>
    requires { IsSound tokens.old }
    ensures parses { Parses (λ ts cs rest. AreClauses ts (map bare_clause cs.items) rest)
        tokens.old tokens.new result }
    ensures complete { Completes (λ cs. map bare_clause cs.items) AreClausesUpTo
        tokens.old tokens.new result }
{
    let mut clauses = Vec::new(source.alloc);
    'clauses: while let Some(word) = maybe(tokens, TokenKind::Word) {
        clauses.push(clause(source, word, tokens)?)?;
    }
    Ok(clauses)
}

// Parses the clause that begins with this word.
#[tactic(auto, using(crate::proofs::Bodies::when_parsed, crate::proofs::Bodies::unless_parsed))]
fn clause(
    source: &Source,
    word: Token<'_>,
    tokens: &mut TokenStream<'_>,
) -> Result<Clause, ParseFailure>
    requires sound { IsSound tokens.old }
    requires begins { word.span.start ≤ word.span.stop }
    requires ends { word.span.stop ≤ stop_of tokens.old }
    ensures parses { Parses (λ ts c rest.
        IsClause (lexeme kinds.Word word.entry.text.now ∷ ts) (bare_clause c) rest)
        tokens.old tokens.new result }
    ensures complete { Completes bare_clause
        (λ ts c rest. IsClause (lexeme kinds.Word word.entry.text.now ∷ ts) c rest)
        tokens.old tokens.new result }
{
    match word.text {
        "when" => Ok(Clause::When(body(source, tokens)?)),
        "unless" => Ok(Clause::Unless(body(source, tokens)?)),
        _ => Err(ParseFailure::Syntax(word.span, "`when`, `unless` or `;` is wanted here")),
    }
}

// Parses an expression in curly brackets, without slots.
#[tactic(auto, using(crate::proofs::Bodies::body_rules))]
fn body(source: &Source, tokens: &mut TokenStream<'_>) -> Result<Expr, ParseFailure>
    requires { IsSound tokens.old }
    ensures parses { Parses (λ ts e rest. IsBody ts (bare_expr e) rest)
        tokens.old tokens.new result }
    ensures complete { Completes bare_expr IsBody tokens.old tokens.new result }
{
    wanted(tokens, TokenKind::OpenCurly, "`{` is wanted here")?;
    let inside = group(tokens, false);
    refuse_slots(inside.copy())?;
    let expr = parse_group(source, inside)?;
    wanted(tokens, TokenKind::CloseCurly, "`}` is wanted here")?;
    Ok(expr)
}

// Refuses tokens with a slot among them.
fn refuse_slots(tokens: TokenStream<'_>) -> Result<(), ParseFailure>
    requires { IsSound tokens }
    ensures none { MatchResult result
        (λ _. HasNoSlot (here tokens.entry))
        (IsWithin (stop_of tokens.entry)) }
    ensures complete { HasNoSlot (here tokens.entry) → IsOk result }
{
    let mut left = tokens;
    'tokens: while let Some(token) = left.next() {
        if is_slot(token) {
            return Err(ParseFailure::Syntax(token.span, "a slot may stand in the scope alone"));
        }
    }
    Ok(())
}

// Whether a token is a slot.
fn is_slot(token: Token<'_>) -> bool
    ensures { result ≡ is_slot_token (lexeme token.entry.kind token.entry.text.now) }
{
    match token.kind {
        TokenKind::Slot => true,
        _ => false,
    }
}
