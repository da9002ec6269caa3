//! Tokens and expressions, as they are taken from a stream.
ghost use Rattle.std.specs.Prelude.{
  ◌≡◌,
  ◌∷◌,
  ◌++◌,
  ◌≢◌,
  ◌≤◌,
  IfOk,
  IsOk,
  IsSome,
  List,
  MatchOption,
  MatchResult,
};
ghost use Rattle.cedar_builders.specs.BareExpr.{BareExpr};
ghost use Rattle.cedar_exprs.specs.BareExpr.{bare_expr};
ghost use Rattle.cedar_lexer.specs.TokenStreams.{next_of};
ghost use Rattle.cedar_lexer.specs.declared.parse_failure.ParseFailure.TheVariants.{Memory};
ghost use Rattle.cedar_lexer.specs.declared.token.TokenKind.TheVariants as kinds;
ghost use Rattle.semantics_grammar.specs.Grammar.{Stands};
ghost use Rattle.semantics_grammar.specs.Lexemes.{Lexeme, lexeme};
ghost use Rattle.cedar_parser.specs.Meant.{here};
ghost use Rattle.cedar_parser.specs.Refused.{IsWithin, stop_of};
ghost use Rattle.cedar_policy_parser.specs.Complete.{Begins, Completes, IsEnd, IsExprUpTo};
ghost use Rattle.cedar_policy_parser.specs.Streams.{
  BeginsWithExpr,
  IsGroupTaken,
  IsRest,
  IsSound,
  IsTokenTaken,
  Parses,
};

use cedar_exprs::Expr;
use cedar_lexer::{ParseFailure, Span, Token, TokenKind, TokenStream};
use cedar_parser::parse_tokens;
use semantics_grammar::laws::{brackets_are_whole, tree_is_unique};
use std::alloc::Global;
use std::collections::HashMap;
use std::rc::RcStr;

/// The text that is parsed, and where memory comes from.
#[derive(Drop)]
pub(crate) struct Source {
    pub(crate) alloc: Global,
    pub(crate) text: RcStr,
}

/// Takes the next token, if it is of this kind.
#[tactic(auto, using(crate::proofs::Taken::maybe_taken))]
pub(crate) fn maybe<'a>(tokens: &mut TokenStream<'a>, kind: TokenKind) -> Option<Token<'a>>
    requires { IsSound tokens.old }
    ensures taken { MatchOption result
        (IsRest tokens.old tokens.new × (here tokens.new ≡ here tokens.old))
        (λ t. IsTokenTaken kind t tokens.old tokens.new) }
    ensures present { Begins kind (here tokens.old) → IsSome result }
{
    tokens.take_if(kind)
}

/// Takes the next token, which has to be of this kind.
#[tactic(auto, using(crate::proofs::Taken::wanted_taken))]
pub(crate) fn wanted<'a>(
    tokens: &mut TokenStream<'a>,
    kind: TokenKind,
    problem: &'static str,
) -> Result<Token<'a>, ParseFailure>
    requires { IsSound tokens.old }
    ensures taken { MatchResult result
        (λ t. IsTokenTaken kind t tokens.old tokens.new)
        (IsWithin (stop_of tokens.old)) }
    ensures present { Begins kind (here tokens.old) → IsOk result }
    ensures next { (next_of tokens.old).kind ≡ kind → kind ≢ kinds.End → IsOk result }
{
    tokens.expect(kind, problem)
}

/// Takes the next token, which has to be this word.
pub(crate) fn word<'a>(
    tokens: &mut TokenStream<'a>,
    text: &str,
    problem: &'static str,
) -> Result<Token<'a>, ParseFailure>
    requires { IsSound tokens.old }
    ensures taken { MatchResult result
        (λ t. (t.text.now ≡ text.now) × IsTokenTaken kinds.Word t tokens.old tokens.new)
        (IsWithin (stop_of tokens.old)) }
    ensures present { (rest : List Lexeme) →
        here tokens.old ≡ lexeme kinds.Word text.now ∷ rest → IsOk result }
{
    let token = wanted(tokens, TokenKind::Word, problem)?;
    if token.text == text {
        Ok(token)
    } else {
        Err(ParseFailure::Syntax(token.span, problem))
    }
}

/// Takes the tokens that stand before the bracket which closes what they stand in, or before the
/// first comma outside brackets, and parses them as one expression. With it comes the place of the
/// first of them.
#[tactic(auto, using(crate::proofs::Groups::expression_rules))]
pub(crate) fn expression(
    source: &Source,
    tokens: &mut TokenStream<'_>,
) -> Result<(Expr, Span), ParseFailure>
    requires { IsSound tokens.old }
    ensures parses { Parses (λ ts x rest. BeginsWithExpr ts (bare_expr x.0) rest)
        tokens.old tokens.new result }
    ensures place { IfOk result (λ x.
        (x.1.start ≤ x.1.stop) × (x.1.stop ≤ stop_of tokens.old)) }
    ensures complete { Completes (λ x. bare_expr x.0) IsExprUpTo tokens.old tokens.new result }
{
    let operand = group(tokens, true);
    let place = operand.first().span;
    let expr = parse_group(source, operand)?;
    Ok((expr, place))
}

/// Takes the tokens before the bracket that closes what they stand in, or, if `ends_at_comma`,
/// before the first comma outside brackets.
#[tactic(auto, using(crate::proofs::Groups::group_taken))]
pub(crate) fn group<'a>(tokens: &mut TokenStream<'a>, ends_at_comma: bool) -> TokenStream<'a>
    requires { IsSound tokens.old }
    ensures taken { IsGroupTaken result tokens.old tokens.new }
    ensures whole { (e : BareExpr) (expr rest : List Lexeme) → here tokens.old ≡ expr ++ rest →
        Stands expr e → IsEnd ends_at_comma rest →
        (here result ≡ expr) × (here tokens.new ≡ rest) }
{
    brackets_are_whole();
    tokens.take_group(ends_at_comma)
}

/// Parses all tokens of a stream as one expression.
#[tactic(auto, using(crate::proofs::Taken::either_way))]
pub(crate) fn parse_group(source: &Source, tokens: TokenStream<'_>) -> Result<Expr, ParseFailure>
    requires { IsSound tokens }
    ensures parses { MatchResult result
        (λ e. Stands (here tokens.entry) (bare_expr e))
        (IsWithin (stop_of tokens.entry)) }
    ensures complete { (tree : BareExpr) → Stands (here tokens.entry) tree →
        MatchResult result (λ e. bare_expr e ≡ tree) (λ e. e ≡ Memory) }
{
    tree_is_unique();
    let values = HashMap::new(source.alloc);
    parse_tokens(source.alloc, source.text.clone()?, tokens, &values)
}
