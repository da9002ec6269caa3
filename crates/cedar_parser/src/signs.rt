//! Signs that only policies have.
ghost use Rattle.std.specs.Prelude.{◌≡◌, ◌≤◌, IfSome};
ghost use Rattle.cedar_lexer.specs.declared.parse_failure.ParseFailure.TheVariants.{Memory};
ghost use Rattle.cedar_parser.specs.Refused.{IsBefore, IsWithin, stop_of};

use cedar_lexer::{ParseFailure, Span, TokenKind, TokenStream};

/// What is told of these tokens, which are no expression: the failure, or the first sign that only
/// policies have.
pub(crate) fn told_of_signs(tokens: TokenStream<'_>, failure: ParseFailure) -> ParseFailure
    requires { IsBefore 0 tokens }
    ensures within { IsWithin (stop_of tokens.entry) failure →
        IsWithin (stop_of tokens.entry) result }
    ensures memory { failure ≡ Memory → result ≡ Memory }
{
    match failure {
        ParseFailure::Memory => ParseFailure::Memory,
        ParseFailure::Syntax(span, problem) => match first_sign(tokens) {
            Some(sign) => ParseFailure::Syntax(sign, "no part of an expression begins here"),
            None => ParseFailure::Syntax(span, problem),
        },
    }
}

// Where the first sign stands that only policies have.
fn first_sign(tokens: TokenStream<'_>) -> Option<Span>
    requires { IsBefore 0 tokens }
    ensures { IfSome result (λ span.
        (span.start ≤ span.stop) × (span.stop ≤ stop_of tokens.entry)) }
{
    let mut left = tokens;
    'tokens: while let Some(token) = left.next() {
        if is_sign_of_policies(token.kind) {
            return Some(token.span);
        }
    }
    None
}

// Whether only policies have tokens of this kind.
fn is_sign_of_policies(kind: TokenKind) -> bool {
    matches!(kind, TokenKind::At | TokenKind::Semicolon)
}
