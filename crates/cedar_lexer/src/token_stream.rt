//! The tokens of a text, as they are taken one by one.
ghost use Rattle.std.specs.Prelude.{
  ◌≡◌,
  ◌++◌,
  ◌↔◌,
  ◌<◌,
  ◌^◌,
  ◌≤◌,
  ◌≢◌,
  IfSome,
  IsOk,
  IsSome,
  IsTrue,
  MatchOption,
  MatchResult,
  drop,
  length,
  take,
};
ghost use Rattle.cedar_lexer.specs.Groups.{IsCutAt, depth_behind, ends, kinds_of};
ghost use Rattle.cedar_lexer.specs.Told.{IsProblem};
ghost use Rattle.cedar_lexer.specs.declared.token.TokenKind.TheVariants as kinds;
ghost use Rattle.cedar_lexer.specs.TokenStreams.{
  BeginsWith,
  BeginsWithPair,
  IsEndBehind,
  IsPairTaken,
  IsTaken,
  IsUntouched,
  end_of,
  next_of,
  rest_of,
  tokens_left,
};

use crate::parse_failure::ParseFailure;
use crate::token::{Span, Token, TokenKind};

/// The tokens that are not taken yet.
#[derive(Drop)]
pub struct TokenStream<'a> {
    rest: &'a [Token<'a>],
    // The end of the text.
    end: Token<'a>,
}

impl<'a> TokenStream<'a> {
    /// All of them.
    pub fn new(tokens: &'a [Token<'a>]) -> TokenStream<'a>
        ensures left { tokens_left result ≡ length tokens.now }
        ensures all { rest_of result ≡ tokens.now }
        ensures end { IsEndBehind tokens.now (end_of result) }
    {
        let at = tokens.last().map_or(0, |last| last.span.stop);
        TokenStream {
            rest: tokens,
            end: Token {
                kind: TokenKind::End,
                text: "",
                span: Span {
                    start: at,
                    stop: at,
                },
            },
        }
    }

    /// These tokens, which end where `end` is: a failure at their end is told of that piece.
    pub fn before(tokens: &'a [Token<'a>], end: Span) -> TokenStream<'a>
        ensures left { tokens_left result ≡ length tokens.now }
        ensures all { rest_of result ≡ tokens.now }
        ensures kind { (end_of result).kind ≡ kinds.End }
        ensures end { (end_of result).span ≡ end }
    {
        TokenStream {
            rest: tokens,
            end: Token {
                kind: TokenKind::End,
                text: "",
                span: end,
            },
        }
    }

    /// The same tokens once more, to be taken apart from these.
    pub fn copy(&self) -> TokenStream<'a>
        ensures { result ≡ self.now }
    {
        TokenStream {
            rest: self.rest,
            end: self.end,
        }
    }

    /// Whether none is left.
    pub fn is_empty(&self) -> bool
        ensures { IsTrue result ↔ (tokens_left self.now ≡ 0) }
    {
        self.rest.is_empty()
    }

    /// The next one, or the end.
    pub fn first(&self) -> Token<'a>
        ensures { result ≡ next_of self.now }
    {
        match self.rest {
            [first, ..] => *first,
            [] => self.end,
        }
    }

    /// Takes the next one, if there is one.
    pub fn next(&mut self) -> Option<Token<'a>>
        ensures left { tokens_left self.new ≤ tokens_left self.old }
        ensures takes { IfSome result (λ _. tokens_left self.new < tokens_left self.old) }
        ensures gives { MatchOption result
            (IsUntouched self.old self.new × (tokens_left self.old ≡ 0))
            (λ t. IsTaken self.old t self.new) }
    {
        match self.rest {
            [token, rest @ ..] => {
                self.rest = rest;
                Some(*token)
            }
            [] => None,
        }
    }

    /// Takes the next one, if it is of this kind.
    pub fn take_if(&mut self, kind: TokenKind) -> Option<Token<'a>>
        ensures left { tokens_left self.new ≤ tokens_left self.old }
        ensures takes { IfSome result (λ _. tokens_left self.new < tokens_left self.old) }
        ensures gives { MatchOption result
            (IsUntouched self.old self.new)
            (λ t. (t.kind ≡ kind) × IsTaken self.old t self.new) }
        ensures exact { IsSome result ↔ BeginsWith kind (rest_of self.old) }
        ensures refuses { (next_of self.old).kind ≢ kind → result ≡ None }
    {
        if self.first().kind == kind {
            self.next()
        } else {
            None
        }
    }

    /// Takes the next two, if they are of these kinds, and gives the second.
    pub fn take_pair(&mut self, first: TokenKind, second: TokenKind) -> Option<Token<'a>>
        ensures left { tokens_left self.new ≤ tokens_left self.old }
        ensures takes { IfSome result (λ _. tokens_left self.new < tokens_left self.old) }
        ensures gives { MatchOption result
            (IsUntouched self.old self.new)
            (λ t. (t.kind ≡ second) × IsPairTaken self.old first t self.new) }
        ensures exact { IsSome result ↔ BeginsWithPair first second (rest_of self.old) }
    {
        match self.rest {
            [a, b, rest @ ..] if a.kind == first && b.kind == second => {
                self.rest = rest;
                Some(*b)
            }
            _ => None,
        }
    }

    /// Takes the tokens up to the bracket that closes what they stand in, and gives their stream;
    /// if `ends_at_comma`, up to the first comma outside brackets. The stream ends where the token
    /// begins that follows.
    pub fn take_group(&mut self, ends_at_comma: bool) -> TokenStream<'a>
        ensures all { rest_of self.old ≡ rest_of result ++ rest_of self.new }
        ensures end { end_of self.new ≡ end_of self.old }
        ensures kind { (end_of result).kind ≡ kinds.End }
        ensures place { (end_of result).span ≡ (next_of self.new).span }
        ensures exact { IsCutAt ends_at_comma
            (kinds_of (rest_of self.old)) (kinds_of (rest_of self.new)) }
    {
        let length = group_length(self.rest, ends_at_comma);
        let group = first_tokens(self.rest, length);
        self.rest = other_tokens(self.rest, length);
        TokenStream::before(group, self.first().span)
    }

    /// Takes the next one if it is of this kind; else it takes none, and refuses with `problem` at
    /// that token's span.
    pub fn expect(
        &mut self,
        kind: TokenKind,
        problem: &'static str,
    ) -> Result<Token<'a>, ParseFailure>
        ensures left { tokens_left self.new ≤ tokens_left self.old }
        ensures gives { MatchResult result
            (λ t. (t.kind ≡ kind) × IsTaken self.old t self.new)
            (λ e. IsProblem (next_of self.old).span problem.now e × IsUntouched self.old self.new) }
        ensures exact { IsOk result ↔ BeginsWith kind (rest_of self.old) }
    {
        match self.take_if(kind) {
            Some(token) => Ok(token),
            None => Err(ParseFailure::Syntax(self.first().span, problem)),
        }
    }
}

// The first tokens.
fn first_tokens<'a>(tokens: &'a [Token<'a>], count: usize) -> &'a [Token<'a>]
    requires { count ≤ length tokens.now }
    ensures { result.now ≡ take count tokens.now }
{
    tokens.split_at(count).0
}

// The tokens behind the first ones.
fn other_tokens<'a>(tokens: &'a [Token<'a>], count: usize) -> &'a [Token<'a>]
    requires { count ≤ length tokens.now }
    ensures { result.now ≡ drop count tokens.now }
{
    tokens.split_at(count).1
}

// How many tokens stand before the bracket that closes what they stand in, or before the first
// comma outside brackets.
fn group_length(tokens: &[Token<'_>], ends_at_comma: bool) -> usize
    ensures fits { result ≤ length tokens.now }
    ensures exact { IsCutAt ends_at_comma
        (kinds_of tokens.now) (kinds_of (drop result tokens.now)) }
{
    let mut depth: usize = 0;
    for (at, token) in tokens.iter().enumerate() {
        if depth == 0 && ends_group(token.kind, ends_at_comma) {
            return at;
        }
        depth = depth_behind(token.kind, depth);
    }
    tokens.len()
}

// Whether a token outside brackets ends a group.
fn ends_group(kind: TokenKind, ends_at_comma: bool) -> bool
    ensures { result ≡ ends ends_at_comma kind }
{
    match kind {
        TokenKind::CloseRound | TokenKind::CloseSquare | TokenKind::CloseCurly => true,
        TokenKind::Comma => ends_at_comma,
        _ => false,
    }
}

// How many brackets are open behind a token.
fn depth_behind(kind: TokenKind, depth: usize) -> usize
    requires { depth < 2 ^ 63 }
    ensures { result ≡ depth_behind kind depth }
{
    match kind {
        TokenKind::OpenRound | TokenKind::OpenSquare | TokenKind::OpenCurly => {
            depth.saturating_add(1)
        }
        TokenKind::CloseRound | TokenKind::CloseSquare | TokenKind::CloseCurly => {
            depth.saturating_sub(1)
        }
        _ => depth,
    }
}
