//! The annotations of a policy.
ghost use Rattle.std.specs.Prelude.{◌≡◌, ◌∷◌, ℕ, IsOk, List, MatchResult, map, true};
ghost use Rattle.cedar_lexer.specs.declared.token.TokenKind.{TokenKind as Kind};
ghost use Rattle.cedar_parser.specs.Meant.{here};
ghost use Rattle.cedar_parser.specs.Refused.{IsWithin, stop_of};
ghost use Rattle.std.specs.Rc.{rc_str_bytes};
ghost use Rattle.semantics_grammar.specs.Lexemes.{Lexeme, lexeme};
ghost use Rattle.semantics_policies.specs.Grammar.{is_word_kind};
ghost use Rattle.cedar_policy_parser.specs.Annotations.{
  AreAnnotationsOf,
  IsBehindAt,
  IsClosedText,
  IsKeyTaken,
};
ghost use Rattle.cedar_policies.specs.Policies.{bare_annotation};
ghost use Rattle.cedar_policy_parser.specs.Complete.{
  AreAnnotationsUpTo,
  Completes,
  IsAnnotationUpTo,
};
ghost use Rattle.cedar_policy_parser.specs.Streams.{IsSound, Parses};

use crate::seen::SeenTexts;
use crate::stream::{Source, maybe, wanted};
use cedar_lexer::{ParseFailure, Token, TokenKind, TokenStream};
use cedar_parser::text_of;
use cedar_policies::Annotation;
use std::rc::RcStr;

/// Parses the annotations of a policy, of which no two have the same key.
#[tactic(auto, using(crate::proofs::Taken::within_rest))]
pub(crate) fn annotations(
    source: &Source,
    tokens: &mut TokenStream<'_>,
) -> Result<Vec<Annotation>, ParseFailure>
    requires { IsSound tokens.old }
    ensures parses { Parses (λ ts found rest. AreAnnotationsOf ts found.items rest)
        tokens.old tokens.new result }
    ensures complete { Completes (λ found. map bare_annotation found.items) AreAnnotationsUpTo
        tokens.old tokens.new result }
{
    let mut keys = SeenTexts::new(source.alloc);
    let mut annotations = Vec::new(source.alloc);
    'annotations: while let Some(at) = maybe(tokens, TokenKind::At) {
        let next = annotation(source, tokens)?;
        let is_new = keys.note(&next.key)?;
        if !is_new {
            return Err(ParseFailure::Syntax(at.span, "the key of this annotation stands twice"));
        }
        annotations.push(next)?;
    }
    Ok(annotations)
}

// Parses an annotation behind its `@`.
#[tactic(auto, using(crate::proofs::Bodies::annotation_rules))]
fn annotation(source: &Source, tokens: &mut TokenStream<'_>) -> Result<Annotation, ParseFailure>
    requires { IsSound tokens.old }
    ensures parses { Parses (λ ts a rest. IsBehindAt ts (bare_annotation a) rest)
        tokens.old tokens.new result }
    ensures complete { Completes bare_annotation IsAnnotationUpTo tokens.old tokens.new result }
{
    let name = key(tokens)?;
    let key = RcStr::from_str(source.alloc, name.text)?;
    match tokens.first().kind {
        TokenKind::OpenRound => {
            wanted(tokens, TokenKind::OpenRound, "`(` is wanted here")?;
            let value = value(source, tokens)?;
            Ok(Annotation { key, value })
        }
        _ => {
            let value = RcStr::from_str(source.alloc, "")?;
            Ok(Annotation { key, value })
        }
    }
}

// Parses the text of an annotation, up to and with the round bracket behind it.
#[tactic(auto, using(crate::proofs::Bodies::closed_text, crate::proofs::Taken::within_rest))]
fn value(source: &Source, tokens: &mut TokenStream<'_>) -> Result<RcStr, ParseFailure>
    requires { IsSound tokens.old }
    ensures parses { Parses (λ ts t rest. IsClosedText ts (rc_str_bytes t) rest)
        tokens.old tokens.new result }
    ensures complete { Completes rc_str_bytes IsClosedText tokens.old tokens.new result }
{
    let quoted = wanted(tokens, TokenKind::Quoted, "a text in quotes is wanted here")?;
    let value = text_of(source.alloc, quoted)?;
    wanted(tokens, TokenKind::CloseRound, "`)` is wanted here")?;
    Ok(value)
}

// Takes the key of an annotation, which is any word.
#[tactic(auto, using(crate::proofs::Bodies::key_taken))]
fn key<'a>(tokens: &mut TokenStream<'a>) -> Result<Token<'a>, ParseFailure>
    requires { IsSound tokens.old }
    ensures taken { MatchResult result
        (λ t. IsKeyTaken t tokens.old tokens.new)
        (IsWithin (stop_of tokens.old)) }
    ensures present { (kind : Kind) (word : List ℕ) (rest : List Lexeme) →
        is_word_kind kind ≡ true → here tokens.old ≡ lexeme kind word ∷ rest → IsOk result }
{
    let first = tokens.first();
    if is_word(first.kind) {
        wanted(
            tokens,
            first.kind,
            "the key of an annotation is wanted here",
        )
    } else {
        Err(ParseFailure::Syntax(first.span, "the key of an annotation is wanted here"))
    }
}

// Whether tokens of this kind are words.
fn is_word(kind: TokenKind) -> bool
    ensures { result ≡ is_word_kind kind }
{
    match kind {
        TokenKind::Word
        | TokenKind::True
        | TokenKind::False
        | TokenKind::If
        | TokenKind::Then
        | TokenKind::Else
        | TokenKind::In
        | TokenKind::Is
        | TokenKind::Like
        | TokenKind::Has => true,
        _ => false,
    }
}
