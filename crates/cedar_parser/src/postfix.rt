//! What follows an operand: attributes, methods, `has`, `like` and `is`.
ghost use Rattle.std.specs.Prelude.{◌≡◌, ◌≤◌, ◌∷◌, List, MatchResult, Some, max, ℕ};
ghost use Rattle.cedar_terms.specs.Precedences.{precedence_number};
ghost use Rattle.cedar_terms.specs.declared.precedence.Precedence.TheVariants as precedences;
ghost use Rattle.cedar_lexer.specs.declared.token.TokenKind.TheVariants as kinds;
ghost use Rattle.semantics_grammar.specs.Lexemes.{lexeme};
ghost use Rattle.cedar_parser.specs.Complete.{IsBehind, KeepsOn};
ghost use Rattle.cedar_parser.specs.Meant.{IsParsed, ParsesOn, WaitsBelow, here};
ghost use Rattle.cedar_lexer.specs.TokenStreams.{tokens_left};
ghost use Rattle.cedar_parser.specs.Places.{PlacesOn};
ghost use Rattle.cedar_parser.specs.Refused.{IsBefore, IsStep, next_start, open_start};

use crate::groups::RowKind;
use crate::leaves::{Path, inside, key, text_of};
use crate::operand::{Operand, Operation, Step};
use crate::parser::Parser;
use cedar_lexer::{ParseFailure, TokenKind, TokenStream, read_pattern};
use cedar_names::NonEmpty;
use cedar_terms::EntityType;
use std::rc::RcStr;

impl Parser<'_> {
    /// An attribute behind a dot, or a method.
    pub(crate) fn dot(&mut self, operand: Operand, tokens: &mut TokenStream<'_>) -> Step
        requires { IsBefore (max (open_start self.old) operand.span.start) tokens.old }
        ensures parses { ParsesOn
            (λ ts. (operand.precedence ≡ precedences.Member) × ((w : List ℕ)
            × IsParsed ts self.old (Some operand) (lexeme kinds.Dot w ∷ here tokens.old)))
            tokens.old result self.new tokens.new }
        ensures complete { (w : List ℕ) → KeepsOn
            (IsBehind self.old operand.precedence (lexeme kinds.Dot w ∷ here tokens.old))
            tokens.old result self.new tokens.new }
        ensures left { tokens_left tokens.new ≤ tokens_left tokens.old }
        ensures goes_on { IsStep tokens.old tokens.new self.new result }
        ensures places { PlacesOn (next_start tokens.old) self.old (Some operand)
            (next_start tokens.new) self.new result }
    {
        let alloc = self.nodes.alloc;
        let name = tokens.expect(TokenKind::Word, "an identifier is wanted here")?;
        let attr = RcStr::from_str(alloc, name.text)?;
        if tokens.take_if(TokenKind::OpenRound).is_some() {
            let start = operand.span.start;
            let args = vec![in alloc; operand.expr]?;
            return self.item(RowKind::Method(attr), args, start, tokens);
        }
        Ok(Some(self.nodes.get(operand, attr, name.span.stop)?))
    }

    /// An attribute in square brackets.
    pub(crate) fn bracket(&mut self, operand: Operand, tokens: &mut TokenStream<'_>) -> Step
        requires { IsBefore (max (open_start self.old) operand.span.start) tokens.old }
        ensures parses { ParsesOn
            (λ ts. (operand.precedence ≡ precedences.Member) × ((w : List ℕ)
            × IsParsed ts self.old (Some operand) (lexeme kinds.OpenSquare w ∷ here tokens.old)))
            tokens.old result self.new tokens.new }
        ensures complete { (w : List ℕ) → KeepsOn
            (IsBehind self.old operand.precedence (lexeme kinds.OpenSquare w ∷ here tokens.old))
            tokens.old result self.new tokens.new }
        ensures left { tokens_left tokens.new ≤ tokens_left tokens.old }
        ensures goes_on { IsStep tokens.old tokens.new self.new result }
        ensures places { PlacesOn (next_start tokens.old) self.old (Some operand)
            (next_start tokens.new) self.new result }
    {
        let token = tokens.expect(TokenKind::Quoted, "an attribute in quotes is wanted here")?;
        let attr = text_of(self.nodes.alloc, token)?;
        let last = tokens.expect(TokenKind::CloseSquare, "`]` is wanted here")?;
        Ok(Some(self.nodes.get(operand, attr, last.span.stop)?))
    }

    /// The attributes behind `has`, with dots between.
    pub(crate) fn has(&mut self, left: Operand, tokens: &mut TokenStream<'_>) -> Step
        requires { IsBefore (max (open_start self.old) left.span.start) tokens.old }
        ensures parses { ParsesOn
            (λ ts. WaitsBelow precedences.Relation self.old
            × (4 ≤ precedence_number left.precedence) × ((w : List ℕ)
            × IsParsed ts self.old (Some left) (lexeme kinds.Has w ∷ here tokens.old)))
            tokens.old result self.new tokens.new }
        ensures complete { (w : List ℕ) → WaitsBelow precedences.Relation self.old → KeepsOn
            (IsBehind self.old left.precedence (lexeme kinds.Has w ∷ here tokens.old))
            tokens.old result self.new tokens.new }
        ensures left { tokens_left tokens.new ≤ tokens_left tokens.old }
        ensures goes_on { IsStep tokens.old tokens.new self.new result }
        ensures places { PlacesOn (next_start tokens.old) self.old (Some left)
            (next_start tokens.new) self.new result }
    {
        let alloc = self.nodes.alloc;
        let (head, mut stop) = key(alloc, tokens)?;
        let mut tail = Vec::new(alloc);
        'attributes: while tokens.take_if(TokenKind::Dot).is_some() {
            let (attr, end) = key(alloc, tokens)?;
            tail.push(attr)?;
            stop = end;
        }
        Ok(Some(self.nodes.has(left, NonEmpty::new(head, tail), stop)?))
    }

    /// The pattern behind `like`.
    pub(crate) fn like(&mut self, left: Operand, tokens: &mut TokenStream<'_>) -> Step
        requires { IsBefore (max (open_start self.old) left.span.start) tokens.old }
        ensures parses { ParsesOn
            (λ ts. WaitsBelow precedences.Relation self.old
            × (4 ≤ precedence_number left.precedence) × ((w : List ℕ)
            × IsParsed ts self.old (Some left) (lexeme kinds.Like w ∷ here tokens.old)))
            tokens.old result self.new tokens.new }
        ensures complete { (w : List ℕ) → WaitsBelow precedences.Relation self.old → KeepsOn
            (IsBehind self.old left.precedence (lexeme kinds.Like w ∷ here tokens.old))
            tokens.old result self.new tokens.new }
        ensures left { tokens_left tokens.new ≤ tokens_left tokens.old }
        ensures goes_on { IsStep tokens.old tokens.new self.new result }
        ensures places { PlacesOn (next_start tokens.old) self.old (Some left)
            (next_start tokens.new) self.new result }
    {
        let token = tokens.expect(TokenKind::Quoted, "a pattern in quotes is wanted here")?;
        match read_pattern(self.nodes.alloc, inside(token))? {
            Some(pattern) => Ok(Some(self.nodes.like(left, pattern, token.span.stop)?)),
            None => Err(ParseFailure::Syntax(
                token.span,
                "this pattern has an unknown escape, or a bare carriage return",
            )),
        }
    }

    /// The type behind `is`, and maybe `in`.
    pub(crate) fn is(&mut self, left: Operand, tokens: &mut TokenStream<'_>) -> Step
        requires { IsBefore (max (open_start self.old) left.span.start) tokens.old }
        ensures parses { ParsesOn
            (λ ts. WaitsBelow precedences.Relation self.old
            × (4 ≤ precedence_number left.precedence) × ((w : List ℕ)
            × IsParsed ts self.old (Some left) (lexeme kinds.Is w ∷ here tokens.old)))
            tokens.old result self.new tokens.new }
        ensures complete { (w : List ℕ) → WaitsBelow precedences.Relation self.old → KeepsOn
            (IsBehind self.old left.precedence (lexeme kinds.Is w ∷ here tokens.old))
            tokens.old result self.new tokens.new }
        ensures left { tokens_left tokens.new ≤ tokens_left tokens.old }
        ensures goes_on { IsStep tokens.old tokens.new self.new result }
        ensures places { PlacesOn (next_start tokens.old) self.old (Some left)
            (next_start tokens.new) self.new result }
    {
        let alloc = self.nodes.alloc;
        let first = tokens.expect(TokenKind::Word, "the type of an entity is wanted here")?;
        let path = Path::parse(alloc, first, tokens)?;
        let ty = EntityType::from(path.name(alloc)?);
        if tokens.take_if(TokenKind::In).is_none() {
            return Ok(Some(self.nodes.is(left, ty, path.span.stop)?));
        }
        let again = left.expr.clone(alloc)?;
        let test = self.nodes.is(left, ty, path.span.stop)?;
        self.operations.push(Operation::IsIn(test, again))?;
        Ok(None)
    }
}
