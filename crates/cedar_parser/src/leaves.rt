//! Literals, names and slots.
ghost use Rattle.std.specs.Prelude.{
  ◌≡◌,
  ◌<◌,
  ◌≤◌,
  ◌^◌,
  ◌∷◌,
  ◌++◌,
  [],
  IfErr,
  IfOk,
  IfSome,
  IsSome,
  List,
  MatchResult,
  false,
  neg_ℤ,
  pos,
  string_bytes,
  true,
  ℕ,
};
ghost use Rattle.std.specs.Rc.{rc_str_bytes};
ghost use Rattle.std.specs.Str.Parse.{digits_value, signed_digits_value};
ghost use Rattle.cedar_names.specs.Names.{BareName, IsNameOf, has_reserved};
ghost use Rattle.cedar_names.specs.PlainNames.{bare_name};
ghost use Rattle.cedar_names.specs.declared.err.ParseErrors.TheVariants as name_errors;
ghost use Rattle.cedar_names.specs.Slots.{slot_text};
ghost use Rattle.cedar_terms.specs.Entities.{bare_entity_type};
ghost use Rattle.cedar_terms.specs.Literals.{LongLit, bare_literal};
ghost use Rattle.cedar_terms.specs.Ops.{var_text};
ghost use Rattle.cedar_builders.specs.BareExpr.{Slot as SlotTree, Text, Var as VarTree};
ghost use Rattle.cedar_exprs.specs.BareExpr.{bare_expr};
ghost use Rattle.cedar_lexer.specs.Grammar.{IsTokenText};
ghost use Rattle.cedar_lexer.specs.TokenStreams.{end_of, tokens_left};
ghost use Rattle.cedar_lexer.specs.declared.parse_failure.ParseFailure.TheVariants.{Memory};
ghost use Rattle.cedar_lexer.specs.declared.token.TokenKind.TheVariants as kinds;
ghost use Rattle.semantics_grammar.specs.Lexemes.{Lexeme, lexeme};
ghost use Rattle.semantics_grammar.specs.Written.{
  ArePathIds,
  IsKey,
  IsPath as IsPathOf,
  IsTextOf,
};
ghost use Rattle.cedar_parser.specs.Ahead.{ends_path};
ghost use Rattle.cedar_parser.specs.Meant.{
  AreLexemes,
  HasNoValues,
  IsKeyTaken,
  IsLeafTaken,
  from,
  here,
};
ghost use Rattle.cedar_parser.specs.Places.{IsNodeAt};
ghost use Rattle.cedar_parser.specs.Refused.{
  IsAbout,
  IsBefore,
  IsFirst,
  IsLeft,
  IsPath,
  IsWithin,
  next_start,
  stop_of,
};

use crate::nodes::Nodes;
use cedar_exprs::{Expr, ExprKind};
use cedar_lexer::{ParseFailure, Span, Token, TokenKind, TokenStream, read_text};
use cedar_names::laws::name_texts_differ;
use cedar_names::{FromNormalizedStr as _, Name, ParseErrors, SlotId};
use cedar_terms::{EntityType, EntityUID, Literal, Var};
use std::alloc::Global;
use std::rc::RcStr;

impl Nodes<'_> {
    /// The entity of this type whose identifier is the next token.
    pub(crate) fn entity(
        &self,
        path: Path,
        tokens: &mut TokenStream<'_>,
    ) -> Result<(Expr, Span), ParseFailure>
        requires piece { path.span.start ≤ path.span.stop }
        requires before { IsBefore path.span.stop tokens.old }
        ensures parses { IfOk result (λ x. (ts : List Lexeme) (w colons : List ℕ)
            → ArePathIds (lexeme kinds.Word w ∷ ts) (string_bytes path.text)
            (lexeme kinds.Colons colons ∷ here tokens.old)
            → AreLexemes (here tokens.old)
            → IsLeafTaken (lexeme kinds.Word w ∷ ts) x.0 tokens.old tokens.new) }
        ensures left { tokens_left tokens.new ≤ tokens_left tokens.old }
        ensures goes_on { MatchResult result
            (λ x. (x.1.start ≡ path.span.start) × IsLeft path.span.stop tokens.old tokens.new)
            (IsWithin (stop_of tokens.old)) }
        ensures takes { IfOk result (λ _. (q : List ℕ) (rest : List Lexeme)
            → here tokens.old ≡ lexeme kinds.Quoted q ∷ rest
            → (rest ≡ here tokens.new) × (end_of tokens.new ≡ end_of tokens.old)) }
        ensures complete { IfErr result (λ e.
            (n : BareName) (t : Text) (q : List ℕ) (rest : List Lexeme)
            → IsNameOf (string_bytes path.text) n → has_reserved n ≡ false
            → here tokens.old ≡ lexeme kinds.Quoted q ∷ rest → IsTextOf q t → e ≡ Memory) }
        ensures place { IfOk result (λ x. IsNodeAt self.now x.1 [] x.0) }
        ensures behind { IfOk result (λ x. (path.span.stop ≤ x.1.stop)
            × (x.1.stop ≤ next_start tokens.new)) }
    {
        let id = tokens.expect(TokenKind::Quoted, "an identifier or a text is wanted here")?;
        let ty = EntityType::from(path.name(self.alloc)?);
        let uid = EntityUID::new(ty, text_of(self.alloc, id)?);
        let literal = Literal::from_uid(self.alloc, uid)?;
        let span = path.span.up_to(id.span.stop);
        Ok((self.node(ExprKind::Lit(literal), span)?, span))
    }

    /// A variable of the request.
    pub(crate) fn variable(&self, path: &Path) -> Result<Expr, ParseFailure>
        ensures tree { HasNoValues self.now → IfOk result (λ e. (v : Var)
            × (string_bytes path.now.text ≡ var_text v) × (bare_expr e ≡ VarTree v)) }
        ensures refused { IfErr result (IsAbout path.now.span) }
        ensures complete { IfErr result (λ e.
            (v : Var) → string_bytes path.now.text ≡ var_text v → e ≡ Memory) }
        ensures place { HasNoValues self.now → IfOk result (IsNodeAt self.now path.now.span []) }
    {
        let Some(var) = Var::from_text(&path.text) else {
            return Err(ParseFailure::Syntax(path.span, "this is no variable"));
        };
        match self.value(&path.text, path.span)? {
            Some(expr) => Ok(expr),
            None => Ok(self.node(ExprKind::Var(var), path.span)?),
        }
    }

    /// A slot.
    pub(crate) fn slot(&self, token: Token<'_>) -> Result<Expr, ParseFailure>
        ensures tree { IfOk result (λ e. (s : SlotId)
            × (token.entry.text.now ≡ slot_text s) × (bare_expr e ≡ SlotTree s)) }
        ensures refused { IfErr result (IsAbout token.entry.span) }
        ensures complete { IfErr result (λ e.
            (s : SlotId) → token.entry.text.now ≡ slot_text s → e ≡ Memory) }
        ensures place { IfOk result (IsNodeAt self.now token.entry.span []) }
    {
        let slot = match token.text {
            "?principal" => SlotId::Principal,
            "?resource" => SlotId::Resource,
            _ => return Err(ParseFailure::Syntax(
                token.span,
                "a slot is `?principal` or `?resource`",
            )),
        };
        Ok(self.node(ExprKind::Slot(slot), token.span)?)
    }
}

/// The integer of these digits, below 0 where a minus stands before them.
pub(crate) fn integer(digits: Token<'_>, is_negative: bool) -> Result<Literal, ParseFailure>
    ensures positive { IsTokenText digits.entry.text.now kinds.Digits → is_negative ≡ false →
        IfOk result (λ l. (digits_value 10 digits.entry.text.now < 2 ^ 63)
        × (bare_literal l ≡ LongLit (signed_digits_value 10 digits.entry.text.now))) }
    ensures negative { IsTokenText digits.entry.text.now kinds.Digits → is_negative ≡ true →
        IfOk result (λ l. (digits_value 10 digits.entry.text.now ≤ 2 ^ 63)
        × (bare_literal l ≡ LongLit (signed_digits_value 10 (45 ∷ digits.entry.text.now)))) }
    ensures refused { IfErr result (IsAbout digits.entry.span) }
    ensures complete { IfErr result (λ e. IsTokenText digits.entry.text.now kinds.Digits →
        (is_negative ≡ false → digits_value 10 digits.entry.text.now < 2 ^ 63) →
        digits_value 10 digits.entry.text.now ≤ 2 ^ 63 → e ≡ Memory) }
{
    match digits.text.parse::<u64>() {
        Ok(size) => match signed(size, is_negative) {
            Some(integer) => Ok(Literal::Long(integer)),
            None => Err(ParseFailure::Syntax(digits.span, NO_INTEGER)),
        },
        Err(_) => Err(ParseFailure::Syntax(digits.span, NO_INTEGER)),
    }
}

const NO_INTEGER: &str = "this is no integer of 64 bits";

// The integer of this size.
fn signed(size: u64, is_negative: bool) -> Option<i64>
    ensures positive { is_negative ≡ false →
        IfSome result (λ integer. (size < 2 ^ 63) × (integer ≡ pos size)) }
    ensures negative { is_negative ≡ true →
        IfSome result (λ integer. (size ≤ 2 ^ 63) × (integer ≡ neg_ℤ (pos size))) }
    ensures some_positive { is_negative ≡ false → size < 2 ^ 63 → IsSome result }
    ensures some_negative { is_negative ≡ true → size ≤ 2 ^ 63 → IsSome result }
{
    if is_negative {
        0_i64.checked_sub_unsigned(size)
    } else {
        i64::try_from(size).ok()
    }
}

/// The text that a token between quotes stands for.
pub fn text_of(alloc: Global, token: Token<'_>) -> Result<RcStr, ParseFailure>
    ensures text { IsTokenText token.entry.text.now kinds.Quoted →
        IfOk result (λ t. IsTextOf token.entry.text.now (rc_str_bytes t)) }
    ensures refused { IfErr result (IsAbout token.entry.span) }
    ensures complete { MatchResult result
        (λ t. (u : Text) → IsTextOf token.entry.text.now u → rc_str_bytes t ≡ u)
        (λ e. (u : Text) → IsTextOf token.entry.text.now u → e ≡ Memory) }
{
    match read_text(alloc, inside(token))? {
        Some(text) => Ok(RcStr::from_string(text)?),
        None => Err(ParseFailure::Syntax(
            token.span,
            "this text has an unknown escape, or a bare carriage return",
        )),
    }
}

/// What stands between the quotes of a token.
pub(crate) fn inside<'a>(token: Token<'a>) -> &'a str
    ensures { (inside : List ℕ) → token.entry.text.now ≡ 34 ∷ (inside ++ (34 ∷ [])) →
        result.now ≡ inside }
{
    before_quote(behind_quote(token.text))
}

// What stands behind the quote at the beginning.
fn behind_quote(text: &str) -> &str
    ensures { (rest : List ℕ) → text.now ≡ 34 ∷ rest → result.now ≡ rest }
{
    match text.strip_prefix('"') {
        Some(rest) => rest,
        None => text,
    }
}

// What stands before the quote at the end.
fn before_quote(text: &str) -> &str
    ensures { (front : List ℕ) → text.now ≡ front ++ (34 ∷ []) → result.now ≡ front }
{
    match text.strip_suffix('"') {
        Some(front) => front,
        None => text,
    }
}

/// The key of a field or of `has`, which may stand in quotes, and where it ends.
pub(crate) fn key(
    alloc: Global,
    tokens: &mut TokenStream<'_>,
) -> Result<(RcStr, usize), ParseFailure>
    requires { IsBefore 0 tokens.old }
    ensures parses { AreLexemes (here tokens.old) →
        IfOk result (λ x. IsKeyTaken tokens.old x.0 tokens.new) }
    ensures left { tokens_left tokens.new ≤ tokens_left tokens.old }
    ensures goes_on { MatchResult result
        (λ _. IsLeft (next_start tokens.old) tokens.old tokens.new)
        (IsWithin (stop_of tokens.old)) }
    ensures complete { (l : Lexeme) (k : Text) (rest : List Lexeme)
        → here tokens.old ≡ l ∷ rest → IsKey l k → MatchResult result
        (λ x. (rc_str_bytes x.0 ≡ k) × (here tokens.new ≡ rest)
        × (end_of tokens.new ≡ end_of tokens.old))
        (λ e. e ≡ Memory) }
    ensures behind { IfOk result (λ x. (next_start tokens.old ≤ x.1)
        × (x.1 ≤ next_start tokens.new)) }
{
    match tokens.take_if(TokenKind::Quoted) {
        Some(token) => Ok((text_of(alloc, token)?, token.span.stop)),
        None => {
            let token = tokens.expect(TokenKind::Word, "an identifier or a text is wanted here")?;
            Ok((RcStr::from_str(alloc, token.text)?, token.span.stop))
        }
    }
}

/// Identifiers with `::` between.
#[derive(Drop)]
pub(crate) struct Path {
    /// Their text without blanks.
    text: String,
    pub(crate) span: Span,
}

impl Path {
    /// The path that begins with this identifier.
    pub(crate) fn parse(
        alloc: Global,
        first: Token<'_>,
        tokens: &mut TokenStream<'_>,
    ) -> Result<Path, ParseFailure>
        requires { IsFirst 0 first tokens.old }
        ensures parses { IfOk result (λ p. first.entry.kind ≡ kinds.Word →
            ArePathIds (from first.entry tokens.old) (string_bytes p.text) (here tokens.new)) }
        ensures end { IfOk result (λ _. end_of tokens.new ≡ end_of tokens.old) }
        ensures lexemes { IfOk result (λ _.
            AreLexemes (here tokens.old) → AreLexemes (here tokens.new)) }
        ensures left { tokens_left tokens.new ≤ tokens_left tokens.old }
        ensures goes_on { MatchResult result
            (λ p. IsPath first.entry.span.start p.span tokens.old tokens.new)
            (λ e. e ≡ Memory) }
        ensures complete { IfOk result (λ _. ends_path (here tokens.new) ≡ true) }
    {
        let mut text = String::from_str(alloc, first.text)?;
        let mut span = first.span;
        'identifiers: while let Some(next) = tokens.take_pair(TokenKind::Colons, TokenKind::Word) {
            text.push_str("::")?;
            text.push_str(next.text)?;
            span = span.up_to(next.span.stop);
        }
        Ok(Path { text, span })
    }

    /// The name that it is.
    pub(crate) fn name(&self, alloc: Global) -> Result<Name, ParseFailure>
        ensures name { IfOk result (λ n. IsNameOf (string_bytes self.now.text) (bare_name n)) }
        ensures refused { IfErr result (IsAbout self.now.span) }
        ensures complete { IfErr result (λ e. (n : BareName)
            → IsNameOf (string_bytes self.now.text) n → has_reserved n ≡ false → e ≡ Memory) }
    {
        name_of(alloc, &self.text, self.span)
    }
}

/// Parses the type of entities with which a stream begins, and takes its tokens.
pub fn parse_entity_type(
    alloc: Global,
    tokens: &mut TokenStream<'_>,
) -> Result<EntityType, ParseFailure>
    requires { IsBefore 0 tokens.old }
    ensures parses { IfOk result (λ ty.
        IsPathOf (here tokens.old) (bare_entity_type ty) (here tokens.new)) }
    ensures end { IfOk result (λ _. end_of tokens.new ≡ end_of tokens.old) }
    ensures lexemes { IfOk result (λ _.
        AreLexemes (here tokens.old) → AreLexemes (here tokens.new)) }
    ensures left { tokens_left tokens.new ≤ tokens_left tokens.old }
    ensures goes_on { MatchResult result
        (λ _. IsLeft 0 tokens.old tokens.new)
        (IsWithin (stop_of tokens.old)) }
    ensures complete { AreLexemes (here tokens.old) → (n : BareName) (rest : List Lexeme)
        → IsPathOf (here tokens.old) n rest → ends_path rest ≡ true
        → MatchResult result (λ _. here tokens.new ≡ rest) (λ e. e ≡ Memory) }
{
    let first = tokens.expect(TokenKind::Word, "a type of entities is wanted here")?;
    let path = Path::parse(alloc, first, tokens)?;
    Ok(EntityType::from(path.name(alloc)?))
}

/// The name of this text, which stands here.
pub(crate) fn name_of(alloc: Global, text: &str, span: Span) -> Result<Name, ParseFailure>
    ensures name { IfOk result (λ n. IsNameOf text.now (bare_name n)) }
    ensures refused { IfErr result (IsAbout span) }
    ensures complete { IfErr result (λ e. (n : BareName)
        → IsNameOf text.now n → has_reserved n ≡ false → e ≡ Memory) }
{
    name_texts_differ();
    match Name::from_normalized_str(alloc, text) {
        Ok(name) => Ok(name),
        Err(error) => Err(refused_name(error, span)),
    }
}

// Why a text that stands here is no name.
fn refused_name(error: ParseErrors, span: Span) -> ParseFailure
    ensures about { IsAbout span result }
    ensures memory { error ≡ name_errors.Memory → result ≡ Memory }
{
    match error {
        ParseErrors::Memory => ParseFailure::Memory,
        _ => ParseFailure::Syntax(span, "this is no name"),
    }
}
