//! Brackets, conditionals, sets, records and calls.
ghost use Rattle.std.specs.Prelude.{
  ◌≡◌,
  ◌↔◌,
  ◌≤◌,
  ◌++◌,
  [],
  ◌∷◌,
  IfErr,
  IfOk,
  IsTrue,
  List,
  MatchResult,
  None,
  length,
  map,
  max,
  ℕ,
};
ghost use Rattle.cedar_builders.specs.Keys.{are_distinct, meant_pairs};
ghost use Rattle.cedar_exprs.specs.BareExpr.{bare_expr};
ghost use Rattle.cedar_parser.specs.Ahead.{RowTakes, keys};
ghost use Rattle.cedar_parser.specs.Complete.{
  IsMember,
  IsRecordAhead,
  IsResumed,
  IsRowAhead,
  KeepsOn,
};
ghost use Rattle.cedar_parser.specs.Meant.{
  HasNoValues,
  IsClosing,
  IsOpenParsed,
  IsPushed,
  IsRecordOperand,
  IsRecordParsed,
  IsRowOperand,
  ParsesOn,
  Takes,
  from,
  grouped,
  here,
  row_of,
};
ghost use Rattle.cedar_parser.specs.Waiting.{closing_of};
ghost use Rattle.cedar_parser.specs.declared.groups.GroupKind.TheVariants as groupkinds;
ghost use Rattle.cedar_parser.specs.declared.operand.Operation.TheVariants as operations;
ghost use Rattle.cedar_lexer.specs.TokenStreams.{tokens_left};
ghost use Rattle.cedar_lexer.specs.declared.parse_failure.ParseFailure.TheVariants.{Memory};
ghost use Rattle.cedar_parser.specs.Places.{
  AreOpenUpTo,
  ArePlaced,
  IsGroupPlaced,
  IsPlaced,
  IsPlacedUpTo,
};
ghost use Rattle.cedar_parser.specs.Refused.{
  IsAbout,
  IsBefore,
  IsFirst,
  IsStep,
  IsUpTo,
  group_start,
  next_start,
  open_start,
};

use crate::leaves::key;
use crate::operand::{Operand, Operation, Step};
use crate::parser::Parser;
use cedar_exprs::Expr;
use cedar_lexer::{ParseFailure, Span, Token, TokenKind, TokenStream};
use cedar_names::Name;
use std::rc::RcStr;

/// What is open around an operand.
#[derive(Drop)]
pub(crate) struct Group {
    pub(crate) kind: GroupKind,
    /// Where it begins.
    pub(crate) start: usize,
    /// The operations that wait for what it gives.
    pub(crate) operations: Vec<Operation>,
}

/// The groups.
#[derive(Drop)]
pub(crate) enum GroupKind {
    /// `(`
    Round,
    /// `if`
    If,
    /// `if TEST then`
    Then(Expr),
    /// A row and its items.
    Row(RowKind, Vec<Expr>),
    /// `{`, fields, and the key of the next.
    Record(Vec<(RcStr, Expr)>, RcStr),
}

/// The rows.
#[derive(Drop)]
pub(crate) enum RowKind {
    /// `[` and members.
    Set,
    /// `NAME(` and arguments.
    Function(Name),
    /// `EXPR.NAME(` and arguments, of which the expression is the first.
    Method(RcStr),
}

impl RowKind {
    // The bracket at the end.
    fn closing(&self) -> TokenKind
        ensures { result ≡ closing_of (row_of self.now) }
    {
        match self {
            RowKind::Set => TokenKind::CloseSquare,
            RowKind::Function(_) => TokenKind::CloseRound,
            RowKind::Method(_) => TokenKind::CloseRound,
        }
    }
}

impl Group {
    // Whether a token of this kind may follow an operand in it, beside operators.
    fn takes(&self, kind: TokenKind) -> bool
        ensures { IsTrue result ↔ Takes (grouped self.now.kind) kind }
    {
        match &self.kind {
            GroupKind::Round => kind == TokenKind::CloseRound,
            GroupKind::If => kind == TokenKind::Then,
            GroupKind::Then(_) => kind == TokenKind::Else,
            GroupKind::Row(row, _) => kind == TokenKind::Comma || kind == row.closing(),
            GroupKind::Record(_, _) => kind == TokenKind::Comma || kind == TokenKind::CloseCurly,
        }
    }

    /// The same in words.
    pub(crate) fn wanted(&self) -> &'static str {
        match &self.kind {
            GroupKind::Round => "an operator or `)` is wanted here",
            GroupKind::If => "an operator or `then` is wanted here",
            GroupKind::Then(_) => "an operator or `else` is wanted here",
            GroupKind::Row(RowKind::Set, _) => "an operator, `,` or `]` is wanted here",
            GroupKind::Row(_, _) => "an operator, `,` or `)` is wanted here",
            GroupKind::Record(_, _) => "an operator, `,` or `}` is wanted here",
        }
    }
}

impl Parser<'_> {
    /// An operand in a group, and the token behind it.
    pub(crate) fn resume_group(
        &mut self,
        group: Group,
        expr: Expr,
        token: Token<'_>,
        tokens: &mut TokenStream<'_>,
    ) -> Step
        requires opened { open_start self.old ≤ token.span.start }
        requires first { IsFirst (group_start group) token tokens.old }
        ensures parses { ParsesOn
            (λ ts. IsClosing ts self.old group expr (from token.entry tokens.old))
            tokens.old result self.new tokens.new }
        ensures complete { KeepsOn
            (IsResumed self.old group (from token.entry tokens.old))
            tokens.old result self.new tokens.new }
        ensures left { tokens_left tokens.new ≤ tokens_left tokens.old }
        ensures goes_on { IsStep tokens.old tokens.new self.new result }
        ensures places { (source : List ℕ)
            → IsGroupPlaced source token.entry.span.start self.old group expr
            → IfOk result (IsPlacedUpTo source (next_start tokens.new) self.new) }
    {
        if !group.takes(token.kind) {
            return Err(ParseFailure::Syntax(token.span, group.wanted()));
        }
        let Group {
            kind,
            start,
            operations,
        } = group;
        self.operations = operations;
        let span = Span {
            start,
            stop: token.span.stop,
        };
        let goes_on = token.kind == TokenKind::Comma;
        match kind {
            GroupKind::Round => Ok(Some(Operand::member(expr, span))),
            GroupKind::If => self.open(GroupKind::Then(expr), start),
            GroupKind::Then(test) => self.otherwise(start, test, expr),
            GroupKind::Row(kind, items) => {
                let items = pushed(items, expr)?;
                if goes_on {
                    self.item(kind, items, start, tokens)
                } else {
                    self.row(kind, items, span)
                }
            }
            GroupKind::Record(pairs, key) => {
                let pairs = pushed(pairs, (key, expr))?;
                if goes_on {
                    self.field(pairs, start, tokens)
                } else {
                    self.record(pairs, span)
                }
            }
        }
    }

    // What stands behind `else` ends with what is around it, so it is no group.
    #[tactic(auto, using(crate::proofs::Greatest::greatest_push))]
    fn otherwise(&mut self, start: usize, test: Expr, then: Expr) -> Step
        ensures pushed { IfOk result (λ h. (h ≡ None)
            × IsPushed self.old (operations.Else start test then) self.new) }
        ensures opened { MatchResult result
            (IsUpTo (max (open_start self.old) start) self.new)
            (λ e. e ≡ Memory) }
        ensures places { (source : List ℕ) (to : ℕ) → AreOpenUpTo source start to self.old
            → IsPlaced source start to test → IsPlaced source start to «then»
            → IfOk result (IsPlacedUpTo source to self.new) }
    {
        self.operations.push(Operation::Else(start, test, then))?;
        Ok(None)
    }

    /// The next item of a row, or the end of the row.
    pub(crate) fn item(
        &mut self,
        kind: RowKind,
        items: Vec<Expr>,
        start: usize,
        tokens: &mut TokenStream<'_>,
    ) -> Step
        requires { IsBefore (max (open_start self.old) start) tokens.old }
        ensures parses { ParsesOn
            (λ ts. IsOpenParsed ts self.old (groupkinds.Row kind items) (here tokens.old))
            tokens.old result self.new tokens.new }
        ensures complete { KeepsOn
            (IsRowAhead self.old (row_of kind) (length items.items) (here tokens.old))
            tokens.old result self.new tokens.new }
        ensures left { tokens_left tokens.new ≤ tokens_left tokens.old }
        ensures goes_on { IsStep tokens.old tokens.new self.new result }
        ensures places { (source : List ℕ)
            → AreOpenUpTo source start (next_start tokens.old) self.old
            → ArePlaced source start (next_start tokens.old) items.items
            → IfOk result (IsPlacedUpTo source (next_start tokens.new) self.new) }
    {
        match tokens.take_if(kind.closing()) {
            Some(Token { span, .. }) => {
                let stop = span.stop;
                self.row(kind, items, Span { start, stop })
            }
            None => self.open(GroupKind::Row(kind, items), start),
        }
    }

    // A whole row.
    fn row(&mut self, kind: RowKind, items: Vec<Expr>, span: Span) -> Step
        ensures tree { HasNoValues self.old.nodes →
            IfOk result (IsRowOperand (row_of kind) (map bare_expr items.items)) }
        ensures complete { RowTakes (row_of kind) (length items.items) →
            MatchResult result IsMember (λ e. e ≡ Memory) }
        ensures same { self.new ≡ self.old }
        ensures opened { MatchResult result
            (IsUpTo (max (open_start self.old) span.start) self.new)
            (IsAbout span) }
        ensures places { (source : List ℕ) → span.start ≤ span.stop
            → AreOpenUpTo source span.start span.stop self.old
            → ArePlaced source span.start span.stop items.items
            → IfOk result (IsPlacedUpTo source span.stop self.new) }
    {
        let expr = match kind {
            RowKind::Set => self.nodes.set(items, span)?,
            RowKind::Function(name) => self.nodes.function_call(name, items, span)?,
            RowKind::Method(name) => self.nodes.method_call(&name, items, span)?,
        };
        Ok(Some(Operand::member(expr, span)))
    }

    /// The next field of a record, or the end of the record.
    pub(crate) fn field(
        &mut self,
        pairs: Vec<(RcStr, Expr)>,
        start: usize,
        tokens: &mut TokenStream<'_>,
    ) -> Step
        requires { IsBefore (max (open_start self.old) start) tokens.old }
        ensures parses { ParsesOn
            (λ ts. IsRecordParsed ts self.old pairs.items (here tokens.old))
            tokens.old result self.new tokens.new }
        ensures complete { KeepsOn
            (IsRecordAhead self.old (keys (meant_pairs bare_expr pairs.items)) (here tokens.old))
            tokens.old result self.new tokens.new }
        ensures left { tokens_left tokens.new ≤ tokens_left tokens.old }
        ensures goes_on { IsStep tokens.old tokens.new self.new result }
        ensures places { (source : List ℕ)
            → AreOpenUpTo source start (next_start tokens.old) self.old
            → ArePlaced source start (next_start tokens.old) (map (λ p. p.1) pairs.items)
            → IfOk result (IsPlacedUpTo source (next_start tokens.new) self.new) }
    {
        if let Some(Token { span, .. }) = tokens.take_if(TokenKind::CloseCurly) {
            let stop = span.stop;
            return self.record(pairs, Span { start, stop });
        }
        let (key, _) = key(self.nodes.alloc, tokens)?;
        let _colon = tokens.expect(TokenKind::Colon, "`:` is wanted here")?;
        self.open(GroupKind::Record(pairs, key), start)
    }

    // A whole record.
    fn record(&mut self, pairs: Vec<(RcStr, Expr)>, span: Span) -> Step
        ensures tree { IfOk result (IsRecordOperand (meant_pairs bare_expr pairs.items)) }
        ensures complete { IsTrue (are_distinct (keys (meant_pairs bare_expr pairs.items))) →
            MatchResult result IsMember (λ e. e ≡ Memory) }
        ensures same { self.new ≡ self.old }
        ensures opened { MatchResult result
            (IsUpTo (max (open_start self.old) span.start) self.new)
            (IsAbout span) }
        ensures places { (source : List ℕ) → span.start ≤ span.stop
            → AreOpenUpTo source span.start span.stop self.old
            → ArePlaced source span.start span.stop (map (λ p. p.1) pairs.items)
            → IfOk result (IsPlacedUpTo source span.stop self.new) }
    {
        let expr = self.nodes.record(pairs, span)?;
        Ok(Some(Operand::member(expr, span)))
    }
}

// The items with one more.
fn pushed<T: Drop>(mut items: Vec<T>, item: T) -> Result<Vec<T>, ParseFailure>
    ensures items { IfOk result (λ v. v.items ≡ items.items ++ (item ∷ [])) }
    ensures memory { IfErr result (λ e. e ≡ Memory) }
{
    items.push(item)?;
    Ok(items)
}
