//! From tokens to expressions.
ghost use Rattle.std.specs.Prelude.{
  ◌≡◌,
  ◌<◌,
  ◌≤◌,
  ◌^◌,
  IfErr,
  IfOk,
  IfSome,
  IsTrue,
  List,
  [],
  ◌∷◌,
  MatchOption,
  MatchResult,
  None,
  Some,
  false,
  length,
  max,
  ℕ,
};
ghost use Rattle.cedar_terms.specs.Literals.{bare_literal};
ghost use Rattle.cedar_builders.specs.BareExpr.{BareExpr, Lit};
ghost use Rattle.cedar_exprs.specs.BareExpr.{bare_expr};
ghost use Rattle.cedar_terms.specs.Precedences.{precedence_number};
ghost use Rattle.cedar_terms.specs.declared.precedence.Precedence.TheVariants as precedences;
ghost use Rattle.cedar_lexer.specs.TokenStreams.{tokens_left};
ghost use Rattle.cedar_lexer.specs.declared.token.TokenKind.TheVariants as kinds;
ghost use Rattle.semantics_grammar.specs.Grammar.{Primary, Stands};
ghost use Rattle.semantics_grammar.specs.Lexemes.{Lexeme, lexeme_of};
ghost use Rattle.semantics_grammar.specs.Written.{is_number_alone};
ghost use Rattle.cedar_parser.specs.Meant.{
  AreLexemes,
  HasEnd,
  HasNone,
  IsParse,
  HasNoMinus,
  IsParsedBehindMinus,
  IsMinusPopped,
  IsOpenParsed,
  IsPopped,
  IsParsed,
  IsTestKind,
  ParsesOn,
  WaitsBelow,
  first_kind,
  from,
  here,
  operator,
  waits,
};
ghost use Rattle.std.specs.Str.Parse.{digits_value};
ghost use Rattle.cedar_lexer.specs.Grammar.{IsTokenText};
ghost use Rattle.semantics_grammar.specs.Lexemes.{lexeme};
ghost use Rattle.cedar_parser.specs.Ahead.{IsInfixOf, TakesNoSign, own_at, own_of};
ghost use Rattle.cedar_parser.specs.Complete.{
  IsAhead,
  IsBehind,
  IsOpening,
  KeepsOn,
  StaysAhead,
};
ghost use Rattle.cedar_parser.specs.Meant.{waiting};
ghost use Rattle.cedar_parser.specs.SoFar.{IsFree, IsSign};
ghost use Rattle.cedar_parser.specs.Waiting.{
  StandsOn,
  least_operand,
  last_of,
  operator_of,
  sign,
  waiting_precedence,
};
ghost use Rattle.cedar_lexer.specs.declared.error.ParseError.TheVariants.{Memory as NoMemory};
ghost use Rattle.cedar_lexer.specs.declared.parse_failure.ParseFailure.TheVariants.{Memory};
ghost use Rattle.std.specs.Rc.{rc_str_bytes};
ghost use Rattle.cedar_parser.specs.Places.{
  AreOpenUpTo,
  ArePlaced,
  IsPlaced,
  IsPlacedUpTo,
  PlacesOn,
  items_of,
};
ghost use Rattle.cedar_parser.specs.Refused.{
  IsAbout,
  IsBefore,
  IsFirst,
  IsStep,
  IsToldIn,
  IsUpTo,
  IsWithin,
  operand_start,
  next_start,
  open_start,
  start_of,
  stop_of,
};

use crate::groups::{Group, GroupKind, RowKind};
use crate::infix::Infix;
use crate::leaves::{Path, integer, text_of};
use crate::nodes::Nodes;
use crate::operand::{Operand, Operation, Step};
use crate::signs::told_of_signs;
use cedar_exprs::{Expr, ExprKind};
use cedar_lexer::laws::tokens_are_unique;
use cedar_lexer::{ParseError, ParseFailure, Span, Token, TokenKind, TokenStream, tokenize};
use cedar_terms::{Literal, Precedence, UnaryOp};
use std::alloc::Global;
use std::collections::HashMap;
use std::mem;
use std::rc::RcStr;

/// Parses an expression of Cedar's own syntax. Each node has its place in the text.
///
/// ```rust
/// fn is_owner(alloc: Global) -> Result<Expr, ParseError> {
///     parse_expr(alloc, "resource.owner == principal && !resource.locked")
/// }
/// ```
///
/// It takes any name for that of a function or a method, `unknown("x")` for an unknown, and refuses
/// only what is no expression: what is outside the grammar, an integer outside 64 bits, a key that
/// stands twice in a record, and a method of sets or tags with another number of arguments. Beyond
/// the grammar it takes texts in quotes in a path behind `has`. A text that is an expression is
/// refused only when memory runs out. `true && false` stays as it stands;
/// `a is T in b` shares `a` between two tests. No depth of the text ends it.
pub fn parse_expr(alloc: Global, text: &str) -> Result<Expr, ParseError>
    ensures parses { IfOk result (λ e. IsParse text.now (bare_expr e)) }
    ensures told { IfErr result (IsToldIn text.now) }
    ensures complete { IfErr result (λ e.
        (tree : BareExpr) → IsParse text.now tree → e ≡ NoMemory) }
    ensures places { IfOk result (IsPlaced text.now 0 (length text.now)) }
{
    parse_with_values(alloc, text, &HashMap::new(alloc))
}

/// As `parse_expr`, but `unknown("x")` and the variable `x` are parsed as `values["x"]`; slots
/// never are. The root of what is put in gets the place of what it replaces; its other nodes keep
/// theirs.
pub fn parse_with_values(
    alloc: Global,
    text: &str,
    values: &HashMap<RcStr, Expr>,
) -> Result<Expr, ParseError>
    ensures parses { HasNone values.now → IfOk result (λ e. IsParse text.now (bare_expr e)) }
    ensures told { IfErr result (IsToldIn text.now) }
    ensures complete { IfErr result (λ e.
        (tree : BareExpr) → IsParse text.now tree → e ≡ NoMemory) }
    ensures places { HasNone values.now →
        IfOk result (IsPlaced text.now 0 (length text.now)) }
{
    match parse(alloc, text, values) {
        Ok(expr) => Ok(expr),
        Err(failure) => Err(failure.in_text(text)),
    }
}

fn parse(alloc: Global, text: &str, values: &HashMap<RcStr, Expr>) -> Result<Expr, ParseFailure>
    ensures parses { HasNone values.now → IfOk result (λ e. IsParse text.now (bare_expr e)) }
    ensures refused { IfErr result (IsWithin (length text.now)) }
    ensures complete { IfErr result (λ e.
        (tree : BareExpr) → IsParse text.now tree → e ≡ Memory) }
    ensures places { HasNone values.now →
        IfOk result (IsPlaced text.now 0 (length text.now)) }
{
    tokens_are_unique();
    let found = tokenize(alloc, text)?;
    let source = RcStr::from_str(alloc, text)?;
    match parse_tokens(alloc, source, TokenStream::new(&found), values) {
        Ok(expr) => Ok(expr),
        Err(failure) => Err(told_of_signs(TokenStream::new(&found), failure)),
    }
}

/// Parses all tokens of a stream as one expression. They stand in the text `source`; `values` are
/// as in `parse_with_values`. What the tokens lack is told of the place where the stream ends.
pub fn parse_tokens(
    alloc: Global,
    source: RcStr,
    tokens: TokenStream<'_>,
    values: &HashMap<RcStr, Expr>,
) -> Result<Expr, ParseFailure>
    requires { IsBefore 0 tokens }
    ensures parses { HasNone values.now → HasEnd tokens.entry → AreLexemes (here tokens.entry) →
        IfOk result (λ e. Stands (here tokens.entry) (bare_expr e)) }
    ensures refused { IfErr result (IsWithin (stop_of tokens.entry)) }
    ensures complete { HasEnd tokens.entry → AreLexemes (here tokens.entry) →
        IfErr result (λ e. (tree : BareExpr) → Stands (here tokens.entry) tree → e ≡ Memory) }
    ensures places { HasNone values.now →
        IfOk result (IsPlaced (rc_str_bytes source) 0 (stop_of tokens.entry)) }
{
    let mut left = tokens;
    let mut parser = Parser {
        nodes: Nodes {
            alloc,
            source,
            values,
        },
        operations: Vec::new(alloc),
        groups: Vec::new(alloc),
    };
    let mut operand = None;
    'tokens: while let Some(token) = left.next() {
        operand = parser.step(operand, token, &mut left)?;
    }
    parser.end(operand, left.first())
}

/// What is open so far: the operations that wait for the operand which comes next, and the groups
/// around it.
#[derive(Drop)]
pub(crate) struct Parser<'a> {
    pub(crate) nodes: Nodes<'a>,
    pub(crate) operations: Vec<Operation>,
    pub(crate) groups: Vec<Group>,
}

impl Parser<'_> {
    // Goes on with a token, and maybe more. What stands before them is an operand, or nothing where
    // one is wanted; so is the answer.
    fn step(
        &mut self,
        operand: Option<Operand>,
        token: Token<'_>,
        tokens: &mut TokenStream<'_>,
    ) -> Step
        requires { IsFirst (max (open_start self.old) (operand_start operand)) token tokens.old }
        ensures parses { ParsesOn
            (λ ts. IsParsed ts self.old operand (from token.entry tokens.old))
            tokens.old result self.new tokens.new }
        ensures complete { KeepsOn
            (IsAhead self.old operand (from token.entry tokens.old))
            tokens.old result self.new tokens.new }
        ensures left { tokens_left tokens.new ≤ tokens_left tokens.old }
        ensures goes_on { IsStep tokens.old tokens.new self.new result }
        ensures places { PlacesOn token.entry.span.start self.old operand
            (next_start tokens.new) self.new result }
    {
        match operand {
            Some(operand) => self.follow(operand, token, tokens),
            None => self.operand(token, tokens),
        }
    }

    // The first token of an operand.
    fn operand(&mut self, token: Token<'_>, tokens: &mut TokenStream<'_>) -> Step
        requires { IsFirst (open_start self.old) token tokens.old }
        ensures parses { ParsesOn
            (λ ts. IsParsed ts self.old None (from token.entry tokens.old))
            tokens.old result self.new tokens.new }
        ensures complete { KeepsOn
            (IsAhead self.old None (from token.entry tokens.old))
            tokens.old result self.new tokens.new }
        ensures left { tokens_left tokens.new ≤ tokens_left tokens.old }
        ensures goes_on { IsStep tokens.old tokens.new self.new result }
        ensures places { PlacesOn token.entry.span.start self.old None
            (next_start tokens.new) self.new result }
    {
        let Token { kind, span, .. } = token;
        let alloc = self.nodes.alloc;
        match kind {
            TokenKind::Word => self.name(token, tokens),
            TokenKind::Digits => self.number(token, tokens.first().kind),
            TokenKind::Quoted => self.literal(Literal::String(text_of(alloc, token)?), token),
            TokenKind::Slot => Ok(Some(Operand::member(self.nodes.slot(token)?, span))),
            TokenKind::True => self.literal(Literal::Bool(true), token),
            TokenKind::False => self.literal(Literal::Bool(false), token),
            TokenKind::Not => self.prefix(UnaryOp::Not, token),
            TokenKind::Minus => self.prefix(UnaryOp::Neg, token),
            TokenKind::If => self.conditional(token),
            TokenKind::OpenRound => self.open(GroupKind::Round, span.start),
            TokenKind::OpenSquare => self.item(RowKind::Set, Vec::new(alloc), span.start, tokens),
            TokenKind::OpenCurly => self.field(Vec::new(alloc), span.start, tokens),
            _ => Err(ParseFailure::Syntax(span, "an expression is wanted here")),
        }
    }

    fn literal(&mut self, literal: Literal, token: Token<'_>) -> Step
        ensures parses { (ts rest : List Lexeme)
            → IsParsed ts self.old None (lexeme_of token.entry ∷ rest)
            → Primary (lexeme_of token.entry ∷ rest) (Lit (bare_literal literal)) rest
            → is_number_alone (lexeme_of token.entry ∷ rest) ≡ false
            → IfOk result (λ h. IsParsed ts self.new h rest) }
        ensures complete { (rest : List Lexeme) → IsBehind self.old precedences.Member rest
            → StaysAhead self.new rest result }
        ensures opened { MatchResult result
            (IsUpTo (max (open_start self.old) token.entry.span.start) self.new)
            (λ e. e ≡ Memory) }
        ensures places { token.entry.span.start ≤ token.entry.span.stop → PlacesOn
            token.entry.span.start self.old None token.entry.span.stop self.new result }
    {
        let expr = self.nodes.node(ExprKind::Lit(literal), token.span)?;
        Ok(Some(Operand::member(expr, token.span)))
    }

    // An integer. A minus before its digits is part of it, unless they are a part of what the minus
    // stands before.
    fn number(&mut self, digits: Token<'_>, next: TokenKind) -> Step
        ensures parses { (ts rest : List Lexeme)
            → IsParsed ts self.old None (lexeme_of digits.entry ∷ rest)
            → digits.entry.kind ≡ kinds.Digits
            → next ≡ first_kind rest
            → IfOk result (λ h. IsParsed ts self.new h rest) }
        ensures complete { (rest : List Lexeme)
            → IsAhead self.old None (lexeme_of digits.entry ∷ rest)
            → digits.entry.kind ≡ kinds.Digits
            → next ≡ first_kind rest → StaysAhead self.new rest result }
        ensures opened { MatchResult result
            (IsUpTo (max (open_start self.old) digits.entry.span.start) self.new)
            (IsAbout digits.entry.span) }
        ensures places { digits.entry.span.start ≤ digits.entry.span.stop → PlacesOn
            digits.entry.span.start self.old None digits.entry.span.stop self.new result }
    {
        match next {
            TokenKind::Dot => self.positive(digits),
            TokenKind::OpenSquare => self.positive(digits),
            _ => match self.pop_minus() {
                Some(start) => self.negative(digits, start),
                None => self.positive(digits),
            },
        }
    }

    // An integer without a sign.
    fn positive(&mut self, digits: Token<'_>) -> Step
        ensures parses { (ts rest : List Lexeme)
            → IsParsed ts self.old None (lexeme_of digits.entry ∷ rest)
            → digits.entry.kind ≡ kinds.Digits
            → IsFree (last_of None (waits self.old)) (lexeme_of digits.entry ∷ rest)
            → IfOk result (λ h. IsParsed ts self.new h rest) }
        ensures complete { (rest : List Lexeme) → IsTokenText digits.entry.text.now kinds.Digits
            → digits_value 10 digits.entry.text.now < 2 ^ 63
            → IsBehind self.old precedences.Member rest → StaysAhead self.new rest result }
        ensures opened { MatchResult result
            (IsUpTo (max (open_start self.old) digits.entry.span.start) self.new)
            (IsAbout digits.entry.span) }
        ensures places { digits.entry.span.start ≤ digits.entry.span.stop → PlacesOn
            digits.entry.span.start self.old None digits.entry.span.stop self.new result }
    {
        let expr = self
            .nodes
            .node(ExprKind::Lit(integer(digits, false)?), digits.span)?;
        Ok(Some(Operand::member(expr, digits.span)))
    }

    // An integer with the minus that stood here.
    fn negative(&mut self, digits: Token<'_>, start: usize) -> Step
        ensures parses { (ts rest : List Lexeme)
            → IsParsedBehindMinus ts self.old (lexeme_of digits.entry ∷ rest)
            → digits.entry.kind ≡ kinds.Digits
            → IfOk result (λ h. IsParsed ts self.new h rest) }
        ensures complete { (rest : List Lexeme) → IsTokenText digits.entry.text.now kinds.Digits
            → digits_value 10 digits.entry.text.now ≤ 2 ^ 63
            → IsBehind self.old precedences.Unary rest → StaysAhead self.new rest result }
        ensures opened { MatchResult result
            (IsUpTo (max (open_start self.old) start) self.new)
            (IsAbout digits.entry.span) }
        ensures places { (source : List ℕ) → start ≤ digits.entry.span.start
            → digits.entry.span.start ≤ digits.entry.span.stop
            → AreOpenUpTo source start digits.entry.span.start self.old
            → IfOk result (IsPlacedUpTo source digits.entry.span.stop self.new) }
    {
        let span = Span {
            start,
            stop: digits.span.stop,
        };
        let expr = self
            .nodes
            .node(ExprKind::Lit(integer(digits, true)?), span)?;
        let precedence = Precedence::Unary;
        Ok(Some(Operand {
            expr,
            precedence,
            span,
        }))
    }

    // Takes the last operation, if it is a minus, and says where that stands.
    #[tactic(auto, using(crate::proofs::Greatest::greatest_push))]
    fn pop_minus(&mut self) -> Option<usize>
        ensures pops { MatchOption result
            ((self.new ≡ self.old) × HasNoMinus self.old)
            (λ _. IsMinusPopped self.old self.new) }
        ensures opened { open_start self.new ≤ open_start self.old }
        ensures start { IfSome result (λ start. start ≤ open_start self.old) }
        ensures places { (source : List ℕ) (to : ℕ) → AreOpenUpTo source to to self.old
            → IfSome result (λ start. (start ≤ to) × AreOpenUpTo source start to self.new) }
    {
        match self.operations.last() {
            Some(operation) => match operation.minus() {
                Some(start) => {
                    drop(self.operations.pop());
                    Some(start)
                }
                None => None,
            },
            None => None,
        }
    }

    // An entity, the call of a function, or a variable.
    fn name(&mut self, first: Token<'_>, tokens: &mut TokenStream<'_>) -> Step
        requires { IsFirst (open_start self.old) first tokens.old }
        ensures parses { ParsesOn
            (λ ts. (first.entry.kind ≡ kinds.Word)
            × IsParsed ts self.old None (from first.entry tokens.old))
            tokens.old result self.new tokens.new }
        ensures complete { first.entry.kind ≡ kinds.Word → KeepsOn
            (IsAhead self.old None (from first.entry tokens.old))
            tokens.old result self.new tokens.new }
        ensures left { tokens_left tokens.new ≤ tokens_left tokens.old }
        ensures goes_on { IsStep tokens.old tokens.new self.new result }
        ensures places { PlacesOn first.entry.span.start self.old None
            (next_start tokens.new) self.new result }
    {
        let alloc = self.nodes.alloc;
        let path = Path::parse(alloc, first, tokens)?;
        if tokens.take_if(TokenKind::Colons).is_some() {
            let (expr, span) = self.nodes.entity(path, tokens)?;
            return Ok(Some(Operand::member(expr, span)));
        }
        if tokens.take_if(TokenKind::OpenRound).is_some() {
            let function = RowKind::Function(path.name(alloc)?);
            return self.item(function, Vec::new(alloc), path.span.start, tokens);
        }
        Ok(Some(Operand::member(self.nodes.variable(&path)?, path.span)))
    }

    // A sign before its operand. The grammar has four at most in a row, and all of them alike.
    #[tactic(auto, using(crate::proofs::Greatest::greatest_push))]
    fn prefix(&mut self, op: UnaryOp, token: Token<'_>) -> Step
        ensures parses { (ts rest : List Lexeme)
            → IsParsed ts self.old None (lexeme_of token.entry ∷ rest)
            → IsSign op token.entry.kind
            → IfOk result (λ h. IsParsed ts self.new h rest) }
        ensures complete { (rest : List Lexeme)
            → IsAhead self.old None (lexeme_of token.entry ∷ rest)
            → IsSign op token.entry.kind → StaysAhead self.new rest result }
        ensures opened { MatchResult result
            (IsUpTo (max (open_start self.old) token.entry.span.start) self.new)
            (IsAbout token.entry.span) }
        ensures places { token.entry.span.start ≤ token.entry.span.stop → PlacesOn
            token.entry.span.start self.old None token.entry.span.stop self.new result }
    {
        let before = self.signs(op, token.span)?;
        if before > 3 {
            return Err(ParseFailure::Syntax(token.span, "this is the fifth sign in a row"));
        }
        self.operations
            .push(Operation::Prefix(op, token.span.start, before))?;
        Ok(None)
    }

    // How many of this sign stand right before the operand, where no other sign does.
    fn signs(&self, op: UnaryOp, span: Span) -> Result<u8, ParseFailure>
        ensures counts { IfOk result (λ n. n < 4 →
            StandsOn (last_of None (waits self.now)) (sign op n)) }
        ensures refused { IfErr result (IsAbout span) }
        ensures complete { MatchResult result
            (λ n. 4 ≤ n → TakesNoSign op (last_of None (waits self.now)))
            (λ _. TakesNoSign op (last_of None (waits self.now))) }
    {
        match self.operations.last() {
            Some(operation) => operation.signs_before(op, span),
            None => Ok(0),
        }
    }

    // `if`, which is no operand of an operator.
    fn conditional(&mut self, token: Token<'_>) -> Step
        ensures parses { (ts rest : List Lexeme)
            → IsParsed ts self.old None (lexeme_of token.entry ∷ rest)
            → token.entry.kind ≡ kinds.If
            → IfOk result (λ h. IsParsed ts self.new h rest) }
        ensures complete { (rest : List Lexeme)
            → IsAhead self.old None (lexeme_of token.entry ∷ rest)
            → token.entry.kind ≡ kinds.If → StaysAhead self.new rest result }
        ensures opened { MatchResult result
            (IsUpTo (max (open_start self.old) token.entry.span.start) self.new)
            (IsAbout token.entry.span) }
        ensures places { token.entry.span.start ≤ token.entry.span.stop → PlacesOn
            token.entry.span.start self.old None token.entry.span.stop self.new result }
    {
        if self.takes_conditional() {
            self.open(GroupKind::If, token.span.start)
        } else {
            Err(ParseFailure::Syntax(token.span, "an `if` behind an operator needs brackets"))
        }
    }

    // Whether a conditional may stand here.
    fn takes_conditional(&self) -> bool
        ensures fits { IsTrue result → least_operand (last_of None (waits self.now)) ≤ 0 }
        ensures complete { least_operand (last_of None (waits self.now)) ≤ 0 → IsTrue result }
    {
        match self.operations.last() {
            Some(operation) => operation.takes_conditional(),
            None => true,
        }
    }

    // A token behind an operand.
    fn follow(&mut self, operand: Operand, token: Token<'_>, tokens: &mut TokenStream<'_>) -> Step
        requires { IsFirst (max (open_start self.old) operand.span.start) token tokens.old }
        ensures parses { ParsesOn
            (λ ts. IsParsed ts self.old (Some operand) (from token.entry tokens.old))
            tokens.old result self.new tokens.new }
        ensures complete { KeepsOn
            (IsBehind self.old operand.precedence (from token.entry tokens.old))
            tokens.old result self.new tokens.new }
        ensures left { tokens_left tokens.new ≤ tokens_left tokens.old }
        ensures goes_on { IsStep tokens.old tokens.new self.new result }
        ensures places { PlacesOn token.entry.span.start self.old (Some operand)
            (next_start tokens.new) self.new result }
    {
        match token.kind {
            TokenKind::Dot => self.dot(member(operand, token)?, tokens),
            TokenKind::OpenSquare => self.bracket(member(operand, token)?, tokens),
            TokenKind::Has | TokenKind::Like | TokenKind::Is => self.test(operand, token, tokens),
            kind => match Infix::of(kind) {
                Some(infix) => self.infix(infix, operand, token),
                None => self.close(operand, token, tokens),
            },
        }
    }

    // `has`, `like` or `is` behind an operand.
    fn test(&mut self, operand: Operand, token: Token<'_>, tokens: &mut TokenStream<'_>) -> Step
        requires { IsFirst (max (open_start self.old) operand.span.start) token tokens.old }
        ensures parses { ParsesOn
            (λ ts. IsTestKind token.entry.kind
            × IsParsed ts self.old (Some operand) (from token.entry tokens.old))
            tokens.old result self.new tokens.new }
        ensures complete { IsTestKind token.entry.kind → KeepsOn
            (IsBehind self.old operand.precedence (from token.entry tokens.old))
            tokens.old result self.new tokens.new }
        ensures left { tokens_left tokens.new ≤ tokens_left tokens.old }
        ensures goes_on { IsStep tokens.old tokens.new self.new result }
        ensures places { PlacesOn token.entry.span.start self.old (Some operand)
            (next_start tokens.new) self.new result }
    {
        let left = self.left(operand, Precedence::Relation, Precedence::Sum, token)?;
        match token.kind {
            TokenKind::Has => self.has(left, tokens),
            TokenKind::Like => self.like(left, tokens),
            _ => self.is(left, tokens),
        }
    }

    // An operator behind an operand.
    #[tactic(auto, using(crate::proofs::Greatest::greatest_push))]
    fn infix(&mut self, infix: Infix, operand: Operand, token: Token<'_>) -> Step
        ensures parses { (ts rest : List Lexeme)
            → IsParsed ts self.old (Some operand) (lexeme_of token.entry ∷ rest)
            → operator_of token.entry.kind ≡ Some (operator «infix»)
            → IfOk result (λ h. IsParsed ts self.new h rest) }
        ensures complete { (rest : List Lexeme)
            → IsBehind self.old operand.precedence (lexeme_of token.entry ∷ rest)
            → operator_of token.entry.kind ≡ Some (operator «infix»)
            → StaysAhead self.new rest result }
        ensures opened { MatchResult result
            (IsUpTo (max (open_start self.old) operand.span.start) self.new)
            (IsAbout token.entry.span) }
        ensures places { PlacesOn token.entry.span.start self.old (Some operand)
            token.entry.span.start self.new result }
    {
        let (own, least) = infix.precedences();
        let left = self.left(operand, own, least, token)?;
        self.operations.push(Operation::Infix(infix, left))?;
        Ok(None)
    }

    // The left operand of an operator of a precedence: what binds as tightly is applied first. It
    // has to bind at least as tightly as the operator asks.
    fn left(
        &mut self,
        operand: Operand,
        own: Precedence,
        least: Precedence,
        token: Token<'_>,
    ) -> Result<Operand, ParseFailure>
        ensures parses { (ts rest : List Lexeme) → IsParsed ts self.old (Some operand) rest
            → IfOk result (λ h. IsParsed ts self.new (Some h) rest) }
        ensures below { IfOk result (λ h. WaitsBelow own self.new
            × (precedence_number least ≤ precedence_number h.precedence)) }
        ensures complete { (k : TokenKind) (w : List ℕ) (ts : List Lexeme)
            → IsInfixOf (precedence_number own) (precedence_number least) k
            → IsBehind self.old operand.precedence (lexeme k w ∷ ts) → MatchResult result
            (λ h. IsBehind self.new h.precedence (lexeme k w ∷ ts))
            (λ e. e ≡ Memory) }
        ensures opened { MatchResult result
            (λ h. IsUpTo (max (open_start self.old) operand.span.start) self.new (Some h))
            (IsAbout token.entry.span) }
        ensures places { (source : List ℕ) (to : ℕ)
            → IsPlacedUpTo source to self.old (Some operand)
            → IfOk result (λ h. IsPlacedUpTo source to self.new (Some h)) }
    {
        let operand = self.apply_down_to(own, operand)?;
        if operand.precedence.number() < least.number() {
            return Err(ParseFailure::Syntax(token.span, "what stands before this needs brackets"));
        }
        Ok(operand)
    }

    // Applies the operations that bind at least this tightly.
    fn apply_down_to(&mut self, least: Precedence, last: Operand) -> Result<Operand, ParseFailure>
        ensures parses { (ts rest : List Lexeme) → IsParsed ts self.old (Some last) rest
            → IfOk result (λ h. IsParsed ts self.new (Some h) rest) }
        ensures below { IfOk result (λ _. WaitsBelow least self.new) }
        ensures complete { (ts : List Lexeme) → own_at ts ≤ precedence_number least
            → IsBehind self.old last.precedence ts
            → IfOk result (λ h. IsBehind self.new h.precedence ts) }
        ensures places { (source : List ℕ) (to : ℕ)
            → IsPlacedUpTo source to self.old (Some last)
            → IfOk result (λ h. IsPlacedUpTo source to self.new (Some h)) }
        ensures opened { MatchResult result
            (λ h. IsUpTo (max (open_start self.old) last.span.start) self.new (Some h))
            (λ e. e ≡ Memory) }
    {
        let mut operand = last;
        'operations: while let Some(operation) = self.pop_operation(least) {
            operand = self.nodes.apply(operation, operand)?;
        }
        Ok(operand)
    }

    // Takes the last operation, if it binds at least this tightly.
    #[tactic(auto, using(crate::proofs::Greatest::greatest_push))]
    fn pop_operation(&mut self, least: Precedence) -> Option<Operation>
        ensures pops { MatchOption result
            ((self.new ≡ self.old) × WaitsBelow least self.old)
            (λ o. IsPopped self.old o self.new) }
        ensures fewer { IfSome result (λ _.
            length self.new.operations.items < length self.old.operations.items) }
        ensures tight { IfSome result (λ o.
            precedence_number least ≤ precedence_number (waiting_precedence (waiting o))) }
        ensures opened { open_start self.new ≤ open_start self.old }
        ensures start { IfSome result (λ o. start_of o ≤ open_start self.old) }
    {
        let precedence = self.operations.last()?.precedence();
        if precedence.number() < least.number() {
            return None;
        }
        self.operations.pop()
    }

    // A token that goes on with no operand: it goes on with the group around it, or ends that.
    fn close(&mut self, last: Operand, token: Token<'_>, tokens: &mut TokenStream<'_>) -> Step
        requires { IsFirst (max (open_start self.old) last.span.start) token tokens.old }
        ensures parses { ParsesOn
            (λ ts. IsParsed ts self.old (Some last) (from token.entry tokens.old))
            tokens.old result self.new tokens.new }
        ensures complete { own_of token.entry.kind ≡ 0 → KeepsOn
            (IsBehind self.old last.precedence (from token.entry tokens.old))
            tokens.old result self.new tokens.new }
        ensures left { tokens_left tokens.new ≤ tokens_left tokens.old }
        ensures goes_on { IsStep tokens.old tokens.new self.new result }
        ensures places { PlacesOn token.entry.span.start self.old (Some last)
            (next_start tokens.new) self.new result }
    {
        let operand = self.apply_down_to(Precedence::Conditional, last)?;
        match self.groups.pop() {
            Some(group) => self.resume_group(group, operand.expr, token, tokens),
            None => Err(ParseFailure::Syntax(token.span, "an operator or the end is wanted here")),
        }
    }

    // The end of the text.
    fn end(&mut self, operand: Option<Operand>, end: Token<'_>) -> Result<Expr, ParseFailure>
        ensures parses { IfOk result (λ e. (ts : List Lexeme) →
            IsParsed ts self.old operand [] → Stands ts (bare_expr e)) }
        ensures refused { IfErr result (IsAbout end.entry.span) }
        ensures complete { IfErr result (λ e. IsAhead self.old operand [] → e ≡ Memory) }
        ensures places { IfOk result (λ e. (source : List ℕ) (to : ℕ)
            → IsPlacedUpTo source to self.old operand → IsPlaced source 0 to e) }
    {
        let Some(last) = operand else {
            return Err(ParseFailure::Syntax(end.span, "an expression is wanted here"));
        };
        let operand = self.apply_down_to(Precedence::Conditional, last)?;
        match self.groups.last() {
            Some(group) => Err(ParseFailure::Syntax(end.span, group.wanted())),
            None => Ok(operand.expr),
        }
    }

    /// Opens a group with an operand. Within it none of the operations waits that are there.
    #[tactic(auto, using(crate::proofs::Greatest::greatest_push))]
    pub(crate) fn open(&mut self, kind: GroupKind, start: usize) -> Step
        ensures parses { (ts rest : List Lexeme) → IsOpenParsed ts self.old kind rest
            → IfOk result (λ h. IsParsed ts self.new h rest) }
        ensures complete { (rest : List Lexeme) → IsOpening self.old kind rest
            → StaysAhead self.new rest result }
        ensures opened { MatchResult result
            (IsUpTo (max (open_start self.old) start) self.new)
            (λ e. e ≡ Memory) }
        ensures places { (source : List ℕ) (to : ℕ) → start ≤ to
            → AreOpenUpTo source start to self.old → ArePlaced source start to (items_of kind)
            → IfOk result (IsPlacedUpTo source to self.new) }
    {
        let operations = mem::replace(&mut self.operations, Vec::new(self.nodes.alloc));
        self.groups.push(Group {
            kind,
            start,
            operations,
        })?;
        Ok(None)
    }
}

// What `.` or `[` stands behind.
fn member(operand: Operand, token: Token<'_>) -> Result<Operand, ParseFailure>
    ensures same { IfOk result (λ h. (h ≡ operand) × (operand.precedence ≡ precedences.Member)) }
    ensures complete { IfErr result (λ _. precedence_number operand.precedence < 7) }
    ensures span { MatchResult result (λ h. h.span ≡ operand.span) (IsAbout token.entry.span) }
{
    match operand.precedence {
        Precedence::Member => Ok(operand),
        _ => Err(ParseFailure::Syntax(token.span, "what stands before this needs brackets")),
    }
}
