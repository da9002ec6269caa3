//! Operands, and the operations that wait for one.
ghost use Rattle.std.specs.Prelude.{◌≡◌, ◌<◌, ◌≤◌, IfErr, IfOk, IfSome, IsTrue, MatchOption};
ghost use Rattle.std.specs.Prelude.{MatchResult, Some};
ghost use Rattle.cedar_terms.specs.declared.precedence.Precedence.TheVariants as precedences;
ghost use Rattle.cedar_parser.specs.Ahead.{TakesNoSign};
ghost use Rattle.cedar_parser.specs.Meant.{IsMinus, IsNoMinus, waiting};
ghost use Rattle.cedar_parser.specs.Refused.{IsAbout, start_of};
ghost use Rattle.cedar_parser.specs.Waiting.{StandsOn, least_operand, sign, waiting_precedence};

use crate::infix::Infix;
use cedar_exprs::Expr;
use cedar_lexer::{ParseFailure, Span};
use cedar_terms::{Precedence, UnaryOp};

/// An expression that was parsed: how tightly its text binds, and where it stands.
#[derive(Drop)]
pub(crate) struct Operand {
    pub(crate) expr: Expr,
    pub(crate) precedence: Precedence,
    pub(crate) span: Span,
}

impl Operand {
    /// An expression that never needs brackets.
    pub(crate) fn member(expr: Expr, span: Span) -> Operand
        ensures expr { result.expr ≡ expr }
        ensures span { result.span ≡ span }
        ensures precedence { result.precedence ≡ precedences.Member }
    {
        Operand {
            expr,
            precedence: Precedence::Member,
            span,
        }
    }

    /// A test by `has`, `like` or `is`.
    pub(crate) fn relation(expr: Expr, span: Span) -> Operand
        ensures expr { result.expr ≡ expr }
        ensures span { result.span ≡ span }
        ensures precedence { result.precedence ≡ precedences.Relation }
    {
        Operand {
            expr,
            precedence: Precedence::Relation,
            span,
        }
    }
}

/// What a step gives: an operand, or nothing where one is wanted next.
pub(crate) type Step = Result<Option<Operand>, ParseFailure>;

/// An operation whose last operand is not parsed yet.
#[derive(Drop)]
pub(crate) enum Operation {
    /// A sign before its operand, where it stands, and how many signs stand right before it.
    Prefix(UnaryOp, usize, u8),
    /// An operator behind its left operand.
    Infix(Infix, Operand),
    /// `a is T` and `a` of `a is T in b`.
    IsIn(Operand, Expr),
    /// Where `if` stands, the test, and what stands behind `then`.
    Else(usize, Expr, Expr),
}

impl Operation {
    /// How tightly it binds.
    pub(crate) fn precedence(&self) -> Precedence
        ensures { result ≡ waiting_precedence (waiting self.now) }
    {
        match self {
            Operation::Prefix(_, _, _) => Precedence::Unary,
            Operation::Infix(infix, _) => infix.precedences().0,
            Operation::IsIn(_, _) => Precedence::Relation,
            Operation::Else(_, _, _) => Precedence::Conditional,
        }
    }

    /// Where it begins.
    pub(crate) fn start(&self) -> usize
        ensures { result ≡ start_of self.now }
    {
        match self {
            Operation::Prefix(_, start, _) => *start,
            Operation::Infix(_, left) => left.span.start,
            Operation::IsIn(is, _) => is.span.start,
            Operation::Else(start, _, _) => *start,
        }
    }

    /// How many of this sign stand right before an operand behind it, where no other sign does.
    pub(crate) fn signs_before(&self, op: UnaryOp, span: Span) -> Result<u8, ParseFailure>
        ensures counts { IfOk result (λ n. n < 4 → StandsOn (Some (waiting self.now)) (sign op n)) }
        ensures refused { IfErr result (IsAbout span) }
        ensures complete { MatchResult result
            (λ n. 4 ≤ n → TakesNoSign op (Some (waiting self.now)))
            (λ _. TakesNoSign op (Some (waiting self.now))) }
    {
        match self {
            Operation::Prefix(other, _, before) if *other == op => Ok(before.saturating_add(1)),
            Operation::Prefix(_, _, _) => {
                Err(ParseFailure::Syntax(span, "a sign behind another sign needs brackets"))
            }
            Operation::Infix(_, _) => Ok(0),
            Operation::IsIn(_, _) => Ok(0),
            Operation::Else(_, _, _) => Ok(0),
        }
    }

    /// Whether a conditional may be its last operand.
    pub(crate) fn takes_conditional(&self) -> bool
        ensures fits { IsTrue result → least_operand (Some (waiting self.now)) ≤ 0 }
        ensures complete { least_operand (Some (waiting self.now)) ≤ 0 → IsTrue result }
    {
        match self {
            Operation::Prefix(_, _, _) => false,
            Operation::Infix(_, _) => false,
            Operation::IsIn(_, _) => false,
            Operation::Else(_, _, _) => true,
        }
    }

    /// Where it stands, if it is a minus.
    pub(crate) fn minus(&self) -> Option<usize>
        ensures exact { MatchOption result
            (IsNoMinus (Some (waiting self.now)))
            (λ _. IsMinus (waiting self.now)) }
        ensures start { IfSome result (λ start. start ≡ start_of self.now) }
    {
        match self {
            Operation::Prefix(UnaryOp::Neg, start, _) => Some(*start),
            Operation::Prefix(UnaryOp::Not, _, _) => None,
            Operation::Prefix(UnaryOp::IsEmpty, _, _) => None,
            Operation::Infix(_, _) => None,
            Operation::IsIn(_, _) => None,
            Operation::Else(_, _, _) => None,
        }
    }
}
