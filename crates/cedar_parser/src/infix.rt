//! Operators between two operands.
ghost use Rattle.std.specs.Prelude.{◌≡◌};
ghost use Rattle.std.specs.Option.{option_map};
ghost use Rattle.cedar_parser.specs.Meant.{operator};
ghost use Rattle.cedar_parser.specs.Waiting.{operator_precedences, operator_of};

use cedar_lexer::TokenKind;
use cedar_terms::{BinaryOp, Precedence};

/// An operator between two operands.
#[derive(Clone, Copy)]
pub(crate) enum Infix {
    Or,
    And,
    /// An operator of expressions.
    Plain(BinaryOp),
    /// `a != b`, which is `!(a == b)`, and likewise `a > b` and `a >= b` of `<=` and `<`.
    Negated(BinaryOp),
}

impl Infix {
    /// The operator that a token is.
    pub(crate) fn of(kind: TokenKind) -> Option<Infix>
        ensures { option_map operator result ≡ operator_of kind }
    {
        match kind {
            TokenKind::OrSign => Some(Infix::Or),
            TokenKind::AndSign => Some(Infix::And),
            TokenKind::Equal => Some(Infix::Plain(BinaryOp::Eq)),
            TokenKind::NotEqual => Some(Infix::Negated(BinaryOp::Eq)),
            TokenKind::Less => Some(Infix::Plain(BinaryOp::Less)),
            TokenKind::LessEqual => Some(Infix::Plain(BinaryOp::LessEq)),
            TokenKind::Greater => Some(Infix::Negated(BinaryOp::LessEq)),
            TokenKind::GreaterEqual => Some(Infix::Negated(BinaryOp::Less)),
            TokenKind::In => Some(Infix::Plain(BinaryOp::In)),
            TokenKind::Plus => Some(Infix::Plain(BinaryOp::Add)),
            TokenKind::Minus => Some(Infix::Plain(BinaryOp::Sub)),
            TokenKind::Times => Some(Infix::Plain(BinaryOp::Mul)),
            _ => None,
        }
    }

    /// Its own precedence, and the least of its left operand.
    pub(crate) fn precedences(self) -> (Precedence, Precedence)
        ensures own { result.0 ≡ (operator_precedences (operator self)).0 }
        ensures left { result.1 ≡ (operator_precedences (operator self)).1 }
    {
        match self {
            Infix::Or => (Precedence::Or, Precedence::Or),
            Infix::And => (Precedence::And, Precedence::And),
            Infix::Plain(op) | Infix::Negated(op) => match Precedence::of_infix(op) {
                Some((own, left, _)) => (own, left),
                None => (Precedence::Relation, Precedence::Sum),
            },
        }
    }
}
