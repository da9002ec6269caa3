//! How tightly the texts of expressions bind.
ghost use Rattle.std.specs.Prelude.{◌≡◌};
ghost use Rattle.cedar_terms.specs.Literals.{bare_literal};
ghost use Rattle.cedar_terms.specs.Precedences.{
  infix_precedences,
  literal_precedence,
  precedence_number,
};

use crate::literal::Literal;
use crate::ops::BinaryOp;

/// How tightly a text binds, from the loosest on.
#[derive(Clone, Copy, Debug)]
pub enum Precedence {
    /// `if a then b else c`
    Conditional,
    /// `a || b`
    Or,
    /// `a && b`
    And,
    /// `a == b`, `a < b`, `a <= b`, `a in b`, `a has b`, `a like b`, `a is b`
    Relation,
    /// `a + b`, `a - b`
    Sum,
    /// `a * b`
    Product,
    /// `!a`, `-a`, and numbers, since `-1` is a number and `-(1)` is not
    Unary,
    /// Everything else, as `a.b`, `a.contains(b)` or `[1, 2]`.
    Member,
}

impl Precedence {
    /// Its place among the precedences, from 0 on.
    pub fn number(self) -> u8
        ensures { result ≡ precedence_number self }
    {
        match self {
            Precedence::Conditional => 0,
            Precedence::Or => 1,
            Precedence::And => 2,
            Precedence::Relation => 3,
            Precedence::Sum => 4,
            Precedence::Product => 5,
            Precedence::Unary => 6,
            Precedence::Member => 7,
        }
    }

    /// That of a literal: `Unary` of a number, else `Member`.
    pub fn of_literal(literal: &Literal) -> Precedence
        ensures { result ≡ literal_precedence (bare_literal literal.now) }
    {
        match literal {
            Literal::Long(_) => Precedence::Unary,
            _ => Precedence::Member,
        }
    }

    /// Those of an operator that stands between its operands: its own, and the least ones of the
    /// left and of the right operand. None of an operator that is written as a method.
    pub fn of_infix(op: BinaryOp) -> Option<(Precedence, Precedence, Precedence)>
        ensures { result ≡ infix_precedences op }
    {
        match op {
            BinaryOp::Eq | BinaryOp::Less | BinaryOp::LessEq | BinaryOp::In => {
                Some((Precedence::Relation, Precedence::Sum, Precedence::Sum))
            }
            BinaryOp::Add | BinaryOp::Sub => Some((
                Precedence::Sum,
                Precedence::Sum,
                Precedence::Product,
            )),
            BinaryOp::Mul => Some((Precedence::Product, Precedence::Product, Precedence::Unary)),
            _ => None,
        }
    }
}
