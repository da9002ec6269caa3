//! Built-in operators (Cedar's file `ops.rs`).
ghost use Rattle.std.specs.Prelude.{◌≡◌, ◌≢◌, IfNone, IfSome, Some};
ghost use Rattle.cedar_terms.specs.Ops.{unary_op_text, binary_op_text};
ghost use Rattle.cedar_terms.specs.declared.ops.BinaryOp.{BinaryOp};
ghost use Rattle.cedar_terms.specs.declared.ops.UnaryOp.{UnaryOp};

use std::fmt;

/// Built-in operators with exactly one argument. They order as they stand here.
#[derive(Clone, Copy, Debug, PartialEq, Eq, PartialOrd, Ord, Hash)]
pub enum UnaryOp {
    /// Logical negation `!`, of a Bool.
    Not,
    /// Integer negation `-`, of a Long.
    Neg,
    /// Whether a set is empty, `isEmpty`.
    IsEmpty,
}

impl UnaryOp {
    /// The operator that has this text, which is the one that it is shown by.
    pub fn from_text(text: &str) -> Option<UnaryOp>
        ensures found { IfSome result (λ op. text.now ≡ unary_op_text op) }
        ensures every { IfNone result ((op : UnaryOp) → text.now ≢ unary_op_text op) }
    {
        match text {
            "!" => Some(UnaryOp::Not),
            "-" => Some(UnaryOp::Neg),
            "isEmpty" => Some(UnaryOp::IsEmpty),
            _ => None,
        }
    }
}

impl fmt::Display for UnaryOp {
    ghost output = { λ op. Some (unary_op_text op) };

    fn fmt<W: fmt::Write>(&self, f: &mut fmt::Formatter<W>) -> fmt::Result {
        match self {
            UnaryOp::Not => write!(f, "!"),
            UnaryOp::Neg => write!(f, "-"),
            UnaryOp::IsEmpty => write!(f, "isEmpty"),
        }
    }
}

/// Built-in operators with exactly two arguments. They order as they stand here.
#[derive(Clone, Copy, Debug, PartialEq, Eq, PartialOrd, Ord, Hash)]
pub enum BinaryOp {
    /// Equality `==`, of any two values; values of different types are not equal.
    Eq,
    /// `<` of two Longs.
    Less,
    /// `<=` of two Longs.
    LessEq,
    /// `+` of two Longs.
    Add,
    /// `-` of two Longs.
    Sub,
    /// `*` of two Longs.
    Mul,
    /// Membership `in` the hierarchy: of an entity in an entity, or in some entity of a set.
    In,
    /// Whether a set `contains` a value.
    Contains,
    /// Whether the first set contains all of the second, `containsAll`.
    ContainsAll,
    /// Whether the first set contains some of the second, `containsAny`.
    ContainsAny,
    /// The tag of an entity, `getTag`.
    GetTag,
    /// Whether an entity has a tag, `hasTag`.
    HasTag,
}

impl BinaryOp {
    /// The operator that has this text, which is the one that it is shown by.
    pub fn from_text(text: &str) -> Option<BinaryOp>
        ensures found { IfSome result (λ op. text.now ≡ binary_op_text op) }
        ensures every { IfNone result ((op : BinaryOp) → text.now ≢ binary_op_text op) }
    {
        match text {
            "==" => Some(BinaryOp::Eq),
            "<" => Some(BinaryOp::Less),
            "<=" => Some(BinaryOp::LessEq),
            "+" => Some(BinaryOp::Add),
            "-" => Some(BinaryOp::Sub),
            "*" => Some(BinaryOp::Mul),
            "in" => Some(BinaryOp::In),
            "contains" => Some(BinaryOp::Contains),
            "containsAll" => Some(BinaryOp::ContainsAll),
            "containsAny" => Some(BinaryOp::ContainsAny),
            "getTag" => Some(BinaryOp::GetTag),
            "hasTag" => Some(BinaryOp::HasTag),
            _ => None,
        }
    }
}

impl fmt::Display for BinaryOp {
    ghost output = { λ op. Some (binary_op_text op) };

    fn fmt<W: fmt::Write>(&self, f: &mut fmt::Formatter<W>) -> fmt::Result {
        match self {
            BinaryOp::Eq => write!(f, "=="),
            BinaryOp::Less => write!(f, "<"),
            BinaryOp::LessEq => write!(f, "<="),
            BinaryOp::Add => write!(f, "+"),
            BinaryOp::Sub => write!(f, "-"),
            BinaryOp::Mul => write!(f, "*"),
            BinaryOp::In => write!(f, "in"),
            BinaryOp::Contains => write!(f, "contains"),
            BinaryOp::ContainsAll => write!(f, "containsAll"),
            BinaryOp::ContainsAny => write!(f, "containsAny"),
            BinaryOp::GetTag => write!(f, "getTag"),
            BinaryOp::HasTag => write!(f, "hasTag"),
        }
    }
}
