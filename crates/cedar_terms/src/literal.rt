//! Literals (Cedar's file `literal.rs`).
ghost use Rattle.std.specs.Prelude.{◌≡◌, IfOk, None, Some, false, refl};
ghost use Rattle.std.specs.Cmp.{partial_equiv_from_equiv, on_equiv, on_po, on_total};
ghost use Rattle.std.specs.Ordering.{as_partial_cmp, on};
ghost use Rattle.std.specs.Rc.{rc_str_bytes};
ghost use Rattle.std.specs.String.{string_bytes};
ghost use Rattle.cedar_names.specs.PlainNames.{name_place};
ghost use Rattle.cedar_terms.specs.Entities.{bare_entity_uid, entity_type_name, entity_type_of};
ghost use Rattle.cedar_terms.specs.Literals.{
  BoolLit,
  LongLit,
  StringLit,
  EntityLit,
  bare_literal,
  is_entity_literal,
  literal_place,
  literal_text,
};
ghost use Rattle.cedar_terms.specs.LiteralOrder.{
  literal_eq,
  literal_eq_equiv,
  literal_cmp,
  literal_cmp_total,
  literal_ties,
  literal_po,
  literal_fed,
  literal_fed-alike,
  literal_number,
};

use crate::entity::EntityUID;
use crate::escape::Escaped;
use crate::integer::Integer;
use std::alloc::{AllocError, Global};
use std::cmp::Ordering;
use std::fmt;
use std::hash::{Hash, Hasher};
use std::rc::{Rc, RcStr};

/// A first-class value that may stand as a literal. Literals of different kinds are not equal, and
/// order as the kinds stand here.
#[derive(Debug, Drop)]
pub enum Literal {
    /// A Boolean.
    Bool(bool),
    /// An integer.
    Long(Integer),
    /// A text.
    String(RcStr),
    /// An entity.
    EntityUID(Rc<EntityUID>),
}

impl Clone for Literal {
    ghost is_clone = { λ x copy.
        (bare_literal copy ≡ bare_literal x) × (literal_place copy ≡ literal_place x) };

    fn clone(&self) -> Result<Literal, AllocError> {
        match self {
            Literal::Bool(b) => Ok(Literal::Bool(*b)),
            Literal::Long(n) => Ok(Literal::Long(*n)),
            Literal::String(s) => Ok(Literal::String(s.clone()?)),
            Literal::EntityUID(uid) => Ok(Literal::EntityUID(uid.clone()?)),
        }
    }
}

impl PartialEq for Literal {
    ghost eq = { on bare_literal literal_eq };

    ghost laws = { partial_equiv_from_equiv (on_equiv bare_literal literal_eq_equiv) };

    fn eq(&self, other: &Literal) -> bool {
        match (self, other) {
            (Literal::Bool(b), Literal::Bool(c)) => b == c,
            (Literal::Long(m), Literal::Long(n)) => m == n,
            (Literal::String(s), Literal::String(t)) => s == t,
            (Literal::EntityUID(u), Literal::EntityUID(v)) => u == v,
            _ => false,
        }
    }
}

impl Eq for Literal {
    ghost laws = { on_equiv bare_literal literal_eq_equiv };
}

impl PartialOrd for Literal {
    ghost partial_cmp = { as_partial_cmp (on bare_literal literal_cmp) };

    ghost laws = { on_po bare_literal literal_po };

    fn partial_cmp(&self, other: &Literal) -> Option<Ordering> {
        Some(self.cmp(other))
    }
}

impl Ord for Literal {
    ghost cmp = { on bare_literal literal_cmp };

    ghost total = { on_total bare_literal literal_cmp_total };

    ghost matches_partial_cmp = { λ _ _. refl };

    ghost matches_eq = { λ x y. literal_ties (bare_literal x) (bare_literal y) };

    fn cmp(&self, other: &Literal) -> Ordering {
        match (self, other) {
            (Literal::Bool(b), Literal::Bool(c)) => b.cmp(c),
            (Literal::Long(m), Literal::Long(n)) => m.cmp(n),
            (Literal::String(s), Literal::String(t)) => s.cmp(t),
            (Literal::EntityUID(u), Literal::EntityUID(v)) => u.cmp(v),
            _ => self.number().cmp(&other.number()),
        }
    }
}

impl Hash for Literal {
    ghost hash_input = { λ x. literal_fed (bare_literal x) };

    ghost respects_eq = { λ x y h. literal_fed-alike (bare_literal x) (bare_literal y) h };

    fn hash<H: Hasher>(&self, state: &mut H) {
        self.number().hash(state);
        match self {
            Literal::Bool(b) => b.hash(state),
            Literal::Long(n) => n.hash(state),
            Literal::String(s) => s.hash(state),
            Literal::EntityUID(uid) => uid.hash(state),
        }
    }
}

impl fmt::Display for Literal {
    ghost output = { λ x. Some (literal_text (bare_literal x)) };

    fn fmt<W: fmt::Write>(&self, f: &mut fmt::Formatter<W>) -> fmt::Result {
        match self {
            Literal::Bool(b) => write!(f, "{b}"),
            Literal::Long(n) => write!(f, "{n}"),
            Literal::String(s) => write!(f, "\"{}\"", Escaped(s.as_str())),
            Literal::EntityUID(uid) => write!(f, "{uid}"),
        }
    }
}

impl Literal {
    /// The text as a literal.
    pub fn from_text(alloc: Global, text: &str) -> Result<Literal, AllocError>
        ensures bare { IfOk result (λ x. bare_literal x ≡ StringLit text.now) }
        ensures place { IfOk result (λ x. literal_place x ≡ None) }
    {
        let text = RcStr::from_str(alloc, text)?;
        Ok(Literal::String(text))
    }

    /// The text as a literal.
    pub fn from_string(alloc: Global, text: String) -> Result<Literal, AllocError>
        ensures bare { IfOk result (λ x. bare_literal x ≡ StringLit (string_bytes text)) }
        ensures place { IfOk result (λ x. literal_place x ≡ None) }
    {
        Literal::from_text(alloc, text.as_str())
    }

    /// The entity as a literal, with the place of its type.
    pub fn from_uid(alloc: Global, uid: EntityUID) -> Result<Literal, AllocError>
        ensures bare { IfOk result (λ x. bare_literal x ≡ EntityLit (bare_entity_uid uid)) }
        ensures place { IfOk result (λ x.
            literal_place x ≡ name_place (entity_type_name (entity_type_of uid))) }
    {
        let uid = Rc::new(alloc, uid)?;
        Ok(Literal::EntityUID(uid))
    }

    /// Whether it is an entity.
    pub fn is_ref(&self) -> bool
        ensures { result ≡ is_entity_literal (bare_literal self.now) }
    {
        matches!(self, Literal::EntityUID(_))
    }

    /// A copy, which shares a text or an entity with this one and takes no memory.
    pub fn clone(&self, _alloc: Global) -> Result<Literal, AllocError>
        ensures bare { IfOk result (λ x. bare_literal x ≡ bare_literal self.now) }
        ensures place { IfOk result (λ x. literal_place x ≡ literal_place self.now) }
    {
        Clone::clone(self)
    }

    // The number of its kind, in the order of kinds.
    fn number(&self) -> u8
        ensures { result ≡ literal_number (bare_literal self.now) }
    {
        match self {
            Literal::Bool(_) => 0,
            Literal::Long(_) => 1,
            Literal::String(_) => 2,
            Literal::EntityUID(_) => 3,
        }
    }
}

impl From<bool> for Literal {
    ghost from_gives = { λ b x. (bare_literal x ≡ BoolLit b) × (literal_place x ≡ None) };

    fn from(b: bool) -> Literal {
        Literal::Bool(b)
    }
}

impl From<Integer> for Literal {
    ghost from_gives = { λ n x. (bare_literal x ≡ LongLit n) × (literal_place x ≡ None) };

    fn from(n: Integer) -> Literal {
        Literal::Long(n)
    }
}

impl From<RcStr> for Literal {
    ghost from_gives = { λ text x.
        (bare_literal x ≡ StringLit (rc_str_bytes text)) × (literal_place x ≡ None) };

    fn from(text: RcStr) -> Literal {
        Literal::String(text)
    }
}

impl From<Rc<EntityUID>> for Literal {
    ghost from_gives = { λ uid x.
        (bare_literal x ≡ EntityLit (bare_entity_uid uid.value))
        × (literal_place x ≡ name_place (entity_type_name (entity_type_of uid.value))) };

    fn from(uid: Rc<EntityUID>) -> Literal {
        Literal::EntityUID(uid)
    }
}
