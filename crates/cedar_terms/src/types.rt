//! Types of values (Cedar's file `types.rs`).
ghost use Rattle.std.specs.Prelude.{◌≡◌, ◌≢◌, IfNone, IfOk, IfSome, IsTrue, None, Some, refl};
ghost use Rattle.std.specs.Cmp.{partial_equiv_from_equiv, on_equiv, on_po, on_total};
ghost use Rattle.std.specs.Ordering.{as_partial_cmp, on};
ghost use Rattle.cedar_names.specs.PlainNames.{bare_name, name_place};
ghost use Rattle.cedar_terms.specs.Entities.{bare_entity_uid};
ghost use Rattle.cedar_terms.specs.Literals.{bare_literal};
ghost use Rattle.cedar_terms.specs.Types.{
  BareType,
  EntityOfType,
  bare_type,
  entity_uid_type,
  is_plain_type,
  literal_type,
  type_place,
  type_text,
};
ghost use Rattle.cedar_terms.specs.TypeOrder.{
  type_number,
  type_eq,
  type_eq_equiv,
  type_cmp,
  type_cmp_total,
  type_ties,
  type_po,
  type_fed,
  type_fed-alike,
};

use crate::entity::{EntityType, EntityUID};
use crate::literal::Literal;
use cedar_names::Name;
use std::alloc::{AllocError, Global};
use std::cmp::Ordering;
use std::fmt;
use std::hash::{Hash, Hasher};

/// The type of a value at run time. Two entity types are equal where their names are; an entity
/// type and an extension type never are. Types order as the kinds stand here, then by name.
///
/// Its text is as `long` or ``(entity of type `User`)``, or the name of the extension type.
#[derive(Debug, Drop)]
pub enum Type {
    /// A Boolean.
    Bool,
    /// An integer.
    Long,
    /// A text.
    String,
    /// A set.
    Set,
    /// A record, as `{ street: "foo", town: "bar" }`.
    Record,
    /// An entity.
    Entity {
        /// The type of the entity.
        ty: EntityType,
    },
    /// An extension value, as an IP address.
    Extension {
        /// The name of the extension type.
        name: Name,
    },
}

impl Type {
    /// The type of the entities of the type with this name.
    pub fn entity_type(name: Name) -> Type
        ensures bare { bare_type result ≡ EntityOfType (bare_name name) }
        ensures place { type_place result ≡ name_place name }
    {
        let ty = EntityType::from(name);
        Type::Entity { ty }
    }

    /// The type that has this text, of those without a name of their own: `bool`, `long`, `string`,
    /// `set` or `record`.
    pub fn from_text(text: &str) -> Option<Type>
        ensures found { IfSome result (λ ty. text.now ≡ type_text (bare_type ty)) }
        ensures plain { IfSome result (λ ty. IsTrue (is_plain_type (bare_type ty))) }
        ensures every { IfNone result
            ((ty : BareType) → IsTrue (is_plain_type ty) → text.now ≢ type_text ty) }
    {
        match text {
            "bool" => Some(Type::Bool),
            "long" => Some(Type::Long),
            "string" => Some(Type::String),
            "set" => Some(Type::Set),
            "record" => Some(Type::Record),
            _ => None,
        }
    }

    /// A copy, with the place of its name.
    pub fn clone(&self, _alloc: Global) -> Result<Type, AllocError>
        ensures bare { IfOk result (λ ty. bare_type ty ≡ bare_type self.now) }
        ensures place { IfOk result (λ ty. type_place ty ≡ type_place self.now) }
    {
        Clone::clone(self)
    }

    // The number of its kind, in the order of kinds.
    fn number(&self) -> u8
        ensures { result ≡ type_number (bare_type self.now) }
    {
        match self {
            Type::Bool => 0,
            Type::Long => 1,
            Type::String => 2,
            Type::Set => 3,
            Type::Record => 4,
            Type::Entity { .. } => 5,
            Type::Extension { .. } => 6,
        }
    }
}

impl Clone for Type {
    ghost is_clone = { λ ty copy.
        (bare_type copy ≡ bare_type ty) × (type_place copy ≡ type_place ty) };

    fn clone(&self) -> Result<Type, AllocError> {
        match self {
            Type::Bool => Ok(Type::Bool),
            Type::Long => Ok(Type::Long),
            Type::String => Ok(Type::String),
            Type::Set => Ok(Type::Set),
            Type::Record => Ok(Type::Record),
            Type::Entity { ty } => Ok(Type::Entity {
                ty: Clone::clone(ty)?,
            }),
            Type::Extension { name } => Ok(Type::Extension {
                name: Clone::clone(name)?,
            }),
        }
    }
}

impl PartialEq for Type {
    ghost eq = { on bare_type type_eq };

    ghost laws = { partial_equiv_from_equiv (on_equiv bare_type type_eq_equiv) };

    fn eq(&self, other: &Type) -> bool {
        match (self, other) {
            (Type::Entity { ty: s }, Type::Entity { ty: t }) => s == t,
            (Type::Extension { name: m }, Type::Extension { name: n }) => m == n,
            _ => self.number() == other.number(),
        }
    }
}

impl Eq for Type {
    ghost laws = { on_equiv bare_type type_eq_equiv };
}

impl PartialOrd for Type {
    ghost partial_cmp = { as_partial_cmp (on bare_type type_cmp) };

    ghost laws = { on_po bare_type type_po };

    fn partial_cmp(&self, other: &Type) -> Option<Ordering> {
        Some(self.cmp(other))
    }
}

impl Ord for Type {
    ghost cmp = { on bare_type type_cmp };

    ghost total = { on_total bare_type type_cmp_total };

    ghost matches_partial_cmp = { λ _ _. refl };

    ghost matches_eq = { λ s t. type_ties (bare_type s) (bare_type t) };

    fn cmp(&self, other: &Type) -> Ordering {
        match (self, other) {
            (Type::Entity { ty: s }, Type::Entity { ty: t }) => s.cmp(t),
            (Type::Extension { name: m }, Type::Extension { name: n }) => m.cmp(n),
            _ => self.number().cmp(&other.number()),
        }
    }
}

impl Hash for Type {
    ghost hash_input = { λ ty. type_fed (bare_type ty) };

    ghost respects_eq = { λ s t h. type_fed-alike (bare_type s) (bare_type t) h };

    fn hash<H: Hasher>(&self, state: &mut H) {
        self.number().hash(state);
        match self {
            Type::Entity { ty } => ty.hash(state),
            Type::Extension { name } => name.hash(state),
            _ => {}
        }
    }
}

impl fmt::Display for Type {
    ghost output = { λ ty. Some (type_text (bare_type ty)) };

    fn fmt<W: fmt::Write>(&self, f: &mut fmt::Formatter<W>) -> fmt::Result {
        match self {
            Type::Bool => write!(f, "bool"),
            Type::Long => write!(f, "long"),
            Type::String => write!(f, "string"),
            Type::Set => write!(f, "set"),
            Type::Record => write!(f, "record"),
            Type::Entity { ty } => write!(f, "(entity of type `{ty}`)"),
            Type::Extension { name } => write!(f, "{name}"),
        }
    }
}

/// What has a type that is known without evaluation.
pub trait StaticallyTyped {
    /// The type without places.
    ghost bare_type_of: { Self → BareType };

    /// The type.
    fn type_of(&self, alloc: Global) -> Result<Type, AllocError>
        ensures { IfOk result (λ ty. bare_type ty ≡ bare_type_of self.now) };
}

impl StaticallyTyped for EntityUID {
    ghost bare_type_of = { λ uid. entity_uid_type (bare_entity_uid uid) };

    fn type_of(&self, alloc: Global) -> Result<Type, AllocError> {
        let ty = self.entity_type().clone(alloc)?;
        Ok(Type::Entity { ty })
    }
}

impl StaticallyTyped for Literal {
    ghost bare_type_of = { λ x. literal_type (bare_literal x) };

    fn type_of(&self, alloc: Global) -> Result<Type, AllocError> {
        match self {
            Literal::Bool(_) => Ok(Type::Bool),
            Literal::Long(_) => Ok(Type::Long),
            Literal::String(_) => Ok(Type::String),
            Literal::EntityUID(uid) => uid.type_of(alloc),
        }
    }
}
