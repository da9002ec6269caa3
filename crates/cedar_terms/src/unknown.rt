//! Unknowns of partial evaluation (Cedar's file `expr.rs`).
ghost use Rattle.std.specs.Prelude.{◌≡◌, IfOk, None, Some};
ghost use Rattle.std.specs.Cmp.{partial_equiv_from_equiv, on_equiv};
ghost use Rattle.std.specs.Ordering.{on};
ghost use Rattle.std.specs.Rc.{rc_str_bytes};
ghost use Rattle.cedar_terms.specs.Types.{bare_type, type_place};
ghost use Rattle.cedar_terms.specs.Unknowns.{
  annotation_place,
  bare_annotation,
  bare_unknown,
  unknown_place,
  unknown_eq,
  unknown_eq_equiv,
  unknown_fed,
  unknown_fed-alike,
};

use crate::types::Type;
use std::alloc::{AllocError, Global};
use std::hash::{Hash, Hasher};
use std::rc::RcStr;

/// A value that is not known yet. Unknowns are equal where both their names and their annotations
/// are.
#[derive(Debug, Drop)]
pub struct Unknown {
    /// The name.
    pub name: RcStr,
    /// The type that typed substitution asks of the value that takes its place; none where any may.
    pub type_annotation: Option<Type>,
}

impl Unknown {
    /// The unknown of this name, which any value may replace.
    pub fn new_untyped(name: RcStr) -> Unknown
        ensures { bare_unknown result ≡ record { name = rc_str_bytes name; annotation = None } }
    {
        Unknown {
            name,
            type_annotation: None,
        }
    }

    /// The unknown of this name, annotated with a type. Typed substitution refuses a value of
    /// another type; substitution and evaluation look at no type.
    pub fn new_with_type(name: RcStr, ty: Type) -> Unknown
        ensures bare { bare_unknown result ≡
            record { name = rc_str_bytes name; annotation = Some (bare_type ty) } }
        ensures place { unknown_place result ≡ type_place ty }
    {
        Unknown {
            name,
            type_annotation: Some(ty),
        }
    }

    /// A copy, with the place of the annotation.
    pub fn clone(&self, _alloc: Global) -> Result<Unknown, AllocError>
        ensures bare { IfOk result (λ u. bare_unknown u ≡ bare_unknown self.now) }
        ensures place { IfOk result (λ u. unknown_place u ≡ unknown_place self.now) }
    {
        Clone::clone(self)
    }
}

impl Clone for Unknown {
    ghost is_clone = { λ u copy.
        (bare_unknown copy ≡ bare_unknown u) × (unknown_place copy ≡ unknown_place u) };

    fn clone(&self) -> Result<Unknown, AllocError> {
        let name = self.name.clone()?;
        let type_annotation = clone_annotation(&self.type_annotation)?;
        Ok(Unknown {
            name,
            type_annotation,
        })
    }
}

// A copy of the annotation, if there is one.
fn clone_annotation(annotation: &Option<Type>) -> Result<Option<Type>, AllocError>
    ensures bare { IfOk result (λ a. bare_annotation a ≡ bare_annotation annotation.now) }
    ensures place { IfOk result (λ a. annotation_place a ≡ annotation_place annotation.now) }
{
    match annotation {
        None => Ok(None),
        Some(ty) => Ok(Some(Clone::clone(ty)?)),
    }
}

impl PartialEq for Unknown {
    ghost eq = { on bare_unknown unknown_eq };

    ghost laws = { partial_equiv_from_equiv (on_equiv bare_unknown unknown_eq_equiv) };

    fn eq(&self, other: &Unknown) -> bool {
        self.name == other.name && self.type_annotation == other.type_annotation
    }
}

impl Eq for Unknown {
    ghost laws = { on_equiv bare_unknown unknown_eq_equiv };
}

impl Hash for Unknown {
    ghost hash_input = { λ u. unknown_fed (bare_unknown u) };

    ghost respects_eq = { λ u v h. unknown_fed-alike (bare_unknown u) (bare_unknown v) h };

    fn hash<H: Hasher>(&self, state: &mut H) {
        self.name.hash(state);
        self.type_annotation.hash(state);
    }
}
