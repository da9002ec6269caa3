//! Entity types and entities by their identifiers (Cedar's file `entity.rs`).
ghost use Rattle.std.specs.Prelude.{◌≡◌, IfOk, None, Some, codes, refl};
ghost use Rattle.std.specs.Cmp.{partial_equiv_from_equiv, on_equiv, on_po, on_total};
ghost use Rattle.std.specs.Ordering.{as_partial_cmp, on};
ghost use Rattle.std.specs.Rc.{rc_str_bytes};
ghost use Rattle.cedar_names.specs.Names.{name_text, unqualified};
ghost use Rattle.cedar_names.specs.NameOrder.{name_eq, name_eq_equiv, name_fed, name_fed-alike};
ghost use Rattle.cedar_names.specs.NameOrder.{name_cmp, name_cmp_total, name_ties, name_po};
ghost use Rattle.cedar_names.specs.PlainNames.{name_place};
ghost use Rattle.cedar_terms.specs.Entities.{entity_type_name, bare_entity_type};
ghost use Rattle.cedar_terms.specs.Entities.{bare_entity_uid, entity_type_of, entity_uid_text};
ghost use Rattle.cedar_terms.specs.EntityOrder.{entity_uid_eq, entity_uid_eq_equiv};
ghost use Rattle.cedar_terms.specs.EntityOrder.{entity_uid_cmp, entity_uid_cmp_total};
ghost use Rattle.cedar_terms.specs.EntityOrder.{entity_uid_ties, entity_uid_po};
ghost use Rattle.cedar_terms.specs.EntityOrder.{entity_uid_fed, entity_uid_fed-alike};

use crate::escape::Escaped;
use crate::known::known_unreserved_id;
use cedar_names::Name;
use std::alloc::{AllocError, Global};
use std::cmp::Ordering;
use std::fmt;
use std::hash::{Hash, Hasher};
use std::rc::RcStr;

/// The type of an entity, which is its name. Types compare as their names do, without places.
#[derive(Drop)]
pub struct EntityType {
    name: Name,
}

impl From<Name> for EntityType {
    ghost from_gives = { λ name ty. entity_type_name ty ≡ name };

    fn from(name: Name) -> EntityType {
        EntityType { name }
    }
}

impl EntityType {
    /// The name, with its place.
    pub fn name(&self) -> &Name
        ensures { result.now ≡ entity_type_name self.now }
    {
        &self.name
    }

    /// A copy, with the place of its name.
    pub fn clone(&self, _alloc: Global) -> Result<EntityType, AllocError>
        ensures bare { IfOk result (λ ty. bare_entity_type ty ≡ bare_entity_type self.now) }
        ensures place { IfOk result (λ ty.
            name_place (entity_type_name ty) ≡ name_place (entity_type_name self.now)) }
    {
        Clone::clone(self)
    }
}

impl Clone for EntityType {
    ghost is_clone = { λ ty copy.
        (bare_entity_type copy ≡ bare_entity_type ty)
        × (name_place (entity_type_name copy) ≡ name_place (entity_type_name ty)) };

    fn clone(&self) -> Result<EntityType, AllocError> {
        let name = Clone::clone(&self.name)?;
        Ok(EntityType { name })
    }
}

impl PartialEq for EntityType {
    ghost eq = { on bare_entity_type name_eq };

    ghost laws = { partial_equiv_from_equiv (on_equiv bare_entity_type name_eq_equiv) };

    fn eq(&self, other: &EntityType) -> bool {
        self.name == other.name
    }
}

impl Eq for EntityType {
    ghost laws = { on_equiv bare_entity_type name_eq_equiv };
}

impl PartialOrd for EntityType {
    ghost partial_cmp = { as_partial_cmp (on bare_entity_type name_cmp) };

    ghost laws = { on_po bare_entity_type name_po };

    fn partial_cmp(&self, other: &EntityType) -> Option<Ordering> {
        Some(self.cmp(other))
    }
}

impl Ord for EntityType {
    ghost cmp = { on bare_entity_type name_cmp };

    ghost total = { on_total bare_entity_type name_cmp_total };

    ghost matches_partial_cmp = { λ _ _. refl };

    ghost matches_eq = { λ s t. name_ties (bare_entity_type s) (bare_entity_type t) };

    fn cmp(&self, other: &EntityType) -> Ordering {
        self.name.cmp(&other.name)
    }
}

impl Hash for EntityType {
    ghost hash_input = { λ ty. name_fed (bare_entity_type ty) };

    ghost respects_eq = { λ s t h. name_fed-alike (bare_entity_type s) (bare_entity_type t) h };

    fn hash<H: Hasher>(&self, state: &mut H) {
        self.name.hash(state);
    }
}

impl fmt::Debug for EntityType {
    fn fmt<W: fmt::Write>(&self, f: &mut fmt::Formatter<W>) -> fmt::Result {
        f.debug_tuple("EntityType").field(&self.name).finish()
    }
}

impl fmt::Display for EntityType {
    ghost output = { λ ty. Some (name_text (bare_entity_type ty)) };

    fn fmt<W: fmt::Write>(&self, f: &mut fmt::Formatter<W>) -> fmt::Result {
        write!(f, "{}", self.name)
    }
}

/// An entity, by its type and its identifier, which compare in this order. Its text is as
/// `User::"alice"`, with escapes in the identifier.
#[derive(Drop)]
pub struct EntityUID {
    ty: EntityType,
    eid: RcStr,
}

impl EntityUID {
    /// The entity of this type and identifier.
    pub fn new(ty: EntityType, eid: RcStr) -> EntityUID
        ensures ty { entity_type_of result ≡ ty }
        ensures eid { (bare_entity_uid result).eid ≡ rc_str_bytes eid }
    {
        EntityUID { ty, eid }
    }

    /// The entity of this identifier and the type `test_entity_type`, which has no place.
    pub fn with_eid(alloc: Global, eid: &str) -> Result<EntityUID, AllocError>
        ensures bare { IfOk result (λ uid.
            bare_entity_uid uid ≡
            record { entity_type = unqualified (codes "test_entity_type"); eid = eid.now }) }
        ensures place { IfOk result (λ uid.
            name_place (entity_type_name (entity_type_of uid)) ≡ None) }
    {
        let basename = known_unreserved_id(alloc, "test_entity_type")?;
        let ty = EntityType::from(Name::unqualified_name(basename));
        let eid = RcStr::from_str(alloc, eid)?;
        Ok(EntityUID::new(ty, eid))
    }

    /// The type, with its place.
    pub fn entity_type(&self) -> &EntityType
        ensures { result.now ≡ entity_type_of self.now }
    {
        &self.ty
    }

    /// The identifier.
    pub fn eid(&self) -> &str
        ensures { result.now ≡ (bare_entity_uid self.now).eid }
    {
        self.eid.as_str()
    }

    /// A copy, with the place of its type.
    pub fn clone(&self, _alloc: Global) -> Result<EntityUID, AllocError>
        ensures bare { IfOk result (λ uid. bare_entity_uid uid ≡ bare_entity_uid self.now) }
        ensures place { IfOk result (λ uid.
            name_place (entity_type_name (entity_type_of uid)) ≡
            name_place (entity_type_name (entity_type_of self.now))) }
    {
        Clone::clone(self)
    }
}

impl Clone for EntityUID {
    ghost is_clone = { λ uid copy.
        (bare_entity_uid copy ≡ bare_entity_uid uid)
        × (name_place (entity_type_name (entity_type_of copy))
        ≡ name_place (entity_type_name (entity_type_of uid))) };

    fn clone(&self) -> Result<EntityUID, AllocError> {
        let ty = Clone::clone(&self.ty)?;
        let eid = self.eid.clone()?;
        Ok(EntityUID { ty, eid })
    }
}

impl PartialEq for EntityUID {
    ghost eq = { on bare_entity_uid entity_uid_eq };

    ghost laws = { partial_equiv_from_equiv (on_equiv bare_entity_uid entity_uid_eq_equiv) };

    fn eq(&self, other: &EntityUID) -> bool {
        self.ty == other.ty && self.eid == other.eid
    }
}

impl Eq for EntityUID {
    ghost laws = { on_equiv bare_entity_uid entity_uid_eq_equiv };
}

impl PartialOrd for EntityUID {
    ghost partial_cmp = { as_partial_cmp (on bare_entity_uid entity_uid_cmp) };

    ghost laws = { on_po bare_entity_uid entity_uid_po };

    fn partial_cmp(&self, other: &EntityUID) -> Option<Ordering> {
        Some(self.cmp(other))
    }
}

impl Ord for EntityUID {
    ghost cmp = { on bare_entity_uid entity_uid_cmp };

    ghost total = { on_total bare_entity_uid entity_uid_cmp_total };

    ghost matches_partial_cmp = { λ _ _. refl };

    ghost matches_eq = { λ u v. entity_uid_ties (bare_entity_uid u) (bare_entity_uid v) };

    fn cmp(&self, other: &EntityUID) -> Ordering {
        self.ty
            .cmp(&other.ty)
            .then_with(|| self.eid.cmp(&other.eid))
    }
}

impl Hash for EntityUID {
    ghost hash_input = { λ uid. entity_uid_fed (bare_entity_uid uid) };

    ghost respects_eq = { λ u v h. entity_uid_fed-alike (bare_entity_uid u) (bare_entity_uid v) h };

    fn hash<H: Hasher>(&self, state: &mut H) {
        self.ty.hash(state);
        self.eid.hash(state);
    }
}

// An identifier, as `{:?}` shows it.
#[derive(Clone, Copy, Debug)]
struct Eid<'a>(&'a str);

impl fmt::Debug for EntityUID {
    fn fmt<W: fmt::Write>(&self, f: &mut fmt::Formatter<W>) -> fmt::Result {
        f.debug_struct("EntityUID")
            .field("ty", &self.ty)
            .field("eid", &Eid(self.eid.as_str()))
            .finish()
    }
}

impl fmt::Display for EntityUID {
    ghost output = { λ uid. Some (entity_uid_text (bare_entity_uid uid)) };

    fn fmt<W: fmt::Write>(&self, f: &mut fmt::Formatter<W>) -> fmt::Result {
        let eid = Escaped(self.eid.as_str());
        write!(f, "{}::\"{eid}\"", self.ty)
    }
}
