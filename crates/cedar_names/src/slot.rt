//! Slots of templates.
ghost use Rattle.std.specs.Prelude.{◌≡◌, ◌↔◌, IsTrue, IfOk, Some};
ghost use Rattle.cedar_names.specs.Slots.{slot_of, slot_text};

use crate::loc::Loc;
use std::alloc::{AllocError, Global};
use std::fmt;

/// The principal or the resource, which are what a slot may stand for (Cedar's file `policy.rs`).
#[derive(Clone, Copy, Debug, PartialEq, Eq, Hash)]
pub enum PrincipalOrResource {
    Principal,
    Resource,
}

/// The name of a slot, in this order (Cedar's file `name.rs`).
#[derive(Clone, Copy, PartialEq, Eq, PartialOrd, Ord, Hash)]
pub enum SlotId {
    /// `?principal`
    Principal,
    /// `?resource`
    Resource,
}

impl SlotId {
    /// The slot `?principal`.
    pub fn principal() -> SlotId
        ensures { result ≡ SlotId.Principal }
    {
        Self::Principal
    }

    /// The slot `?resource`.
    pub fn resource() -> SlotId
        ensures { result ≡ SlotId.Resource }
    {
        Self::Resource
    }

    /// Whether it is `?principal`.
    pub fn is_principal(&self) -> bool
        ensures { IsTrue result ↔ (self.now ≡ SlotId.Principal) }
    {
        matches!(self, SlotId::Principal)
    }

    /// Whether it is `?resource`.
    pub fn is_resource(&self) -> bool
        ensures { IsTrue result ↔ (self.now ≡ SlotId.Resource) }
    {
        matches!(self, SlotId::Resource)
    }
}

impl From<PrincipalOrResource> for SlotId {
    ghost from_gives = { λ v slot. slot ≡ slot_of v };

    fn from(v: PrincipalOrResource) -> SlotId {
        match v {
            PrincipalOrResource::Principal => SlotId::Principal,
            PrincipalOrResource::Resource => SlotId::Resource,
        }
    }
}

impl fmt::Debug for SlotId {
    fn fmt<W: fmt::Write>(&self, f: &mut fmt::Formatter<W>) -> fmt::Result {
        let stands_for = match self {
            SlotId::Principal => PrincipalOrResource::Principal,
            SlotId::Resource => PrincipalOrResource::Resource,
        };
        f.debug_tuple("SlotId").field(&stands_for).finish()
    }
}

impl fmt::Display for SlotId {
    ghost output = { λ slot. Some (slot_text slot) };

    fn fmt<W: fmt::Write>(&self, f: &mut fmt::Formatter<W>) -> fmt::Result {
        match self {
            SlotId::Principal => write!(f, "?principal"),
            SlotId::Resource => write!(f, "?resource"),
        }
    }
}

/// A slot and its place, which is not compared (Cedar's file `name.rs`).
#[derive(Debug, Drop)]
#[derive_where(PartialEq, Eq, Hash)]
pub struct Slot {
    pub id: SlotId,
    #[derive_where(skip(EqHashOrd))]
    pub loc: Option<Loc>,
}

impl Slot {
    /// A copy, which takes no memory.
    pub fn clone(&self, _alloc: Global) -> Result<Slot, AllocError>
        ensures { IfOk result (λ slot. slot ≡ self.now) }
    {
        Clone::clone(self)
    }
}

impl Clone for Slot {
    ghost is_clone = { λ slot copy. copy ≡ slot };

    fn clone(&self) -> Result<Slot, AllocError> {
        let loc = self.loc.clone()?;
        Ok(Slot { id: self.id, loc })
    }
}
