//! Names that are not yet qualified, and what they may stand for.
ghost use Rattle.std.specs.Prelude.{
  ◌≡◌,
  ◌↔◌,
  [],
  ◌∷◌,
  All,
  IsTrue,
  IfOk,
  IfErr,
  MatchResult,
  None,
  Some,
  codes,
  false,
  map,
  position,
};
ghost use Rattle.std.specs.Option.{option_copied, option_map};
ghost use Rattle.cedar_names.specs.Grammar.{is_id};
ghost use Rattle.cedar_names.specs.Names.{unqualified, qualified, name_text, IsNameOf, IsNameText};
ghost use Rattle.cedar_names.specs.InternalNames.{
  bare_internal_name,
  internal_name_place,
  IsWholeOf,
};
ghost use Rattle.cedar_names.specs.PlainNames.{bare_name};
ghost use Rattle.cedar_names.specs.Readers.{OnReadError, IsNeverReserved};
ghost use Rattle.cedar_names.specs.RawNames.{
  written,
  bare_raw_name,
  raw_name_place,
  possible_names,
  raw_of,
  possibilities_of,
  kind_of,
  IsCopyOfReference,
};
ghost use Rattle.cedar_names.specs.Resolution.{is_declared, resolved};

use crate::all_defs::AllDefs;
use crate::err::ParseErrors;
use crate::from_normalized_str::FromNormalizedStr;
use crate::id::{Id, UnreservedId};
use crate::internal_name::InternalName;
use crate::loc::Loc;
use crate::name::Name;
use std::alloc::{AllocError, Global};
use std::fmt;
use thiserror::Error;

/// A name as it is written in a schema, which may still get the namespace where it stands (Cedar's
/// file `raw_name.rs`).
///
/// It compares as an `InternalName` does.
#[derive(Debug, PartialEq, Eq, PartialOrd, Ord, Hash, Drop)]
pub struct RawName(InternalName);

impl RawName {
    /// The raw name of one identifier.
    pub fn new(id: Id, loc: Option<Loc>) -> RawName
        ensures name { bare_raw_name result ≡ unqualified id }
        ensures place { raw_name_place result ≡ loc }
    {
        RawName(InternalName::unqualified_name(id, loc))
    }

    /// The raw name of one identifier that is not reserved.
    pub fn new_from_unreserved(id: UnreservedId, loc: Option<Loc>) -> RawName
        ensures name { bare_raw_name result ≡ unqualified id }
        ensures place { raw_name_place result ≡ loc }
    {
        RawName::new(Id::from(id), loc)
    }

    /// The name, taken as it is written.
    pub fn from_name(name: InternalName) -> RawName
        ensures { written result ≡ name }
    {
        RawName(name)
    }

    /// The raw name of one identifier with this text, with no place.
    ///
    /// Any other text is refused as no `Id`.
    pub fn parse_unqualified_name(alloc: Global, s: &str) -> Result<RawName, ParseErrors>
        ensures name { IfOk result (λ r.
            (bare_raw_name r ≡ unqualified s.now) × IsTrue (is_id s.now)) }
        ensures place { IfOk result (λ r. raw_name_place r ≡ None) }
        ensures refused { IfErr result (λ e.
            OnReadError e (codes "Id") (is_id s.now ≡ false) (IsNeverReserved s.now)) }
    {
        let name = InternalName::parse_unqualified_name(alloc, s)?;
        Ok(RawName(name))
    }

    /// The raw name with this text. Any other text is refused as no internal name.
    pub fn from_normalized_str(alloc: Global, s: &str) -> Result<RawName, ParseErrors>
        ensures name { IfOk result (λ r. IsNameOf s.now (bare_raw_name r)) }
        ensures place { IfOk result (λ r. IsWholeOf s.now (raw_name_place r)) }
        ensures refused { IfErr result (λ e.
            OnReadError e (codes "internal name") (IsNameText s.now → ⊥)
            (IsNeverReserved s.now)) }
    {
        let name = InternalName::from_normalized_str(alloc, s)?;
        Ok(RawName(name))
    }

    /// Whether it is written without a namespace.
    pub fn is_unqualified(&self) -> bool
        ensures { IsTrue result ↔ ((bare_raw_name self.now).path ≡ []) }
    {
        self.0.is_unqualified()
    }

    /// Its place, if it has one.
    pub fn loc(&self) -> Option<&Loc>
        ensures { option_copied result ≡ raw_name_place self.now }
    {
        self.0.loc()
    }

    /// The name within the namespace, where it is written without one and one is given; else the
    /// name as it is written.
    pub fn qualify_with(
        &self,
        alloc: Global,
        ns: Option<&InternalName>,
    ) -> Result<InternalName, AllocError>
        ensures name { IfOk result (λ n.
            bare_internal_name n ≡
            qualified (bare_raw_name self.now)
            (option_map bare_internal_name (option_copied ns.entry))) }
        ensures place { IfOk result (λ n. internal_name_place n ≡ raw_name_place self.now) }
    {
        self.0.qualify_with(alloc, ns)
    }

    /// As `qualify_with`, with a namespace that is not reserved.
    pub fn qualify_with_name(
        &self,
        alloc: Global,
        ns: Option<&Name>,
    ) -> Result<InternalName, AllocError>
        ensures name { IfOk result (λ n.
            bare_internal_name n ≡
            qualified (bare_raw_name self.now)
            (option_map bare_name (option_copied ns.entry))) }
        ensures place { IfOk result (λ n. internal_name_place n ≡ raw_name_place self.now) }
    {
        self.0.qualify_with_name(alloc, ns)
    }

    /// The names that it may stand for where it is written in the namespace `ns`: first the name
    /// within `ns`, then the name as it is written, or this alone where it is written with a
    /// namespace or none is given.
    pub fn conditionally_qualify_with(
        self,
        alloc: Global,
        ns: Option<&InternalName>,
        reference_type: ReferenceType,
    ) -> Result<ConditionalName, AllocError>
        ensures possibilities { IfOk result (λ c.
            map bare_internal_name (possibilities_of c) ≡
            possible_names (bare_raw_name self)
            (option_map bare_internal_name (option_copied ns.entry))) }
        ensures places { IfOk result (λ c.
            All (λ n. internal_name_place n ≡ raw_name_place self) (possibilities_of c)) }
        ensures raw { IfOk result (λ c. raw_of c ≡ self) }
        ensures kind { IfOk result (λ c. kind_of c ≡ reference_type) }
    {
        let mut possibilities = Vec::new(alloc);
        if self.is_unqualified() && ns.is_some() {
            possibilities.push(self.qualify_with(alloc, ns)?)?;
        }
        possibilities.push(self.0.clone(alloc)?)?;
        Ok(ConditionalName {
            possibilities,
            reference_type,
            raw: self,
        })
    }

    /// A copy.
    pub fn clone(&self, _alloc: Global) -> Result<RawName, AllocError>
        ensures name { IfOk result (λ r. bare_raw_name r ≡ bare_raw_name self.now) }
        ensures place { IfOk result (λ r. raw_name_place r ≡ raw_name_place self.now) }
    {
        Clone::clone(self)
    }
}

impl Clone for RawName {
    ghost is_clone = { λ r copy.
        (bare_raw_name copy ≡ bare_raw_name r) × (raw_name_place copy ≡ raw_name_place r) };

    fn clone(&self) -> Result<RawName, AllocError> {
        let name = Clone::clone(&self.0)?;
        Ok(RawName(name))
    }
}

impl fmt::Display for RawName {
    ghost output = { λ r. Some (name_text (bare_raw_name r)) };

    fn fmt<W: fmt::Write>(&self, f: &mut fmt::Formatter<W>) -> fmt::Result {
        self.0.fmt(f)
    }
}

/// What a reference may be: a common type, an entity type, or either (Cedar's file `raw_name.rs`).
#[derive(Clone, Copy, Debug, PartialEq, Eq, Hash)]
pub enum ReferenceType {
    Common,
    Entity,
    CommonOrEntity,
}

/// A reference to a type that may stand for several names, the first that is declared (Cedar's
/// file `raw_name.rs`, after RFC 24).
///
/// Two are equal where their raw names, their possibilities in order and their kinds are.
#[derive(Debug, PartialEq, Eq, Hash, Drop)]
pub struct ConditionalName {
    // In falling priority, and never none.
    possibilities: Vec<InternalName>,
    reference_type: ReferenceType,
    raw: RawName,
}

impl ConditionalName {
    /// A reference that stands for this name alone.
    pub fn unconditional(
        alloc: Global,
        name: InternalName,
        reference_type: ReferenceType,
    ) -> Result<ConditionalName, AllocError>
        ensures possibilities { IfOk result (λ c.
            map bare_internal_name (possibilities_of c) ≡ bare_internal_name name ∷ []) }
        ensures places { IfOk result (λ c.
            All (λ n. internal_name_place n ≡ internal_name_place name) (possibilities_of c)) }
        ensures raw { IfOk result (λ c. written (raw_of c) ≡ name) }
        ensures kind { IfOk result (λ c. kind_of c ≡ reference_type) }
    {
        let mut possibilities = Vec::new(alloc);
        possibilities.push(name.clone(alloc)?)?;
        Ok(ConditionalName {
            possibilities,
            reference_type,
            raw: RawName(name),
        })
    }

    /// The raw name that was written.
    pub fn raw(&self) -> &RawName
        ensures { result.now ≡ raw_of self.now }
    {
        &self.raw
    }

    /// The place of the raw name, if it has one.
    pub fn loc(&self) -> Option<&Loc>
        ensures { option_copied result ≡ raw_name_place (raw_of self.now) }
    {
        self.raw.loc()
    }

    /// The first possibility that is declared as what the reference may be.
    ///
    /// An earlier possibility wins over a later one, also as an entity type over a common type.
    /// Where none is declared, the error holds the reference.
    pub fn resolve(mut self, all_defs: &AllDefs) -> Result<InternalName, TypeNotDefinedError>
        ensures ok { IfOk result (λ n.
            resolved all_defs.now (kind_of self) (possibilities_of self) ≡ Some n) }
        ensures refused { IfErr result (λ e.
            (resolved all_defs.now (kind_of self) (possibilities_of self) ≡ None)
            × (e.undefined_types ≡ self)) }
    {
        match self.find_declared(all_defs) {
            None => Err(TypeNotDefinedError {
                undefined_types: self,
            }),
            Some(index) => Ok(self.possibilities.swap_remove(index)),
        }
    }

    /// A copy.
    pub fn clone(&self, _alloc: Global) -> Result<ConditionalName, AllocError>
        ensures possibilities { IfOk result (λ c.
            map bare_internal_name (possibilities_of c) ≡
            map bare_internal_name (possibilities_of self.now)) }
        ensures places { IfOk result (λ c.
            map internal_name_place (possibilities_of c) ≡
            map internal_name_place (possibilities_of self.now)) }
        ensures raw { IfOk result (λ c.
            bare_raw_name (raw_of c) ≡ bare_raw_name (raw_of self.now)) }
        ensures raw_place { IfOk result (λ c.
            raw_name_place (raw_of c) ≡ raw_name_place (raw_of self.now)) }
        ensures kind { IfOk result (λ c. kind_of c ≡ kind_of self.now) }
    {
        Clone::clone(self)
    }

    fn find_declared(&self, all_defs: &AllDefs) -> Option<usize>
        ensures { result ≡
            position (λ n. is_declared all_defs.now (kind_of self.now) (bare_internal_name n))
            (possibilities_of self.now) }
    {
        let kind = self.reference_type;
        self.possibilities
            .iter()
            .position(|name| is_declared_as(all_defs, kind, name))
    }
}

impl Clone for ConditionalName {
    ghost is_clone = { IsCopyOfReference };

    fn clone(&self) -> Result<ConditionalName, AllocError> {
        let alloc = *self.possibilities.allocator();
        let possibilities = clone_names(alloc, &self.possibilities)?;
        let raw = Clone::clone(&self.raw)?;
        Ok(ConditionalName {
            possibilities,
            reference_type: self.reference_type,
            raw,
        })
    }
}

// Whether the name is declared as what the reference may be.
fn is_declared_as(all_defs: &AllDefs, kind: ReferenceType, name: &InternalName) -> bool
    ensures { result ≡ is_declared all_defs.now kind (bare_internal_name name.now) }
{
    match kind {
        ReferenceType::Common => all_defs.is_defined_as_common(name),
        ReferenceType::Entity => all_defs.is_defined_as_entity(name),
        ReferenceType::CommonOrEntity => all_defs.is_defined_as_common(name)
            || all_defs.is_defined_as_entity(name),
    }
}

fn clone_names(alloc: Global, names: &[InternalName]) -> Result<Vec<InternalName>, AllocError>
    ensures names { IfOk result (λ copy.
        map bare_internal_name copy.items ≡ map bare_internal_name names.now) }
    ensures places { IfOk result (λ copy.
        map internal_name_place copy.items ≡ map internal_name_place names.now) }
{
    let mut copy = Vec::new(alloc);
    for name in names {
        copy.push(name.clone(alloc)?)?;
    }
    Ok(copy)
}

/// A reference to a type of which no possibility is declared (Cedar's file
/// `validator/schema_errors.rs`).
#[derive(Debug, Clone, PartialEq, Eq, Drop, Error)]
#[error("`{}` is not declared", .undefined_types.raw())]
pub struct TypeNotDefinedError {
    pub undefined_types: ConditionalName,
}
