//! Names without the component `__cedar`.
ghost use Rattle.std.specs.Prelude.{
  ◌≡◌,
  ◌≢◌,
  ◌↔◌,
  [],
  IfOk,
  IfErr,
  IsTrue,
  MatchResult,
  Some,
  None,
  true,
  false,
  codes,
};
ghost use Rattle.std.specs.Option.{option_copied, option_map};
ghost use Rattle.cedar_names.specs.Grammar.{is_id};
ghost use Rattle.cedar_names.specs.Names.{
  has_reserved,
  qualified,
  unqualified,
  name_text,
  IsNameOf,
  IsNameText,
};
ghost use Rattle.cedar_names.specs.InternalNames.{
  bare_internal_name,
  internal_name_place,
  IsWholeOf,
};

use crate::err::{ParseErrors, ReservedNameError};
use crate::from_normalized_str::FromNormalizedStr;
use crate::id::{Id, UnreservedId};
use crate::internal_name::InternalName;
use crate::loc::Loc;
use std::alloc::{AllocError, Global};
use std::convert::{AsRef, TryFrom};
use std::fmt;

/// A name that a user may define: an `InternalName` without the component `__cedar` (Cedar's
/// file `name.rs`, after RFC 52).
///
/// It compares as an `InternalName` does.
#[derive(PartialEq, Eq, PartialOrd, Ord, Hash, Drop)]
pub struct Name {
    name: InternalName,
    ghost not_reserved: { has_reserved (bare_internal_name name) ≡ false },
}

impl Name {
    ghost use Rattle.cedar_names.specs.PlainNames.{bare_name, name_place};
    ghost use Rattle.cedar_names.specs.Readers.{OnReadError, IsReservedId};

    /// The name of one identifier with this text, with no place.
    ///
    /// Any other text is refused as no `Id`, and `__cedar` as reserved.
    pub fn parse_unqualified_name(alloc: Global, s: &str) -> Result<Name, ParseErrors>
        ensures name { IfOk result (λ n. (bare_name n ≡ unqualified s.now) × IsTrue (is_id s.now)) }
        ensures allowed { IfOk result (λ n. has_reserved (bare_name n) ≡ false) }
        ensures place { IfOk result (λ n. name_place n ≡ None) }
        ensures refused { IfErr result (λ e.
            OnReadError e (codes "Id") (is_id s.now ≡ false) (IsReservedId s.now)) }
    {
        let name = InternalName::parse_unqualified_name(alloc, s)?;
        Ok(Name::try_from(name)?)
    }

    /// The name with no namespace and no place.
    pub fn unqualified_name(id: UnreservedId) -> Name
        ensures name { bare_name result ≡ unqualified id }
        ensures place { name_place result ≡ None }
    {
        Name {
            name: InternalName::unqualified_name(Id::from(id), None),
        }
    }

    /// Its last identifier, borrowed.
    pub fn basename_as_ref(&self) -> &Id
        ensures { result.now ≡ (bare_name self.now).basename }
    {
        self.name.basename()
    }

    /// A copy of its last identifier.
    pub fn basename(&self, alloc: Global) -> Result<UnreservedId, AllocError>
        ensures { IfOk result (λ id. id ≡ (bare_name self.now).basename) }
    {
        let id = self.basename_as_ref().clone(alloc)?;
        Ok(UnreservedId::from_unreserved(id))
    }

    /// Whether it has no namespace.
    pub fn is_unqualified(&self) -> bool
        ensures { IsTrue result ↔ ((bare_name self.now).path ≡ []) }
    {
        self.name.is_unqualified()
    }

    /// The name within the namespace, where the name has none and one is given; else a copy, as
    /// `InternalName::qualify_with`.
    pub fn qualify_with(
        &self,
        alloc: Global,
        namespace: Option<&InternalName>,
    ) -> Result<InternalName, AllocError>
        ensures name { IfOk result (λ n.
            bare_internal_name n ≡
            qualified (bare_name self.now)
            (option_map bare_internal_name (option_copied namespace.entry))) }
        ensures place { IfOk result (λ n. internal_name_place n ≡ name_place self.now) }
    {
        self.name.qualify_with(alloc, namespace)
    }

    /// As `qualify_with`, with a namespace that is not reserved either, so the answer is a `Name`.
    pub fn qualify_with_name(
        &self,
        alloc: Global,
        namespace: Option<&Name>,
    ) -> Result<Name, AllocError>
        ensures name { IfOk result (λ n.
            bare_name n ≡
            qualified (bare_name self.now)
            (option_map bare_name (option_copied namespace.entry))) }
        ensures place { IfOk result (λ n. name_place n ≡ name_place self.now) }
    {
        let name = self.name.qualify_with_name(alloc, namespace)?;
        Ok(Name { name })
    }

    /// Its place, if it has one.
    pub fn loc(&self) -> Option<&Loc>
        ensures { option_copied result ≡ name_place self.now }
    {
        self.name.loc()
    }

    /// A copy.
    pub fn clone(&self, _alloc: Global) -> Result<Name, AllocError>
        ensures name { IfOk result (λ n. bare_name n ≡ bare_name self.now) }
        ensures place { IfOk result (λ n. name_place n ≡ name_place self.now) }
    {
        Clone::clone(self)
    }
}

impl Clone for Name {
    ghost use Rattle.cedar_names.specs.PlainNames.{bare_name, name_place};

    ghost is_clone = { λ n copy.
        (bare_name copy ≡ bare_name n) × (name_place copy ≡ name_place n) };

    fn clone(&self) -> Result<Name, AllocError> {
        let name = Clone::clone(&self.name)?;
        Ok(Name { name })
    }
}

impl FromNormalizedStr for Name {
    ghost use Rattle.cedar_names.specs.PlainNames.{bare_name, name_place};
    ghost use Rattle.cedar_names.specs.Readers.{IsReservedName};

    ghost kind = { codes "Name" };

    ghost outside = { λ s. IsNameText s → ⊥ };

    ghost forbids = { IsReservedName };

    ghost reads = { λ s n.
        IsNameOf s (bare_name n)
        × (has_reserved (bare_name n) ≡ false)
        × IsWholeOf s (name_place n) };

    fn describe_self() -> &'static str {
        "Name"
    }

    fn from_normalized_str(alloc: Global, s: &str) -> Result<Name, ParseErrors> {
        match InternalName::from_normalized_str(alloc, s) {
            Ok(name) => Ok(Name::try_from(name)?),
            Err(ParseErrors::NotNormalized { .. }) => Err(ParseErrors::NotNormalized {
                kind: "Name",
            }),
            Err(e) => Err(e),
        }
    }
}

impl AsRef<InternalName> for Name {
    ghost use Rattle.cedar_names.specs.PlainNames.{internal};

    fn as_ref(&self) -> &InternalName
        ensures { result.now ≡ internal self.now }
    {
        &self.name
    }
}

impl From<UnreservedId> for Name {
    ghost use Rattle.cedar_names.specs.PlainNames.{bare_name, name_place};

    ghost from_gives = { λ id n. (bare_name n ≡ unqualified id) × (name_place n ≡ None) };

    fn from(value: UnreservedId) -> Name {
        Name::unqualified_name(value)
    }
}

impl TryFrom<InternalName> for Name {
    type Error = ReservedNameError;

    ghost use Rattle.cedar_names.specs.PlainNames.{internal};
    ghost use Rattle.cedar_names.specs.Readers.{refused_name, refused_place};

    ghost try_from_gives = { λ n r.
        MatchResult r
        (λ m. (has_reserved (bare_internal_name n) ≡ false) × (internal m ≡ n))
        (λ e. (has_reserved (bare_internal_name n) ≡ true)
        × (refused_name e ≡ bare_internal_name n)
        × (refused_place e ≡ internal_name_place n)) };

    fn try_from(name: InternalName) -> Result<Name, ReservedNameError> {
        if name.is_reserved() {
            return Err(ReservedNameError { name });
        }
        Ok(Name { name })
    }
}

impl From<Name> for InternalName {
    ghost use Rattle.cedar_names.specs.PlainNames.{internal};

    ghost from_gives = { λ n m. m ≡ internal n };

    fn from(value: Name) -> InternalName {
        value.name
    }
}

impl TryFrom<Name> for UnreservedId {
    type Error = ();

    ghost use Rattle.cedar_names.specs.PlainNames.{bare_name};

    ghost try_from_gives = { λ n r.
        MatchResult r
        (λ id. bare_name n ≡ unqualified id)
        (λ _. (bare_name n).path ≢ []) };

    fn try_from(value: Name) -> Result<UnreservedId, ()> {
        let id = Id::try_from(value.name)?;
        Ok(UnreservedId::from_unreserved(id))
    }
}

impl fmt::Debug for Name {
    fn fmt<W: fmt::Write>(&self, f: &mut fmt::Formatter<W>) -> fmt::Result {
        f.debug_tuple("Name").field(&self.name).finish()
    }
}

impl fmt::Display for Name {
    ghost use Rattle.cedar_names.specs.PlainNames.{bare_name};

    ghost output = { λ n. Some (name_text (bare_name n)) };

    fn fmt<W: fmt::Write>(&self, f: &mut fmt::Formatter<W>) -> fmt::Result {
        self.name.fmt(f)
    }
}
