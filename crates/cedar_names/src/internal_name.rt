//! Names with namespaces.
ghost use Rattle.std.specs.Prelude.{
  ◌≡◌,
  ◌≢◌,
  ℕ,
  [],
  MatchResult,
  Some,
  None,
  refl,
  IfOk,
  IfErr,
  codes,
  false,
  IsTrue,
  ◌↔◌,
  ◌∷◌,
};
ghost use Rattle.std.specs.List.{list_any};
ghost use Rattle.std.specs.Option.{option_copied, option_map};
ghost use Rattle.std.specs.Slice.Iter.{iter_rest};
ghost use Rattle.std.specs.String.{string_bytes};
ghost use Rattle.std.specs.Ordering.{on, as_partial_cmp};
ghost use Rattle.std.specs.Cmp.{partial_equiv_from_equiv, on_equiv, on_po, on_total};
ghost use Rattle.cedar_names.specs.Grammar.{is_id, is_reserved};
ghost use Rattle.cedar_names.specs.Names.{
  has_reserved,
  qualified,
  unqualified,
  within,
  joined_text,
  name_text,
  IsNameOf,
  IsNameText,
};
ghost use Rattle.cedar_names.specs.NameOrder.{
  name_eq,
  name_eq_equiv,
  name_cmp,
  name_cmp_total,
  name_ties,
  name_po,
  name_fed,
  name_fed-alike,
};
ghost use Rattle.cedar_names.specs.InternalNames.{
  bare_internal_name,
  internal_name_place,
  IsWholeOf,
};
ghost use Rattle.cedar_names.specs.PlainNames.{bare_name};
ghost use Rattle.cedar_names.specs.Readers.{OnReadError, IsNeverReserved};

use crate::err::ParseErrors;
use crate::from_normalized_str::FromNormalizedStr;
use crate::id::{Id, read_id};
use crate::loc::Loc;
use crate::name::Name;
use crate::path_and_place::PathAndPlace;
use std::alloc::{AllocError, Global};
use std::cmp::Ordering;
use std::convert::{AsRef, AsStr, TryFrom};
use std::hash::{Hash, Hasher};
use std::rc::RcStr;
use std::{fmt, slice};

fn any_reserved(ids: &[Id]) -> bool
    ensures { result ≡ list_any is_reserved ids.now }
{
    ids.iter().any(|id| id.is_reserved())
}

// A copy of the path, with room for so many identifiers more.
pub(crate) fn clone_path(alloc: Global, path: &[Id], further: usize) -> Result<Vec<Id>, AllocError>
    ensures { IfOk result (λ v. v.items ≡ path.now) }
{
    let mut copy = Vec::with_capacity(alloc, path.len().saturating_add(further))?;
    for id in path {
        copy.push(id.clone(alloc)?)?;
    }
    Ok(copy)
}

// The identifiers joined by `::`.
fn join(alloc: Global, first: &Id, further: &[Id]) -> Result<String, AllocError>
    ensures { IfOk result (λ text. string_bytes text ≡ joined_text (first.now ∷ further.now)) }
{
    let mut text = String::from_str(alloc, first.as_str())?;
    for id in further {
        text.push_str("::")?;
        text.push_str(id.as_str())?;
    }
    Ok(text)
}

/// A name of an entity type, a function and the like, which may have namespaces and may have
/// the component `__cedar` (Cedar's file `name.rs`).
///
/// Names compare by their basenames, then by their paths as lists. Their places are not
/// compared.
#[derive(Drop)]
pub struct InternalName {
    basename: Id,
    rest: PathAndPlace,
}

impl InternalName {
    /// The name with this basename, path and place.
    pub fn new(basename: Id, path: Vec<Id>, loc: Option<Loc>) -> InternalName
        ensures name { bare_internal_name result ≡
            record { path = path.items; basename = basename } }
        ensures place { internal_name_place result ≡ loc }
    {
        InternalName {
            basename,
            rest: PathAndPlace::new(path, loc),
        }
    }

    /// The name with no namespace.
    pub fn unqualified_name(id: Id, loc: Option<Loc>) -> InternalName
        ensures name { bare_internal_name result ≡ unqualified id }
        ensures place { internal_name_place result ≡ loc }
    {
        InternalName {
            basename: id,
            rest: PathAndPlace::without_path(loc),
        }
    }

    /// The namespace `__cedar`, with no place.
    pub fn cedar(alloc: Global) -> Result<InternalName, AllocError>
        ensures name { IfOk result (λ n. bare_internal_name n ≡ unqualified (codes "__cedar")) }
        ensures place { IfOk result (λ n. internal_name_place n ≡ None) }
    {
        Ok(InternalName::unqualified_name(Id::reserved(alloc)?, None))
    }

    /// The name of one identifier with this text, with no place.
    ///
    /// Any other text is refused as no `Id`.
    pub fn parse_unqualified_name(alloc: Global, s: &str) -> Result<InternalName, ParseErrors>
        ensures name { IfOk result (λ n.
            (bare_internal_name n ≡ unqualified s.now) × IsTrue (is_id s.now)) }
        ensures place { IfOk result (λ n. internal_name_place n ≡ None) }
        ensures refused { IfErr result (λ e.
            OnReadError e (codes "Id") (is_id s.now ≡ false) (IsNeverReserved s.now)) }
    {
        let id = read_id(alloc, s, "Id")?;
        Ok(InternalName::unqualified_name(id, None))
    }

    /// The name within a namespace, which always goes before it.
    pub fn type_in_namespace(
        alloc: Global,
        basename: Id,
        namespace: InternalName,
        loc: Option<Loc>,
    ) -> Result<InternalName, AllocError>
        ensures name { IfOk result (λ n.
            bare_internal_name n ≡ within (bare_internal_name namespace) basename) }
        ensures place { IfOk result (λ n. internal_name_place n ≡ loc) }
    {
        let mut path = namespace.rest.into_path(alloc);
        path.push(namespace.basename)?;
        Ok(InternalName::new(basename, path, loc))
    }

    /// Its place, if it has one.
    pub fn loc(&self) -> Option<&Loc>
        ensures { option_copied result ≡ internal_name_place self.now }
    {
        self.rest.loc()
    }

    /// Its last identifier.
    pub fn basename(&self) -> &Id
        ensures { result.now ≡ (bare_internal_name self.now).basename }
    {
        &self.basename
    }

    /// The identifiers before the last, from the first on.
    pub fn namespace_components(&self) -> slice::Iter<'_, Id>
        ensures { iter_rest result ≡ (bare_internal_name self.now).path }
    {
        self.path().iter()
    }

    /// The text of its namespace: `foo::bar` for `foo::bar::baz`, and no text for `baz`.
    pub fn namespace(&self, alloc: Global) -> Result<String, AllocError>
        ensures { IfOk result (λ text.
            string_bytes text ≡ joined_text (bare_internal_name self.now).path) }
    {
        match self.path().split_first() {
            None => Ok(String::new(alloc)),
            Some((first, further)) => join(alloc, first, further),
        }
    }

    /// The name within the namespace, where the name has none and one is given; else a copy.
    ///
    /// ```rust
    /// let namespace = InternalName::from_normalized_str(alloc, "foo::bar")?;
    /// let baz = InternalName::from_normalized_str(alloc, "baz")?;
    /// baz.qualify_with(alloc, Some(&namespace))?; // foo::bar::baz
    /// let b = InternalName::from_normalized_str(alloc, "a::b")?;
    /// b.qualify_with(alloc, Some(&namespace))?; // a::b
    /// ```
    ///
    /// The place is that of the name.
    pub fn qualify_with(
        &self,
        alloc: Global,
        namespace: Option<&InternalName>,
    ) -> Result<InternalName, AllocError>
        ensures name { IfOk result (λ n.
            bare_internal_name n ≡
            qualified (bare_internal_name self.now)
            (option_map bare_internal_name (option_copied namespace.entry))) }
        ensures place { IfOk result (λ n. internal_name_place n ≡ internal_name_place self.now) }
    {
        match namespace {
            Some(namespace) if self.is_unqualified() => {
                let mut path = clone_path(alloc, namespace.path(), 1)?;
                path.push(namespace.basename.clone(alloc)?)?;
                let basename = self.basename.clone(alloc)?;
                let loc = Loc::clone_option(alloc, self.loc())?;
                Ok(InternalName::new(basename, path, loc))
            }
            _ => self.clone(alloc),
        }
    }

    /// As `qualify_with`, with a namespace that is not reserved.
    pub fn qualify_with_name(
        &self,
        alloc: Global,
        namespace: Option<&Name>,
    ) -> Result<InternalName, AllocError>
        ensures name { IfOk result (λ n.
            bare_internal_name n ≡
            qualified (bare_internal_name self.now)
            (option_map bare_name (option_copied namespace.entry))) }
        ensures place { IfOk result (λ n. internal_name_place n ≡ internal_name_place self.now) }
    {
        match namespace {
            Some(namespace) => self.qualify_with(alloc, Some(namespace.as_ref())),
            None => self.clone(alloc),
        }
    }

    /// Whether it has no namespace.
    pub fn is_unqualified(&self) -> bool
        ensures { IsTrue result ↔ ((bare_internal_name self.now).path ≡ []) }
    {
        self.path().is_empty()
    }

    /// Whether some component is `__cedar` (RFC 52).
    pub fn is_reserved(&self) -> bool
        ensures { result ≡ has_reserved (bare_internal_name self.now) }
    {
        any_reserved(self.path()) || self.basename.is_reserved()
    }

    /// A copy.
    pub fn clone(&self, _alloc: Global) -> Result<InternalName, AllocError>
        ensures name { IfOk result (λ n. bare_internal_name n ≡ bare_internal_name self.now) }
        ensures place { IfOk result (λ n. internal_name_place n ≡ internal_name_place self.now) }
    {
        Clone::clone(self)
    }

    fn path(&self) -> &[Id]
        ensures { result.now ≡ (bare_internal_name self.now).path }
    {
        self.rest.path()
    }
}

impl Clone for InternalName {
    ghost is_clone = { λ n copy.
        (bare_internal_name copy ≡ bare_internal_name n)
        × (internal_name_place copy ≡ internal_name_place n) };

    fn clone(&self) -> Result<InternalName, AllocError> {
        let basename = Clone::clone(&self.basename)?;
        let rest = self.rest.clone()?;
        Ok(InternalName { basename, rest })
    }
}

impl FromNormalizedStr for InternalName {
    ghost kind = { codes "internal name" };

    ghost outside = { λ s. IsNameText s → ⊥ };

    ghost forbids = { IsNeverReserved };

    ghost reads = { λ s n.
        IsNameOf s (bare_internal_name n) × IsWholeOf s (internal_name_place n) };

    fn describe_self() -> &'static str {
        "internal name"
    }

    fn from_normalized_str(alloc: Global, s: &str) -> Result<InternalName, ParseErrors> {
        let mut path = Vec::new(alloc);
        let mut rest = s;
        'parts: while let Some((first, later)) = rest.split_once("::") {
            path.push(read_id(alloc, first, "internal name")?)?;
            rest = later;
        }
        let basename = read_id(alloc, rest, "internal name")?;
        let src = RcStr::from_str(alloc, s)?;
        let loc = Loc::new(0, s.len(), src);
        Ok(InternalName::new(basename, path, Some(loc)))
    }
}

impl From<Id> for InternalName {
    ghost from_gives = { λ id n.
        (bare_internal_name n ≡ unqualified id) × (internal_name_place n ≡ None) };

    fn from(value: Id) -> InternalName {
        InternalName::unqualified_name(value, None)
    }
}

impl TryFrom<InternalName> for Id {
    type Error = ();

    ghost try_from_gives = { λ n r.
        MatchResult r
        (λ id. bare_internal_name n ≡ unqualified id)
        (λ _. (bare_internal_name n).path ≢ []) };

    fn try_from(value: InternalName) -> Result<Id, ()> {
        if value.is_unqualified() {
            Ok(value.basename)
        } else {
            Err(())
        }
    }
}

impl PartialEq for InternalName {
    ghost eq = { on bare_internal_name name_eq };

    ghost laws = { partial_equiv_from_equiv (on_equiv bare_internal_name name_eq_equiv) };

    fn eq(&self, other: &InternalName) -> bool {
        self.basename == other.basename && self.path() == other.path()
    }
}

impl Eq for InternalName {
    ghost laws = { on_equiv bare_internal_name name_eq_equiv };
}

impl PartialOrd for InternalName {
    ghost partial_cmp = { as_partial_cmp (on bare_internal_name name_cmp) };

    ghost laws = { on_po bare_internal_name name_po };

    fn partial_cmp(&self, other: &InternalName) -> Option<Ordering> {
        Some(self.cmp(other))
    }
}

impl Ord for InternalName {
    ghost cmp = { on bare_internal_name name_cmp };

    ghost total = { on_total bare_internal_name name_cmp_total };

    ghost matches_partial_cmp = { λ _ _. refl };

    ghost matches_eq = { λ m n. name_ties (bare_internal_name m) (bare_internal_name n) };

    fn cmp(&self, other: &InternalName) -> Ordering {
        match self.basename.cmp(&other.basename) {
            Ordering::Equal => self.path().cmp(other.path()),
            order => order,
        }
    }
}

impl Hash for InternalName {
    ghost hash_input = { λ n. name_fed (bare_internal_name n) };

    ghost respects_eq = { λ m n h. name_fed-alike (bare_internal_name m) (bare_internal_name n) h };

    fn hash<H: Hasher>(&self, state: &mut H) {
        self.basename.hash(state);
        self.path().hash(state);
    }
}

// Without the place.
impl fmt::Debug for InternalName {
    fn fmt<W: fmt::Write>(&self, f: &mut fmt::Formatter<W>) -> fmt::Result {
        f.debug_struct("InternalName")
            .field("id", &self.basename)
            .field("path", &self.path())
            .finish()
    }
}

impl fmt::Display for InternalName {
    ghost output = { λ n. Some (name_text (bare_internal_name n)) };

    fn fmt<W: fmt::Write>(&self, f: &mut fmt::Formatter<W>) -> fmt::Result {
        for part in self.path() {
            write!(f, "{part}::")?;
        }
        write!(f, "{}", self.basename)
    }
}
