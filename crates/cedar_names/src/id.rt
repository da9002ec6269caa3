//! Identifiers.
ghost use Rattle.std.specs.Prelude.{
  ◌≡◌,
  IsTrue,
  IfOk,
  IfErr,
  MatchResult,
  Some,
  None,
  true,
  false,
  codes,
  List,
  ℕ,
  nat_eq,
  refl,
};
ghost use Rattle.std.specs.List.{list_all};
ghost use Rattle.std.specs.Rc.{rc_str_bytes};
ghost use Rattle.std.specs.Ordering.{nat_cmp};
ghost use Rattle.std.specs.Hash as fed;
ghost use Rattle.std.specs.Cmp.{partial_equiv_from_equiv};
ghost use Rattle.std.specs.Cmp.Lexicographic.{
  pointwise,
  slice_cmp,
  nat_list_eq_equiv,
  nat_list_cmp_total,
  texts_ties,
  texts_po,
  bytes_decides,
};
ghost use Rattle.std.proofs.Common.{ap};
ghost use Rattle.cedar_names.specs.Grammar.{
  is_start,
  is_part,
  is_any_id,
  is_keyword,
  is_id,
  is_reserved,
  is_unreserved_id,
};
ghost use Rattle.cedar_names.specs.Names.{unqualified};
ghost use Rattle.cedar_names.specs.Readers.{
  OnReadError,
  IsNeverReserved,
  IsReservedId,
  refused_name,
  refused_place,
};

use crate::err::{ParseErrors, ReservedNameError};
use crate::from_normalized_str::FromNormalizedStr;
use crate::internal_name::InternalName;
use std::alloc::{AllocError, Global};
use std::cmp::Ordering;
use std::convert::{AsRef, AsStr, TryFrom};
use std::fmt;
use std::hash::{Hash, Hasher};
use std::marker::Model;
use std::rc::RcStr;

const RESERVED_ID: &str = "__cedar";

fn is_start_byte(b: u8) -> bool
    ensures { result ≡ is_start b }
{
    b.is_ascii_alphabetic() || b == b'_'
}

fn is_part_byte(b: u8) -> bool
    ensures { result ≡ is_part b }
{
    b.is_ascii_alphanumeric() || b == b'_'
}

fn all_part_bytes(bytes: &[u8]) -> bool
    ensures { result ≡ list_all is_part bytes.now }
{
    bytes.iter().all(|b| is_part_byte(*b))
}

fn is_any_id_text(s: &str) -> bool
    ensures { result ≡ is_any_id s.now }
{
    match s.as_bytes().split_first() {
        None => false,
        Some((first, rest)) => is_start_byte(*first) && all_part_bytes(rest),
    }
}

fn is_keyword_text(s: &str) -> bool
    ensures { result ≡ is_keyword s.now }
{
    matches!(
        s,
        "true" | "false" | "if" | "then" | "else" | "in" | "is" | "like" | "has"
    )
}

fn is_id_text(s: &str) -> bool
    ensures { result ≡ is_id s.now }
{
    is_any_id_text(s) && !is_keyword_text(s)
}

fn is_reserved_text(s: &str) -> bool
    ensures { result ≡ is_reserved s.now }
{
    s == RESERVED_ID
}

/// Whether the text is an identifier that a user may define: an `UnreservedId`, which stands as
/// an attribute without quotes (Cedar's file `name.rs`).
pub fn is_normalized_ident(s: &str) -> bool
    ensures { result ≡ is_unreserved_id s.now }
{
    is_id_text(s) && !is_reserved_text(s)
}

// The text that an identifier or a keyword is, which compares by its bytes.
#[derive(Drop)]
struct Text {
    shared: RcStr,
}

impl Model for Text {
    ghost use Rattle.std.specs.Prelude.{List, ℕ};
    ghost use Rattle.std.specs.Rc.{rc_str_bytes};

    ghost Value = { List ℕ };

    ghost view = { λ t. rc_str_bytes t.shared };
}

impl Text {
    fn new(alloc: Global, s: &str) -> Result<Text, AllocError>
        ensures { IfOk result (λ t. t ≡ s.now) }
    {
        let shared = RcStr::from_str(alloc, s)?;
        Ok(Text { shared })
    }
}

impl Clone for Text {
    ghost is_clone = { λ t copy. copy ≡ t };

    fn clone(&self) -> Result<Text, AllocError> {
        let shared = self.shared.clone()?;
        Ok(Text { shared })
    }
}

impl AsStr for Text {
    ghost text = { λ t. t };

    fn as_str(&self) -> &str {
        self.shared.as_str()
    }
}

impl fmt::Debug for Text {
    fn fmt<W: fmt::Write>(&self, f: &mut fmt::Formatter<W>) -> fmt::Result {
        fmt::Debug::fmt(&self.shared, f)
    }
}

impl fmt::Display for Text {
    ghost output = { λ t. Some t };

    fn fmt<W: fmt::Write>(&self, f: &mut fmt::Formatter<W>) -> fmt::Result {
        self.shared.fmt(f)
    }
}

impl PartialEq for Text {
    ghost eq = { pointwise nat_eq };

    ghost laws = { partial_equiv_from_equiv nat_list_eq_equiv };

    fn eq(&self, other: &Text) -> bool {
        self.shared == other.shared
    }
}

impl Eq for Text {
    ghost laws = { nat_list_eq_equiv };
}

impl PartialOrd for Text {
    ghost partial_cmp = { λ x y. Some (slice_cmp nat_cmp x y) };

    ghost laws = { texts_po };

    fn partial_cmp(&self, other: &Text) -> Option<Ordering> {
        Some(self.cmp(other))
    }
}

impl Ord for Text {
    ghost cmp = { slice_cmp nat_cmp };

    ghost total = { nat_list_cmp_total };

    ghost matches_partial_cmp = { λ _ _. refl };

    ghost matches_eq = { texts_ties };

    fn cmp(&self, other: &Text) -> Ordering {
        self.shared.cmp(&other.shared)
    }
}

impl Hash for Text {
    ghost hash_input = { λ t. fed.str t };

    ghost respects_eq = { λ x y h. ap fed.str ((bytes_decides x y).0 h) };

    fn hash<H: Hasher>(&self, state: &mut H) {
        self.shared.hash(state);
    }
}

// The identifier with this text, or an error with this word.
pub(crate) fn read_id(alloc: Global, s: &str, kind: &'static str) -> Result<Id, ParseErrors>
    ensures ok { IfOk result (λ id. (id ≡ s.now) × IsTrue (is_id s.now)) }
    ensures refused { IfErr result (λ e.
        OnReadError e kind.now (is_id s.now ≡ false) (IsNeverReserved s.now)) }
{
    if !is_id_text(s) {
        return Err(ParseErrors::NotNormalized { kind });
    }
    let text = Text::new(alloc, s)?;
    Ok(Id { text })
}

/// An identifier: `_` or an ASCII letter, then any number of these or digits, and none of the
/// keywords `true`, `false`, `if`, `then`, `else`, `in`, `is`, `like` and `has` (Cedar's file
/// `id.rs`). `__cedar` is one.
///
/// A contract sees it as its text. Identifiers compare by the bytes of their texts.
#[derive(PartialEq, Eq, PartialOrd, Ord, Hash, Drop)]
pub struct Id {
    text: Text,
}

impl Model for Id {
    ghost use Rattle.std.specs.Prelude.{List, ℕ, IsTrue};
    ghost use Rattle.cedar_names.specs.Grammar.{is_id};

    ghost Value = { List ℕ };

    ghost view = { λ id. id.text };

    ghost invariant = { λ id. IsTrue (is_id id.text) };

    ghost inverse = { λ t. record { text = t } };
}

impl Id {
    /// Its text.
    pub fn into_smolstr(self) -> RcStr
        ensures text { rc_str_bytes result ≡ self }
        ensures in_grammar { IsTrue (is_id self) }
    {
        self.text.shared
    }

    /// Whether it is `__cedar` (RFC 52).
    pub fn is_reserved(&self) -> bool
        ensures { result ≡ is_reserved self.now }
    {
        is_reserved_text(self.text.as_str())
    }

    /// A copy, which shares the text and takes no memory.
    pub fn clone(&self, _alloc: Global) -> Result<Id, AllocError>
        ensures { IfOk result (λ id. id ≡ self.now) }
    {
        Clone::clone(self)
    }

    // The identifier `__cedar`.
    pub(crate) fn reserved(alloc: Global) -> Result<Id, AllocError>
        ensures { IfOk result (λ id. id ≡ codes "__cedar") }
    {
        let text = Text::new(alloc, RESERVED_ID)?;
        Ok(Id { text })
    }
}

impl Clone for Id {
    ghost is_clone = { λ id copy. copy ≡ id };

    fn clone(&self) -> Result<Id, AllocError> {
        let text = self.text.clone()?;
        Ok(Id { text })
    }
}

impl FromNormalizedStr for Id {
    ghost kind = { codes "Id" };

    ghost outside = { λ s. is_id s ≡ false };

    ghost forbids = { IsNeverReserved };

    ghost reads = { λ s id. (id ≡ s) × IsTrue (is_id s) };

    fn describe_self() -> &'static str {
        "Id"
    }

    fn from_normalized_str(alloc: Global, s: &str) -> Result<Id, ParseErrors> {
        read_id(alloc, s, "Id")
    }
}

impl AsStr for Id {
    ghost text = { λ id. id };

    fn as_str(&self) -> &str {
        self.text.as_str()
    }
}

impl fmt::Debug for Id {
    fn fmt<W: fmt::Write>(&self, f: &mut fmt::Formatter<W>) -> fmt::Result {
        f.debug_tuple("Id").field(&self.text).finish()
    }
}

impl fmt::Display for Id {
    ghost output = { λ id. Some id };

    fn fmt<W: fmt::Write>(&self, f: &mut fmt::Formatter<W>) -> fmt::Result {
        self.text.fmt(f)
    }
}

impl From<UnreservedId> for Id {
    ghost from_gives = { λ u id. id ≡ u };

    fn from(value: UnreservedId) -> Id {
        value.id
    }
}

/// An identifier other than `__cedar`, which a user may define (Cedar's file `id.rs`, after
/// RFC 52).
///
/// A contract sees it as its text. It compares as an `Id` does.
#[derive(PartialEq, Eq, PartialOrd, Ord, Hash, Drop)]
pub struct UnreservedId {
    id: Id,
}

impl Model for UnreservedId {
    ghost use Rattle.std.specs.Prelude.{◌≡◌, List, ℕ, false};
    ghost use Rattle.cedar_names.specs.Grammar.{is_reserved};

    ghost Value = { List ℕ };

    ghost view = { λ u. u.id };

    ghost invariant = { λ u. is_reserved u.id ≡ false };

    ghost inverse = { λ t. record { id = t } };
}

impl UnreservedId {
    /// Its text.
    pub fn into_smolstr(self) -> RcStr
        ensures text { rc_str_bytes result ≡ self }
        ensures in_grammar { IsTrue (is_unreserved_id self) }
    {
        self.id.into_smolstr()
    }

    /// A copy, which shares the text and takes no memory.
    pub fn clone(&self, _alloc: Global) -> Result<UnreservedId, AllocError>
        ensures { IfOk result (λ u. u ≡ self.now) }
    {
        Clone::clone(self)
    }

    // The same identifier, known not to be `__cedar`.
    pub(crate) fn from_unreserved(id: Id) -> UnreservedId
        requires { is_reserved id ≡ false }
        ensures { result ≡ id }
    {
        UnreservedId { id }
    }
}

impl Clone for UnreservedId {
    ghost is_clone = { λ u copy. copy ≡ u };

    fn clone(&self) -> Result<UnreservedId, AllocError> {
        let id = Clone::clone(&self.id)?;
        Ok(UnreservedId { id })
    }
}

impl FromNormalizedStr for UnreservedId {
    ghost kind = { codes "Unreserved Id" };

    ghost outside = { λ s. is_id s ≡ false };

    ghost forbids = { IsReservedId };

    ghost reads = { λ s u. (u ≡ s) × IsTrue (is_unreserved_id s) };

    fn describe_self() -> &'static str {
        "Unreserved Id"
    }

    fn from_normalized_str(alloc: Global, s: &str) -> Result<UnreservedId, ParseErrors> {
        let id = read_id(alloc, s, "Unreserved Id")?;
        Ok(UnreservedId::try_from(id)?)
    }
}

impl TryFrom<Id> for UnreservedId {
    type Error = ReservedNameError;

    ghost try_from_gives = { λ id r.
        MatchResult r
        (λ u. (is_reserved id ≡ false) × (u ≡ id))
        (λ e. (is_reserved id ≡ true)
        × (refused_name e ≡ unqualified id)
        × (refused_place e ≡ None)) };

    fn try_from(value: Id) -> Result<UnreservedId, ReservedNameError> {
        if value.is_reserved() {
            let name = InternalName::unqualified_name(value, None);
            return Err(ReservedNameError { name });
        }
        Ok(UnreservedId { id: value })
    }
}

impl AsRef<Id> for UnreservedId {
    fn as_ref(&self) -> &Id
        ensures { result.now ≡ self.now }
    {
        &self.id
    }
}

impl AsStr for UnreservedId {
    ghost text = { λ u. u };

    fn as_str(&self) -> &str {
        self.id.as_str()
    }
}

impl fmt::Debug for UnreservedId {
    fn fmt<W: fmt::Write>(&self, f: &mut fmt::Formatter<W>) -> fmt::Result {
        f.debug_tuple("UnreservedId").field(&self.id).finish()
    }
}

impl fmt::Display for UnreservedId {
    ghost output = { λ u. Some u };

    fn fmt<W: fmt::Write>(&self, f: &mut fmt::Formatter<W>) -> fmt::Result {
        self.id.fmt(f)
    }
}

/// An identifier or a keyword (Cedar's file `id.rs`).
///
/// A contract sees it as its text. It compares by the bytes of its text.
#[derive(PartialEq, Eq, PartialOrd, Ord, Hash, Drop)]
pub struct AnyId {
    text: Text,
}

impl Model for AnyId {
    ghost use Rattle.std.specs.Prelude.{List, ℕ, IsTrue};
    ghost use Rattle.cedar_names.specs.Grammar.{is_any_id};

    ghost Value = { List ℕ };

    ghost view = { λ id. id.text };

    ghost invariant = { λ id. IsTrue (is_any_id id.text) };

    ghost inverse = { λ t. record { text = t } };
}

impl AnyId {
    /// Its text.
    pub fn into_smolstr(self) -> RcStr
        ensures text { rc_str_bytes result ≡ self }
        ensures in_grammar { IsTrue (is_any_id self) }
    {
        self.text.shared
    }

    /// A copy, which shares the text and takes no memory.
    pub fn clone(&self, _alloc: Global) -> Result<AnyId, AllocError>
        ensures { IfOk result (λ id. id ≡ self.now) }
    {
        Clone::clone(self)
    }
}

impl Clone for AnyId {
    ghost is_clone = { λ id copy. copy ≡ id };

    fn clone(&self) -> Result<AnyId, AllocError> {
        let text = self.text.clone()?;
        Ok(AnyId { text })
    }
}

impl FromNormalizedStr for AnyId {
    ghost kind = { codes "AnyId" };

    ghost outside = { λ s. is_any_id s ≡ false };

    ghost forbids = { IsNeverReserved };

    ghost reads = { λ s id. (id ≡ s) × IsTrue (is_any_id s) };

    fn describe_self() -> &'static str {
        "AnyId"
    }

    fn from_normalized_str(alloc: Global, s: &str) -> Result<AnyId, ParseErrors> {
        if !is_any_id_text(s) {
            return Err(ParseErrors::NotNormalized { kind: "AnyId" });
        }
        let text = Text::new(alloc, s)?;
        Ok(AnyId { text })
    }
}

impl AsStr for AnyId {
    ghost text = { λ id. id };

    fn as_str(&self) -> &str {
        self.text.as_str()
    }
}

impl fmt::Debug for AnyId {
    fn fmt<W: fmt::Write>(&self, f: &mut fmt::Formatter<W>) -> fmt::Result {
        f.debug_tuple("AnyId").field(&self.text).finish()
    }
}

impl fmt::Display for AnyId {
    ghost output = { λ id. Some id };

    fn fmt<W: fmt::Write>(&self, f: &mut fmt::Formatter<W>) -> fmt::Result {
        self.text.fmt(f)
    }
}
