//! Texts of values that show a bounded number of members (`value.rs`).
ghost use Rattle.std.specs.Prelude.{◌≡◌, ◌↔◌, ◌++◌, ◌-◌, [], IfOk, IsTrue, None, OnOk, Some};
ghost use Rattle.std.specs.Prelude.{codes, if◌then◌else◌, option_map};
ghost use Rattle.std.specs.Fmt.{WritesInCalls, WritesOnOk};
ghost use Rattle.std.specs.String.{string_bytes};
ghost use Rattle.semantics_values.specs.BareValue as bare;
ghost use Rattle.cedar_values.specs.BareValues.{bare_set, bare_value, bare_value_kind};
ghost use Rattle.cedar_values.specs.BoundedTexts.{bounded_text, key_text};
ghost use Rattle.cedar_values.specs.Conversions.{bare_pairs};

use crate::extension_value::ExtensionValue;
use crate::set::Set;
use crate::value::{Value, ValueKind};
use cedar_names::is_normalized_ident;
use std::alloc::{AllocError, Global};
use std::collections::BTreeMap;
use std::fmt;
use std::rc::RcStr;

/// What has a text that shows a bounded number of the members of each set and of the pairs of
/// each record, those inside too.
///
/// `n` is that number; without one all are shown. Where some are not, `.. ` stands for them: the
/// set of 1, 2 and 3 has at the bound 2 the text `[1, 2, .. ]`.
pub trait BoundedDisplay {
    ghost use Rattle.std.specs.Prelude.{ℕ, List, Option};

    // The text, by the bound.
    ghost text_within: { Self → Option ℕ → List ℕ };

    /// Writes the text. An error is the writer's own; nothing is known of how much was written
    /// then.
    fn fmt<W: fmt::Write>(&self, f: &mut W, n: Option<usize>) -> fmt::Result
        ensures { OnOk result
            (WritesInCalls W.write_str_gives f.old (text_within self.now n) f.new) };

    /// Writes the text with this bound.
    fn fmt_bounded<W: fmt::Write>(&self, f: &mut W, n: usize) -> fmt::Result
        ensures { OnOk result
            (WritesInCalls W.write_str_gives f.old (text_within self.now (Some n)) f.new) }
    {
        self.fmt(f, Some(n))
    }

    /// Writes the whole text.
    fn fmt_unbounded<W: fmt::Write>(&self, f: &mut W) -> fmt::Result
        ensures { OnOk result
            (WritesInCalls W.write_str_gives f.old (text_within self.now None) f.new) }
    {
        self.fmt(f, None)
    }
}

/// What has such a text as a string.
pub trait BoundedToString {
    ghost use Rattle.std.specs.Prelude.{ℕ, List, Option};

    // The text, by the bound.
    ghost string_within: { Self → Option ℕ → List ℕ };

    /// The text.
    fn to_string(&self, alloc: Global, n: Option<usize>) -> Result<String, AllocError>
        ensures { IfOk result (λ s. string_bytes s ≡ string_within self.now n) };

    /// The text with this bound.
    fn to_string_bounded(&self, alloc: Global, n: usize) -> Result<String, AllocError>
        ensures { IfOk result (λ s. string_bytes s ≡ string_within self.now (Some n)) }
    {
        self.to_string(alloc, Some(n))
    }

    /// The whole text.
    fn to_string_unbounded(&self, alloc: Global) -> Result<String, AllocError>
        ensures { IfOk result (λ s. string_bytes s ≡ string_within self.now None) }
    {
        self.to_string(alloc, None)
    }
}

impl<X: ExtensionValue> BoundedDisplay for Value<X> {
    ghost text_within = { λ v n. bounded_text X.text_of n (bare_value v) };

    fn fmt<W: fmt::Write>(&self, f: &mut W, n: Option<usize>) -> fmt::Result {
        write_value(self, f, n)
    }
}

impl<X: ExtensionValue> BoundedDisplay for ValueKind<X> {
    ghost text_within = { λ k n. bounded_text X.text_of n (bare_value_kind k) };

    fn fmt<W: fmt::Write>(&self, f: &mut W, n: Option<usize>) -> fmt::Result {
        write_kind(self, f, n)
    }
}

impl<X: ExtensionValue> BoundedToString for Value<X> {
    ghost string_within = { λ v n. bounded_text X.text_of n (bare_value v) };

    fn to_string(&self, alloc: Global, n: Option<usize>) -> Result<String, AllocError> {
        string_of(alloc, self, n)
    }
}

impl<X: ExtensionValue> BoundedToString for ValueKind<X> {
    ghost string_within = { λ k n. bounded_text X.text_of n (bare_value_kind k) };

    fn to_string(&self, alloc: Global, n: Option<usize>) -> Result<String, AllocError> {
        string_of(alloc, self, n)
    }
}

impl<X: ExtensionValue> fmt::Display for Value<X> {
    ghost output = { λ v. Some (bounded_text X.text_of None (bare_value v)) };

    fn fmt<W: fmt::Write>(&self, f: &mut fmt::Formatter<W>) -> fmt::Result {
        display(self, f)
    }
}

impl<X: ExtensionValue> fmt::Display for ValueKind<X> {
    ghost output = { λ k. Some (bounded_text X.text_of None (bare_value_kind k)) };

    fn fmt<W: fmt::Write>(&self, f: &mut fmt::Formatter<W>) -> fmt::Result {
        display(self, f)
    }
}

// Writes the whole text, as `{}` does.
fn display<D: BoundedDisplay, W: fmt::Write>(value: &D, f: &mut fmt::Formatter<W>) -> fmt::Result
    ensures { WritesOnOk W.write_str_gives f.old result (D.text_within value.now None) f.new }
{
    value.fmt_unbounded(f)
}

// The text as a string.
fn string_of<D: BoundedDisplay>(
    alloc: Global,
    value: &D,
    n: Option<usize>,
) -> Result<String, AllocError>
    ensures { IfOk result (λ s. string_bytes s ≡ D.text_within value.now n) }
{
    let mut text = String::new(alloc);
    match value.fmt(&mut text, n) {
        Ok(()) => Ok(text),
        Err(_) => Err(AllocError),
    }
}

// Writes a value.
#[cycle(write_value)]
fn write_value<X: ExtensionValue, W: fmt::Write>(
    value: &Value<X>,
    f: &mut W,
    n: Option<usize>,
) -> fmt::Result
    ensures { OnOk result (WritesInCalls W.write_str_gives f.old
        (bounded_text X.text_of n (bare_value value.now)) f.new) }
{
    write_kind(value.value_kind(), f, n)
}

// Writes a kind.
#[cycle(write_value)]
fn write_kind<X: ExtensionValue, W: fmt::Write>(
    kind: &ValueKind<X>,
    f: &mut W,
    n: Option<usize>,
) -> fmt::Result
    ensures { OnOk result (WritesInCalls W.write_str_gives f.old
        (bounded_text X.text_of n (bare_value_kind kind.now)) f.new) }
{
    match kind {
        ValueKind::Lit(literal) => write!(f, "{literal}"),
        ValueKind::Set(set) => write_members(set, f, n),
        ValueKind::Record(pairs) => write_pairs(pairs, f, n),
        ValueKind::ExtensionValue(value) => f.write_str(value.value().text()),
    }
}

// Writes the members of a set, in brackets.
#[cycle(write_value)]
#[inline(never)]
#[tactic(auto, unfolding(crate::specs::Sets::members))]
fn write_members<X: ExtensionValue, W: fmt::Write>(
    set: &Set<X>,
    f: &mut W,
    n: Option<usize>,
) -> fmt::Result
    ensures { OnOk result (WritesInCalls W.write_str_gives f.old
        (bounded_text X.text_of n (bare.SetValue (bare_set set.now))) f.new) }
{
    let members = set.authoritative();
    f.write_str("[")?;
    let mut room = n;
    let mut is_first = true;
    for member in members {
        write_separator(f, is_first)?;
        if is_used_up(room) {
            return f.write_str(".. ]");
        }
        write_value(member, f, n)?;
        room = one_less(room);
        is_first = false;
    }
    f.write_str("]")
}

// Writes the pairs of a record, in braces.
#[cycle(write_value)]
#[inline(never)]
fn write_pairs<X: ExtensionValue, W: fmt::Write>(
    pairs: &BTreeMap<RcStr, Value<X>>,
    f: &mut W,
    n: Option<usize>,
) -> fmt::Result
    ensures { OnOk result (WritesInCalls W.write_str_gives f.old
        (bounded_text X.text_of n (bare.RecordValue (bare_pairs pairs.now.entries))) f.new) }
{
    f.write_str("{")?;
    let mut room = n;
    let mut is_first = true;
    for (key, value) in pairs.iter() {
        write_separator(f, is_first)?;
        if is_used_up(room) {
            return f.write_str(".. }");
        }
        write_key(f, key.as_str())?;
        write_value(value, f, n)?;
        room = one_less(room);
        is_first = false;
    }
    f.write_str("}")
}

// Writes what stands between an item and the one before it.
fn write_separator<W: fmt::Write>(f: &mut W, is_first: bool) -> fmt::Result
    ensures { OnOk result (WritesInCalls W.write_str_gives f.old
        (if is_first then [] else codes ", ") f.new) }
{
    if is_first { Ok(()) } else { f.write_str(", ") }
}

// Whether no more may be shown.
fn is_used_up(room: Option<usize>) -> bool
    ensures { IsTrue result ↔ (room ≡ Some 0) }
{
    room == Some(0)
}

// How many more may be shown behind one that is.
fn one_less(room: Option<usize>) -> Option<usize>
    ensures { result ≡ option_map (λ k. k - 1) room }
{
    room.map(|k| k.saturating_sub(1))
}

// Writes a key, in double quotes unless it is an identifier that a user may define, and a colon.
fn write_key<W: fmt::Write>(f: &mut W, key: &str) -> fmt::Result
    ensures { OnOk result (WritesInCalls W.write_str_gives f.old
        (key_text key.now ++ codes ": ") f.new) }
{
    if is_normalized_ident(key) {
        write!(f, "{key}: ")
    } else {
        write!(f, "\"{key}\": ")
    }
}
