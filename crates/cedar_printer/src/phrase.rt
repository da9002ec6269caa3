//! Texts of Cedar's syntax, with their precedences.
ghost use Rattle.std.specs.Prelude.{◌≡◌, ◌++◌, IfOk, map, string_bytes};
ghost use Rattle.std.specs.Rc.{rc_str_bytes};
ghost use Rattle.std.specs.Vec.Iter.{into_iter_items};
ghost use Rattle.cedar_builders.specs.Keys.{meant_pairs};
ghost use Rattle.cedar_builders.specs.Ropes.{text_of};
ghost use Rattle.cedar_printer.specs.Phrases.{phrase_of, rope_phrase};
ghost use Rattle.semantics_printing.specs.Phrases.{
  attribute_text,
  call_of,
  conditional_text,
  field_of,
  function_of,
  infix_of,
  is_method,
  is_method_of_numbers,
  is_method_of_times,
  key_text,
  method_call_of,
  method_of,
  others_text,
  path_text,
  prefix_of,
  row_text,
  text_at,
};

use cedar_builders::Rope;
use cedar_names::{NonEmpty, is_normalized_ident};
use cedar_terms::{Escaped, Precedence};
use std::alloc::{AllocError, Global};
use std::rc::RcStr;
use std::vec;

/// The text of an expression.
#[derive(Debug, Drop)]
pub struct Phrase {
    /// The text.
    pub text: String,
    /// How tightly it binds.
    pub precedence: Precedence,
}

/// The text of an expression, in pieces.
#[derive(Debug, Drop)]
pub struct RopePhrase {
    /// The text.
    pub text: Rope,
    /// How tightly it binds.
    pub precedence: Precedence,
}

impl RopePhrase {
    /// A text that never needs brackets.
    pub fn member(text: Rope) -> RopePhrase
        ensures { rope_phrase result ≡ (text_of text, Precedence.Member) }
    {
        RopePhrase {
            text,
            precedence: Precedence::Member,
        }
    }

    /// A text of one piece that never needs brackets.
    pub fn of_word(alloc: Global, text: String) -> RopePhrase
        ensures { rope_phrase result ≡ (string_bytes text, Precedence.Member) }
    {
        RopePhrase::member(Rope::new(alloc, text))
    }

    /// The text where one of at least this precedence may stand: in brackets if it binds less
    /// tightly.
    pub fn at(self, alloc: Global, least: Precedence) -> Result<Rope, AllocError>
        ensures { IfOk result (λ r. text_of r ≡ text_at least (rope_phrase self)) }
    {
        let RopePhrase { text, precedence } = self;
        if precedence.number() < least.number() {
            text.between(alloc, "(", ")")
        } else {
            Ok(text)
        }
    }

    /// The same, joined.
    pub fn to_phrase(&self, alloc: Global) -> Result<Phrase, AllocError>
        ensures { IfOk result (λ p. phrase_of p ≡ rope_phrase self.now) }
    {
        let text = self.text.to_text(alloc)?;
        Ok(Phrase {
            text,
            precedence: self.precedence,
        })
    }
}

/// A test and its two branches.
pub fn make_conditional(
    alloc: Global,
    test: Rope,
    yes: Rope,
    no: Rope,
) -> Result<RopePhrase, AllocError>
    ensures { IfOk result (λ p. rope_phrase p
        ≡ (conditional_text (text_of test) (text_of yes) (text_of no), Precedence.Conditional)) }
{
    let mut text = test.between(alloc, "if ", " then ")?;
    text.append(yes)?;
    text.push_str(" else ")?;
    text.append(no)?;
    Ok(RopePhrase {
        text,
        precedence: Precedence::Conditional,
    })
}

/// Two texts with a word or a sign between them.
pub fn make_infix(
    precedence: Precedence,
    left: Rope,
    sign: &str,
    right: Rope,
) -> Result<RopePhrase, AllocError>
    ensures { IfOk result (λ p.
        rope_phrase p ≡ infix_of precedence (text_of left) sign.now (text_of right)) }
{
    let mut text = left;
    text.push_str(" ")?;
    text.push_str(sign)?;
    text.push_str(" ")?;
    text.append(right)?;
    Ok(RopePhrase { text, precedence })
}

/// A sign and its operand. As the grammar does not mix signs, an operand with one gets brackets.
pub fn make_prefix(alloc: Global, sign: &str, arg: RopePhrase) -> Result<RopePhrase, AllocError>
    ensures { IfOk result (λ p. rope_phrase p ≡ prefix_of sign.now (rope_phrase arg)) }
{
    let mut text = Rope::from_str(alloc, sign)?;
    text.append(arg.at(alloc, Precedence::Member)?)?;
    Ok(RopePhrase {
        text,
        precedence: Precedence::Unary,
    })
}

/// A call of a method.
pub fn make_method(
    alloc: Global,
    target: RopePhrase,
    name: &str,
    args: Rope,
) -> Result<RopePhrase, AllocError>
    ensures { IfOk result (λ p.
        rope_phrase p ≡ method_of (rope_phrase target) name.now (text_of args)) }
{
    let mut text = target.at(alloc, Precedence::Member)?;
    text.push_str(".")?;
    text.push_str(name)?;
    text.append(args.between(alloc, "(", ")")?)?;
    Ok(RopePhrase::member(text))
}

/// What stands behind a record to take an attribute of it: `.a`, or `["a b"]` of no identifier.
pub fn make_attribute(alloc: Global, attr: &str) -> Result<String, AllocError>
    ensures { IfOk result (λ s. string_bytes s ≡ attribute_text attr.now) }
{
    let key = make_key(alloc, attr)?;
    if is_normalized_ident(attr) {
        format!(in alloc; ".{key}")
    } else {
        format!(in alloc; "[{key}]")
    }
}

/// A path of attributes. The grammar wants identifiers in a path of several.
pub fn make_path(alloc: Global, attrs: &NonEmpty<RcStr>) -> Result<String, AllocError>
    ensures { IfOk result (λ s. string_bytes s
        ≡ path_text (rc_str_bytes attrs.now.head) (map rc_str_bytes attrs.now.tail.items)) }
{
    let mut path = make_key(alloc, &attrs.head)?;
    for attr in &attrs.tail {
        path.push('.')?;
        path.push_str(&make_key(alloc, attr)?)?;
    }
    Ok(path)
}

// An attribute as it stands behind `has`: `a`, or `"a b"` of no identifier.
fn make_key(alloc: Global, attr: &str) -> Result<String, AllocError>
    ensures { IfOk result (λ s. string_bytes s ≡ key_text attr.now) }
{
    if is_normalized_ident(attr) {
        String::from_str(alloc, attr)
    } else {
        format!(in alloc; "\"{}\"", Escaped(attr))
    }
}

/// The texts with commas between them.
#[tactic(auto, using(crate::proofs::Rows::first_of_row, crate::proofs::Rows::empty_row))]
pub fn make_row(alloc: Global, phrases: vec::IntoIter<RopePhrase>) -> Result<Rope, AllocError>
    ensures { IfOk result (λ r.
        text_of r ≡ row_text (map rope_phrase (into_iter_items phrases))) }
{
    let mut phrases = phrases;
    match phrases.next() {
        Some(first) => push_others(first.text, phrases),
        None => Ok(Rope::new(alloc, String::new(alloc))),
    }
}

// A text, and then each of the phrases behind a comma.
fn push_others(text: Rope, phrases: vec::IntoIter<RopePhrase>) -> Result<Rope, AllocError>
    ensures { IfOk result (λ r. text_of r
        ≡ text_of text ++ others_text (map rope_phrase (into_iter_items phrases))) }
{
    let mut row = text;
    for phrase in phrases {
        row.push_str(", ")?;
        row.append(phrase.text)?;
    }
    Ok(row)
}

/// A call of an extension function: the first argument of a method stands before its name.
pub fn make_call(
    alloc: Global,
    name: String,
    args: Vec<RopePhrase>,
) -> Result<RopePhrase, AllocError>
    ensures { IfOk result (λ p.
        rope_phrase p ≡ call_of (string_bytes name) (map rope_phrase args.items)) }
{
    if is_method(&name) {
        make_method_call(alloc, &name, args)
    } else {
        make_function_call(alloc, &name, args.into_iter())
    }
}

// The call of a method.
#[tactic(auto, using(crate::proofs::Methods::first_argument, crate::proofs::Methods::no_argument))]
fn make_method_call(
    alloc: Global,
    name: &str,
    args: Vec<RopePhrase>,
) -> Result<RopePhrase, AllocError>
    ensures { IfOk result (λ p.
        rope_phrase p ≡ method_call_of name.now (map rope_phrase args.items)) }
{
    let mut args = args.into_iter();
    match args.next() {
        Some(target) => {
            let others = make_row(alloc, args)?;
            make_method(alloc, target, name, others)
        }
        None => Ok(RopePhrase::of_word(alloc, format!(in alloc; "{name}()")?)),
    }
}

// The call of a function.
fn make_function_call(
    alloc: Global,
    name: &str,
    args: vec::IntoIter<RopePhrase>,
) -> Result<RopePhrase, AllocError>
    ensures { IfOk result (λ p.
        rope_phrase p ≡ function_of name.now (map rope_phrase (into_iter_items args))) }
{
    let mut text = Rope::from_str(alloc, name)?;
    text.append(make_row(alloc, args)?.between(alloc, "(", ")")?)?;
    Ok(RopePhrase::member(text))
}

// Whether it is the name of a method of Cedar's extensions, and not of a function.
fn is_method(name: &str) -> bool
    ensures { result ≡ is_method name.now }
{
    is_method_of_times(name) || is_method_of_numbers(name)
}

// Of datetimes and durations.
fn is_method_of_times(name: &str) -> bool
    ensures { result ≡ is_method_of_times name.now }
{
    name == "offset"
        || name == "durationSince"
        || name == "toDate"
        || name == "toTime"
        || name == "toMilliseconds"
        || name == "toSeconds"
        || name == "toMinutes"
        || name == "toHours"
        || name == "toDays"
}

// Of addresses and decimals.
fn is_method_of_numbers(name: &str) -> bool
    ensures { result ≡ is_method_of_numbers name.now }
{
    name == "isIpv4"
        || name == "isIpv6"
        || name == "isLoopback"
        || name == "isMulticast"
        || name == "isInRange"
        || name == "lessThan"
        || name == "lessThanOrEqual"
        || name == "greaterThan"
        || name == "greaterThanOrEqual"
}

/// Each key with its value.
pub fn make_fields(
    alloc: Global,
    pairs: Vec<(RcStr, RopePhrase)>,
) -> Result<Vec<RopePhrase>, AllocError>
    ensures { IfOk result (λ fields.
        map rope_phrase fields.items ≡ map field_of (meant_pairs rope_phrase pairs.items)) }
{
    let mut fields = Vec::with_capacity(alloc, pairs.len())?;
    for (key, value) in pairs {
        fields.push(make_field(alloc, &key, value)?)?;
    }
    Ok(fields)
}

// A key with its value.
fn make_field(alloc: Global, key: &str, value: RopePhrase) -> Result<RopePhrase, AllocError>
    ensures { IfOk result (λ p. rope_phrase p ≡ field_of (key.now, rope_phrase value)) }
{
    let mut text = Rope::new(alloc, format!(in alloc; "\"{}\": ", Escaped(key))?);
    text.append(value.text)?;
    Ok(RopePhrase::member(text))
}
