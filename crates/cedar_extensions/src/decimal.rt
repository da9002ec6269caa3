//! Decimal numbers.
ghost use Rattle.std.specs.Prelude.{
  ◌≡◌,
  ◌↔◌,
  ◌^◌,
  ◌<◌,
  ◌≤◌,
  ◌<ℤ◌,
  ◌≤ℤ◌,
  ◌∷◌,
  ◌==◌,
  false,
  IsTrue,
  MatchOption,
  length,
  FitsSigned,
  ◌-◌,
  true,
  Some,
};
ghost use Rattle.std.specs.Option.{SomeIff};
ghost use Rattle.cedar_extensions.specs.Numbers.{begins_with};
ghost use Rattle.cedar_extensions.specs.Parts.{HasNoParts, HasParts};
ghost use Rattle.std.specs.List.{list_all};
ghost use Rattle.std.specs.Char.{is_ascii_digit};
ghost use Rattle.std.specs.Int.{w64};
ghost use Rattle.cedar_extensions.specs.Numbers.{signed};
ghost use Rattle.cedar_extensions.specs.Parts.{ten_thousandths_of};

use crate::digits::{number, signed_number, split_digits, split_sign};
use std::fmt;
use std::str::FromStr;
use thiserror::Error;

/// A number with four digits behind the point, in 64 bits (Cedar's type `decimal`).
///
/// ```rust
/// let half: Decimal = "-0.5".parse()?;
/// ```
#[derive(Clone, Copy, Debug, PartialEq, Eq, PartialOrd, Ord, Hash)]
pub struct Decimal {
    /// The number times ten thousand.
    pub ten_thousandths: i64,
}

/// Why a text stands for no decimal.
#[derive(Clone, Copy, Debug, PartialEq, Eq, Hash, Error)]
pub enum DecimalError {
    /// It is not a sign or none, digits, a point and digits.
    #[error("not a well-formed decimal value")]
    Malformed,
    /// More than four digits stand behind the point.
    #[error("too many digits behind the point of a decimal, the maximum is 4")]
    TooManyDigits,
    /// 64 bits do not hold the number of ten-thousandths.
    #[error("overflow when converting to decimal")]
    Overflow,
}

// Whether a decimal's text is negative, and the digits before and behind its point.
fn parts(text: &str) -> Option<(bool, &[u8], &[u8])>
    ensures { MatchOption result (HasNoParts text.now)
        (λ x. HasParts text.now x.0 x.1.now x.2.now) }
{
    let (is_negative, rest) = split_sign(text.as_bytes());
    let (whole, rest) = split_digits(rest);
    let Some(rest) = behind_point(rest) else {
        return None;
    };
    let (fraction, rest) = split_digits(rest);
    if whole.is_empty() || fraction.is_empty() || !rest.is_empty() {
        return None;
    }
    Some((is_negative, whole, fraction))
}

// The number of ten-thousandths, if 64 bits hold it.
fn ten_thousandths(is_negative: bool, whole: &[u8], fraction: &[u8]) -> Option<i64>
    requires whole { list_all is_ascii_digit whole.now ≡ true }
    requires fraction { list_all is_ascii_digit fraction.now ≡ true }
    requires at_most_four { length fraction.now ≤ 4 }
    ensures { SomeIff result
        (FitsSigned w64 (signed is_negative (ten_thousandths_of whole.now fraction.now)))
        (signed is_negative (ten_thousandths_of whole.now fraction.now)) }
{
    signed_number(is_negative, size(whole, fraction)?)
}

// The same without a sign.
fn size(whole: &[u8], fraction: &[u8]) -> Option<u64>
    requires whole { list_all is_ascii_digit whole.now ≡ true }
    requires fraction { list_all is_ascii_digit fraction.now ≡ true }
    requires at_most_four { length fraction.now ≤ 4 }
    ensures { SomeIff result
        (ten_thousandths_of whole.now fraction.now < 2 ^ 64)
        (ten_thousandths_of whole.now fraction.now) }
{
    let above = number(whole)?.checked_mul(10_000)?;
    let below = number(fraction)?.checked_mul(unit(fraction.len()))?;
    above.checked_add(below)
}

// How many ten-thousandths the last of so many digits behind the point counts.
fn unit(digits: usize) -> u64
    requires { digits ≤ 4 }
    ensures { result ≡ 10 ^ (4 - digits) }
{
    match digits {
        0 => 10_000,
        1 => 1000,
        2 => 100,
        3 => 10,
        _ => 1,
    }
}

// What follows the point that a text begins with.
fn behind_point(text: &[u8]) -> Option<&[u8]>
    ensures { MatchOption result (begins_with (λ c. c == 46) text.now ≡ false)
        (λ rest. text.now ≡ 46 ∷ rest.now) }
{
    match text {
        [b'.', rest @ ..] => Some(rest),
        _ => None,
    }
}

/// Reads a sign or none, digits, a point and one to four digits, as `-12.3400`.
impl FromStr for Decimal {
    ghost use Rattle.cedar_extensions.specs.Decimals.{Reads};

    type Err = DecimalError;

    ghost from_str_gives = { Reads };

    fn from_str(text: &str) -> Result<Decimal, DecimalError> {
        let Some((is_negative, whole, fraction)) = parts(text) else {
            return Err(DecimalError::Malformed);
        };
        if fraction.len() > 4 {
            return Err(DecimalError::TooManyDigits);
        }
        match ten_thousandths(is_negative, whole, fraction) {
            Some(ten_thousandths) => Ok(Decimal { ten_thousandths }),
            None => Err(DecimalError::Overflow),
        }
    }
}

impl Decimal {
    /// Whether this number is less than the other.
    pub fn less_than(self, other: Decimal) -> bool
        ensures { IsTrue result ↔ (self.ten_thousandths <ℤ other.ten_thousandths) }
    {
        self < other
    }

    /// Whether this number is less than the other, or equal.
    pub fn less_than_or_equal(self, other: Decimal) -> bool
        ensures { IsTrue result ↔ (self.ten_thousandths ≤ℤ other.ten_thousandths) }
    {
        self <= other
    }

    /// Whether this number is greater than the other.
    pub fn greater_than(self, other: Decimal) -> bool
        ensures { IsTrue result ↔ (other.ten_thousandths <ℤ self.ten_thousandths) }
    {
        self > other
    }

    /// Whether this number is greater than the other, or equal.
    pub fn greater_than_or_equal(self, other: Decimal) -> bool
        ensures { IsTrue result ↔ (other.ten_thousandths ≤ℤ self.ten_thousandths) }
    {
        self >= other
    }
}

/// With four digits behind the point, as `-0.5000`.
impl fmt::Display for Decimal {
    ghost use Rattle.std.specs.Prelude.{Some};
    ghost use Rattle.cedar_extensions.specs.Decimals.{decimal_text};

    ghost output = { λ d. Some (decimal_text d.ten_thousandths) };

    fn fmt<W: fmt::Write>(&self, f: &mut fmt::Formatter<W>) -> fmt::Result {
        let sign = if self.ten_thousandths < 0 { "-" } else { "" };
        let size = self.ten_thousandths.unsigned_abs();
        let whole = size / 10_000;
        let fraction = size % 10_000;
        let thousands = fraction / 1000;
        let hundreds = fraction / 100 % 10;
        let tens = fraction / 10 % 10;
        let ones = fraction % 10;
        write!(f, "{sign}{whole}.{thousands}{hundreds}{tens}{ones}")
    }
}
