//! Durations.
ghost use Rattle.std.specs.Prelude.{
  ◌≡◌,
  ◌++◌,
  ◌+◌,
  ◌*◌,
  ◌<◌,
  ◌^◌,
  FitsSigned,
  List,
  MatchOption,
  MatchResult,
  [],
  false,
  int_div,
  pos,
  true,
  ℕ,
};
ghost use Rattle.std.specs.Char.{is_ascii_digit};
ghost use Rattle.std.specs.List.{list_all};
ghost use Rattle.std.specs.Option.{SomeIff};
ghost use Rattle.cedar_extensions.specs.Numbers.{number_of};
ghost use Rattle.cedar_extensions.specs.Amounts.{IsAmounts, unit_name, unit_size};
ghost use Rattle.cedar_extensions.specs.AmountReads.{AddsUp, Descends, IsAmount, IsNotRead};

use crate::digits::{number, signed_number, split_digits, split_sign, split_word};
use std::fmt;
use std::str::FromStr;
use thiserror::Error;

/// A span of time in milliseconds, in 64 bits (Cedar's type `duration`).
///
/// ```rust
/// let day_and_a_half: Duration = "1d12h".parse()?;
/// ```
#[derive(Clone, Copy, Debug, PartialEq, Eq, PartialOrd, Ord, Hash)]
pub struct Duration {
    pub milliseconds: i64,
}

/// Why a text stands for no duration.
#[derive(Clone, Copy, Debug, PartialEq, Eq, Hash, Error)]
pub enum DurationError {
    /// It is not a sign or none, and amounts of days, hours, minutes, seconds and milliseconds.
    #[error("not a well-formed duration, which is a sign or none and parts as in `1d2h3m4s5ms`")]
    Malformed,
    /// 64 bits do not hold the number of milliseconds.
    #[error("overflow when converting to duration")]
    Overflow,
}

// A unit of time in a duration's text.
#[derive(Clone, Copy)]
enum Unit {
    Day,
    Hour,
    Minute,
    Second,
    Millisecond,
}

impl Unit {
    fn name(self) -> &'static [u8]
        ensures { result.now ≡ unit_name self }
    {
        match self {
            Unit::Day => b"d",
            Unit::Hour => b"h",
            Unit::Minute => b"m",
            Unit::Second => b"s",
            Unit::Millisecond => b"ms",
        }
    }

    fn milliseconds(self) -> u64
        ensures { result ≡ unit_size self }
    {
        match self {
            Unit::Day => 24 * 60 * 60 * 1000,
            Unit::Hour => 60 * 60 * 1000,
            Unit::Minute => 60 * 1000,
            Unit::Second => 1000,
            Unit::Millisecond => 1,
        }
    }
}

// The milliseconds of amounts of these units, each at most once and in this order.
fn amounts(text: &[u8], units: &[Unit]) -> Result<u64, DurationError>
    requires { Descends units.now }
    ensures { MatchResult result (IsAmounts units.now text.now) (IsNotRead units.now text.now) }
{
    let Some((unit, later)) = units.split_first() else {
        return nothing(text);
    };
    match amount(text, *unit) {
        None => amounts(text, later),
        Some((digits, rest)) => add(digits, *unit, amounts(rest, later)),
    }
}

// Where no unit is left, no text may be.
fn nothing(text: &[u8]) -> Result<u64, DurationError>
    ensures { MatchResult result (IsAmounts [] text.now) (IsNotRead [] text.now) }
{
    if text.is_empty() {
        Ok(0)
    } else {
        Err(DurationError::Malformed)
    }
}

// The digits of the amount of this unit that a text begins with, and what follows it.
fn amount(text: &[u8], unit: Unit) -> Option<(&[u8], &[u8])>
    ensures { MatchOption result
        ((digits rest : List ℕ) → ¬ (IsAmount text.now digits (unit_name unit) rest))
        (λ x. IsAmount text.now x.0.now (unit_name unit) x.1.now) }
{
    let (digits, rest) = split_digits(text);
    if digits.is_empty() {
        return None;
    }
    let (word, rest) = split_word(rest);
    if word == unit.name() {
        Some((digits, rest))
    } else {
        None
    }
}

// An amount and the milliseconds of others.
fn add(digits: &[u8], unit: Unit, others: Result<u64, DurationError>) -> Result<u64, DurationError>
    requires { list_all is_ascii_digit digits.now ≡ true }
    ensures { AddsUp unit digits.now others result }
{
    match others {
        Ok(others) => match total(digits, unit, others) {
            Some(total) => Ok(total),
            None => Err(DurationError::Overflow),
        },
        Err(error) => Err(error),
    }
}

// The same, if they are below 2 ^ 64.
fn total(digits: &[u8], unit: Unit, others: u64) -> Option<u64>
    requires { list_all is_ascii_digit digits.now ≡ true }
    ensures { SomeIff result
        (number_of digits.now * unit_size unit + others < 2 ^ 64)
        (number_of digits.now * unit_size unit + others) }
{
    let these = number(digits)?.checked_mul(unit.milliseconds())?;
    these.checked_add(others)
}

/// Reads a sign or none, and amounts of days, hours, minutes, seconds and milliseconds, each at
/// most once and in this order, as `-1d2h3m4s5ms` and `90m`.
impl FromStr for Duration {
    ghost use Rattle.cedar_extensions.specs.Durations.{Reads};

    type Err = DurationError;

    ghost from_str_gives = { Reads };

    fn from_str(text: &str) -> Result<Duration, DurationError> {
        let (is_negative, rest) = split_sign(text.as_bytes());
        if rest.is_empty() {
            return Err(DurationError::Malformed);
        }
        let units = [
            Unit::Day,
            Unit::Hour,
            Unit::Minute,
            Unit::Second,
            Unit::Millisecond,
        ];
        match amounts(rest, &units) {
            Ok(size) => match signed_number(is_negative, size) {
                Some(milliseconds) => Ok(Duration { milliseconds }),
                None => Err(DurationError::Overflow),
            },
            Err(error) => Err(error),
        }
    }
}

impl Duration {
    /// The milliseconds.
    pub fn to_milliseconds(self) -> i64
        ensures { result ≡ self.milliseconds }
    {
        self.milliseconds
    }

    /// The whole seconds, rounded toward zero, as are the other units.
    pub fn to_seconds(self) -> i64
        ensures { result ≡ int_div self.milliseconds (pos 1000) }
    {
        self.milliseconds / 1000
    }

    /// The whole minutes.
    pub fn to_minutes(self) -> i64
        ensures { result ≡ int_div self.milliseconds (pos 60000) }
    {
        self.milliseconds / 60_000
    }

    /// The whole hours.
    pub fn to_hours(self) -> i64
        ensures { result ≡ int_div self.milliseconds (pos 3600000) }
    {
        self.milliseconds / 3_600_000
    }

    /// The whole days.
    pub fn to_days(self) -> i64
        ensures { result ≡ int_div self.milliseconds (pos 86400000) }
    {
        self.milliseconds / 86_400_000
    }
}

/// In milliseconds, as `90000ms`.
impl fmt::Display for Duration {
    ghost use Rattle.std.specs.Prelude.{Some};
    ghost use Rattle.cedar_extensions.specs.Durations.{duration_text};

    ghost output = { λ d. Some (duration_text d.milliseconds) };

    fn fmt<W: fmt::Write>(&self, f: &mut fmt::Formatter<W>) -> fmt::Result {
        let milliseconds = self.milliseconds;
        write!(f, "{milliseconds}ms")
    }
}
