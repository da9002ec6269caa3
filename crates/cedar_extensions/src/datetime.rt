//! Moments.
ghost use Rattle.std.specs.Prelude.{◌≡◌, ◌+ℤ◌, ◌-ℤ◌, pos};
ghost use Rattle.std.specs.Int.{int_rem_euclid};

use crate::duration::Duration;
use crate::moment::{form_of, has_date, has_time, has_zone, milliseconds, read_fields};
use std::fmt;
use std::str::FromStr;
use thiserror::Error;

/// A moment: the milliseconds from the beginning of 1970 on, in UTC, in 64 bits (Cedar's type
/// `datetime`).
///
/// ```rust
/// let noon: Datetime = "2024-10-15T12:00:00Z".parse()?;
/// ```
#[derive(Clone, Copy, Debug, PartialEq, Eq, PartialOrd, Ord, Hash)]
pub struct Datetime {
    /// The milliseconds from 1970 on, less than zero before.
    pub milliseconds: i64,
}

/// Why a text stands for no moment, or an operation gives none.
#[derive(Clone, Copy, Debug, PartialEq, Eq, Hash, Error)]
pub enum DatetimeError {
    /// The text is neither a date, as `2024-10-15`, nor a date with a time and a zone, as
    /// `2024-10-15T11:35:00Z` and `2024-10-15T11:35:00.000+0200`.
    #[error("not a well-formed datetime, as `2024-10-15` or `2024-10-15T11:35:00Z`")]
    Malformed,
    /// There is no such day.
    #[error("no such day")]
    Date,
    /// There is no such time of day.
    #[error("no such time of day")]
    Time,
    /// There is no such distance from UTC.
    #[error("no such offset from UTC")]
    Zone,
    /// 64 bits do not hold the milliseconds of an operation's result.
    #[error("overflow of a datetime")]
    Overflow,
}

/// Reads a date, or a date, a time, its milliseconds or none, and `Z` or a distance from UTC, as
/// `2024-10-15` and `2024-10-15T11:35:00.000+0200`.
impl FromStr for Datetime {
    ghost use Rattle.cedar_extensions.specs.Datetimes.{Reads};

    type Err = DatetimeError;

    ghost from_str_gives = { Reads };

    fn from_str(text: &str) -> Result<Datetime, DatetimeError> {
        Datetime::read(text.as_bytes())
    }
}

impl Datetime {
    ghost use Rattle.cedar_extensions.specs.Datetimes.{IsMoment, IsSpan, Reads, day_start};

    // What the bytes of a text are read as.
    fn read(text: &[u8]) -> Result<Datetime, DatetimeError>
        ensures { Reads text.now result }
    {
        let Some(form) = form_of(text) else {
            return Err(DatetimeError::Malformed);
        };
        let fields = read_fields(text, form);
        if !has_date(fields) {
            return Err(DatetimeError::Date);
        }
        if !has_time(fields) {
            return Err(DatetimeError::Time);
        }
        if !has_zone(fields) {
            return Err(DatetimeError::Zone);
        }
        let milliseconds = milliseconds(fields, form);
        Ok(Datetime { milliseconds })
    }

    /// The moment so much later, or earlier if the duration is negative.
    pub fn offset(self, duration: Duration) -> Result<Datetime, DatetimeError>
        ensures { IsMoment (self.milliseconds +ℤ duration.milliseconds) result }
    {
        match self.milliseconds.checked_add(duration.milliseconds) {
            Some(milliseconds) => Ok(Datetime { milliseconds }),
            None => Err(DatetimeError::Overflow),
        }
    }

    /// How much later this moment is than the other.
    pub fn duration_since(self, other: Datetime) -> Result<Duration, DatetimeError>
        ensures { IsSpan (self.milliseconds -ℤ other.milliseconds) result }
    {
        match self.milliseconds.checked_sub(other.milliseconds) {
            Some(milliseconds) => Ok(Duration { milliseconds }),
            None => Err(DatetimeError::Overflow),
        }
    }

    /// The beginning of the day, in UTC.
    pub fn to_date(self) -> Result<Datetime, DatetimeError>
        ensures { IsMoment (day_start self.milliseconds) result }
    {
        let days = self.milliseconds.div_euclid(86_400_000);
        match days.checked_mul(86_400_000) {
            Some(milliseconds) => Ok(Datetime { milliseconds }),
            None => Err(DatetimeError::Overflow),
        }
    }

    /// The time since the beginning of the day.
    pub fn to_time(self) -> Duration
        ensures { result.milliseconds ≡ int_rem_euclid self.milliseconds (pos 86400000) }
    {
        Duration {
            milliseconds: self.milliseconds.rem_euclid(86_400_000),
        }
    }
}

/// As the call that makes it, since no text stands for a moment of a year past 9999:
/// `datetime("1970-01-01").offset(duration("86400000ms"))`.
impl fmt::Display for Datetime {
    ghost use Rattle.std.specs.Prelude.{Some};
    ghost use Rattle.cedar_extensions.specs.Datetimes.{datetime_text};

    ghost output = { λ d. Some (datetime_text d.milliseconds) };

    fn fmt<W: fmt::Write>(&self, f: &mut fmt::Formatter<W>) -> fmt::Result {
        let milliseconds = self.milliseconds;
        write!(
            f,
            "datetime(\"1970-01-01\").offset(duration(\"{milliseconds}ms\"))"
        )
    }
}
