//! The calendar.
ghost use Rattle.std.specs.Prelude.{◌≡◌, ◌↔◌, ◌<◌, ◌≤◌, IsTrue};
ghost use Rattle.cedar_extensions.specs.Calendar.{
  IsDate,
  days_before,
  days_of_months,
  days_of_years,
  is_leap,
  month_length,
};

// Whether there is such a day.
pub(crate) fn is_date(year: u64, month: u64, day: u64) -> bool
    ensures { IsTrue result ↔ IsDate year month day }
{
    1 <= month && month <= 12 && 1 <= day && day <= month_length(is_leap(year), month)
}

// The days before this one, from the first day of the year 0 on.
#[tactic(auto, using(crate::proofs::CalendarLemmas::month_is_short))]
pub(crate) fn days_before(year: u64, month: u64, day: u64) -> u64
    requires year { year < 10000 }
    requires date { IsDate year month day }
    ensures exact { result ≡ days_before year month day }
    ensures bound { result < 4000000 }
{
    days_of_years(year) + days_of_months(is_leap(year), month - 1) + (day - 1)
}

// Whether the year has 366 days.
fn is_leap(year: u64) -> bool
    ensures { result ≡ is_leap year }
{
    year % 4 == 0 && (year % 100 != 0 || year % 400 == 0)
}

// The days of a month.
fn month_length(is_leap: bool, month: u64) -> u64
    ensures exact { result ≡ month_length is_leap month }
    ensures bound { result ≤ 31 }
{
    match month {
        2 => { if is_leap { 29 } else { 28 } }
        4 | 6 | 9 | 11 => 30,
        _ => 31,
    }
}

// The days of the years before this one.
#[tactic(auto, using(crate::proofs::CalendarLemmas::years_by_division))]
fn days_of_years(year: u64) -> u64
    requires { year < 10000 }
    ensures exact { result ≡ days_of_years year }
    ensures bound { result < 3700000 }
{
    365 * year + (year + 3) / 4 + (year + 399) / 400 - (year + 99) / 100
}

// The days of the first months of a year.
#[tactic(auto, using(crate::proofs::CalendarLemmas::months_more, crate::proofs::CalendarLemmas::no_months))]
fn days_of_months(is_leap: bool, months: u64) -> u64
    requires { months < 12 }
    ensures exact { result ≡ days_of_months is_leap months }
    ensures bound { result < 366 }
{
    let mut days = 0;
    for month in 0..months {
        days += month_length(is_leap, month + 1);
    }
    days
}
