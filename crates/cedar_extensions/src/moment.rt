//! The parts of a moment's text.
ghost use Rattle.std.specs.Prelude.{
  ◌≡◌,
  ◌+◌,
  ◌*◌,
  ◌^◌,
  ◌<◌,
  ◌≤◌,
  ◌↔◌,
  ◌≤ℤ◌,
  IsTrue,
  Some,
  neg_ℤ,
  pos,
};
ghost use Rattle.cedar_extensions.specs.Moments.{
  HasDate,
  HasTime,
  HasZone,
  fields_of,
  form_of,
  local_milliseconds,
  millisecond_field,
  milliseconds_of,
  since_epoch,
  time_field,
  zone_field,
  zone_milliseconds,
};
ghost use Rattle.cedar_extensions.specs.FieldReads.{
  HasMillisecondDigits,
  HasTimeDigits,
  HasZoneDigits,
};
ghost use Rattle.cedar_extensions.specs.Shapes.{HasDigits, field, has_shape, is_like};

use crate::calendar::{days_before, is_date};
use crate::digits::number;

// The form of a moment's text: a date alone, or one with a time, without milliseconds or with
// them, and a zone.
#[derive(Clone, Copy, PartialEq, Eq)]
pub(crate) enum Form {
    Date,
    Utc,
    Ahead,
    Behind,
    MillisUtc,
    MillisAhead,
    MillisBehind,
}

// The numbers in a moment's text.
#[derive(Clone, Copy)]
pub(crate) struct Fields {
    year: u64,
    month: u64,
    day: u64,
    hour: u64,
    minute: u64,
    second: u64,
    millisecond: u64,
    zone_hours: u64,
    zone_minutes: u64,
}

// The form of a text, if it is a moment's.
#[tactic(auto, unfolding(crate::specs::Moments::form_of))]
pub(crate) fn form_of(text: &[u8]) -> Option<Form>
    ensures { result ≡ form_of text.now }
{
    if has_shape(b"0000-00-00", text) {
        Some(Form::Date)
    } else if has_shape(b"0000-00-00T00:00:00Z", text) {
        Some(Form::Utc)
    } else if has_shape(b"0000-00-00T00:00:00+0000", text) {
        Some(Form::Ahead)
    } else if has_shape(b"0000-00-00T00:00:00-0000", text) {
        Some(Form::Behind)
    } else if has_shape(b"0000-00-00T00:00:00.000Z", text) {
        Some(Form::MillisUtc)
    } else if has_shape(b"0000-00-00T00:00:00.000+0000", text) {
        Some(Form::MillisAhead)
    } else if has_shape(b"0000-00-00T00:00:00.000-0000", text) {
        Some(Form::MillisBehind)
    } else {
        None
    }
}

// Whether a text has a shape, in which the digit 0 stands for any digit.
#[tactic(auto, using(crate::proofs::ShapeLemmas::shape_end, crate::proofs::ShapeLemmas::shape_past, crate::proofs::ShapeLemmas::shape_step))]
fn has_shape(shape: &[u8], text: &[u8]) -> bool
    ensures { result ≡ has_shape shape.now text.now }
{
    if shape.is_empty() {
        return text.is_empty();
    }
    if text.is_empty() {
        return false;
    }
    is_like(shape[0], text[0]) && has_shape(&shape[1..], &text[1..])
}

// Whether a byte is what a byte of a shape stands for.
fn is_like(like: u8, byte: u8) -> bool
    ensures { result ≡ is_like like byte }
{
    if like == b'0' {
        byte.is_ascii_digit()
    } else {
        byte == like
    }
}

// The number of the digits that stand here, so many.
fn field(text: &[u8], start: usize, count: usize) -> u64
    requires digits { HasDigits text.now start count }
    requires few { count ≤ 4 }
    ensures exact { result ≡ field text.now start count }
    ensures bound { result < 10 ^ count }
{
    number(&text[start..start + count]).unwrap_or(0)
}

// The numbers in a text of this form.
pub(crate) fn read_fields(text: &[u8], form: Form) -> Fields
    requires { form_of text.now ≡ Some form }
    ensures exact { result ≡ fields_of text.now form }
    ensures year { result.year < 10000 }
    ensures millisecond { result.millisecond < 1000 }
{
    Fields {
        year: field(text, 0, 4),
        month: field(text, 5, 2),
        day: field(text, 8, 2),
        hour: time_field(text, form, 11),
        minute: time_field(text, form, 14),
        second: time_field(text, form, 17),
        millisecond: millisecond_field(text, form),
        zone_hours: zone_field(text, form, 0),
        zone_minutes: zone_field(text, form, 2),
    }
}

// A number of the time of day.
fn time_field(text: &[u8], form: Form, start: usize) -> u64
    requires { HasTimeDigits form text.now start }
    ensures { result ≡ time_field form text.now start }
{
    match form {
        Form::Date => 0,
        Form::Utc => field(text, start, 2),
        Form::Ahead => field(text, start, 2),
        Form::Behind => field(text, start, 2),
        Form::MillisUtc => field(text, start, 2),
        Form::MillisAhead => field(text, start, 2),
        Form::MillisBehind => field(text, start, 2),
    }
}

// The milliseconds.
fn millisecond_field(text: &[u8], form: Form) -> u64
    requires { HasMillisecondDigits form text.now }
    ensures exact { result ≡ millisecond_field form text.now }
    ensures bound { result < 1000 }
{
    match form {
        Form::Date => 0,
        Form::Utc => 0,
        Form::Ahead => 0,
        Form::Behind => 0,
        Form::MillisUtc => field(text, 20, 3),
        Form::MillisAhead => field(text, 20, 3),
        Form::MillisBehind => field(text, 20, 3),
    }
}

// A number of the distance from UTC.
fn zone_field(text: &[u8], form: Form, start: usize) -> u64
    requires digits { HasZoneDigits form text.now start }
    requires start { start ≤ 2 }
    ensures { result ≡ zone_field form text.now start }
{
    match form {
        Form::Date => 0,
        Form::Utc => 0,
        Form::Ahead => field(text, 20 + start, 2),
        Form::Behind => field(text, 20 + start, 2),
        Form::MillisUtc => 0,
        Form::MillisAhead => field(text, 24 + start, 2),
        Form::MillisBehind => field(text, 24 + start, 2),
    }
}

// Whether there is such a day.
pub(crate) fn has_date(fields: Fields) -> bool
    ensures { IsTrue result ↔ HasDate fields }
{
    is_date(fields.year, fields.month, fields.day)
}

// Whether there is such a time of day.
pub(crate) fn has_time(fields: Fields) -> bool
    ensures { IsTrue result ↔ HasTime fields }
{
    fields.hour < 24 && fields.minute < 60 && fields.second < 60
}

// Whether there is such a distance from UTC.
pub(crate) fn has_zone(fields: Fields) -> bool
    ensures { IsTrue result ↔ HasZone fields }
{
    fields.zone_hours < 24 && fields.zone_minutes < 60
}

// The milliseconds from 1970 on.
pub(crate) fn milliseconds(fields: Fields, form: Form) -> i64
    requires year { fields.year < 10000 }
    requires date { HasDate fields }
    requires time { HasTime fields }
    requires zone { HasZone fields }
    requires millisecond { fields.millisecond < 1000 }
    ensures { result ≡ milliseconds_of form fields }
{
    let since = since_epoch(fields);
    let zone = zone_milliseconds(fields);
    match form {
        Form::Date => since,
        Form::Utc => since,
        Form::Ahead => since - zone,
        Form::Behind => since + zone,
        Form::MillisUtc => since,
        Form::MillisAhead => since - zone,
        Form::MillisBehind => since + zone,
    }
}

// The milliseconds from 1970 on, by the clock of the zone.
fn since_epoch(fields: Fields) -> i64
    requires year { fields.year < 10000 }
    requires date { HasDate fields }
    requires time { HasTime fields }
    requires millisecond { fields.millisecond < 1000 }
    ensures exact { result ≡ since_epoch fields }
    ensures low { neg_ℤ (pos (10 ^ 15)) ≤ℤ result }
    ensures high { result ≤ℤ pos (10 ^ 15) }
{
    local_milliseconds(fields) as i64 - 62_167_219_200_000
}

// The milliseconds from the first day of the year 0 on.
fn local_milliseconds(fields: Fields) -> u64
    requires year { fields.year < 10000 }
    requires date { HasDate fields }
    requires time { HasTime fields }
    requires millisecond { fields.millisecond < 1000 }
    ensures exact { result ≡ local_milliseconds fields }
    ensures bound { result < 10 ^ 15 }
{
    let days = days_before(fields.year, fields.month, fields.day);
    let minutes = fields.hour * 60 + fields.minute;
    let seconds = minutes * 60 + fields.second;
    days * 86_400_000 + (seconds * 1000 + fields.millisecond)
}

// The distance from UTC.
fn zone_milliseconds(fields: Fields) -> i64
    requires { HasZone fields }
    ensures exact { result ≡ pos (zone_milliseconds fields) }
    ensures bound { result ≤ℤ pos (10 ^ 8) }
{
    ((fields.zone_hours * 60 + fields.zone_minutes) * 60_000) as i64
}
