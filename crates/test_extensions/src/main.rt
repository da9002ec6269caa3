//! Reads values of Cedar's extension types from texts and asks them something: one question a line
//! of standard input. The stored answers were worked by hand.
#![tactic(auto)]

use anyhow::Result;
use cedar_extensions::{Datetime, Decimal, Duration, IpAddr};
use std::alloc::{AllocError, Global};
use std::fmt::Display;

fn main(rt: HostRuntime) -> Result<()> {
    for line in rt.lines(rt.alloc()) {
        let line = line?;
        let answer = answer(rt.alloc(), line.as_str())?;
        println!(rt; "{line}: {answer}")?;
    }
    Ok(())
}

// What a line asks, behind its first word.
fn answer(alloc: Global, line: &str) -> Result<String, AllocError> {
    let (question, text) = line.split_once(" ").unwrap_or((line, ""));
    let (first, second) = text.split_once(" ").unwrap_or((text, ""));
    match question {
        "decimal" => shown(alloc, text.parse::<Decimal>()),
        "duration" => shown(alloc, text.parse::<Duration>()),
        "ip" => shown(alloc, text.parse::<IpAddr>()),
        "datetime" => shown(alloc, text.parse::<Datetime>()),
        "compare" => compare(alloc, first, second),
        "units" => units(alloc, text),
        "kinds" => kinds(alloc, text),
        "range" => range(alloc, first, second),
        "parts" => parts(alloc, text),
        "offset" => offset(alloc, first, second),
        "since" => since(alloc, first, second),
        _ => String::from_str(alloc, "no such question"),
    }
}

// The text of a value, or of an error.
fn shown<T: Display + Drop, E: Display + Drop>(
    alloc: Global,
    read: Result<T, E>,
) -> Result<String, AllocError> {
    match read {
        Ok(value) => format!(in alloc; "{value}"),
        Err(error) => format!(in alloc; "{error}"),
    }
}

// Whether the one decimal is less than the other, not greater, greater, and not less.
fn compare(alloc: Global, left: &str, right: &str) -> Result<String, AllocError> {
    match (left.parse::<Decimal>(), right.parse::<Decimal>()) {
        (Ok(left), Ok(right)) => {
            let less = left.less_than(right);
            let not_greater = left.less_than_or_equal(right);
            let greater = left.greater_than(right);
            let not_less = left.greater_than_or_equal(right);
            format!(in alloc; "{less} {not_greater} {greater} {not_less}")
        }
        _ => refused(alloc),
    }
}

// The days, hours, minutes, seconds and milliseconds of a duration, each rounded.
fn units(alloc: Global, text: &str) -> Result<String, AllocError> {
    match text.parse::<Duration>() {
        Ok(duration) => {
            let days = duration.to_days();
            let hours = duration.to_hours();
            let minutes = duration.to_minutes();
            let seconds = duration.to_seconds();
            let milliseconds = duration.to_milliseconds();
            format!(in alloc; "{days} {hours} {minutes} {seconds} {milliseconds}")
        }
        Err(_) => refused(alloc),
    }
}

// Whether a range is of IPv4 or of IPv6, and whether of loopback or of multicast addresses.
fn kinds(alloc: Global, text: &str) -> Result<String, AllocError> {
    match text.parse::<IpAddr>() {
        Ok(range) => {
            let is_ipv4 = range.is_ipv4();
            let is_ipv6 = range.is_ipv6();
            let is_loopback = range.is_loopback();
            let is_multicast = range.is_multicast();
            format!(in alloc; "{is_ipv4} {is_ipv6} {is_loopback} {is_multicast}")
        }
        Err(_) => refused(alloc),
    }
}

// Whether the one range is in the other, and whether the other is in it.
fn range(alloc: Global, left: &str, right: &str) -> Result<String, AllocError> {
    match (left.parse::<IpAddr>(), right.parse::<IpAddr>()) {
        (Ok(left), Ok(right)) => {
            let forth = left.is_in_range(right);
            let back = right.is_in_range(left);
            format!(in alloc; "{forth} {back}")
        }
        _ => refused(alloc),
    }
}

// The day and the time of day of a moment.
fn parts(alloc: Global, text: &str) -> Result<String, AllocError> {
    match text.parse::<Datetime>() {
        Ok(moment) => {
            let date = shown(alloc, moment.to_date())?;
            let time = moment.to_time();
            format!(in alloc; "{date} {time}")
        }
        Err(_) => refused(alloc),
    }
}

// A moment so much later.
fn offset(alloc: Global, moment: &str, duration: &str) -> Result<String, AllocError> {
    match (moment.parse::<Datetime>(), duration.parse::<Duration>()) {
        (Ok(moment), Ok(duration)) => shown(alloc, moment.offset(duration)),
        _ => refused(alloc),
    }
}

// The time between two moments.
fn since(alloc: Global, later: &str, earlier: &str) -> Result<String, AllocError> {
    match (later.parse::<Datetime>(), earlier.parse::<Datetime>()) {
        (Ok(later), Ok(earlier)) => shown(alloc, later.duration_since(earlier)),
        _ => refused(alloc),
    }
}

fn refused(alloc: Global) -> Result<String, AllocError> {
    String::from_str(alloc, "refused")
}
