//! The values of Cedar's extension types: decimals, IP addresses, moments and durations.
#![tactic(auto)]

mod calendar;
mod datetime;
mod decimal;
mod digits;
mod duration;
mod ip_addr;
pub mod laws;
mod moment;

pub use datetime::{Datetime, DatetimeError};
pub use decimal::{Decimal, DecimalError};
pub use duration::{Duration, DurationError};
pub use ip_addr::{IpAddr, IpAddrError};
