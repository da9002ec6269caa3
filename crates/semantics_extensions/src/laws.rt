//! The laws of readings, of written texts and of tests.
ghost use Rattle.std.specs.Int.{w64};
ghost use Rattle.std.specs.Net.Addr.{IsIpv4Addr, IsIpv6Addr, MatchIp};
ghost use Rattle.std.specs.Prelude.{◌≡◌, ◌↔◌, ◌<◌, ◌^◌, FitsSigned, IsTrue, List, Some, codes};
ghost use Rattle.std.specs.Prelude.{pos, ℕ};
ghost use Rattle.cedar_extensions.specs.declared.datetime.Datetime.{Datetime};
ghost use Rattle.cedar_extensions.specs.declared.decimal.Decimal.{Decimal};
ghost use Rattle.cedar_extensions.specs.declared.duration.Duration.{Duration};
ghost use Rattle.cedar_extensions.specs.declared.ip_addr.IpAddr.{IpAddr};
ghost use Rattle.cedar_extensions.specs.Datetimes.{IsDatetimeText};
ghost use Rattle.cedar_extensions.specs.Decimals.{IsDecimalText, decimal_text};
ghost use Rattle.cedar_extensions.specs.Durations.{IsDurationText, duration_text};
ghost use Rattle.cedar_extensions.specs.IpAddrs.{
  IsIpAddrText,
  IsLoopback,
  IsMulticast,
  IsRangeWithin,
  address_of,
  ip_addr_text,
};
ghost use Rattle.cedar_extensions.specs.Ranges.{bits_of, width_of};
ghost use Rattle.semantics_extensions.specs.Datetimes.{moment};
ghost use Rattle.semantics_extensions.specs.Readings.{
  datetime_in,
  decimal_in,
  duration_in,
  ip_addr_in,
};
ghost use Rattle.semantics_extensions.specs.Tests.{is_in_range, is_loopback, is_multicast};

use cedar_extensions::laws::{ranges_by_bits, texts_are_unique};

/// What a text is read as is what it stands for, and nothing where it stands for nothing.
pub fn readings_are_exact()
    ensures decimals { (text : List ℕ) (d : Decimal) →
        (decimal_in text ≡ Some d) ↔ IsDecimalText text d }
    ensures durations { (text : List ℕ) (d : Duration) →
        (duration_in text ≡ Some d) ↔ IsDurationText text d }
    ensures ranges { (text : List ℕ) (r : IpAddr) →
        (ip_addr_in text ≡ Some r) ↔ IsIpAddrText text r }
    ensures moments { (text : List ℕ) (d : Datetime) →
        (datetime_in text ≡ Some d) ↔ IsDatetimeText text d }
{
    texts_are_unique();
}

/// The text of a decimal, of a duration and of a range is read as the value that it was written of,
/// if 64 bits hold the number, or the address is one of its version. The first day of 1970 is read
/// as the moment from which others are counted.
pub fn written_texts_are_read()
    ensures decimals { (d : Decimal) → FitsSigned w64 d.ten_thousandths →
        decimal_in (decimal_text d.ten_thousandths) ≡ Some d }
    ensures durations { (d : Duration) → FitsSigned w64 d.milliseconds →
        duration_in (duration_text d.milliseconds) ≡ Some d }
    ensures ranges { (r : IpAddr) → MatchIp (address_of r) IsIpv4Addr IsIpv6Addr →
        ip_addr_in (ip_addr_text r) ≡ Some r }
    ensures epoch { datetime_in (codes "1970-01-01") ≡ Some (moment (pos 0)) }
{
    readings_are_exact();
}

/// The tests of a range answer whether all its addresses pass, if the address has so many bits.
pub fn tests_are_exact()
    ensures loopback { (r : IpAddr) → bits_of (address_of r) < 2 ^ width_of (address_of r) →
        IsTrue (is_loopback r) ↔ IsLoopback r }
    ensures multicast { (r : IpAddr) → bits_of (address_of r) < 2 ^ width_of (address_of r) →
        IsTrue (is_multicast r) ↔ IsMulticast r }
    ensures in_range { (r s : IpAddr) → bits_of (address_of r) < 2 ^ width_of (address_of r) →
        IsTrue (is_in_range r s) ↔ IsRangeWithin r s }
{
    ranges_by_bits();
}
