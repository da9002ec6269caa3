//! IP addresses and ranges of them.
ghost use Rattle.std.specs.Prelude.{
  ◌≡◌,
  ◌++◌,
  ◌↔◌,
  ◌/◌,
  ◌^◌,
  ◌<◌,
  ◌≤◌,
  IsTrue,
  MatchOption,
  MatchResult,
  None,
  Some,
  decimal,
  false,
  length,
  true,
  ℕ,
};
ghost use Rattle.std.specs.List.{list_all, prefix_len};
ghost use Rattle.std.specs.Net.Addr.{is_ipv4, is_ipv6};
ghost use Rattle.std.specs.Option.{option_map};
ghost use Rattle.cedar_extensions.specs.Numbers.{begins_with};
ghost use Rattle.cedar_extensions.specs.Slashes.{IsSplit, is_no_slash};
ghost use Rattle.cedar_extensions.specs.Ranges.{
  HasLeadingZero,
  IsAddressText,
  IsWithin,
  is_mixed,
  width_of,
};
ghost use Rattle.cedar_extensions.specs.AddressReads.{IsNoAddress};

use crate::digits::{number, split_digits};
use std::str::FromStr;
use std::{fmt, net};
use thiserror::Error;

/// A range of IP addresses: those that share the first bits of an address (Cedar's type
/// `ipaddr`). A single address is the range whose prefix is all its bits.
///
/// ```rust
/// let office: IpAddr = "10.0.0.0/8".parse()?;
/// ```
#[derive(Clone, Copy, Debug, PartialEq, Eq, PartialOrd, Ord, Hash)]
pub struct IpAddr {
    address: net::IpAddr,
    prefix: u8,
    ghost within: { prefix ≤ width_of address },
}

/// Why a text stands for no IP address and no range.
#[derive(Clone, Copy, Debug, PartialEq, Eq, Hash, Error)]
pub enum IpAddrError {
    /// What stands in front of the slash, or as the whole text, is no address.
    #[error("invalid IP address syntax")]
    Malformed,
    /// An IPv4 address stands in an IPv6 address, as in `::ffff:127.0.0.1`.
    #[error("IPv4 addresses embedded in IPv6 addresses are not accepted")]
    EmbeddedIpv4,
    /// What stands behind the slash is no number of bits of the address, or has leading zeros.
    #[error("invalid prefix of an IP range")]
    Prefix,
}

// What stands in front of the first slash, and behind it.
fn split_slash(text: &str) -> (&[u8], Option<&[u8]>)
    ensures { IsSplit text.now result.0.now (option_map (λ back. back.now) result.1) }
{
    let (front, rest) = split_front(text.as_bytes());
    match rest.split_first() {
        Some((_slash, back)) => (front, Some(back)),
        None => (front, None),
    }
}

// What stands in front of the first slash, and the rest.
#[tactic(auto, using(crate::proofs::Splits::run_passes, crate::proofs::Splits::run_stops))]
fn split_front(text: &[u8]) -> (&[u8], &[u8])
    ensures spelled { text.now ≡ result.0.now ++ result.1.now }
    ensures front { list_all is_no_slash result.0.now ≡ true }
    ensures all { begins_with is_no_slash result.1.now ≡ false }
{
    text.split_at(front_length(text))
}

// How many bytes stand in front of the first slash.
fn front_length(text: &[u8]) -> usize
    ensures exact { result ≡ prefix_len is_no_slash text.now }
    ensures bound { result ≤ length text.now }
{
    text.iter().take_while(|byte| **byte != b'/').count()
}

// The address that a text writes.
fn read_address(text: &[u8]) -> Result<net::IpAddr, IpAddrError>
    ensures { MatchResult result (IsAddressText text.now) (IsNoAddress text.now) }
{
    if is_mixed(text) {
        return Err(IpAddrError::EmbeddedIpv4);
    }
    match net::IpAddr::parse_ascii(text) {
        Ok(address) => Ok(address),
        Err(_) => Err(IpAddrError::Malformed),
    }
}

// Whether a text has a colon and a point.
fn is_mixed(text: &[u8]) -> bool
    ensures { result ≡ is_mixed text.now }
{
    text.contains(&b':') && text.contains(&b'.')
}

// The decimal number without leading zeros that a text is, if it is at most this large.
fn read_prefix(text: &[u8], width: u8) -> Option<u8>
    ensures { MatchOption result
        ((n : ℕ) → n ≤ width → text.now ≡ decimal n → ⊥)
        (λ n. (text.now ≡ decimal n) × (n ≤ width)) }
{
    let (digits, rest) = split_digits(text);
    if digits.is_empty() || !rest.is_empty() || has_leading_zero(digits) {
        return None;
    }
    let prefix = number(digits)?;
    if prefix <= width as u64 {
        Some(prefix as u8)
    } else {
        None
    }
}

// Whether a zero stands in front of other digits.
fn has_leading_zero(digits: &[u8]) -> bool
    ensures { IsTrue result ↔ HasLeadingZero digits.now }
{
    matches!(digits, [b'0', _, ..])
}

// How many bits an address has.
fn width(address: net::IpAddr) -> u8
    ensures exact { result ≡ width_of address }
    ensures bound { result ≤ 128 }
{
    match address {
        net::IpAddr::V4(_) => 32,
        net::IpAddr::V6(_) => 128,
    }
}

// Whether each number of this width that begins with the first bits of the one address, so many,
// begins with the first bits of the other, so many.
fn is_within(width: u32, address: u128, prefix: u32, other: u128, other_prefix: u32) -> bool
    requires width { width ≤ 128 }
    requires prefix { prefix ≤ width }
    requires other_prefix { other_prefix ≤ width }
    requires address { address < 2 ^ width }
    ensures { IsTrue result ↔ IsWithin width address prefix other other_prefix }
{
    if prefix < other_prefix {
        return false;
    }
    let rest = width - other_prefix;
    first_bits(address, rest) == first_bits(other, rest)
}

// A number without its last bits, so many.
fn first_bits(number: u128, rest: u32) -> u128
    requires { rest ≤ 128 }
    ensures { result ≡ number / 2 ^ rest }
{
    if rest < 128 { number >> rest } else { 0 }
}

impl IpAddr {
    ghost use Rattle.cedar_extensions.specs.IpAddrs.{
      IsLoopback,
      IsMulticast,
      IsPrefixed,
      IsRangeWithin,
      address_of,
      prefix_of,
    };

    /// The range of the addresses that share so many first bits with this address.
    pub fn new(address: net::IpAddr, prefix: u8) -> IpAddr
        requires { prefix ≤ width_of address }
        ensures address { address_of result ≡ address }
        ensures prefix { prefix_of result ≡ prefix }
    {
        IpAddr { address, prefix }
    }

    // The range of this address with the prefix that stands behind its slash.
    fn with_prefix(address: net::IpAddr, back: &[u8]) -> Result<IpAddr, IpAddrError>
        ensures { IsPrefixed address back.now result }
    {
        match read_prefix(back, width(address)) {
            Some(prefix) => Ok(IpAddr::new(address, prefix)),
            None => Err(IpAddrError::Prefix),
        }
    }

    /// The address, all its bits included.
    pub fn address(self) -> net::IpAddr
        ensures { result ≡ address_of self }
    {
        self.address
    }

    /// How many first bits the addresses share.
    pub fn prefix(self) -> u8
        ensures exact { result ≡ prefix_of self }
        ensures bound { result ≤ width_of (address_of self) }
    {
        self.prefix
    }

    /// Whether the addresses are of version 4.
    pub fn is_ipv4(self) -> bool
        ensures { result ≡ is_ipv4 (address_of self) }
    {
        self.address.is_ipv4()
    }

    /// Whether the addresses are of version 6.
    pub fn is_ipv6(self) -> bool
        ensures { result ≡ is_ipv6 (address_of self) }
    {
        self.address.is_ipv6()
    }

    /// Whether all the addresses are loopback addresses: in `127.0.0.0/8`, or `::1`.
    pub fn is_loopback(self) -> bool
        ensures { IsTrue result ↔ IsLoopback self }
    {
        let prefix = u32::from(self.prefix);
        match self.address {
            net::IpAddr::V4(a) => is_within(32, u128::from(a.to_bits()), prefix, 0x7f00_0000, 8),
            net::IpAddr::V6(a) => is_within(128, a.to_bits(), prefix, 1, 128),
        }
    }

    /// Whether all the addresses are multicast addresses: in `224.0.0.0/4`, or in `ff00::/8`.
    pub fn is_multicast(self) -> bool
        ensures { IsTrue result ↔ IsMulticast self }
    {
        let prefix = u32::from(self.prefix);
        match self.address {
            net::IpAddr::V4(a) => is_within(32, u128::from(a.to_bits()), prefix, 0xe000_0000, 4),
            net::IpAddr::V6(a) => {
                let multicast = 0xff00_0000_0000_0000_0000_0000_0000_0000;
                is_within(128, a.to_bits(), prefix, multicast, 8)
            }
        }
    }

    /// Whether all the addresses are in the other range. Ranges of two versions are in neither.
    pub fn is_in_range(self, other: IpAddr) -> bool
        ensures { IsTrue result ↔ IsRangeWithin self other }
    {
        let prefix = u32::from(self.prefix);
        let least = u32::from(other.prefix);
        match (self.address, other.address) {
            (net::IpAddr::V4(a), net::IpAddr::V4(b)) => {
                let other_bits = u128::from(b.to_bits());
                is_within(32, u128::from(a.to_bits()), prefix, other_bits, least)
            }
            (net::IpAddr::V6(a), net::IpAddr::V6(b)) => {
                is_within(128, a.to_bits(), prefix, b.to_bits(), least)
            }
            _ => false,
        }
    }
}

/// Reads an address of either version, and a slash with a number of bits behind it or none, as
/// `10.0.0.0/8` and `::1`.
impl FromStr for IpAddr {
    ghost use Rattle.cedar_extensions.specs.IpAddrs.{Reads};

    type Err = IpAddrError;

    ghost from_str_gives = { Reads };

    fn from_str(text: &str) -> Result<IpAddr, IpAddrError> {
        let (front, back) = split_slash(text);
        match read_address(front) {
            Ok(address) => match back {
                None => Ok(IpAddr::new(address, width(address))),
                Some(back) => IpAddr::with_prefix(address, back),
            },
            Err(error) => Err(error),
        }
    }
}

/// With its prefix, as `10.0.0.1/32`. An IPv6 address is shown in hexadecimal groups alone.
impl fmt::Display for IpAddr {
    ghost use Rattle.std.specs.Prelude.{Some};
    ghost use Rattle.cedar_extensions.specs.IpAddrs.{ip_addr_text};

    ghost output = { λ r. Some (ip_addr_text r) };

    fn fmt<W: fmt::Write>(&self, f: &mut fmt::Formatter<W>) -> fmt::Result {
        let prefix = self.prefix;
        match self.address {
            net::IpAddr::V4(address) => write!(f, "{address}/{prefix}"),
            net::IpAddr::V6(address) => {
                let groups = address.hex_groups();
                write!(f, "{groups}/{prefix}")
            }
        }
    }
}
