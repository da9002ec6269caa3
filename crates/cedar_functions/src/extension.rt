//! The values of Cedar's extension types, of all four.
use cedar_extensions::{Datetime, Decimal, Duration, IpAddr};
use std::fmt;

/// A value of one of Cedar's extension types: what `X` is in `Value<X>` where conditions may speak
/// of decimals, IP addresses, moments and durations.
///
/// Values of two types are never equal; they are ordered by their types, in the order of the
/// variants, and within a type as its values are.
///
/// ```rust
/// let half = BuiltinExtension::Decimal("0.5".parse()?);
/// ```
#[derive(Clone, Copy, Debug, PartialEq, Eq, PartialOrd, Ord, Hash)]
pub enum BuiltinExtension {
    /// A number with four digits behind the point (`decimal`).
    Decimal(Decimal),
    /// A range of IP addresses (`ipaddr`).
    IpAddr(IpAddr),
    /// A moment (`datetime`).
    Datetime(Datetime),
    /// A span of time (`duration`).
    Duration(Duration),
}

impl BuiltinExtension {
    ghost use Rattle.std.specs.Prelude.{◌≡◌};
    ghost use Rattle.cedar_functions.specs.Extensions.{type_text};

    /// The name of its type: `decimal`, `ipaddr`, `datetime` or `duration`.
    pub fn type_name(self) -> &'static str
        ensures { result.now ≡ type_text self }
    {
        match self {
            BuiltinExtension::Decimal(_) => "decimal",
            BuiltinExtension::IpAddr(_) => "ipaddr",
            BuiltinExtension::Datetime(_) => "datetime",
            BuiltinExtension::Duration(_) => "duration",
        }
    }
}

/// As the call that makes it: `decimal("-0.5000")`, `ip("10.0.0.0/8")`, `duration("90000ms")`, or
/// `datetime("1970-01-01").offset(duration("86400000ms"))`.
impl fmt::Display for BuiltinExtension {
    ghost use Rattle.std.specs.Prelude.{Some};
    ghost use Rattle.cedar_functions.specs.Extensions.{extension_text};

    ghost output = { λ x. Some (extension_text x) };

    fn fmt<W: fmt::Write>(&self, f: &mut fmt::Formatter<W>) -> fmt::Result {
        match self {
            BuiltinExtension::Decimal(decimal) => write!(f, "decimal(\"{decimal}\")"),
            BuiltinExtension::IpAddr(range) => write!(f, "ip(\"{range}\")"),
            BuiltinExtension::Datetime(moment) => write!(f, "{moment}"),
            BuiltinExtension::Duration(duration) => write!(f, "duration(\"{duration}\")"),
        }
    }
}
