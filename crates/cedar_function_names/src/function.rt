//! The functions of Cedar's extensions: their names, how they are called, and how many arguments
//! they take.
ghost use Rattle.std.specs.Prelude.{◌≡◌};
ghost use Rattle.cedar_function_names.specs.Names.{
  all_functions,
  arity_of,
  function_name,
  function_named,
  is_method,
};

/// A function or a method of Cedar's extensions `ipaddr`, `decimal` and `datetime`.
#[derive(Clone, Copy, Debug, PartialEq, Eq)]
pub enum ExtensionFunction {
    /// `ip(text)`: the range of IP addresses that a text stands for.
    Ip,
    /// `decimal(text)`: the decimal that a text stands for.
    Decimal,
    /// `datetime(text)`: the moment that a text stands for.
    Datetime,
    /// `duration(text)`: the duration that a text stands for.
    Duration,
    /// `range.isIpv4()`: whether the addresses are of version 4.
    IsIpv4,
    /// `range.isIpv6()`: whether the addresses are of version 6.
    IsIpv6,
    /// `range.isLoopback()`: whether all are loopback addresses.
    IsLoopback,
    /// `range.isMulticast()`: whether all are multicast addresses.
    IsMulticast,
    /// `range.isInRange(range)`: whether all are in the other range.
    IsInRange,
    /// `decimal.lessThan(decimal)`.
    LessThan,
    /// `decimal.lessThanOrEqual(decimal)`.
    LessThanOrEqual,
    /// `decimal.greaterThan(decimal)`.
    GreaterThan,
    /// `decimal.greaterThanOrEqual(decimal)`.
    GreaterThanOrEqual,
    /// `datetime.offset(duration)`: the moment so much later.
    Offset,
    /// `datetime.durationSince(datetime)`: how much later the one is than the other.
    DurationSince,
    /// `datetime.toDate()`: the beginning of the day.
    ToDate,
    /// `datetime.toTime()`: the time since the beginning of the day.
    ToTime,
    /// `duration.toMilliseconds()`.
    ToMilliseconds,
    /// `duration.toSeconds()`: the whole seconds, rounded toward zero.
    ToSeconds,
    /// `duration.toMinutes()`: the whole minutes, rounded toward zero.
    ToMinutes,
    /// `duration.toHours()`: the whole hours, rounded toward zero.
    ToHours,
    /// `duration.toDays()`: the whole days, rounded toward zero.
    ToDays,
}

impl ExtensionFunction {
    /// All of them: the functions first, then the methods by their types.
    pub fn all() -> [ExtensionFunction; 22]
        ensures { result ≡ all_functions }
    {
        [
            ExtensionFunction::Ip,
            ExtensionFunction::Decimal,
            ExtensionFunction::Datetime,
            ExtensionFunction::Duration,
            ExtensionFunction::IsIpv4,
            ExtensionFunction::IsIpv6,
            ExtensionFunction::IsLoopback,
            ExtensionFunction::IsMulticast,
            ExtensionFunction::IsInRange,
            ExtensionFunction::LessThan,
            ExtensionFunction::LessThanOrEqual,
            ExtensionFunction::GreaterThan,
            ExtensionFunction::GreaterThanOrEqual,
            ExtensionFunction::Offset,
            ExtensionFunction::DurationSince,
            ExtensionFunction::ToDate,
            ExtensionFunction::ToTime,
            ExtensionFunction::ToMilliseconds,
            ExtensionFunction::ToSeconds,
            ExtensionFunction::ToMinutes,
            ExtensionFunction::ToHours,
            ExtensionFunction::ToDays,
        ]
    }

    /// The function of this name, as `ip` and `isInRange`, if there is one.
    pub fn from_name(name: &str) -> Option<ExtensionFunction>
        ensures { result ≡ function_named name.now }
    {
        match name {
            "ip" => Some(ExtensionFunction::Ip),
            "decimal" => Some(ExtensionFunction::Decimal),
            "datetime" => Some(ExtensionFunction::Datetime),
            "duration" => Some(ExtensionFunction::Duration),
            "isIpv4" => Some(ExtensionFunction::IsIpv4),
            "isIpv6" => Some(ExtensionFunction::IsIpv6),
            "isLoopback" => Some(ExtensionFunction::IsLoopback),
            "isMulticast" => Some(ExtensionFunction::IsMulticast),
            "isInRange" => Some(ExtensionFunction::IsInRange),
            "lessThan" => Some(ExtensionFunction::LessThan),
            "lessThanOrEqual" => Some(ExtensionFunction::LessThanOrEqual),
            "greaterThan" => Some(ExtensionFunction::GreaterThan),
            "greaterThanOrEqual" => Some(ExtensionFunction::GreaterThanOrEqual),
            "offset" => Some(ExtensionFunction::Offset),
            "durationSince" => Some(ExtensionFunction::DurationSince),
            "toDate" => Some(ExtensionFunction::ToDate),
            "toTime" => Some(ExtensionFunction::ToTime),
            "toMilliseconds" => Some(ExtensionFunction::ToMilliseconds),
            "toSeconds" => Some(ExtensionFunction::ToSeconds),
            "toMinutes" => Some(ExtensionFunction::ToMinutes),
            "toHours" => Some(ExtensionFunction::ToHours),
            "toDays" => Some(ExtensionFunction::ToDays),
            _ => None,
        }
    }

    /// Its name.
    pub fn name(self) -> &'static str
        ensures { result.now ≡ function_name self }
    {
        match self {
            ExtensionFunction::Ip => "ip",
            ExtensionFunction::Decimal => "decimal",
            ExtensionFunction::Datetime => "datetime",
            ExtensionFunction::Duration => "duration",
            ExtensionFunction::IsIpv4 => "isIpv4",
            ExtensionFunction::IsIpv6 => "isIpv6",
            ExtensionFunction::IsLoopback => "isLoopback",
            ExtensionFunction::IsMulticast => "isMulticast",
            ExtensionFunction::IsInRange => "isInRange",
            ExtensionFunction::LessThan => "lessThan",
            ExtensionFunction::LessThanOrEqual => "lessThanOrEqual",
            ExtensionFunction::GreaterThan => "greaterThan",
            ExtensionFunction::GreaterThanOrEqual => "greaterThanOrEqual",
            ExtensionFunction::Offset => "offset",
            ExtensionFunction::DurationSince => "durationSince",
            ExtensionFunction::ToDate => "toDate",
            ExtensionFunction::ToTime => "toTime",
            ExtensionFunction::ToMilliseconds => "toMilliseconds",
            ExtensionFunction::ToSeconds => "toSeconds",
            ExtensionFunction::ToMinutes => "toMinutes",
            ExtensionFunction::ToHours => "toHours",
            ExtensionFunction::ToDays => "toDays",
        }
    }

    /// Whether it is called behind its first argument and a dot, and not before all of them.
    pub fn is_method(self) -> bool
        ensures { result ≡ is_method self }
    {
        !matches!(
            self,
            ExtensionFunction::Ip
                | ExtensionFunction::Decimal
                | ExtensionFunction::Datetime
                | ExtensionFunction::Duration
        )
    }

    /// How many arguments it takes, a method's first one among them.
    pub fn arity(self) -> usize
        ensures { result ≡ arity_of self }
    {
        match self {
            ExtensionFunction::IsInRange
            | ExtensionFunction::LessThan
            | ExtensionFunction::LessThanOrEqual
            | ExtensionFunction::GreaterThan
            | ExtensionFunction::GreaterThanOrEqual
            | ExtensionFunction::Offset
            | ExtensionFunction::DurationSince => 2,
            _ => 1,
        }
    }
}
