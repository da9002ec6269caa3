//! The methods of ranges of IP addresses.
ghost use Rattle.std.specs.Prelude.{◌≡◌, ◌<◌, ◌^◌};
ghost use Rattle.cedar_extensions.specs.IpAddrs.{address_of};
ghost use Rattle.cedar_extensions.specs.Ranges.{bits_of, width_of};
ghost use Rattle.semantics_extensions.specs.Tests as meant_tests;
ghost use Rattle.semantics_eval.specs.Outcomes.{settled};
ghost use Rattle.cedar_functions.specs.Answers.{answered};
ghost use Rattle.cedar_functions.specs.Functions as meant;

use crate::answer::Answer;
use cedar_evaluator::EvalFault;
use cedar_extensions::IpAddr;
use cedar_function_names::ExtensionFunction;
use semantics_extensions::laws::tests_are_exact;
use std::net;

// An address has as many bits as its version says.
fn bits_fit(address: net::IpAddr)
    ensures { bits_of address < 2 ^ width_of address }
{
    match address {
        net::IpAddr::V4(address) => {
            let _bits = address.to_bits();
        }
        net::IpAddr::V6(address) => {
            let _bits = address.to_bits();
        }
    }
}

// Whether all addresses of a range are loopback addresses.
#[tactic(auto, using(crate::proofs::Tested::same))]
fn is_loopback(range: IpAddr) -> bool
    ensures { result ≡ meant_tests.is_loopback range }
{
    tests_are_exact();
    bits_fit(range.address());
    range.is_loopback()
}

// Whether all addresses of a range are multicast addresses.
#[tactic(auto, using(crate::proofs::Tested::same))]
fn is_multicast(range: IpAddr) -> bool
    ensures { result ≡ meant_tests.is_multicast range }
{
    tests_are_exact();
    bits_fit(range.address());
    range.is_multicast()
}

// Whether all addresses of a range are in the other.
#[tactic(auto, using(crate::proofs::Tested::same))]
fn is_in_range(range: IpAddr, other: IpAddr) -> bool
    ensures { result ≡ meant_tests.is_in_range range other }
{
    tests_are_exact();
    bits_fit(range.address());
    range.is_in_range(other)
}

// What a method gives of a range.
pub(crate) fn of_range(function: ExtensionFunction, range: IpAddr) -> Result<Answer, EvalFault>
    ensures { answered result ≡ settled (meant.of_range function range) }
{
    match function {
        ExtensionFunction::IsIpv4 => Ok(Answer::Bool(range.is_ipv4())),
        ExtensionFunction::IsIpv6 => Ok(Answer::Bool(range.is_ipv6())),
        ExtensionFunction::IsLoopback => Ok(Answer::Bool(is_loopback(range))),
        ExtensionFunction::IsMulticast => Ok(Answer::Bool(is_multicast(range))),
        _ => Err(EvalFault::WrongType),
    }
}

// What a method gives of two ranges.
pub(crate) fn of_ranges(
    function: ExtensionFunction,
    range: IpAddr,
    other: IpAddr,
) -> Result<Answer, EvalFault>
    ensures { answered result ≡ settled (meant.of_ranges function range other) }
{
    match function {
        ExtensionFunction::IsInRange => Ok(Answer::Bool(is_in_range(range, other))),
        _ => Err(EvalFault::WrongType),
    }
}
