//! The functions whose calls a recorded call has refused. A builder is made of nothing, so its type
//! says which.
ghost use Rattle.std.specs.Prelude.{◌≡◌, ◌==◌, not};
ghost use Rattle.std.specs.Int.Bits.{bit_and};
ghost use Rattle.cedar_names.specs.Names.{name_text};
ghost use Rattle.calls_substitution.specs.Chosen.{bit_of};

use cedar_names::Name;
use std::alloc::{AllocError, Global};
use test_support::Refusal;

/// The calls of the functions whose bits are set.
pub enum Chosen<const BITS: u8> {}

impl<const BITS: u8> Refusal for Chosen<BITS> {
    ghost refuses = { λ name _. not (bit_and BITS (bit_of (name_text name)) == 0) };

    fn is_refused(alloc: Global, name: &Name, _: usize) -> Result<bool, AllocError> {
        let text = format!(in alloc; "{name}")?;
        Ok(BITS & bit(text.as_str()) != 0)
    }
}

/// The bit of a function.
pub fn bit(name: &str) -> u8
    ensures { result ≡ bit_of name.now }
{
    match name {
        "f" => 1,
        "ip" => 2,
        "A::B" => 4,
        "lng" => 8,
        "noret" => 16,
        "isIpv4" => 32,
        _ => 128,
    }
}
