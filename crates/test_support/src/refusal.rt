//! Which calls are refused.
ghost use Rattle.std.specs.Prelude.{◌≡◌, ◌==◌, ℕ, Bool, false, IfOk};
ghost use Rattle.cedar_names.specs.NameOrder.{name_eq};
ghost use Rattle.cedar_names.specs.Names.{BareName};
ghost use Rattle.cedar_names.specs.PlainNames.{bare_name};
ghost use Rattle.test_support.specs.Refusing.{numbered};

use cedar_names::Name;
use std::alloc::{AllocError, Global};
use std::convert::AsStr;

/// A choice of calls that are refused, by the name and by how many arguments there are.
pub trait Refusal {
    // The choice.
    ghost refuses: { BareName → ℕ → Bool };

    /// Whether a call of this name with so many arguments is refused.
    fn is_refused(alloc: Global, name: &Name, count: usize) -> Result<bool, AllocError>
        ensures { IfOk result (λ b. b ≡ refuses (bare_name name.now) count) };
}

/// The calls whose name is `f` and `K` in decimal: `Numbered<3>` refuses the calls of `f3`.
pub enum Numbered<const K: usize> {}

impl<const K: usize> Refusal for Numbered<K> {
    ghost refuses = { λ name _. name_eq name (numbered K) };

    fn is_refused(alloc: Global, name: &Name, _: usize) -> Result<bool, AllocError> {
        let refused = format!(in alloc; "f{K}")?;
        Ok(name.is_unqualified() && name.basename_as_ref().as_str() == refused.as_str())
    }
}

/// The calls with `COUNT` arguments.
pub enum Counted<const COUNT: usize> {}

impl<const COUNT: usize> Refusal for Counted<COUNT> {
    ghost refuses = { λ _ count. count == COUNT };

    fn is_refused(_: Global, _: &Name, count: usize) -> Result<bool, AllocError> {
        Ok(count == COUNT)
    }
}

/// No calls.
pub enum Nothing {}

impl Refusal for Nothing {
    ghost refuses = { λ _ _. false };

    fn is_refused(_: Global, _: &Name, _: usize) -> Result<bool, AllocError> {
        Ok(false)
    }
}
