//! Whether an extension value is inside of a value (`value.rs`).
ghost use Rattle.std.specs.Prelude.{◌≡◌, IfOk};
ghost use Rattle.semantics_values.specs.ValueExpr.{has_extension};
ghost use Rattle.cedar_values.specs.BareValues.{bare_value};

use crate::value::{Value, ValueKind};
use crate::waiting::{push_members, push_values};
use std::alloc::{AllocError, Global};

impl<X> Value<X> {
    /// Whether an extension value is inside, at any depth.
    pub fn holds_extension(&self, alloc: Global) -> Result<bool, AllocError>
        ensures { IfOk result (λ holds. holds ≡ has_extension (bare_value self.now)) }
    {
        let mut waiting = Vec::new(alloc);
        let mut kind = self.value_kind();
        'walk: loop {
            match kind {
                ValueKind::Lit(_) => {}
                ValueKind::Set(set) => push_members(&mut waiting, set)?,
                ValueKind::Record(pairs) => push_values(&mut waiting, pairs)?,
                ValueKind::ExtensionValue(_) => return Ok(true),
            }
            match waiting.pop() {
                Some(next) => kind = next,
                None => return Ok(false),
            }
        }
    }
}
