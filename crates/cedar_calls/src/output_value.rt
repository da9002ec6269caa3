//! What functions of extensions answer (`extension.rs`).
ghost use Rattle.std.specs.Prelude.{◌≡◌, IfOk};

use cedar_terms::Unknown;
use cedar_values::{NoExtension, Value};
use std::alloc::{AllocError, Global};

/// What a function of an extension answers: a value, or one that is not known yet.
#[derive(Debug, Drop)]
pub enum ExtensionOutputValue<X = NoExtension> {
    /// A value.
    Known(Value<X>),
    /// A value that is not known yet.
    Unknown(Unknown),
}

impl<X: Drop> ExtensionOutputValue<X> {
    ghost use Rattle.cedar_calls.specs.OutputValues.{IsOutputCopy};

    /// A copy, which shares what is inside.
    pub fn clone(&self, _alloc: Global) -> Result<ExtensionOutputValue<X>, AllocError>
        ensures { IfOk result (IsOutputCopy self.now) }
    {
        Clone::clone(self)
    }
}

impl<X: Drop> Clone for ExtensionOutputValue<X> {
    ghost use Rattle.cedar_calls.specs.OutputValues.{IsOutputCopy};

    ghost is_clone = { IsOutputCopy };

    fn clone(&self) -> Result<ExtensionOutputValue<X>, AllocError> {
        match self {
            ExtensionOutputValue::Known(value) => {
                Ok(ExtensionOutputValue::Known(Clone::clone(value)?))
            }
            ExtensionOutputValue::Unknown(unknown) => {
                Ok(ExtensionOutputValue::Unknown(Clone::clone(unknown)?))
            }
        }
    }
}

impl<X> From<Value<X>> for ExtensionOutputValue<X> {
    ghost use Rattle.cedar_calls.specs.declared.output_value.ExtensionOutputValue.TheVariants.{
      Known,
    };

    ghost from_gives = { λ v o. o ≡ Known v };

    fn from(value: Value<X>) -> ExtensionOutputValue<X> {
        ExtensionOutputValue::Known(value)
    }
}
