//! Values of extensions (`extension.rs`).
ghost use Rattle.std.specs.Prelude.{◌≡◌, IfOk, Some, None};
ghost use Rattle.std.specs.Option.{option_copied};
ghost use Rattle.cedar_names.specs.PlainNames.{bare_name};
ghost use Rattle.semantics_values.specs.BareValue as bare;
ghost use Rattle.semantics_values.specs.ValueTypes.{value_type};
ghost use Rattle.cedar_values.specs.BareCalls.{bare_call};
ghost use Rattle.cedar_values.specs.BareValues.{bare_representable, extension_of};

use cedar_exprs::RestrictedExpr;
use cedar_names::Name;
use cedar_terms::{StaticallyTyped, Type};
use std::alloc::{AllocError, Global};
use std::convert::Infallible;

/// A value of an extension. Where values are compared its type needs `Ord` too.
pub trait ExtensionValue: Drop {
    ghost use Rattle.std.specs.Prelude.{ℕ, List, Bool};
    ghost use Rattle.cedar_names.specs.Names.{BareName};
    ghost use Rattle.semantics_values.specs.BareValue.{BareCall};

    // The name of its type.
    ghost type_name: { Self → BareName };

    // The call that makes it.
    ghost canonical: { Self → BareCall };

    // Its text.
    ghost text_of: { Self → List ℕ };

    // Whether operators may be overloaded at its type.
    ghost is_overloadable: { Self → Bool };

    /// The name of its type.
    fn typename(&self, alloc: Global) -> Result<Name, AllocError>
        ensures { IfOk result (λ n. bare_name n ≡ type_name self.now) };

    /// Whether its type takes part in the overloading of operators. Nothing in these layers asks
    /// for it.
    fn supports_operator_overloading(&self) -> bool
        ensures { result ≡ is_overloadable self.now };

    /// The call that makes it: a function and its arguments.
    fn canonical_repr(&self, alloc: Global) -> Result<(Name, Vec<RestrictedExpr>), AllocError>
        ensures { IfOk result (λ c. bare_call c ≡ canonical self.now) };

    /// Its text.
    fn text(&self) -> &str
        ensures { result.now ≡ text_of self.now };
}

/// An extension value beside the call that was given for it, if any. It compares by its value
/// alone.
#[derive(Debug, Drop)]
#[derive_where(PartialEq, Eq, PartialOrd, Ord; X)]
pub struct RepresentableExtensionValue<X = NoExtension> {
    value: X,
    #[derive_where(skip(EqHashOrd))]
    given: Option<(Name, Vec<RestrictedExpr>)>,
}

impl<X> RepresentableExtensionValue<X> {
    /// An extension value with the call that was given for it.
    pub fn new(value: X, func: Name, args: Vec<RestrictedExpr>) -> RepresentableExtensionValue<X>
        ensures { bare_representable result
            ≡ bare.ExtensionValue value (Some (bare_call (func, args))) }
    {
        RepresentableExtensionValue {
            value,
            given: Some((func, args)),
        }
    }

    /// An extension value whose canonical call stands for it.
    pub fn new_lazy(value: X) -> RepresentableExtensionValue<X>
        ensures { bare_representable result ≡ bare.ExtensionValue value None }
    {
        RepresentableExtensionValue { value, given: None }
    }

    /// The value.
    pub fn value(&self) -> &X
        ensures { result.now ≡ extension_of self.now }
    {
        &self.value
    }

    // The call that was given for it, if any.
    pub(crate) fn given(&self) -> Option<&(Name, Vec<RestrictedExpr>)>
        ensures { option_copied result ≡ self.now.given }
    {
        self.given.as_ref()
    }
}

impl<X: ExtensionValue> RepresentableExtensionValue<X> {
    /// The name of its type.
    pub fn typename(&self, alloc: Global) -> Result<Name, AllocError>
        ensures { IfOk result (λ n. bare_name n ≡ X.type_name (extension_of self.now)) }
    {
        self.value.typename(alloc)
    }
}

impl<X: ExtensionValue> StaticallyTyped for RepresentableExtensionValue<X> {
    ghost bare_type_of = { λ e. value_type X.type_name (bare_representable e) };

    fn type_of(&self, alloc: Global) -> Result<Type, AllocError> {
        let name = self.typename(alloc)?;
        Ok(Type::Extension { name })
    }
}

/// An extension value that stands for a name of a type alone, beside a `T`.
#[derive(PartialEq, Eq, PartialOrd, Ord, Debug, Drop)]
pub struct Holder<T> {
    held: T,
    name: Name,
}

/// The type for values without extension values: `Value` alone is `Value<NoExtension>`.
pub type NoExtension = Holder<Infallible>;

impl<T: Drop> ExtensionValue for Holder<T> {
    ghost use Rattle.std.specs.Prelude.{[], false};
    ghost use Rattle.cedar_values.specs.Holders.{held_name, held_call};

    ghost type_name = { held_name };

    ghost canonical = { held_call };

    ghost text_of = { λ _. [] };

    ghost is_overloadable = { λ _. false };

    fn typename(&self, alloc: Global) -> Result<Name, AllocError> {
        self.name.clone(alloc)
    }

    fn supports_operator_overloading(&self) -> bool {
        false
    }

    fn canonical_repr(&self, alloc: Global) -> Result<(Name, Vec<RestrictedExpr>), AllocError> {
        Ok((self.name.clone(alloc)?, Vec::new(alloc)))
    }

    fn text(&self) -> &str {
        ""
    }
}
