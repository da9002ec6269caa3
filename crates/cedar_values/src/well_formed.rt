//! Values that are known to be well formed.
ghost use Rattle.std.specs.Prelude.{IsTrue};
ghost use Rattle.cedar_values.specs.WellFormed.{well_formed};

use crate::extension_value::{ExtensionValue, NoExtension};
use crate::value::Value;
use cedar_exprs::{RestrictedExpr, SubstituteValue};
use cedar_terms::{StaticallyTyped, Type};
use std::alloc::{AllocError, Global};

/// A value that is known to be well formed: each set inside is the ascending list of its members.
///
/// Bind unknowns to such values: evaluation then takes each as it is, at no cost of its size,
/// where it would have to write out a plain `Value` as an expression and evaluate that.
///
/// ```rust
/// let value = WellFormedValue::new(Value::from(Literal::Long(3)));
/// ```
#[derive(PartialEq, Eq, Debug, Drop)]
pub struct WellFormedValue<X: Ord = NoExtension> {
    value: Value<X>,
    ghost kept: { IsTrue (well_formed X.cmp value) },
}

impl<X: Ord + Drop> WellFormedValue<X> {
    ghost use Rattle.std.specs.Prelude.{◌≡◌, false, IfOk, MatchResult};
    ghost use Rattle.cedar_values.specs.BareValues.{bare_value, value_place};
    ghost use Rattle.cedar_values.specs.WellFormedValues.{value_of};

    /// The value, if it is well formed; else it comes back. Each part of it is looked at once: do
    /// it where a name is bound.
    ///
    /// The calls of this crate make well formed values alone; `new_unchecked` takes one of theirs.
    pub fn new(value: Value<X>) -> Result<WellFormedValue<X>, Value<X>>
        ensures { MatchResult result
            (λ w. value_of w ≡ value)
            (λ v. (v ≡ value) × (well_formed X.cmp value ≡ false)) }
    {
        if value.is_well_formed() {
            Ok(WellFormedValue { value })
        } else {
            Err(value)
        }
    }

    /// The value, where the caller knows that it is well formed: it is not looked at.
    pub fn new_unchecked(value: Value<X>) -> WellFormedValue<X>
        requires { IsTrue (well_formed X.cmp value) }
        ensures { value_of result ≡ value }
    {
        WellFormedValue { value }
    }

    /// The value.
    pub fn as_value(&self) -> &Value<X>
        ensures same { result.now ≡ value_of self.now }
        ensures well_formed { IsTrue (well_formed X.cmp result.now) }
    {
        &self.value
    }

    /// The value of one that is consumed.
    pub fn into_value(self) -> Value<X>
        ensures same { result ≡ value_of self }
        ensures well_formed { IsTrue (well_formed X.cmp result) }
    {
        self.value
    }

    /// A copy, which shares what is inside and takes no memory.
    pub fn clone(&self, alloc: Global) -> Result<WellFormedValue<X>, AllocError>
        ensures tree { IfOk result (λ w. bare_value (value_of w) ≡ bare_value (value_of self.now)) }
        ensures place { IfOk result (λ w.
            value_place (value_of w) ≡ value_place (value_of self.now)) }
    {
        Ok(WellFormedValue {
            value: self.value.clone(alloc)?,
        })
    }
}

impl<X: Ord + Drop> Clone for WellFormedValue<X> {
    ghost use Rattle.cedar_values.specs.Kinds.{IsValueCopy};
    ghost use Rattle.cedar_values.specs.WellFormedValues.{value_of};

    ghost is_clone = { λ w copy. IsValueCopy (value_of w) (value_of copy) };

    fn clone(&self) -> Result<WellFormedValue<X>, AllocError> {
        Ok(WellFormedValue::new_unchecked(Clone::clone(&self.value)?))
    }
}

impl<X: ExtensionValue + Ord> SubstituteValue for WellFormedValue<X> {
    ghost use Rattle.cedar_values.specs.WellFormedValues.{tree_of, type_of};

    ghost bare_type_of = { type_of X.type_name };

    ghost bare_expr_of = { tree_of X.canonical };

    fn value_type(&self, alloc: Global) -> Result<Type, AllocError> {
        self.value.type_of(alloc)
    }

    fn value_expr(&self, alloc: Global) -> Result<RestrictedExpr, AllocError> {
        self.value.value_expr(alloc)
    }
}
