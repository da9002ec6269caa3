//! The context of a request (Cedar's `Context`).
ghost use Rattle.std.specs.Prelude.{◌≡◌, IsTrue};
ghost use Rattle.cedar_request.specs.Values.{is_record, tree_of};

use cedar_evaluator::operations::as_record;
use cedar_values::{NoExtension, Value, WellFormedValue};
use std::alloc::{AllocError, Global};

/// What a request says beside who asks to do what with which resource: a record.
///
/// ```rust
/// let context = Context::new(WellFormedValue::new_unchecked(record));
/// ```
#[derive(Debug, Drop)]
pub struct Context<X: Ord = NoExtension> {
    value: WellFormedValue<X>,
    ghost kept: { IsTrue (is_record (tree_of value)) },
}

impl<X: Ord + Drop> Context<X> {
    ghost use Rattle.std.specs.Prelude.{Some, false, IfOk, MatchResult};
    ghost use Rattle.semantics_values.specs.BareValue.{no_pairs};
    ghost use Rattle.cedar_request.specs.Requests.{pairs_of_context, value_of_context};

    /// The context of a record; any other value comes back.
    pub fn new(value: WellFormedValue<X>) -> Result<Context<X>, WellFormedValue<X>>
        ensures { MatchResult result
            (λ c. value_of_context c ≡ value)
            (λ v. (v ≡ value) × (is_record (tree_of value) ≡ false)) }
    {
        if has_fields(&value) {
            Ok(Context { value })
        } else {
            Err(value)
        }
    }

    /// The context that says nothing.
    pub fn empty(alloc: Global) -> Result<Context<X>, AllocError>
        ensures { IfOk result (λ c. pairs_of_context c ≡ Some no_pairs) }
    {
        let value = WellFormedValue::new_unchecked(Value::empty_record(alloc, None)?);
        Ok(Context { value })
    }

    /// The record.
    pub fn as_value(&self) -> &WellFormedValue<X>
        ensures same { result.now ≡ value_of_context self.now }
        ensures is_record { IsTrue (is_record (tree_of result.now)) }
    {
        &self.value
    }
}

// Whether a value is a record.
#[tactic(auto, using(crate::proofs::Records::record_at, crate::proofs::Records::no_record_at))]
fn has_fields<X: Ord + Drop>(value: &WellFormedValue<X>) -> bool
    ensures { result ≡ is_record (tree_of value.now) }
{
    match as_record(value.as_value()) {
        Some(_) => true,
        None => false,
    }
}
