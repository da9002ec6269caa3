//! Values that may be written into a tree: well formed ones without extension values.
ghost use Rattle.std.specs.Prelude.{◌≡◌, IfOk, IfSome, IsTrue, Ok, option_map};
ghost use Rattle.semantics_request.specs.Residuals.{plain_or_open};
ghost use Rattle.cedar_values.specs.BareValues.{bare_value};
ghost use Rattle.cedar_values.specs.WellFormed.{well_formed};
ghost use Rattle.cedar_simplifier.specs.Simplified.{value_in};

use cedar_values::Value;
use cedar_values::laws::well_formed_parts;
use std::alloc::{AllocError, Global};

// A copy of a value, if no extension value is inside.
#[tactic(auto, using(crate::proofs::PlainValues::plain_laws))]
pub(crate) fn plain_copy<X: Ord + Drop>(
    alloc: Global,
    value: &Value<X>,
) -> Result<Option<Value<X>>, AllocError>
    requires { IsTrue (well_formed X.cmp value.now) }
    ensures value { IfOk result (λ copy. option_map bare_value copy
        ≡ value_in (plain_or_open X.cmp (Ok (bare_value value.now)))) }
    ensures well_formed { IfOk result (λ copy.
        IfSome copy (λ v. IsTrue (well_formed X.cmp v))) }
{
    well_formed_parts::<X>();
    if value.holds_extension(alloc)? {
        return Ok(None);
    }
    Ok(Some(value.clone(alloc)?))
}
