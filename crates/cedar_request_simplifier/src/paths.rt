//! Paths of attributes, as far as they are known.
ghost use Rattle.std.specs.Prelude.{◌≡◌, IfOk, IsTrue, Ok, map, option_map};
ghost use Rattle.std.specs.Rc.{rc_str_bytes};
ghost use Rattle.cedar_exprs.specs.BareExpr.{further};
ghost use Rattle.semantics_eval.specs.Outcomes.{truth};
ghost use Rattle.semantics_simplify.specs.Simplified.{outcome_of};
ghost use Rattle.semantics_request.specs.Entities.{attribute, has_attribute};
ghost use Rattle.semantics_request.specs.Evaluator.{path_by};
ghost use Rattle.semantics_request.specs.Residuals.{plain_or_open};
ghost use Rattle.cedar_values.specs.BareValues.{bare_value};
ghost use Rattle.cedar_values.specs.WellFormed.{well_formed};
ghost use Rattle.cedar_simplifier.specs.Simplified.{meaning_of, value_in};

use cedar_names::NonEmpty;
use cedar_request::EntityStore;
use cedar_request_evaluator::operations::find_attribute;
use cedar_simplifier::Simplified;
use cedar_values::Value;
use cedar_values::laws::well_formed_parts;
use std::alloc::{AllocError, Global};
use std::rc::RcStr;

// Whether a path of attributes is there, if that is known.
#[tactic(auto, using(crate::proofs::PathSteps::open_path, crate::proofs::Operands::operand_laws))]
pub(crate) fn path<X: Ord + Drop, S: EntityStore<X>>(
    alloc: Global,
    entities: &S,
    expr: &Simplified<X>,
    attrs: &NonEmpty<RcStr>,
) -> Result<Option<bool>, AllocError>
    ensures { let s = S.bare_entities entities.now in
        IfOk result (λ known. option_map (λ b. truth {X = X} b) known
        ≡ value_in (path_by (has_attribute s) (λ k t. plain_or_open X.cmp (attribute s k t))
        (outcome_of (meaning_of expr.now)) (rc_str_bytes attrs.now.head) (further attrs.now))) }
{
    match expr.as_value() {
        Some(value) => path_in_value(alloc, entities, value, &attrs.head, &attrs.tail),
        None => Ok(None),
    }
}

// The same of a value.
#[tactic(auto, using(crate::proofs::PathSteps::path_laws))]
fn path_in_value<X: Ord + Drop, S: EntityStore<X>>(
    alloc: Global,
    entities: &S,
    value: &Value<X>,
    first: &RcStr,
    rest: &[RcStr],
) -> Result<Option<bool>, AllocError>
    requires { IsTrue (well_formed X.cmp value.now) }
    ensures { let s = S.bare_entities entities.now in
        IfOk result (λ known. option_map (λ b. truth {X = X} b) known
        ≡ value_in (path_by (has_attribute s) (λ k t. plain_or_open X.cmp (attribute s k t))
        (Ok (bare_value value.now)) (rc_str_bytes first.now) (map rc_str_bytes rest.now))) }
{
    well_formed_parts::<X>();
    let mut here = value;
    let mut key = first;
    for next in rest {
        match find_attribute(entities, here, key) {
            Ok(Some(inner)) => {
                if inner.holds_extension(alloc)? {
                    return Ok(None);
                }
                here = inner;
                key = next;
            }
            Ok(None) => return Ok(Some(false)),
            Err(_) => return Ok(None),
        }
    }
    match find_attribute(entities, here, key) {
        Ok(found) => Ok(Some(found.is_some())),
        Err(_) => Ok(None),
    }
}
