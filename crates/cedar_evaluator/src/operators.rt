//! The operators on values.
ghost use Rattle.std.specs.Int.{w64};
ghost use Rattle.std.specs.Prelude.{◌≡◌, ℤ, FitsSigned, IsTrue, Some, SomeIff};
ghost use Rattle.cedar_terms.specs.Entities.{bare_entity_type};
ghost use Rattle.cedar_terms.specs.declared.ops.UnaryOp.TheVariants as unary;
ghost use Rattle.cedar_terms.specs.declared.ops.BinaryOp.TheVariants as binary;
ghost use Rattle.cedar_values.specs.BareValues.{bare_value};
ghost use Rattle.cedar_values.specs.WellFormed.{well_formed};
ghost use Rattle.semantics_eval.specs.Attributes.{is_in, like_in};
ghost use Rattle.semantics_eval.specs.Longs.{long};
ghost use Rattle.semantics_eval.specs.Operators.{apply_one, apply_two};
ghost use Rattle.semantics_eval.specs.Outcomes.{settled};
ghost use Rattle.cedar_evaluator.specs.Kinds.{incomparable, longs_of, tested};
ghost use Rattle.cedar_evaluator.specs.Outcomes.{bare_fault, faulted, literal_outcome};

use crate::fault::EvalFault;
use crate::kinds::{as_bool, as_entity, as_extension, as_long, as_set, as_text};
use cedar_sorted_slices::laws::{none_is_any, part_is_all};
use cedar_terms::{BinaryOp, EntityType, Integer, Literal, Pattern, UnaryOp};
use cedar_values::Value;
use cedar_values::laws::order_of_values;
use semantics_eval::laws::longs_fit;

// A test of a value: it fails where the value has the wrong type.
pub(crate) fn test<X>(answer: Option<bool>) -> Result<Literal, EvalFault>
    ensures { literal_outcome {X = X} (faulted result) ≡ settled (tested answer) }
{
    match answer {
        Some(truth) => Ok(Literal::Bool(truth)),
        None => Err(EvalFault::WrongType),
    }
}

// A result of arithmetic: it fails where 64 bits do not hold it.
fn long<X>(made: Option<Integer>) -> Result<Literal, EvalFault>
    ensures { (z : ℤ) → SomeIff made (FitsSigned w64 z) z
        → literal_outcome {X = X} (faulted result) ≡ settled (long z) }
{
    longs_fit();
    match made {
        Some(number) => Ok(Literal::Long(number)),
        None => Err(EvalFault::Overflow),
    }
}

/// An operator on a value: `WrongType` or `Overflow` where it gives none.
pub fn apply_one<X: Ord>(op: UnaryOp, value: &Value<X>) -> Result<Literal, EvalFault>
    ensures { literal_outcome (faulted result) ≡ settled (apply_one op (bare_value value.now)) }
{
    match op {
        UnaryOp::Not => test::<X>(negated(value)),
        UnaryOp::Neg => minus(value),
        UnaryOp::IsEmpty => test::<X>(is_empty(value)),
    }
}

// The negation of a Boolean.
fn negated<X>(value: &Value<X>) -> Option<bool>
    ensures { tested result ≡ apply_one unary.Not (bare_value value.now) }
{
    match as_bool(value) {
        Some(truth) => Some(!truth),
        None => None,
    }
}

// The negation of an integer.
fn minus<X>(value: &Value<X>) -> Result<Literal, EvalFault>
    ensures { literal_outcome (faulted result)
        ≡ settled (apply_one unary.Neg (bare_value value.now)) }
{
    match as_long(value) {
        Some(number) => long::<X>(number.checked_neg()),
        None => Err(EvalFault::WrongType),
    }
}

// Whether a set has no member.
fn is_empty<X: Ord>(value: &Value<X>) -> Option<bool>
    ensures { tested result ≡ apply_one unary.IsEmpty (bare_value value.now) }
{
    match as_set(value) {
        Some(set) => Some(set.is_empty()),
        None => None,
    }
}

// Both integers, if both values are some.
fn both_longs<X>(left: &Value<X>, right: &Value<X>) -> Option<(Integer, Integer)>
    ensures { result ≡ longs_of (bare_value left.now) (bare_value right.now) }
{
    match (as_long(left), as_long(right)) {
        (Some(m), Some(n)) => Some((m, n)),
        _ => None,
    }
}

// Whether the first integer is below the second.
#[tactic(auto, using(crate::proofs::Comparisons::comparison_laws))]
fn is_less<X: Ord + Drop>(left: &Value<X>, right: &Value<X>) -> Result<Literal, EvalFault>
    ensures { literal_outcome (faulted result)
        ≡ settled (apply_two X.cmp X.eq binary.Less (bare_value left.now) (bare_value right.now)) }
{
    match both_longs(left, right) {
        Some((m, n)) => Ok(Literal::Bool(m < n)),
        None => Err(incomparable(left, right)),
    }
}

// Whether the first integer is not above the second.
#[tactic(auto, using(crate::proofs::Comparisons::comparison_laws))]
fn is_less_or_equal<X: Ord + Drop>(left: &Value<X>, right: &Value<X>) -> Result<Literal, EvalFault>
    ensures { literal_outcome (faulted result)
        ≡ settled (apply_two X.cmp X.eq binary.LessEq
        (bare_value left.now) (bare_value right.now)) }
{
    match both_longs(left, right) {
        Some((m, n)) => Ok(Literal::Bool(m <= n)),
        None => Err(incomparable(left, right)),
    }
}

// Why two values that are no two integers do not compare.
#[tactic(auto, using(crate::proofs::Comparisons::incomparable_laws))]
fn incomparable<X: Ord>(left: &Value<X>, right: &Value<X>) -> EvalFault
    ensures { bare_fault result ≡ incomparable (bare_value left.now) (bare_value right.now) }
{
    match (as_extension(left), as_extension(right)) {
        (Some(_), Some(_)) => EvalFault::Store,
        (Some(_), None) => EvalFault::WrongType,
        (None, _) => EvalFault::WrongType,
    }
}

// The sum of two integers.
fn sum<X: Ord + Drop>(left: &Value<X>, right: &Value<X>) -> Result<Literal, EvalFault>
    ensures { literal_outcome (faulted result)
        ≡ settled (apply_two X.cmp X.eq binary.Add (bare_value left.now) (bare_value right.now)) }
{
    match both_longs(left, right) {
        Some((m, n)) => long::<X>(m.checked_add(n)),
        None => Err(EvalFault::WrongType),
    }
}

// The difference of two integers.
fn difference<X: Ord + Drop>(left: &Value<X>, right: &Value<X>) -> Result<Literal, EvalFault>
    ensures { literal_outcome (faulted result)
        ≡ settled (apply_two X.cmp X.eq binary.Sub (bare_value left.now) (bare_value right.now)) }
{
    match both_longs(left, right) {
        Some((m, n)) => long::<X>(m.checked_sub(n)),
        None => Err(EvalFault::WrongType),
    }
}

// The product of two integers.
fn product<X: Ord + Drop>(left: &Value<X>, right: &Value<X>) -> Result<Literal, EvalFault>
    ensures { literal_outcome (faulted result)
        ≡ settled (apply_two X.cmp X.eq binary.Mul (bare_value left.now) (bare_value right.now)) }
{
    match both_longs(left, right) {
        Some((m, n)) => long::<X>(m.checked_mul(n)),
        None => Err(EvalFault::WrongType),
    }
}

// Whether two values are the same.
fn is_same<X: Ord + Drop>(left: &Value<X>, right: &Value<X>) -> bool
    ensures { tested (Some result)
        ≡ apply_two X.cmp X.eq binary.Eq (bare_value left.now) (bare_value right.now) }
{
    order_of_values::<X>();
    left == right
}

// Whether a set has a member that is the same.
fn contains<X: Ord + Drop>(left: &Value<X>, right: &Value<X>) -> Option<bool>
    ensures { IsTrue (well_formed X.cmp left.now) → tested result
        ≡ apply_two X.cmp X.eq binary.Contains (bare_value left.now) (bare_value right.now) }
{
    match as_set(left) {
        Some(set) => Some(set.contains(right)),
        None => None,
    }
}

// Whether a set has all members of another.
fn contains_all<X: Ord + Drop>(left: &Value<X>, right: &Value<X>) -> Option<bool>
    ensures { IsTrue (well_formed X.cmp left.now) → IsTrue (well_formed X.cmp right.now)
        → tested result
        ≡ apply_two X.cmp X.eq binary.ContainsAll (bare_value left.now) (bare_value right.now) }
{
    order_of_values::<X>();
    part_is_all::<Value<X>>();
    match (as_set(left), as_set(right)) {
        (Some(set), Some(others)) => Some(others.is_subset(set)),
        _ => None,
    }
}

// Whether a set has some member of another.
fn contains_any<X: Ord + Drop>(left: &Value<X>, right: &Value<X>) -> Option<bool>
    ensures { IsTrue (well_formed X.cmp left.now) → IsTrue (well_formed X.cmp right.now)
        → tested result
        ≡ apply_two X.cmp X.eq binary.ContainsAny (bare_value left.now) (bare_value right.now) }
{
    order_of_values::<X>();
    none_is_any::<Value<X>>();
    match (as_set(left), as_set(right)) {
        (Some(set), Some(others)) => Some(!others.is_disjoint(set)),
        _ => None,
    }
}

/// An operator on two well formed values: `WrongType`, `Overflow`, or `Store` for `in`, tags and
/// the comparison of two extension values.
pub fn apply_two<X: Ord + Drop>(
    op: BinaryOp,
    left: &Value<X>,
    right: &Value<X>,
) -> Result<Literal, EvalFault>
    ensures { IsTrue (well_formed X.cmp left.now) → IsTrue (well_formed X.cmp right.now)
        → literal_outcome (faulted result)
        ≡ settled (apply_two X.cmp X.eq op (bare_value left.now) (bare_value right.now)) }
{
    match op {
        BinaryOp::Eq => test::<X>(Some(is_same(left, right))),
        BinaryOp::Less => is_less(left, right),
        BinaryOp::LessEq => is_less_or_equal(left, right),
        BinaryOp::Add => sum(left, right),
        BinaryOp::Sub => difference(left, right),
        BinaryOp::Mul => product(left, right),
        BinaryOp::Contains => test::<X>(contains(left, right)),
        BinaryOp::ContainsAll => test::<X>(contains_all(left, right)),
        BinaryOp::ContainsAny => test::<X>(contains_any(left, right)),
        BinaryOp::In => Err(EvalFault::Store),
        BinaryOp::GetTag => Err(EvalFault::Store),
        BinaryOp::HasTag => Err(EvalFault::Store),
    }
}

/// Whether a pattern matches the text; none if the value is no text.
pub fn is_like<X>(value: &Value<X>, pattern: &Pattern) -> Option<bool>
    ensures { tested result ≡ like_in pattern.now (bare_value value.now) }
{
    match as_text(value) {
        Some(text) => Some(pattern.wildcard_match(text)),
        None => None,
    }
}

/// Whether the entity is of a type; none if the value is no entity.
pub fn is_of_type<X>(value: &Value<X>, ty: &EntityType) -> Option<bool>
    ensures { tested result ≡ is_in (bare_entity_type ty.now) (bare_value value.now) }
{
    match as_entity(value) {
        Some(entity) => Some(entity.entity_type() == ty),
        None => None,
    }
}
