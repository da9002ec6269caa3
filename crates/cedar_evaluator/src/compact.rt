//! Outcomes in little room, as they are handed on while an expression is evaluated.
ghost use Rattle.std.specs.Int.{w64};
ghost use Rattle.std.specs.Prelude.{◌≡◌, ℤ, FitsSigned, IfOk, IfSome, IsTrue, Ok, SomeIff};
ghost use Rattle.std.specs.Rc.{rc_str_bytes};
ghost use Rattle.cedar_terms.specs.Literals.{LongLit, bare_literal};
ghost use Rattle.cedar_values.specs.BareValues.{bare_value, bare_value_kind};
ghost use Rattle.cedar_values.specs.WellFormed.{well_formed};
ghost use Rattle.cedar_values.specs.declared.value.ValueKind.TheVariants as kinds;
ghost use Rattle.semantics_values.specs.BareValue.{LitValue};
ghost use Rattle.semantics_eval.specs.Attributes.{get_in};
ghost use Rattle.semantics_eval.specs.Longs.{long};
ghost use Rattle.semantics_eval.specs.Operators.{apply_two as two};
ghost use Rattle.semantics_eval.specs.Outcomes.{settled, strict, strict_two, truth};
ghost use Rattle.cedar_evaluator.specs.Compact.{compact_meaning};
ghost use Rattle.cedar_evaluator.specs.Outcomes.{meaning_of};

use crate::fault::EvalFault;
use crate::fields::Fields;
use crate::outcome::Outcome;
use cedar_names::Loc;
use cedar_terms::{BinaryOp, Integer, Literal};
use cedar_values::{NoExtension, Value};
use semantics_eval::laws::longs_fit;
use std::alloc::{AllocError, Global};
use std::rc::RcStr;

// An outcome: Booleans and integers, which most are, in place; a record at no place by what it
// shares; any other behind a pointer.
#[derive(Drop)]
pub(crate) enum CompactOutcome {
    Bool(bool),
    Long(Integer),
    Record(Fields),
    Whole(Box<Outcome>),
}

impl CompactOutcome {
    // Any outcome, as it is.
    pub(crate) fn whole(alloc: Global, outcome: Outcome) -> Result<CompactOutcome, AllocError>
        ensures { IfOk result (λ c. compact_meaning c ≡ meaning_of outcome) }
    {
        Ok(CompactOutcome::Whole(Box::new(alloc, outcome)?))
    }

    // An outcome that may be a Boolean or an integer.
    pub(crate) fn of(alloc: Global, outcome: Outcome) -> Result<CompactOutcome, AllocError>
        ensures { IfOk result (λ c. compact_meaning c ≡ meaning_of outcome) }
    {
        match outcome.as_result() {
            Ok(value) => match literal_at_no_place(value) {
                Some(compact) => Ok(compact),
                None => CompactOutcome::whole(alloc, outcome),
            },
            Err(_) => CompactOutcome::whole(alloc, outcome),
        }
    }

    // A literal.
    #[inline(always)]
    pub(crate) fn lit(alloc: Global, literal: Literal) -> Result<CompactOutcome, AllocError>
        ensures { IfOk result (λ c. compact_meaning c ≡ Ok (LitValue (bare_literal literal))) }
    {
        match literal {
            Literal::Bool(truth) => Ok(CompactOutcome::Bool(truth)),
            Literal::Long(number) => Ok(CompactOutcome::Long(number)),
            _ => CompactOutcome::whole(alloc, Outcome::lit(literal)),
        }
    }

    // A well formed value. `copy_of` asks before whether it is a Boolean or an integer.
    pub(crate) fn of_value(
        alloc: Global,
        value: Value<NoExtension>,
    ) -> Result<CompactOutcome, AllocError>
        requires { IsTrue (well_formed ⟦<NoExtension as Ord>⟧.cmp value) }
        ensures { IfOk result (λ c. compact_meaning c ≡ Ok (bare_value value)) }
    {
        match Fields::of(value) {
            Ok(fields) => Ok(CompactOutcome::Record(fields)),
            Err(other) => CompactOutcome::whole(alloc, Outcome::of_value(other)),
        }
    }

    // A copy of a well formed value.
    pub(crate) fn copy_of(
        alloc: Global,
        value: &Value<NoExtension>,
    ) -> Result<CompactOutcome, AllocError>
        requires { IsTrue (well_formed ⟦<NoExtension as Ord>⟧.cmp value.now) }
        ensures { IfOk result (λ c. compact_meaning c ≡ Ok (bare_value value.now)) }
    {
        match literal_at_no_place(value) {
            Some(compact) => Ok(compact),
            None => CompactOutcome::of_value(alloc, value.clone(alloc)?),
        }
    }

    // The Boolean, where it is in place.
    #[inline(always)]
    pub(crate) fn as_bool(&self) -> Option<bool>
        ensures { IfSome result (λ b. compact_meaning self.now ≡ Ok (truth b)) }
    {
        match self {
            CompactOutcome::Bool(truth) => Some(*truth),
            _ => None,
        }
    }

    // The integer, where it is in place.
    #[inline(always)]
    pub(crate) fn as_long(&self) -> Option<Integer>
        ensures { IfSome result (λ n. compact_meaning self.now ≡ Ok (LitValue (LongLit n))) }
    {
        match self {
            CompactOutcome::Long(number) => Some(*number),
            _ => None,
        }
    }

    // The outcome.
    #[inline(always)]
    pub(crate) fn into_outcome(self) -> Outcome
        ensures { meaning_of result ≡ compact_meaning self }
    {
        match self {
            CompactOutcome::Bool(truth) => Outcome::lit(Literal::Bool(truth)),
            CompactOutcome::Long(number) => Outcome::lit(Literal::Long(number)),
            CompactOutcome::Record(fields) => Outcome::of_value(fields.into_value()),
            CompactOutcome::Whole(outcome) => Box::into_inner(outcome),
        }
    }
}

impl Fields {
    // The value of an attribute, or that it is missing at this place.
    #[inline(always)]
    pub(crate) fn get(
        &self,
        alloc: Global,
        key: &RcStr,
        source_loc: Option<Loc>,
    ) -> Result<CompactOutcome, AllocError>
        ensures { IfOk result (λ c. compact_meaning c
            ≡ strict (get_in (rc_str_bytes key.now))
            (Ok (bare_value_kind (kinds.Record self.now.pairs)))) }
    {
        match self.at(key) {
            Some(value) => CompactOutcome::copy_of(alloc, value),
            None => CompactOutcome::whole(alloc, Outcome::fail(EvalFault::Missing, source_loc)),
        }
    }
}

// The Boolean or integer that a value at no place is: what has a place keeps it.
#[inline(always)]
fn literal_at_no_place(value: &Value<NoExtension>) -> Option<CompactOutcome>
    ensures { IfSome result (λ c. compact_meaning c ≡ Ok (bare_value value.now)) }
{
    match value.source_loc() {
        None => match value.try_as_lit() {
            Some(Literal::Bool(truth)) => Some(CompactOutcome::Bool(*truth)),
            Some(Literal::Long(number)) => Some(CompactOutcome::Long(*number)),
            _ => None,
        },
        Some(_) => None,
    }
}

// An operator on two outcomes in place, if it gives a value.
#[inline(always)]
pub(crate) fn apply_in_place(
    op: BinaryOp,
    left: &CompactOutcome,
    right: &CompactOutcome,
) -> Option<CompactOutcome>
    ensures { IfSome result (λ c. compact_meaning c
        ≡ strict_two (two ⟦<NoExtension as Ord>⟧.cmp ⟦<NoExtension as PartialEq>⟧.eq op)
        (compact_meaning left.now) (compact_meaning right.now)) }
{
    match left.as_long() {
        Some(m) => match right.as_long() {
            Some(n) => apply_longs(op, m, n),
            None => None,
        },
        None => match left.as_bool() {
            Some(a) => match right.as_bool() {
                Some(b) => apply_bools(op, a, b),
                None => None,
            },
            None => None,
        },
    }
}

// An operator on two Booleans, if it gives a value.
#[inline(always)]
fn apply_bools(op: BinaryOp, left: bool, right: bool) -> Option<CompactOutcome>
    ensures { IfSome result (λ c. compact_meaning c
        ≡ settled (two ⟦<NoExtension as Ord>⟧.cmp ⟦<NoExtension as PartialEq>⟧.eq op
        (truth left) (truth right))) }
{
    match op {
        BinaryOp::Eq => Some(CompactOutcome::Bool(left == right)),
        _ => None,
    }
}

// An operator on two integers, if it gives a value.
#[inline(always)]
fn apply_longs(op: BinaryOp, left: Integer, right: Integer) -> Option<CompactOutcome>
    ensures { IfSome result (λ c. compact_meaning c
        ≡ settled (two ⟦<NoExtension as Ord>⟧.cmp ⟦<NoExtension as PartialEq>⟧.eq op
        (LitValue (LongLit left)) (LitValue (LongLit right)))) }
{
    match op {
        BinaryOp::Eq => Some(CompactOutcome::Bool(left == right)),
        BinaryOp::Less => Some(CompactOutcome::Bool(left < right)),
        BinaryOp::LessEq => Some(CompactOutcome::Bool(left <= right)),
        BinaryOp::Add => in_place(left.checked_add(right)),
        BinaryOp::Sub => in_place(left.checked_sub(right)),
        BinaryOp::Mul => in_place(left.checked_mul(right)),
        _ => None,
    }
}

// A result of arithmetic, where 64 bits hold it.
#[inline(always)]
fn in_place(made: Option<Integer>) -> Option<CompactOutcome>
    ensures { (z : ℤ) → SomeIff made (FitsSigned w64 z) z
        → IfSome result (λ c. compact_meaning c ≡ settled (long z)) }
{
    longs_fit();
    match made {
        Some(number) => Some(CompactOutcome::Long(number)),
        None => None,
    }
}
