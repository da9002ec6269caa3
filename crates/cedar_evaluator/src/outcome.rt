//! What an evaluation gives.
ghost use Rattle.std.specs.Prelude.{◌≡◌, IfOk, IsTrue};
ghost use Rattle.std.specs.Result.{ForOk};
ghost use Rattle.cedar_values.specs.WellFormed.{well_formed};

use crate::attributes::{attribute, has_path};
use crate::compact::CompactOutcome;
use crate::fault::{EvalFault, EvaluationFault};
use crate::kinds::{as_bool, literal_value};
use crate::operators::{apply_one, apply_two, is_like, is_of_type, test};
use cedar_names::Loc;
use cedar_terms::{BinaryOp, EntityType, Literal, Pattern, UnaryOp};
use cedar_values::{ExtensionValue, NoExtension, Value};
use std::alloc::{AllocError, Global};
use std::fmt;
use std::rc::RcStr;

/// What an expression evaluates to: a well formed value, or why there is none. Its text is the
/// whole text of the value, or that of the fault.
///
/// ```rust
/// fn holds(outcome: &Outcome) -> bool {
///     match outcome.as_result() {
///         Ok(value) => matches!(value.try_as_lit(), Some(Literal::Bool(true))),
///         Err(_) => false,
///     }
/// }
/// ```
#[derive(Debug, Drop)]
pub struct Outcome<X: Ord = NoExtension> {
    result: Result<Value<X>, EvaluationFault>,
    ghost kept: { ForOk result (λ v. IsTrue (well_formed X.cmp v)) },
}

impl<X: Ord + Drop> Outcome<X> {
    ghost use Rattle.std.specs.Prelude.{Bool, IfErr, IsOk, Ok, Err, map};
    ghost use Rattle.std.specs.Rc.{rc_str_bytes};
    ghost use Rattle.cedar_values.specs.BareValues.{bare_value};
    ghost use Rattle.semantics_values.specs.BareValue.{LitValue};
    ghost use Rattle.cedar_terms.specs.Literals.{bare_literal};
    ghost use Rattle.cedar_terms.specs.Entities.{bare_entity_type};
    ghost use Rattle.semantics_eval.specs.Attributes.{get_in, has_path as path_in, is_in, like_in};
    ghost use Rattle.semantics_eval.specs.Operators.{apply_one as one, apply_two as two};
    ghost use Rattle.semantics_eval.specs.Outcomes.{
      By,
      Fault,
      WrongType,
      as_truth,
      strict,
      strict_two,
    };
    ghost use Rattle.cedar_evaluator.specs.Outcomes.{
      IsPlacedAt,
      bare_fault,
      fault_in,
      faulted,
      literal_outcome,
      meaning_of,
      place_in,
      placed_result_of,
      result_of,
      truth_in,
      unplaced,
    };

    /// The value, or why and where there is none.
    pub fn as_result(&self) -> &Result<Value<X>, EvaluationFault>
        ensures placed { result.now ≡ placed_result_of self.now }
        ensures same { unplaced result.now ≡ result_of self.now }
        ensures well_formed { IfOk result.now (λ v. IsTrue (well_formed X.cmp v)) }
    {
        &self.result
    }

    /// The value, or why and where there is none, of a consumed outcome.
    pub fn into_result(self) -> Result<Value<X>, EvaluationFault>
        ensures placed { result ≡ placed_result_of self }
        ensures same { unplaced result ≡ result_of self }
        ensures well_formed { IfOk result (λ v. IsTrue (well_formed X.cmp v)) }
    {
        self.result
    }

    /// A literal, or a fault that comes up at this place.
    pub fn settle(settled: Result<Literal, EvalFault>, source_loc: Option<Loc>) -> Outcome<X>
        ensures meaning { meaning_of result ≡ literal_outcome (faulted settled) }
        ensures place { IfErr (placed_result_of result) (λ f. place_in f ≡ source_loc) }
    {
        match settled {
            Ok(literal) => Outcome::lit(literal),
            Err(fault) => Outcome::fail(fault, source_loc),
        }
    }

    // A literal.
    pub(crate) fn lit(literal: Literal) -> Outcome<X>
        ensures meaning { meaning_of result ≡ Ok (LitValue (bare_literal literal)) }
        ensures is_value { IsOk (placed_result_of result) }
    {
        Outcome {
            result: Ok(literal_value(literal)),
        }
    }

    /// A fault that comes up at this place.
    pub fn fail(fault: EvalFault, source_loc: Option<Loc>) -> Outcome<X>
        ensures meaning { meaning_of result ≡ Err (bare_fault fault) }
        ensures place { IfErr (placed_result_of result) (λ f. place_in f ≡ source_loc) }
    {
        Outcome::of_fault(EvaluationFault::new(fault, source_loc))
    }

    /// A fault, with its place.
    pub fn of_fault(fault: EvaluationFault) -> Outcome<X>
        ensures meaning { meaning_of result ≡ Err (bare_fault (fault_in fault)) }
        ensures placed { placed_result_of result ≡ Err fault }
    {
        Outcome { result: Err(fault) }
    }

    /// The Boolean that the value is.
    pub fn truth(&self) -> Result<bool, EvalFault>
        ensures { faulted result ≡ truth_in (meaning_of self.now) }
    {
        match &self.result {
            Ok(value) => match as_bool(value) {
                Some(truth) => Ok(truth),
                None => Err(EvalFault::WrongType),
            },
            Err(fault) => Err(fault.fault()),
        }
    }

    /// The fault of what is no Boolean: its own, or a wrong type at this place. Ask `truth` before:
    /// a Boolean is a wrong type here too.
    #[tactic(auto, using(crate::proofs::Truths::no_truth))]
    pub fn no_truth(self, source_loc: Option<Loc>) -> Outcome<X>
        ensures fault { (f : Fault) → truth_in (meaning_of self) ≡ Err f
            → meaning_of result ≡ Err f }
        ensures boolean { (b : Bool) → truth_in (meaning_of self) ≡ Ok b
            → meaning_of result ≡ Err (By WrongType) }
        ensures place { IsPlacedAt source_loc self result }
    {
        match &self.result {
            Ok(_) => Outcome::fail(EvalFault::WrongType, source_loc),
            Err(_) => self,
        }
    }

    /// The outcome, if it is a Boolean or a fault.
    pub fn into_truth(self, source_loc: Option<Loc>) -> Outcome<X>
        ensures meaning { meaning_of result ≡ strict as_truth (meaning_of self) }
        ensures place { IsPlacedAt source_loc self result }
    {
        match self.truth() {
            Ok(truth) => Outcome::lit(Literal::Bool(truth)),
            Err(_) => self.no_truth(source_loc),
        }
    }

    /// An operator on the value.
    pub fn apply_one(self, op: UnaryOp, source_loc: Option<Loc>) -> Outcome<X>
        ensures meaning { meaning_of result ≡ strict (one op) (meaning_of self) }
        ensures place { IsPlacedAt source_loc self result }
    {
        match &self.result {
            Ok(value) => Outcome::settle(apply_one(op, value), source_loc),
            Err(_) => self,
        }
    }

    // An operator on two values: the first fault in their place answers.
    pub(crate) fn apply_two(
        op: BinaryOp,
        left: Outcome<X>,
        right: Outcome<X>,
        source_loc: Option<Loc>,
    ) -> Outcome<X>
        ensures { meaning_of result
            ≡ strict_two (two X.cmp X.eq op) (meaning_of left) (meaning_of right) }
    {
        match (&left.result, &right.result) {
            (Ok(first), Ok(second)) => Outcome::settle(apply_two(op, first, second), source_loc),
            (Ok(_), Err(_)) => right,
            (Err(_), _) => left,
        }
    }

    /// Whether a pattern matches the text.
    pub fn like(self, pattern: &Pattern, source_loc: Option<Loc>) -> Outcome<X>
        ensures meaning { meaning_of result ≡ strict (like_in pattern.now) (meaning_of self) }
        ensures place { IsPlacedAt source_loc self result }
    {
        match &self.result {
            Ok(value) => Outcome::settle(test::<X>(is_like(value, pattern)), source_loc),
            Err(_) => self,
        }
    }

    /// Whether the entity is of a type.
    pub fn is_of_type(self, ty: &EntityType, source_loc: Option<Loc>) -> Outcome<X>
        ensures meaning { meaning_of result
            ≡ strict (is_in (bare_entity_type ty.now)) (meaning_of self) }
        ensures place { IsPlacedAt source_loc self result }
    {
        match &self.result {
            Ok(value) => Outcome::settle(test::<X>(is_of_type(value, ty)), source_loc),
            Err(_) => self,
        }
    }

    /// A well formed value.
    pub fn of_value(value: Value<X>) -> Outcome<X>
        requires { IsTrue (well_formed X.cmp value) }
        ensures meaning { meaning_of result ≡ Ok (bare_value value) }
        ensures value { placed_result_of result ≡ Ok value }
    {
        Outcome { result: Ok(value) }
    }

    /// The value of an attribute: `Missing` where the record lacks it, `Store` of an entity, and
    /// `WrongType` of any other value that is no record.
    pub fn get(
        self,
        alloc: Global,
        key: &RcStr,
        source_loc: Option<Loc>,
    ) -> Result<Outcome<X>, AllocError>
        ensures meaning { IfOk result (λ m.
            meaning_of m ≡ strict (get_in (rc_str_bytes key.now)) (meaning_of self)) }
        ensures place { IfOk result (IsPlacedAt source_loc self) }
    {
        match &self.result {
            Ok(value) => match attribute(value, key) {
                Ok(Some(found)) => Ok(Outcome::of_value(found.clone(alloc)?)),
                Ok(None) => Ok(Outcome::fail(EvalFault::Missing, source_loc)),
                Err(fault) => Ok(Outcome::fail(fault, source_loc)),
            },
            Err(_) => Ok(self),
        }
    }

    // Whether a path of attributes is there.
    #[tactic(auto, using(crate::proofs::Paths::fault_path))]
    pub(crate) fn has(self, first: &RcStr, rest: &[RcStr], source_loc: Option<Loc>) -> Outcome<X>
        ensures { meaning_of result
            ≡ path_in (meaning_of self) (rc_str_bytes first.now) (map rc_str_bytes rest.now) }
    {
        match &self.result {
            Ok(value) => match has_path(value, first, rest) {
                Ok(truth) => Outcome::lit(Literal::Bool(truth)),
                Err(fault) => Outcome::fail(fault, source_loc),
            },
            Err(_) => self,
        }
    }
}

impl Outcome {
    ghost use Rattle.std.specs.Rc.{rc_str_bytes};
    ghost use Rattle.semantics_eval.specs.Attributes.{get_in};
    ghost use Rattle.semantics_eval.specs.Outcomes.{strict};
    ghost use Rattle.cedar_evaluator.specs.Compact.{compact_meaning};
    ghost use Rattle.cedar_evaluator.specs.Outcomes.{meaning_of};

    // The value of an attribute, in little room.
    pub(crate) fn get_compact(
        self,
        alloc: Global,
        key: &RcStr,
        source_loc: Option<Loc>,
    ) -> Result<CompactOutcome, AllocError>
        ensures { IfOk result (λ c.
            compact_meaning c ≡ strict (get_in (rc_str_bytes key.now)) (meaning_of self)) }
    {
        match &self.result {
            Ok(value) => match attribute(value, key) {
                Ok(Some(found)) => CompactOutcome::copy_of(alloc, found),
                Ok(None) => {
                    CompactOutcome::whole(alloc, Outcome::fail(EvalFault::Missing, source_loc))
                }
                Err(fault) => CompactOutcome::whole(alloc, Outcome::fail(fault, source_loc)),
            },
            Err(_) => CompactOutcome::whole(alloc, self),
        }
    }
}

/// The whole text of the value, or the fault.
impl<X: ExtensionValue + Ord> fmt::Display for Outcome<X> {
    ghost use Rattle.std.specs.Prelude.{Some};
    ghost use Rattle.cedar_evaluator.specs.Outcomes.{meaning_of};
    ghost use Rattle.cedar_evaluator.specs.Texts.{outcome_text_by};

    ghost output = { λ m. Some (outcome_text_by X.text_of (meaning_of m)) };

    fn fmt<W: fmt::Write>(&self, f: &mut fmt::Formatter<W>) -> fmt::Result {
        match &self.result {
            Ok(value) => write!(f, "{value}"),
            Err(fault) => write!(f, "{fault}"),
        }
    }
}
