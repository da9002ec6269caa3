//! The evaluator.
ghost use Rattle.std.specs.Prelude.{◌≡◌, IfOk, IfErr, Err, map};
ghost use Rattle.cedar_names.specs.Names.{BareName};
ghost use Rattle.cedar_names.specs.PlainNames.{bare_name};
ghost use Rattle.cedar_builders.specs.Answers.{Gives, Means};
ghost use Rattle.cedar_builders.specs.Errors.{OnDuplicateKey};
ghost use Rattle.cedar_builders.specs.Keys.{keys_of, meant_pairs, IsAscending, HasRepeat};
ghost use Rattle.cedar_builders.specs.declared.expression_construction_errors.ExpressionConstructionError.TheVariants as error;
ghost use Rattle.cedar_values.specs.Holders as held;
ghost use Rattle.semantics_eval.specs.Evaluator.{evaluator_lawful, evaluator_ops};
ghost use Rattle.semantics_eval.specs.Outcomes as meant;
ghost use Rattle.semantics_eval.specs.Rows.{record_outcome, set_outcome};
ghost use Rattle.cedar_evaluator.specs.Outcomes.{meaning_of};

use crate::fault::{CallRefused, EvalFault};
use crate::outcome::Outcome;
use crate::rows::{record_of, split_pairs, split_row};
use crate::sets::plain_set_of;
use cedar_builders::{BuildFault, ExprBuilder, ExpressionConstructionError, LawfulExprBuilder};
use cedar_names::{Loc, Name, NonEmpty, SlotId};
use cedar_terms::{BinaryOp, EntityType, Literal, Pattern, UnaryOp, Unknown, Var};
use cedar_values::NoExtension;
use std::alloc::{AllocError, Global};
use std::rc::RcStr;

/// The builder that evaluates: of `1 + 1 == 2` it makes the value `true`.
///
/// It knows no request, no entities and no extensions. So variables, slots and unknowns are the
/// fault `Open`, and what the store of entities alone could answer is `Store`. An operation on
/// faults has the first one's fault; `if`, `and` and `or` look at no operand that they do not
/// choose. Of equal keys of a record the last one's value counts. A call of an extension function
/// is refused wherever it stands. A fault has the place of the builder at which it came up.
///
/// ```rust
/// fn outcome(alloc: Global, expr: &Expr) -> Result<Outcome, BuildFault<CallRefused>> {
///     expr.try_into_expr::<Evaluator>(alloc)
/// }
/// ```
#[derive(Debug, Drop)]
pub struct Evaluator {
    source_loc: Option<Loc>,
}

impl ExprBuilder for Evaluator {
    type Expr = Outcome;

    type Data = ();

    type BuildError = CallRefused;

    // An expression means the tree of its value, or its fault.
    ghost Meaning = { meant.Outcome held.NoExtension };

    // An error means the name of the function, without its place.
    ghost Fault = { BareName };

    ghost ops = { evaluator_ops ⟦<NoExtension as Ord>⟧.cmp ⟦<NoExtension as PartialEq>⟧.eq };

    ghost meaning_of = { meaning_of };

    ghost fault_of = { λ refused. bare_name refused.name };

    ghost place_of = { λ b. b.source_loc };

    ghost kept_place = { λ place. place };

    fn new() -> Evaluator {
        Evaluator { source_loc: None }
    }

    fn with_data(_data: ()) -> Evaluator {
        Evaluator { source_loc: None }
    }

    fn loc(&self) -> Option<&Loc> {
        self.source_loc.as_ref()
    }

    fn data(&self) -> &() {
        &()
    }

    fn with_maybe_source_loc(self, source_loc: Option<Loc>) -> Evaluator {
        Evaluator { source_loc }
    }

    fn val(self, _alloc: Global, literal: Literal) -> Result<Outcome, AllocError> {
        Ok(Outcome::lit(literal))
    }

    fn var(self, _alloc: Global, _var: Var) -> Result<Outcome, AllocError> {
        Ok(Outcome::fail(EvalFault::Open, self.source_loc))
    }

    fn slot(self, _alloc: Global, _slot: SlotId) -> Result<Outcome, AllocError> {
        Ok(Outcome::fail(EvalFault::Open, self.source_loc))
    }

    fn unknown(self, _alloc: Global, _unknown: Unknown) -> Result<Outcome, AllocError> {
        Ok(Outcome::fail(EvalFault::Open, self.source_loc))
    }

    fn ite(
        self,
        _alloc: Global,
        test_expr: Outcome,
        then_expr: Outcome,
        else_expr: Outcome,
    ) -> Result<Outcome, AllocError> {
        match test_expr.truth() {
            Ok(true) => Ok(then_expr),
            Ok(false) => Ok(else_expr),
            Err(_) => Ok(test_expr.no_truth(self.source_loc)),
        }
    }

    fn and(self, _alloc: Global, left: Outcome, right: Outcome) -> Result<Outcome, AllocError> {
        match left.truth() {
            Ok(true) => Ok(right.into_truth(self.source_loc)),
            Ok(false) => Ok(Outcome::lit(Literal::Bool(false))),
            Err(_) => Ok(left.no_truth(self.source_loc)),
        }
    }

    fn or(self, _alloc: Global, left: Outcome, right: Outcome) -> Result<Outcome, AllocError> {
        match left.truth() {
            Ok(true) => Ok(Outcome::lit(Literal::Bool(true))),
            Ok(false) => Ok(right.into_truth(self.source_loc)),
            Err(_) => Ok(left.no_truth(self.source_loc)),
        }
    }

    fn unary_app(self, _alloc: Global, op: UnaryOp, arg: Outcome) -> Result<Outcome, AllocError> {
        Ok(arg.apply_one(op, self.source_loc))
    }

    fn binary_app(
        self,
        _alloc: Global,
        op: BinaryOp,
        arg1: Outcome,
        arg2: Outcome,
    ) -> Result<Outcome, AllocError> {
        Ok(Outcome::apply_two(op, arg1, arg2, self.source_loc))
    }

    fn call_extension_fn(
        self,
        _alloc: Global,
        fn_name: Name,
        _args: Vec<Outcome>,
    ) -> Result<Outcome, BuildFault<CallRefused>>
        ensures { Gives meaning_of (λ (refused : CallRefused). bare_name refused.name)
            (Err (bare_name fn_name)) result }
    {
        Err(BuildFault::Build(CallRefused { name: fn_name }))
    }

    fn get_attr(self, alloc: Global, expr: Outcome, attr: RcStr) -> Result<Outcome, AllocError> {
        expr.get(alloc, &attr, self.source_loc)
    }

    fn extended_has_attr(
        self,
        _alloc: Global,
        expr: Outcome,
        attrs: NonEmpty<RcStr>,
    ) -> Result<Outcome, AllocError> {
        Ok(expr.has(&attrs.head, &attrs.tail, self.source_loc))
    }

    fn like(self, _alloc: Global, expr: Outcome, pattern: Pattern) -> Result<Outcome, AllocError> {
        Ok(expr.like(&pattern, self.source_loc))
    }

    fn is_entity_type(
        self,
        _alloc: Global,
        expr: Outcome,
        entity_type: EntityType,
    ) -> Result<Outcome, AllocError> {
        Ok(expr.is_of_type(&entity_type, self.source_loc))
    }

    fn set(self, alloc: Global, members: Vec<Outcome>) -> Result<Outcome, AllocError>
        ensures { Means meaning_of
            (set_outcome ⟦<NoExtension as Ord>⟧.cmp (map meaning_of members.items)) result }
    {
        match split_row(alloc, members)? {
            Ok(values) => Ok(Outcome::of_value(plain_set_of(alloc, values)?)),
            Err(fault) => Ok(Outcome::of_fault(fault)),
        }
    }

    fn record(
        self,
        alloc: Global,
        pairs: Vec<(RcStr, Outcome)>,
    ) -> Result<Outcome, ExpressionConstructionError>
        ensures means { IsAscending (keys_of pairs.items)
            → Means meaning_of (record_outcome (meant_pairs meaning_of pairs.items)) result }
        ensures accepts { IsAscending (keys_of pairs.items) → IfErr result (λ e. e ≡ error.Memory) }
        ensures refuses { IfErr result (OnDuplicateKey (λ _. HasRepeat (keys_of pairs.items))) }
    {
        match split_pairs(alloc, pairs)? {
            Ok(values) => Ok(Outcome::of_value(record_of(alloc, values)?)),
            Err(fault) => Ok(Outcome::of_fault(fault)),
        }
    }
}

// Substitution can be moved past it.
impl LawfulExprBuilder for Evaluator {
    ghost lawful = { evaluator_lawful ⟦<NoExtension as Ord>⟧.cmp ⟦<NoExtension as PartialEq>⟧.eq };
}
