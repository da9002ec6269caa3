//! The evaluator that hands outcomes on in little room.
ghost use Rattle.std.specs.Prelude.{◌≡◌, IfErr, IfOk, Ok, Err, map};
ghost use Rattle.cedar_names.specs.Names.{BareName};
ghost use Rattle.cedar_names.specs.PlainNames.{bare_name};
ghost use Rattle.cedar_builders.specs.Answers.{Gives, Means};
ghost use Rattle.cedar_builders.specs.Errors.{OnDuplicateKey};
ghost use Rattle.cedar_builders.specs.Keys.{keys_of, meant_pairs, IsAscending, HasRepeat};
ghost use Rattle.cedar_builders.specs.declared.expression_construction_errors.ExpressionConstructionError.TheVariants as error;
ghost use Rattle.cedar_values.specs.Holders as held;
ghost use Rattle.semantics_eval.specs.Evaluator.{evaluator_ops};
ghost use Rattle.semantics_eval.specs.Operators.{apply_two as two};
ghost use Rattle.semantics_eval.specs.Outcomes as meant;
ghost use Rattle.semantics_eval.specs.Rows.{record_outcome, set_outcome};
ghost use Rattle.cedar_evaluator.specs.Compact.{compact_meaning};
ghost use Rattle.cedar_evaluator.specs.Outcomes.{meaning_of};

use crate::compact::{CompactOutcome, apply_in_place};
use crate::evaluator::Evaluator;
use crate::fault::CallRefused;
use crate::outcome::Outcome;
use crate::sets::plain_set;
use cedar_builders::{BuildFault, ExprBuilder, ExpressionConstructionError};
use cedar_names::{Loc, Name, NonEmpty, SlotId};
use cedar_terms::{BinaryOp, EntityType, Literal, Pattern, UnaryOp, Unknown, Var};
use cedar_values::NoExtension;
use std::alloc::{AllocError, Global};
use std::rc::RcStr;

// The evaluator, over compact outcomes. What is not frequent is the evaluator's.
#[derive(Drop)]
pub(crate) struct CompactEvaluator {
    source_loc: Option<Loc>,
}

impl CompactEvaluator {
    fn whole(self) -> Evaluator {
        Evaluator::new().with_maybe_source_loc(self.source_loc)
    }
}

impl ExprBuilder for CompactEvaluator {
    type Expr = CompactOutcome;

    type Data = ();

    type BuildError = CallRefused;

    ghost Meaning = { meant.Outcome held.NoExtension };

    ghost Fault = { BareName };

    ghost ops = { evaluator_ops ⟦<NoExtension as Ord>⟧.cmp ⟦<NoExtension as PartialEq>⟧.eq };

    ghost meaning_of = { compact_meaning };

    ghost fault_of = { λ refused. bare_name refused.name };

    ghost place_of = { λ b. b.source_loc };

    ghost kept_place = { λ place. place };

    fn new() -> CompactEvaluator {
        CompactEvaluator { source_loc: None }
    }

    fn with_data(_data: ()) -> CompactEvaluator {
        CompactEvaluator { source_loc: None }
    }

    fn loc(&self) -> Option<&Loc> {
        self.source_loc.as_ref()
    }

    fn data(&self) -> &() {
        &()
    }

    #[inline(always)]
    fn with_maybe_source_loc(self, source_loc: Option<Loc>) -> CompactEvaluator {
        CompactEvaluator { source_loc }
    }

    #[inline(always)]
    fn val(self, alloc: Global, literal: Literal) -> Result<CompactOutcome, AllocError> {
        CompactOutcome::lit(alloc, literal)
    }

    fn var(self, alloc: Global, var: Var) -> Result<CompactOutcome, AllocError> {
        CompactOutcome::whole(alloc, self.whole().var(alloc, var)?)
    }

    fn slot(self, alloc: Global, slot: SlotId) -> Result<CompactOutcome, AllocError> {
        CompactOutcome::whole(alloc, self.whole().slot(alloc, slot)?)
    }

    fn unknown(self, alloc: Global, unknown: Unknown) -> Result<CompactOutcome, AllocError> {
        CompactOutcome::whole(alloc, self.whole().unknown(alloc, unknown)?)
    }

    fn ite(
        self,
        alloc: Global,
        test_expr: CompactOutcome,
        then_expr: CompactOutcome,
        else_expr: CompactOutcome,
    ) -> Result<CompactOutcome, AllocError> {
        match test_expr.as_bool() {
            Some(true) => Ok(then_expr),
            Some(false) => Ok(else_expr),
            None => {
                let (then, other) = (then_expr.into_outcome(), else_expr.into_outcome());
                let made = self
                    .whole()
                    .ite(alloc, test_expr.into_outcome(), then, other)?;
                CompactOutcome::of(alloc, made)
            }
        }
    }

    fn and(
        self,
        alloc: Global,
        left: CompactOutcome,
        right: CompactOutcome,
    ) -> Result<CompactOutcome, AllocError> {
        match left.as_bool() {
            Some(false) => Ok(CompactOutcome::Bool(false)),
            Some(true) if right.as_bool().is_some() => Ok(right),
            _ => {
                let made = self
                    .whole()
                    .and(alloc, left.into_outcome(), right.into_outcome())?;
                CompactOutcome::of(alloc, made)
            }
        }
    }

    fn or(
        self,
        alloc: Global,
        left: CompactOutcome,
        right: CompactOutcome,
    ) -> Result<CompactOutcome, AllocError> {
        match left.as_bool() {
            Some(true) => Ok(CompactOutcome::Bool(true)),
            Some(false) if right.as_bool().is_some() => Ok(right),
            _ => {
                let made = self
                    .whole()
                    .or(alloc, left.into_outcome(), right.into_outcome())?;
                CompactOutcome::of(alloc, made)
            }
        }
    }

    fn unary_app(
        self,
        alloc: Global,
        op: UnaryOp,
        arg: CompactOutcome,
    ) -> Result<CompactOutcome, AllocError> {
        match arg.as_bool() {
            Some(truth) if matches!(op, UnaryOp::Not) => Ok(CompactOutcome::Bool(!truth)),
            _ => {
                let made = self.whole().unary_app(alloc, op, arg.into_outcome())?;
                CompactOutcome::of(alloc, made)
            }
        }
    }

    #[inline(always)]
    fn binary_app(
        self,
        alloc: Global,
        op: BinaryOp,
        arg1: CompactOutcome,
        arg2: CompactOutcome,
    ) -> Result<CompactOutcome, AllocError> {
        match apply_in_place(op, &arg1, &arg2) {
            Some(made) => Ok(made),
            None => self.binary_whole(alloc, op, arg1, arg2),
        }
    }

    fn call_extension_fn(
        self,
        _alloc: Global,
        fn_name: Name,
        _args: Vec<CompactOutcome>,
    ) -> Result<CompactOutcome, BuildFault<CallRefused>>
        ensures { Gives compact_meaning (λ (refused : CallRefused). bare_name refused.name)
            (Err (bare_name fn_name)) result }
    {
        Err(BuildFault::Build(CallRefused { name: fn_name }))
    }

    fn get_attr(
        self,
        alloc: Global,
        expr: CompactOutcome,
        attr: RcStr,
    ) -> Result<CompactOutcome, AllocError> {
        match expr {
            CompactOutcome::Record(fields) => fields.get(alloc, &attr, self.source_loc),
            other => other
                .into_outcome()
                .get_compact(alloc, &attr, self.source_loc),
        }
    }

    fn extended_has_attr(
        self,
        alloc: Global,
        expr: CompactOutcome,
        attrs: NonEmpty<RcStr>,
    ) -> Result<CompactOutcome, AllocError> {
        CompactOutcome::of(
            alloc,
            self.whole()
                .extended_has_attr(alloc, expr.into_outcome(), attrs)?,
        )
    }

    fn like(
        self,
        alloc: Global,
        expr: CompactOutcome,
        pattern: Pattern,
    ) -> Result<CompactOutcome, AllocError> {
        CompactOutcome::of(
            alloc,
            self.whole().like(alloc, expr.into_outcome(), pattern)?,
        )
    }

    fn is_entity_type(
        self,
        alloc: Global,
        expr: CompactOutcome,
        entity_type: EntityType,
    ) -> Result<CompactOutcome, AllocError> {
        CompactOutcome::of(
            alloc,
            self.whole()
                .is_entity_type(alloc, expr.into_outcome(), entity_type)?,
        )
    }

    fn set(self, alloc: Global, members: Vec<CompactOutcome>) -> Result<CompactOutcome, AllocError>
        ensures { Means compact_meaning
            (set_outcome ⟦<NoExtension as Ord>⟧.cmp (map compact_meaning members.items)) result }
    {
        let members = outcomes_of(alloc, members)?;
        CompactOutcome::whole(alloc, plain_set(alloc, members)?)
    }

    fn record(
        self,
        alloc: Global,
        pairs: Vec<(RcStr, CompactOutcome)>,
    ) -> Result<CompactOutcome, ExpressionConstructionError>
        ensures means { IsAscending (keys_of pairs.items) → Means compact_meaning
            (record_outcome (meant_pairs compact_meaning pairs.items)) result }
        ensures accepts { IsAscending (keys_of pairs.items) → IfErr result (λ e. e ≡ error.Memory) }
        ensures refuses { IfErr result (OnDuplicateKey (λ _. HasRepeat (keys_of pairs.items))) }
    {
        let pairs = pairs_of(alloc, pairs)?;
        match self.whole().record(alloc, pairs)?.into_result() {
            Ok(value) => Ok(CompactOutcome::of_value(alloc, value)?),
            Err(fault) => Ok(CompactOutcome::whole(alloc, Outcome::of_fault(fault))?),
        }
    }
}

impl CompactEvaluator {
    // An operator on two outcomes, as the evaluator has it.
    #[inline(never)]
    fn binary_whole(
        self,
        alloc: Global,
        op: BinaryOp,
        arg1: CompactOutcome,
        arg2: CompactOutcome,
    ) -> Result<CompactOutcome, AllocError>
        ensures { Means compact_meaning
            (meant.strict_two (two ⟦<NoExtension as Ord>⟧.cmp ⟦<NoExtension as PartialEq>⟧.eq op)
            (compact_meaning arg1) (compact_meaning arg2)) result }
    {
        let made = self
            .whole()
            .binary_app(alloc, op, arg1.into_outcome(), arg2.into_outcome())?;
        CompactOutcome::of(alloc, made)
    }
}

// The outcomes.
fn outcomes_of(alloc: Global, row: Vec<CompactOutcome>) -> Result<Vec<Outcome>, AllocError>
    ensures { IfOk result (λ ms. map meaning_of ms.items ≡ map compact_meaning row.items) }
{
    let mut outcomes = Vec::with_capacity(alloc, row.len())?;
    for compact in row {
        outcomes.push(compact.into_outcome())?;
    }
    Ok(outcomes)
}

// The outcomes, by their keys.
fn pairs_of(
    alloc: Global,
    row: Vec<(RcStr, CompactOutcome)>,
) -> Result<Vec<(RcStr, Outcome)>, AllocError>
    ensures keys { IfOk result (λ ps. keys_of ps.items ≡ keys_of row.items) }
    ensures pairs { IfOk result (λ ps.
        meant_pairs meaning_of ps.items ≡ meant_pairs compact_meaning row.items) }
{
    let mut pairs = Vec::with_capacity(alloc, row.len())?;
    for (key, compact) in row {
        pairs.push((key, compact.into_outcome()))?;
    }
    Ok(pairs)
}
