//! The simplifier.
ghost use Rattle.std.specs.Prelude.{◌≡◌, ⊤, IfErr, map};
ghost use Rattle.cedar_names.specs.PlainNames.{bare_name};
ghost use Rattle.cedar_builders.specs.Answers.{Gives, Means, never};
ghost use Rattle.cedar_builders.specs.Errors.{OnDuplicateKey};
ghost use Rattle.cedar_builders.specs.Keys.{HasRepeat, IsAscending, keys_of, meant_pairs};
ghost use Rattle.cedar_builders.specs.declared.expression_construction_errors.ExpressionConstructionError.TheVariants as error;
ghost use Rattle.cedar_values.specs.Holders as held;
ghost use Rattle.semantics_simplify.specs.Simplified as meant;
ghost use Rattle.semantics_simplify.specs.Simplifier.{simplifier_lawful, simplifier_ops};
ghost use Rattle.cedar_simplifier.specs.Simplified.{meaning_of};

use crate::children::{are_known, values_of};
use crate::simplified::Simplified;
use crate::simplifier_of::SimplifierOf;
use cedar_builders::{
    BuildFault, ExprBuilder, ExprBuilderInfallibleBuild, ExpressionConstructionError,
    LawfulExprBuilder,
};
use cedar_evaluator::operations::plain_set_of;
use cedar_names::{Loc, Name, NonEmpty, SlotId};
use cedar_terms::{BinaryOp, EntityType, Literal, Pattern, UnaryOp, Unknown, Var};
use cedar_values::NoExtension;
use std::alloc::{AllocError, Global};
use std::convert::Infallible;
use std::rc::RcStr;

/// The builder that simplifies: of `1 + 1 == x` it makes `2 == x`, and of `1 + 1 == 2` the value
/// `true`.
///
/// An operation on known values is the evaluator's, if that gives a value. Everything else is a
/// residual, over what its operands were simplified to: what is not known, what the evaluator has a
/// fault for, and calls. An operand goes only where that changes no outcome: it has to be one that
/// the evaluator does not choose, and hold no call, since a call in it would be refused. Of `true
/// && right` the right side is made only where that can be nothing but a Boolean or a fault.
///
/// Nothing is refused, but a record of equal keys where a value is a residual. A residual node
/// keeps its place; a known value has none.
///
/// ```rust
/// fn simplified(alloc: Global, expr: &Expr) -> Result<Simplified, BuildFault<Infallible>> {
///     expr.try_into_expr::<Simplifier>(alloc)
/// }
/// ```
#[derive(Debug, Drop)]
pub struct Simplifier {
    place: Option<Loc>,
}

impl Simplifier {
    // The builder with this place, which knows of extension values, of which there are none here.
    fn general(self) -> SimplifierOf<NoExtension> {
        SimplifierOf::at(self.place)
    }
}

impl ExprBuilder for Simplifier {
    type Expr = Simplified;

    type Data = ();

    type BuildError = Infallible;

    // An expression means the tree of its known value, or the residual.
    ghost Meaning = { meant.Simplified held.NoExtension };

    // There is no error.
    ghost Fault = { ⊥ };

    ghost ops = { simplifier_ops ⟦<NoExtension as Ord>⟧.cmp ⟦<NoExtension as PartialEq>⟧.eq
        held.held_call };

    ghost meaning_of = { meaning_of };

    ghost fault_of = { never };

    ghost place_of = { λ b. b.place };

    ghost kept_place = { λ place. place };

    fn new() -> Simplifier {
        Simplifier { place: None }
    }

    fn with_data(_data: ()) -> Simplifier {
        Simplifier { place: None }
    }

    fn loc(&self) -> Option<&Loc> {
        self.place.as_ref()
    }

    fn data(&self) -> &() {
        &()
    }

    fn with_maybe_source_loc(self, source_loc: Option<Loc>) -> Simplifier {
        Simplifier { place: source_loc }
    }

    fn val(self, alloc: Global, literal: Literal) -> Result<Simplified, AllocError> {
        self.general().val(alloc, literal)
    }

    fn var(self, alloc: Global, var: Var) -> Result<Simplified, AllocError> {
        self.general().var(alloc, var)
    }

    fn slot(self, alloc: Global, slot: SlotId) -> Result<Simplified, AllocError> {
        self.general().slot(alloc, slot)
    }

    fn unknown(self, alloc: Global, unknown: Unknown) -> Result<Simplified, AllocError> {
        self.general().unknown(alloc, unknown)
    }

    fn ite(
        self,
        alloc: Global,
        test_expr: Simplified,
        then_expr: Simplified,
        else_expr: Simplified,
    ) -> Result<Simplified, AllocError> {
        self.general().ite(alloc, test_expr, then_expr, else_expr)
    }

    fn and(
        self,
        alloc: Global,
        left: Simplified,
        right: Simplified,
    ) -> Result<Simplified, AllocError> {
        self.general().and(alloc, left, right)
    }

    fn or(
        self,
        alloc: Global,
        left: Simplified,
        right: Simplified,
    ) -> Result<Simplified, AllocError> {
        self.general().or(alloc, left, right)
    }

    fn unary_app(
        self,
        alloc: Global,
        op: UnaryOp,
        arg: Simplified,
    ) -> Result<Simplified, AllocError> {
        self.general().unary_app(alloc, op, arg)
    }

    fn binary_app(
        self,
        alloc: Global,
        op: BinaryOp,
        arg1: Simplified,
        arg2: Simplified,
    ) -> Result<Simplified, AllocError> {
        self.general().binary_app(alloc, op, arg1, arg2)
    }

    fn call_extension_fn(
        self,
        alloc: Global,
        fn_name: Name,
        args: Vec<Simplified>,
    ) -> Result<Simplified, BuildFault<Infallible>>
        ensures { Gives meaning_of never
            (⟦<Simplifier as ExprBuilder>⟧.ops.call_of (bare_name fn_name)
            (map meaning_of args.items)) result }
    {
        self.general().call_extension_fn(alloc, fn_name, args)
    }

    fn get_attr(
        self,
        alloc: Global,
        expr: Simplified,
        attr: RcStr,
    ) -> Result<Simplified, AllocError> {
        self.general().get_attr(alloc, expr, attr)
    }

    fn extended_has_attr(
        self,
        alloc: Global,
        expr: Simplified,
        attrs: NonEmpty<RcStr>,
    ) -> Result<Simplified, AllocError> {
        self.general().extended_has_attr(alloc, expr, attrs)
    }

    fn like(
        self,
        alloc: Global,
        expr: Simplified,
        pattern: Pattern,
    ) -> Result<Simplified, AllocError> {
        self.general().like(alloc, expr, pattern)
    }

    fn is_entity_type(
        self,
        alloc: Global,
        expr: Simplified,
        entity_type: EntityType,
    ) -> Result<Simplified, AllocError> {
        self.general().is_entity_type(alloc, expr, entity_type)
    }

    fn set(self, alloc: Global, members: Vec<Simplified>) -> Result<Simplified, AllocError>
        ensures { Means meaning_of
            (⟦<Simplifier as ExprBuilder>⟧.ops.set_of (map meaning_of members.items)) result }
    {
        if are_known(&members) {
            let values = values_of(alloc, members)?;
            return Ok(Simplified::known(plain_set_of(alloc, values)?));
        }
        let residual = self.general().residual_set(alloc, members)?;
        Ok(residual)
    }

    fn record(
        self,
        alloc: Global,
        pairs: Vec<(RcStr, Simplified)>,
    ) -> Result<Simplified, ExpressionConstructionError>
        ensures means { IsAscending (keys_of pairs.items)
            → Means meaning_of
            (⟦<Simplifier as ExprBuilder>⟧.ops.record_of (meant_pairs meaning_of pairs.items))
            result }
        ensures accepts { IsAscending (keys_of pairs.items) → IfErr result (λ e. e ≡ error.Memory) }
        ensures refuses { IfErr result (OnDuplicateKey (λ _. HasRepeat (keys_of pairs.items))) }
    {
        self.general().record(alloc, pairs)
    }
}

impl ExprBuilderInfallibleBuild for Simplifier {}

// Substitution can be moved past it.
impl LawfulExprBuilder for Simplifier {
    ghost lawful = { simplifier_lawful ⟦<NoExtension as Ord>⟧.cmp ⟦<NoExtension as PartialEq>⟧.eq
        held.held_call };
}
