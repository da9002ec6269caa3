//! The simplifier over extension values of any type.
ghost use Rattle.std.specs.Prelude.{◌≡◌, ⊤, IfErr, map};
ghost use Rattle.cedar_names.specs.PlainNames.{bare_name};
ghost use Rattle.cedar_builders.specs.Answers.{Gives, Means, never};
ghost use Rattle.cedar_builders.specs.Errors.{OnDuplicateKey};
ghost use Rattle.cedar_builders.specs.Keys.{HasRepeat, IsAscending, keys_of, meant_pairs};
ghost use Rattle.cedar_builders.specs.declared.expression_construction_errors.ExpressionConstructionError.TheVariants as error;
ghost use Rattle.semantics_simplify.specs.Simplified as meant;
ghost use Rattle.semantics_simplify.specs.Simplifier.{simplifier_lawful, simplifier_ops};
ghost use Rattle.cedar_simplifier.specs.Simplified.{meaning_of};

use crate::children::{are_known, children_of, fields_of, have_known, values_by_key, values_of};
use crate::operations::{apply_one, apply_two, get, has, is_of_type, like};
use crate::simplified::Simplified;
use crate::tree::Tree;
use cedar_builders::{
    BuildFault, ExprBuilder, ExprBuilderInfallibleBuild, ExpressionConstructionError,
    LawfulExprBuilder,
};
use cedar_evaluator::operations::{record_of, set_of};
use cedar_names::{Loc, Name, NonEmpty, SlotId};
use cedar_terms::{BinaryOp, EntityType, Literal, Pattern, UnaryOp, Unknown, Var};
use cedar_values::ExtensionValue;
use std::alloc::{AllocError, Global};
use std::convert::Infallible;
use std::marker::PhantomData;
use std::rc::RcStr;

/// `Simplifier` over extension values of any type, none of which an operation makes.
///
/// ```rust
/// fn of_context<X: ExtensionValue + Ord>(alloc: Global) -> Result<Simplified<X>, AllocError> {
///     SimplifierOf::<X>::new().var(alloc, Var::Context)
/// }
/// ```
#[derive(Drop)]
pub struct SimplifierOf<X> {
    pub(crate) place: Option<Loc>,
    of: PhantomData<X>,
}

impl<X> SimplifierOf<X> {
    // The builder with this place, or with none.
    pub(crate) fn at(place: Option<Loc>) -> SimplifierOf<X>
        ensures { result.place ≡ place }
    {
        SimplifierOf {
            place,
            of: PhantomData,
        }
    }
}

impl<X: ExtensionValue + Ord> ExprBuilder for SimplifierOf<X> {
    type Expr = Simplified<X>;

    type Data = ();

    type BuildError = Infallible;

    // An expression means the tree of its known value, or the residual.
    ghost Meaning = { meant.Simplified X };

    // There is no error.
    ghost Fault = { ⊥ };

    ghost ops = { simplifier_ops X.cmp X.eq X.canonical };

    ghost meaning_of = { meaning_of };

    ghost fault_of = { never };

    ghost place_of = { λ b. b.place };

    ghost kept_place = { λ place. place };

    fn new() -> SimplifierOf<X> {
        SimplifierOf::at(None)
    }

    fn with_data(_data: ()) -> SimplifierOf<X> {
        SimplifierOf::at(None)
    }

    fn loc(&self) -> Option<&Loc> {
        self.place.as_ref()
    }

    fn data(&self) -> &() {
        &()
    }

    fn with_maybe_source_loc(self, source_loc: Option<Loc>) -> SimplifierOf<X> {
        SimplifierOf::at(source_loc)
    }

    fn val(self, _alloc: Global, literal: Literal) -> Result<Simplified<X>, AllocError> {
        Ok(Simplified::lit(literal))
    }

    fn var(self, _alloc: Global, var: Var) -> Result<Simplified<X>, AllocError> {
        Ok(self.residual(Tree::var(var)))
    }

    fn slot(self, _alloc: Global, slot: SlotId) -> Result<Simplified<X>, AllocError> {
        Ok(self.residual(Tree::slot(slot)))
    }

    fn unknown(self, _alloc: Global, unknown: Unknown) -> Result<Simplified<X>, AllocError> {
        Ok(self.residual(Tree::unknown(unknown)))
    }

    #[tactic(auto, using(crate::proofs::Branches::first_of, crate::proofs::Branches::second_of))]
    fn ite(
        self,
        alloc: Global,
        test_expr: Simplified<X>,
        then_expr: Simplified<X>,
        else_expr: Simplified<X>,
    ) -> Result<Simplified<X>, AllocError> {
        match test_expr.truth() {
            Some(true) if else_expr.calls_nothing() => Ok(then_expr),
            Some(false) if then_expr.calls_nothing() => Ok(else_expr),
            _ => self.residual_if(alloc, test_expr, then_expr, else_expr),
        }
    }

    #[tactic(auto, using(crate::proofs::Branches::first_of, crate::proofs::Branches::second_of))]
    fn and(
        self,
        alloc: Global,
        left: Simplified<X>,
        right: Simplified<X>,
    ) -> Result<Simplified<X>, AllocError> {
        match left.truth() {
            Some(true) if right.is_boolean() => Ok(right),
            Some(false) if right.calls_nothing() => Ok(Simplified::lit(Literal::Bool(false))),
            _ => self.residual_and(alloc, left, right),
        }
    }

    #[tactic(auto, using(crate::proofs::Branches::first_of, crate::proofs::Branches::second_of))]
    fn or(
        self,
        alloc: Global,
        left: Simplified<X>,
        right: Simplified<X>,
    ) -> Result<Simplified<X>, AllocError> {
        match left.truth() {
            Some(true) if right.calls_nothing() => Ok(Simplified::lit(Literal::Bool(true))),
            Some(false) if right.is_boolean() => Ok(right),
            _ => self.residual_or(alloc, left, right),
        }
    }

    #[tactic(auto, using(crate::proofs::Made::known, crate::proofs::Made::residual))]
    fn unary_app(
        self,
        alloc: Global,
        op: UnaryOp,
        arg: Simplified<X>,
    ) -> Result<Simplified<X>, AllocError> {
        match apply_one(op, &arg) {
            Some(literal) => Ok(Simplified::lit(literal)),
            None => self.residual_unary(alloc, op, arg),
        }
    }

    #[tactic(auto, using(crate::proofs::Made::known, crate::proofs::Made::residual))]
    fn binary_app(
        self,
        alloc: Global,
        op: BinaryOp,
        arg1: Simplified<X>,
        arg2: Simplified<X>,
    ) -> Result<Simplified<X>, AllocError> {
        match apply_two(op, &arg1, &arg2) {
            Some(literal) => Ok(Simplified::lit(literal)),
            None => self.residual_binary(alloc, op, arg1, arg2),
        }
    }

    fn call_extension_fn(
        self,
        alloc: Global,
        fn_name: Name,
        args: Vec<Simplified<X>>,
    ) -> Result<Simplified<X>, BuildFault<Infallible>>
        ensures { Gives meaning_of never
            (⟦<SimplifierOf<X> as ExprBuilder>⟧.ops.call_of (bare_name fn_name)
            (map meaning_of args.items)) result }
    {
        let children = children_of(alloc, args)?;
        Ok(self.residual(Tree::call(alloc, fn_name, children)?))
    }

    #[tactic(auto, using(crate::proofs::Made::known, crate::proofs::Made::residual))]
    fn get_attr(
        self,
        alloc: Global,
        expr: Simplified<X>,
        attr: RcStr,
    ) -> Result<Simplified<X>, AllocError> {
        match get(alloc, &expr, &attr)? {
            Some(value) => Ok(Simplified::known(value)),
            None => self.residual_get(alloc, expr, attr),
        }
    }

    #[tactic(auto, using(crate::proofs::Made::known, crate::proofs::Made::residual))]
    fn extended_has_attr(
        self,
        alloc: Global,
        expr: Simplified<X>,
        attrs: NonEmpty<RcStr>,
    ) -> Result<Simplified<X>, AllocError> {
        match has(&expr, &attrs) {
            Some(literal) => Ok(Simplified::lit(literal)),
            None => self.residual_has(alloc, expr, attrs),
        }
    }

    #[tactic(auto, using(crate::proofs::Made::known, crate::proofs::Made::residual))]
    fn like(
        self,
        alloc: Global,
        expr: Simplified<X>,
        pattern: Pattern,
    ) -> Result<Simplified<X>, AllocError> {
        match like(&expr, &pattern) {
            Some(literal) => Ok(Simplified::lit(literal)),
            None => self.residual_like(alloc, expr, pattern),
        }
    }

    #[tactic(auto, using(crate::proofs::Made::known, crate::proofs::Made::residual))]
    fn is_entity_type(
        self,
        alloc: Global,
        expr: Simplified<X>,
        entity_type: EntityType,
    ) -> Result<Simplified<X>, AllocError> {
        match is_of_type(&expr, &entity_type) {
            Some(literal) => Ok(Simplified::lit(literal)),
            None => self.residual_is(alloc, expr, entity_type),
        }
    }

    fn set(self, alloc: Global, members: Vec<Simplified<X>>) -> Result<Simplified<X>, AllocError>
        ensures { Means meaning_of
            (⟦<SimplifierOf<X> as ExprBuilder>⟧.ops.set_of (map meaning_of members.items)) result }
    {
        if are_known(&members) {
            let values = values_of(alloc, members)?;
            return Ok(Simplified::known(set_of(alloc, values)?));
        }
        let residual = self.residual_set(alloc, members)?;
        Ok(residual)
    }

    fn record(
        self,
        alloc: Global,
        pairs: Vec<(RcStr, Simplified<X>)>,
    ) -> Result<Simplified<X>, ExpressionConstructionError>
        ensures means { IsAscending (keys_of pairs.items)
            → Means meaning_of
            (⟦<SimplifierOf<X> as ExprBuilder>⟧.ops.record_of (meant_pairs meaning_of pairs.items))
            result }
        ensures accepts { IsAscending (keys_of pairs.items) → IfErr result (λ e. e ≡ error.Memory) }
        ensures refuses { IfErr result (OnDuplicateKey (λ _. HasRepeat (keys_of pairs.items))) }
    {
        if have_known(&pairs) {
            let values = values_by_key(alloc, pairs)?;
            return Ok(Simplified::known(record_of(alloc, values)?));
        }
        let fields = fields_of(alloc, pairs)?;
        Ok(self.residual(Tree::record(alloc, fields)?))
    }
}

impl<X: ExtensionValue + Ord> ExprBuilderInfallibleBuild for SimplifierOf<X> {}

// Substitution can be moved past it.
impl<X: ExtensionValue + Ord> LawfulExprBuilder for SimplifierOf<X> {
    ghost lawful = { simplifier_lawful X.cmp X.eq X.canonical };
}
