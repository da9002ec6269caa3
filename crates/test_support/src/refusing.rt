//! The builder that refuses.
ghost use Rattle.std.specs.Prelude.{◌≡◌, ◌↔◌, IfOk, IfErr, ⊤, refl, map, Ok, Err};
ghost use Rattle.cedar_names.specs.Names.{BareName};
ghost use Rattle.cedar_names.specs.PlainNames.{bare_name};
ghost use Rattle.cedar_builders.specs.BareExpr.{BareExpr, Set};
ghost use Rattle.cedar_builders.specs.Answers.{Gives};
ghost use Rattle.cedar_builders.specs.Environment.{Env, fold};
ghost use Rattle.cedar_builders.specs.Errors.{OnDuplicateKey};
ghost use Rattle.cedar_builders.specs.Keys.{keys_of, meant_pairs, IsAscending, HasRepeat};
ghost use Rattle.cedar_builders.specs.Trees.{tree_ops};
ghost use Rattle.cedar_builders.specs.declared.expression_construction_errors.ExpressionConstructionError.TheVariants as error;
ghost use Rattle.cedar_exprs.specs.MadeNode.{builder_place};
ghost use Rattle.cedar_exprs.specs.BareExpr.{bare_expr, bare_exprs};
ghost use Rattle.cedar_exprs.specs.declared.expr.Expr.{Expr};
ghost use Rattle.test_support.specs.Refusing.{refusing};
ghost use Rattle.test_support.specs.declared.refusing.Refused.{Refused};

use crate::connectives::{Connectives, Simplifying};
use crate::refusal::{Counted, Numbered, Refusal};
use cedar_builders::{
    BuildFault, ExprBuilder as Builder, ExpressionConstructionError, LawfulExprBuilder,
};
use cedar_exprs::{Expr, ExprBuilder};
use cedar_names::{Loc, Name, NonEmpty, SlotId};
use cedar_terms::{BinaryOp, EntityType, Literal, Pattern, UnaryOp, Unknown, Var};
use std::alloc::{AllocError, Global};
use std::marker::PhantomData;
use std::rc::RcStr;

/// Makes expressions without data, as the struct does, but for the calls that are refused, and for
/// `and` and `or` where they are made otherwise.
#[derive(Drop)]
pub struct Refusing<R, C = Simplifying> {
    inner: ExprBuilder<()>,
    refusal: PhantomData<R>,
    connectives: PhantomData<C>,
}

impl<R, C> Refusing<R, C> {
    fn over(inner: ExprBuilder<()>) -> Refusing<R, C>
        ensures { result.inner ≡ inner }
    {
        Refusing {
            inner,
            refusal: PhantomData,
            connectives: PhantomData,
        }
    }
}

/// Refuses the calls whose name is `f` and `K` in decimal.
pub type RefuseAt<const K: usize> = Refusing<Numbered<K>>;

/// Refuses the calls with `COUNT` arguments.
pub type RefuseCount<const COUNT: usize> = Refusing<Counted<COUNT>>;

/// Why a call was refused.
#[derive(Debug, Drop)]
pub struct Refused {
    /// Its name.
    pub name: Name,
}

impl<R: Refusal, C: Connectives> Builder for Refusing<R, C> {
    type Expr = Expr;

    type Data = ();

    type BuildError = Refused;

    ghost Meaning = { BareExpr };

    ghost Fault = { BareName };

    ghost ops = { refusing tree_ops C.and_of C.or_of R.refuses };

    ghost meaning_of = { bare_expr };

    ghost fault_of = { λ e. bare_name e.name };

    ghost place_of = { λ b. builder_place b.inner };

    ghost kept_place = { λ place. place };

    fn new() -> Refusing<R, C> {
        Refusing::over(ExprBuilder::new())
    }

    fn with_data(data: ()) -> Refusing<R, C> {
        Refusing::over(ExprBuilder::with_data(data))
    }

    fn loc(&self) -> Option<&Loc> {
        self.inner.loc()
    }

    fn data(&self) -> &() {
        self.inner.data()
    }

    fn with_maybe_source_loc(self, source_loc: Option<Loc>) -> Refusing<R, C> {
        Refusing::over(self.inner.with_maybe_source_loc(source_loc))
    }

    fn val(self, alloc: Global, literal: Literal) -> Result<Expr, AllocError> {
        self.inner.val(alloc, literal)
    }

    fn var(self, alloc: Global, var: Var) -> Result<Expr, AllocError> {
        self.inner.var(alloc, var)
    }

    fn slot(self, alloc: Global, slot: SlotId) -> Result<Expr, AllocError> {
        self.inner.slot(alloc, slot)
    }

    fn unknown(self, alloc: Global, unknown: Unknown) -> Result<Expr, AllocError> {
        self.inner.unknown(alloc, unknown)
    }

    fn ite(
        self,
        alloc: Global,
        test_expr: Expr,
        then_expr: Expr,
        else_expr: Expr,
    ) -> Result<Expr, AllocError> {
        self.inner.ite(alloc, test_expr, then_expr, else_expr)
    }

    fn and(self, alloc: Global, left: Expr, right: Expr) -> Result<Expr, AllocError> {
        C::and(self.inner, alloc, left, right)
    }

    fn or(self, alloc: Global, left: Expr, right: Expr) -> Result<Expr, AllocError> {
        C::or(self.inner, alloc, left, right)
    }

    fn unary_app(self, alloc: Global, op: UnaryOp, arg: Expr) -> Result<Expr, AllocError> {
        self.inner.unary_app(alloc, op, arg)
    }

    fn binary_app(
        self,
        alloc: Global,
        op: BinaryOp,
        arg1: Expr,
        arg2: Expr,
    ) -> Result<Expr, AllocError> {
        self.inner.binary_app(alloc, op, arg1, arg2)
    }

    fn call_extension_fn(
        self,
        alloc: Global,
        fn_name: Name,
        args: Vec<Expr>,
    ) -> Result<Expr, BuildFault<Refused>>
        ensures { Gives bare_expr (λ e. bare_name e.name)
            ((refusing tree_ops C.and_of C.or_of R.refuses).call_of (bare_name fn_name)
            (map bare_expr args.items))
            result }
    {
        if R::is_refused(alloc, &fn_name, args.len())? {
            return Err(BuildFault::Build(Refused { name: fn_name }));
        }
        match self.inner.call_extension_fn(alloc, fn_name, args) {
            Ok(call) => Ok(call),
            Err(BuildFault::Build(never)) => match never {},
            Err(BuildFault::Memory) => Err(BuildFault::Memory),
        }
    }

    fn get_attr(self, alloc: Global, expr: Expr, attr: RcStr) -> Result<Expr, AllocError> {
        self.inner.get_attr(alloc, expr, attr)
    }

    fn extended_has_attr(
        self,
        alloc: Global,
        expr: Expr,
        attrs: NonEmpty<RcStr>,
    ) -> Result<Expr, AllocError> {
        self.inner.extended_has_attr(alloc, expr, attrs)
    }

    fn like(self, alloc: Global, expr: Expr, pattern: Pattern) -> Result<Expr, AllocError> {
        self.inner.like(alloc, expr, pattern)
    }

    fn is_entity_type(
        self,
        alloc: Global,
        expr: Expr,
        entity_type: EntityType,
    ) -> Result<Expr, AllocError> {
        self.inner.is_entity_type(alloc, expr, entity_type)
    }

    fn set(self, alloc: Global, members: Vec<Expr>) -> Result<Expr, AllocError>
        ensures { IfOk result (λ e. bare_expr e ≡ Set (bare_exprs members.items)) }
    {
        self.inner.set(alloc, members)
    }

    fn record(
        self,
        alloc: Global,
        pairs: Vec<(RcStr, Expr)>,
    ) -> Result<Expr, ExpressionConstructionError>
        ensures means { IsAscending (keys_of pairs.items) → IfOk result (λ e.
            bare_expr e ≡ tree_ops.record_of (meant_pairs bare_expr pairs.items)) }
        ensures accepts { IsAscending (keys_of pairs.items) → IfErr result (λ e. e ≡ error.Memory) }
        ensures refuses { IfErr result (OnDuplicateKey (λ _. HasRepeat (keys_of pairs.items))) }
    {
        self.inner.record(alloc, pairs)
    }
}

impl<R: Refusal> LawfulExprBuilder for Refusing<R> {
    ghost lawful = { record {
      and_of_literals = λ a b. refl;
      or_of_literals = λ a b. refl;
    } };
}

/// What the builder makes of a tree, whatever unknowns are bound to, is an expression with the tree
/// that the builder of trees makes of it, with `and` and `or` as they are made, where no call is
/// refused; and it refuses the same call first.
pub fn refusing_makes_trees<R: Refusal, C: Connectives>()
    ensures made { let B = ⟦<Refusing<R, C> as Builder>⟧ in
        let wanted = refusing tree_ops C.and_of C.or_of R.refuses in
        (env : Env) (tree : BareExpr) (e : Expr _)
        → (fold B.ops env tree ≡ Ok (B.meaning_of e)) ↔ (fold wanted env tree ≡ Ok (bare_expr e)) }
    ensures refused { let B = ⟦<Refusing<R, C> as Builder>⟧ in
        let wanted = refusing tree_ops C.and_of C.or_of R.refuses in
        (env : Env) (tree : BareExpr) (e : Refused)
        → (fold B.ops env tree ≡ Err (B.fault_of e))
        ↔ (fold wanted env tree ≡ Err (bare_name e.name)) }
{}
