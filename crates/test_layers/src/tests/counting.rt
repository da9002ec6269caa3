//! A builder whose meanings nobody asks about: it counts the nodes.
ghost use Rattle.std.specs.Prelude.{◌≡◌, ⊤, IfOk, IfErr, map};
ghost use Rattle.cedar_names.specs.PlainNames.{bare_name};
ghost use Rattle.cedar_builders.specs.Answers.{Gives, never};
ghost use Rattle.cedar_builders.specs.Errors.{OnDuplicateKey};
ghost use Rattle.cedar_builders.specs.Keys.{HasRepeat, IsAscending, keys_of, meant_pairs};
ghost use Rattle.cedar_builders.specs.Ops.{no_meaning};
ghost use Rattle.cedar_builders.specs.declared.expression_construction_errors.ExpressionConstructionError.TheVariants as error;

use crate::tests::made::{long, made, unknown};
use cedar_builders::{
    BuildFault, ExprBuilder, ExprBuilderInfallibleBuild, ExpressionConstructionError,
};
use cedar_exprs::Expr;
use cedar_names::{Loc, Name, NonEmpty, SlotId};
use cedar_terms::{BinaryOp, EntityType, Literal, Pattern, UnaryOp, Unknown, Var};
use std::alloc::{AllocError, Global};
use std::convert::Infallible;
use std::process::Abort;
use std::rc::RcStr;

#[derive(Drop)]
struct NodeCount;

type Count = Result<usize, AllocError>;

impl ExprBuilder for NodeCount {
    type Expr = usize;

    type Data = ();

    type BuildError = Infallible;

    ghost Meaning = { ⊤ };

    ghost Fault = { ⊥ };

    ghost ops = { no_meaning };

    ghost meaning_of = { λ _. tt };

    ghost fault_of = { never };

    fn new() -> NodeCount {
        NodeCount
    }

    fn with_data(_data: ()) -> NodeCount {
        NodeCount
    }

    fn loc(&self) -> Option<&Loc> {
        None
    }

    fn data(&self) -> &() {
        &()
    }

    fn with_maybe_source_loc(self, _source_loc: Option<Loc>) -> NodeCount {
        self
    }

    fn val(self, _: Global, _literal: Literal) -> Count {
        Ok(1)
    }

    fn var(self, _: Global, _var: Var) -> Count {
        Ok(1)
    }

    fn slot(self, _: Global, _slot: SlotId) -> Count {
        Ok(1)
    }

    fn unknown(self, _: Global, _unknown: Unknown) -> Count {
        Ok(1)
    }

    fn ite(self, _: Global, test_expr: usize, then_expr: usize, else_expr: usize) -> Count {
        Ok(above(
            test_expr
                .saturating_add(then_expr)
                .saturating_add(else_expr),
        ))
    }

    fn and(self, _: Global, left: usize, right: usize) -> Count {
        Ok(above(left.saturating_add(right)))
    }

    fn or(self, _: Global, left: usize, right: usize) -> Count {
        Ok(above(left.saturating_add(right)))
    }

    fn unary_app(self, _: Global, _op: UnaryOp, arg: usize) -> Count {
        Ok(above(arg))
    }

    fn binary_app(self, _: Global, _op: BinaryOp, arg1: usize, arg2: usize) -> Count {
        Ok(above(arg1.saturating_add(arg2)))
    }

    fn call_extension_fn(
        self,
        _: Global,
        fn_name: Name,
        args: Vec<usize>,
    ) -> Result<usize, BuildFault<Infallible>>
        ensures { Gives (λ _. tt) never
            (no_meaning.call_of (bare_name fn_name) (map (λ _. tt) args.items)) result }
    {
        drop(fn_name);
        Ok(above(sum(args)))
    }

    fn get_attr(self, _: Global, expr: usize, _attr: RcStr) -> Count {
        Ok(above(expr))
    }

    fn extended_has_attr(self, _: Global, expr: usize, _attrs: NonEmpty<RcStr>) -> Count {
        Ok(above(expr))
    }

    fn like(self, _: Global, expr: usize, _pattern: Pattern) -> Count {
        Ok(above(expr))
    }

    fn is_entity_type(self, _: Global, expr: usize, _entity_type: EntityType) -> Count {
        Ok(above(expr))
    }

    fn set(self, _: Global, members: Vec<usize>) -> Count
        ensures { IfOk result (λ _. tt ≡ no_meaning.set_of (map (λ _. tt) members.items)) }
    {
        Ok(above(sum(members)))
    }

    fn record(
        self,
        _: Global,
        pairs: Vec<(RcStr, usize)>,
    ) -> Result<usize, ExpressionConstructionError>
        ensures means { IsAscending (keys_of pairs.items) → IfOk result (λ _.
            tt ≡ no_meaning.record_of (meant_pairs (λ _. tt) pairs.items)) }
        ensures accepts { IsAscending (keys_of pairs.items) → IfErr result (λ e. e ≡ error.Memory) }
        ensures refuses { IfErr result (OnDuplicateKey (λ _. HasRepeat (keys_of pairs.items))) }
    {
        let mut below: usize = 0;
        for (_key, value) in pairs {
            below = below.saturating_add(value);
        }
        Ok(above(below))
    }
}

impl ExprBuilderInfallibleBuild for NodeCount {}

// A node, and those below it.
fn above(below: usize) -> usize {
    below.saturating_add(1)
}

fn sum(counts: Vec<usize>) -> usize {
    let mut sum: usize = 0;
    for count in counts {
        sum = sum.saturating_add(count);
    }
    sum
}

fn count(rt: &(impl Abort + AllocGlobal), e: &Expr) -> usize {
    made(rt, e.into_expr::<NodeCount>(rt.alloc()))
}

// `x < 2`.
fn below(rt: &(impl Abort + AllocGlobal)) -> Expr {
    made(rt, Expr::less(rt.alloc(), unknown(rt, "x"), long(2)))
}

#[test]
fn nodes_are_counted(rt: HostRuntime) {
    assert!(rt; count(&rt, &long(1)) == 1);
    assert!(rt; count(&rt, &below(&rt)) == 3);
}
