//! Expressions whose levels share their children.
use crate::tests::made::{is_equal, long, made, shared, text, unknown, x_is_one};
use cedar_builders::ExprBuilder as _;
use cedar_exprs::{Expr, ExprBuilder, ExprIterator, ExprKind};
use cedar_names::Loc;
use cedar_terms::{BinaryOp, Literal};
use std::process::Abort;
use std::rc::Rc;
use test_support::RefuseAt;

fn again(rt: &(impl Abort + AllocGlobal), child: &Rc<Expr>) -> Rc<Expr> {
    made(rt, child.clone())
}

// The builder at a level, which is where its places start.
fn at(rt: &(impl Abort + AllocGlobal), level: usize) -> ExprBuilder<()> {
    let place = Loc::new(level, level, text(rt, "source"));
    ExprBuilder::with_data(()).with_maybe_source_loc(Some(place))
}

// A conditional at this level, with one child for its three.
fn conditional(rt: &(impl Abort + AllocGlobal), level: usize, child: Rc<Expr>) -> Expr {
    at(rt, level).ite_arc(again(rt, &child), again(rt, &child), child)
}

// Eight conditionals inside one another, each at its level. The literal inside them is at level 0.
fn conditionals(rt: &(impl Abort + AllocGlobal)) -> Expr {
    let mut e = made(rt, at(rt, 0).val(rt.alloc(), Literal::Long(1)));
    for level in 1..9 {
        e = conditional(rt, level, shared(rt, e));
    }
    e
}

// The levels of the first nine positions, and how many there are. Nothing here could take memory.
fn walked(walk: ExprIterator<'_>) -> ([usize; 9], usize) {
    let mut levels = [99; 9];
    let mut count: usize = 0;
    for e in walk {
        if let (true, Some(loc)) = (count < 9, e.source_loc()) {
            levels[count] = loc.start;
        }
        count = count.saturating_add(1);
    }
    (levels, count)
}

// Three to the power of each level from 0 to 8 makes 9,841.
#[test]
fn a_walk_goes_from_the_top_down(rt: HostRuntime) {
    let e = conditionals(&rt);
    let (levels, count) = walked(made(&rt, e.subexpressions(rt.alloc())));
    assert!(rt; levels == [8, 7, 6, 5, 4, 3, 2, 1, 0] && count == 9_841);
}

// The sum of one child twice.
fn sum(rt: &(impl Abort + AllocGlobal), child: Rc<Expr>) -> Expr {
    ExprBuilder::with_data(()).with_expr_kind(ExprKind::BinaryApp {
        op: BinaryOp::Add,
        arg1: again(rt, &child),
        arg2: child,
    })
}

// Twelve sums inside one another, each of one child twice.
fn sums(rt: &(impl Abort + AllocGlobal), leaf: Expr) -> Expr {
    let mut e = leaf;
    for _ in 0..12 {
        e = sum(rt, shared(rt, e));
    }
    e
}

// How many unknowns are met.
fn unknowns(rt: &(impl Abort + AllocGlobal), e: Expr) -> usize {
    let mut count: usize = 0;
    for _ in made(rt, e.unknowns(rt.alloc())) {
        count = count.saturating_add(1);
    }
    count
}

// It with 1 put for x.
fn substituted(rt: &(impl Abort + AllocGlobal), e: Expr) -> Expr {
    made(rt, e.substitute(rt.alloc(), &x_is_one(rt)))
}

// What is built of it with 1 put for x.
fn built(rt: &(impl Abort + AllocGlobal), e: Expr) -> Expr {
    let values = x_is_one(rt);
    made(
        rt,
        e.substitute_into_expr::<RefuseAt<6>, Literal>(rt.alloc(), &values),
    )
}

// Two to the power of twelve leaves, each of which is replaced and built.
#[test]
fn shared_sums_are_replaced_and_built(rt: HostRuntime) {
    assert!(rt; unknowns(&rt, sums(&rt, unknown(&rt, "x"))) == 4_096);
    assert!(rt;
        is_equal(
            substituted(&rt, sums(&rt, unknown(&rt, "x"))),
            sums(&rt, long(1))
        )
    );
    assert!(rt; is_equal(built(&rt, sums(&rt, unknown(&rt, "x"))), sums(&rt, long(1))));
}
