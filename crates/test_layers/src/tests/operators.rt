//! The operators, a record and calls through the bound of a builder.
use crate::tests::generic::{
    binary_call, call_in_memory, call_of, call_of_one, negated_call, pair_of, unary_call,
};
use crate::tests::made::{made, name, shows, text};
use cedar_builders::{BuildFault, ExprBuilder};
use cedar_sketch::{SExpression, Sketch};
use cedar_terms::{BinaryOp, Literal, UnaryOp};
use std::fmt::Debug;
use std::process::Abort;
use test_support::RefuseCount;

// A lawful builder that refuses the calls without arguments.
type Refusing = RefuseCount<0>;

fn number(rt: &(impl Abort + AllocGlobal), n: i64) -> SExpression {
    made(rt, Sketch::new().val(rt.alloc(), Literal::from(n)))
}

// Whether this is the sketch.
fn is_sketch<E: Debug + Drop>(
    rt: &(impl Abort + AllocGlobal),
    answer: Result<SExpression, E>,
    wanted: &str,
) -> bool {
    made(rt, made(rt, answer).to_text(rt.alloc())).as_str() == wanted
}

fn is_unary(rt: &(impl Abort + AllocGlobal), op: UnaryOp, wanted: &str) -> bool {
    let call = unary_call(Sketch::new(), rt.alloc(), op, number(rt, 1));
    is_sketch(rt, call, wanted)
}

#[test]
fn unary_operators_through_the_bound(rt: HostRuntime) {
    for (op, wanted) in [
        (UnaryOp::Not, "(! 1)"),
        (UnaryOp::Neg, "(- 1)"),
        (UnaryOp::IsEmpty, "(isEmpty 1)"),
    ] {
        assert!(rt; is_unary(&rt, op, wanted), "{wanted}");
    }
}

fn is_binary(rt: &(impl Abort + AllocGlobal), op: BinaryOp, wanted: &str) -> bool {
    let call = binary_call(Sketch::new(), rt.alloc(), op, number(rt, 1), number(rt, 2));
    is_sketch(rt, call, wanted)
}

#[test]
fn binary_operators_through_the_bound(rt: HostRuntime) {
    for (op, wanted) in [
        (BinaryOp::Eq, "(== 1 2)"),
        (BinaryOp::Less, "(< 1 2)"),
        (BinaryOp::LessEq, "(<= 1 2)"),
        (BinaryOp::Add, "(+ 1 2)"),
        (BinaryOp::Sub, "(- 1 2)"),
        (BinaryOp::Mul, "(* 1 2)"),
        (BinaryOp::In, "(in 1 2)"),
        (BinaryOp::Contains, "(contains 1 2)"),
        (BinaryOp::ContainsAll, "(containsAll 1 2)"),
        (BinaryOp::ContainsAny, "(containsAny 1 2)"),
        (BinaryOp::GetTag, "(getTag 1 2)"),
        (BinaryOp::HasTag, "(hasTag 1 2)"),
    ] {
        assert!(rt; is_binary(&rt, op, wanted), "{wanted}");
    }
}

fn is_negated(rt: &(impl Abort + AllocGlobal), comparison: BinaryOp, wanted: &str) -> bool {
    let call = negated_call(
        Sketch::new(),
        rt.alloc(),
        comparison,
        number(rt, 1),
        number(rt, 2),
    );
    is_sketch(rt, call, wanted)
}

#[test]
fn negated_comparisons_through_the_bound(rt: HostRuntime) {
    for (comparison, wanted) in [
        (BinaryOp::Eq, "(! (== 1 2))"),
        (BinaryOp::LessEq, "(! (<= 1 2))"),
        (BinaryOp::Less, "(! (< 1 2))"),
    ] {
        assert!(rt; is_negated(&rt, comparison, wanted), "{wanted}");
    }
}

#[test]
fn a_record_through_the_bound(rt: HostRuntime) {
    let pair = pair_of::<Sketch>(rt.alloc(), text(&rt, "key"), number(&rt, 1));
    assert!(rt; is_sketch(&rt, pair, "(record (\"key\" 1))"));
}

#[test]
fn a_call_that_no_builder_refuses(rt: HostRuntime) {
    let args = made(&rt, vec![in rt.alloc(); number(&rt, 1)]);
    let call = call_in_memory::<Sketch>(rt.alloc(), name(&rt, "f"), args);
    assert!(rt; is_sketch(&rt, call, "(call f 1)"));
}

#[test]
fn a_call_through_the_bound(rt: HostRuntime) {
    let one = made(&rt, Refusing::new().val(rt.alloc(), Literal::from(1)));
    assert!(rt; call_of_one::<Refusing>(rt.alloc(), name(&rt, "f"), one).is_ok());
}

// Whether the call of this function is refused, and the refusal names it.
fn is_refused(rt: &(impl Abort + AllocGlobal), fn_name: &str) -> bool {
    match call_of::<Refusing>(rt.alloc(), name(rt, fn_name), Vec::new(rt.alloc())) {
        Err(BuildFault::Build(fault)) => shows(rt, fault.name, fn_name),
        _ => false,
    }
}

#[test]
fn a_refusal_through_the_bound(rt: HostRuntime) {
    assert!(rt; is_refused(&rt, "N::f"));
}
