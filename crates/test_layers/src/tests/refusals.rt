//! A builder that refuses one call refuses the same before substitution and after.
use crate::tests::made::{is_equal, long, made, name, text, unknown, x_is_one};
use cedar_builders::BuildFault;
use cedar_exprs::Expr;
use cedar_terms::Literal;
use std::process::Abort;
use test_support::{RefuseAt, Refused};

// A call of `f` and this number, on this argument.
fn call(rt: &(impl Abort + AllocGlobal), number: usize, arg: &Expr) -> Expr {
    let function = made(rt, format!(in rt.alloc(); "f{number}"));
    let mut args = Vec::new(rt.alloc());
    made(rt, args.push(made(rt, arg.clone(rt.alloc()))));
    made(
        rt,
        Expr::call_extension_fn(rt.alloc(), name(rt, function.as_str()), args),
    )
}

// The set of the calls from one number to before another.
fn calls(rt: &(impl Abort + AllocGlobal), from: usize, to: usize, arg: &Expr) -> Expr {
    let mut members = Vec::new(rt.alloc());
    for number in from..to {
        made(rt, members.push(call(rt, number, arg)));
    }
    made(rt, Expr::set(rt.alloc(), members))
}

// The record of {f1, f2} and {f3, f4, f5}, made from the later key to the earlier.
fn five_calls(rt: &(impl Abort + AllocGlobal), arg: Expr) -> Expr {
    let mut pairs = Vec::new(rt.alloc());
    made(rt, pairs.push((text(rt, "b"), calls(rt, 3, 6, &arg))));
    made(rt, pairs.push((text(rt, "a"), calls(rt, 1, 3, &arg))));
    made(rt, Expr::record(rt.alloc(), pairs))
}

// What is built of them with x as their argument.
fn built<const K: usize>(rt: &(impl Abort + AllocGlobal)) -> Result<Expr, BuildFault<Refused>> {
    five_calls(rt, unknown(rt, "x")).try_into_expr::<RefuseAt<K>>(rt.alloc())
}

// What is built of them with 1 put for x.
fn built_of_one<const K: usize>(
    rt: &(impl Abort + AllocGlobal),
) -> Result<Expr, BuildFault<Refused>> {
    let e = five_calls(rt, unknown(rt, "x"));
    e.substitute_into_expr::<RefuseAt<K>, Literal>(rt.alloc(), &x_is_one(rt))
}

// Whether it is refused at a call of this name.
fn is_refused(
    rt: &(impl Abort + AllocGlobal),
    answer: Result<Expr, BuildFault<Refused>>,
    function: &str,
) -> bool {
    match answer {
        Err(BuildFault::Build(refused)) => is_equal(refused.name, name(rt, function)),
        _ => false,
    }
}

// Whether both are refused at a call of this name.
fn refuses<const K: usize>(rt: &(impl Abort + AllocGlobal), function: &str) -> bool {
    is_refused(rt, built::<K>(rt), function) && is_refused(rt, built_of_one::<K>(rt), function)
}

#[test]
fn each_call_is_refused_by_its_number(rt: HostRuntime) {
    assert!(rt; refuses::<1>(&rt, "f1"));
    assert!(rt; refuses::<2>(&rt, "f2"));
    assert!(rt; refuses::<3>(&rt, "f3"));
    assert!(rt; refuses::<4>(&rt, "f4"));
    assert!(rt; refuses::<5>(&rt, "f5"));
}

#[test]
fn other_calls_are_built(rt: HostRuntime) {
    assert!(rt;
        is_equal(
            made(&rt, built::<6>(&rt)),
            five_calls(&rt, unknown(&rt, "x"))
        )
    );
    assert!(rt; is_equal(made(&rt, built_of_one::<6>(&rt)), five_calls(&rt, long(1))));
}
