//! Literals as values that are put where unknowns stand.
use crate::tests::made::{is_equal, long, made, text, unknown, x_is_one};
use cedar_exprs::{Expr, SubstitutionError};
use cedar_terms::{Type, Unknown};
use std::process::Abort;

#[test]
fn literals_are_put(rt: HostRuntime) {
    let answer = unknown(&rt, "x").substitute(rt.alloc(), &x_is_one(&rt));
    assert!(rt; is_equal(made(&rt, answer), long(1)));
}

// The unknown x of this type.
fn typed(rt: &(impl Abort + AllocGlobal), ty: Type) -> Expr {
    Expr::unknown(Unknown::new_with_type(text(rt, "x"), ty))
}

fn put_typed(rt: &(impl Abort + AllocGlobal), ty: Type) -> Result<Expr, SubstitutionError> {
    typed(rt, ty).substitute_typed(rt.alloc(), &x_is_one(rt))
}

// Where a Boolean was expected and an integer came.
fn is_clash(answer: &Result<Expr, SubstitutionError>) -> bool {
    match answer {
        Err(SubstitutionError::TypeError { expected, actual }) => {
            *expected == Type::Bool && *actual == Type::Long
        }
        _ => false,
    }
}

#[test]
fn literals_have_types(rt: HostRuntime) {
    assert!(rt; is_equal(made(&rt, put_typed(&rt, Type::Long)), long(1)));
    assert!(rt; is_clash(&put_typed(&rt, Type::Bool)));
}
