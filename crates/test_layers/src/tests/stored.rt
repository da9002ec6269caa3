//! A user's own value: the expression that it was made of.
ghost use Rattle.std.specs.Prelude.{◌≡◌};
ghost use Rattle.cedar_terms.specs.Types.{LongType};
ghost use Rattle.cedar_exprs.specs.RestrictedExprs.{bare_restricted_expr};

use crate::tests::made::{is_equal, made, name, text, unknown};
use cedar_exprs::{Expr, RestrictedExpr, SubstituteValue};
use cedar_terms::{Literal, Type};
use std::alloc::{AllocError, Global};
use std::collections::HashMap;
use std::process::Abort;
use std::rc::RcStr;

// Says that it is an integer.
#[derive(Drop)]
pub struct Stored {
    expr: RestrictedExpr,
}

impl Stored {
    pub fn new(expr: RestrictedExpr) -> Stored
        ensures { result.expr ≡ expr }
    {
        Stored { expr }
    }
}

impl SubstituteValue for Stored {
    ghost bare_type_of = { λ _. LongType };

    ghost bare_expr_of = { λ value. bare_restricted_expr value.expr };

    fn value_type(&self, _: Global) -> Result<Type, AllocError> {
        Ok(Type::Long)
    }

    fn value_expr(&self, alloc: Global) -> Result<RestrictedExpr, AllocError> {
        let expr = self.expr.as_expr().clone(alloc)?;
        RestrictedExpr::new(alloc, expr).map_err(|_| AllocError)
    }
}

fn f_of_z(rt: &(impl Abort + AllocGlobal)) -> Expr {
    let args = made(rt, vec![in rt.alloc(); unknown(rt, "z")]);
    made(rt, Expr::call_extension_fn(rt.alloc(), name(rt, "f"), args))
}

// Binds the name to an expression.
fn bind(
    rt: &(impl Abort + AllocGlobal),
    values: &mut HashMap<RcStr, Stored>,
    name: &str,
    expr: Expr,
) {
    let value = Stored::new(made(rt, RestrictedExpr::new(rt.alloc(), expr)));
    drop(made(rt, values.insert(text(rt, name), value)));
}

// Where x is a call of the unknown z, and z is 1.
fn x_and_z(rt: &(impl Abort + AllocGlobal)) -> HashMap<RcStr, Stored> {
    let mut values = HashMap::new(rt.alloc());
    bind(rt, &mut values, "x", f_of_z(rt));
    bind(rt, &mut values, "z", Expr::val(Literal::Long(1)));
    values
}

// The value's expression is not searched, whatever the user's value is.
#[test]
fn stored_expressions_are_not_searched(rt: HostRuntime) {
    let untyped = unknown(&rt, "x").substitute(rt.alloc(), &x_and_z(&rt));
    assert!(rt; is_equal(made(&rt, untyped), f_of_z(&rt)));
    let typed = unknown(&rt, "x").substitute_typed(rt.alloc(), &x_and_z(&rt));
    assert!(rt; is_equal(made(&rt, typed), f_of_z(&rt)));
}
