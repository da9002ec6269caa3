//! What the tests are made of. Where something can't be made, the test ends.
use cedar_exprs::Expr;
use cedar_names::{FromNormalizedStr, Name};
use cedar_terms::{Literal, Unknown};
use std::collections::HashMap;
use std::fmt::{Debug, Display};
use std::process::Abort;
use std::rc::{Rc, RcStr};

pub fn made<T: Drop, E: Debug + Drop>(rt: &impl Abort, answer: Result<T, E>) -> T {
    answer.expect(rt, "made")
}

pub fn text(rt: &(impl Abort + AllocGlobal), s: &str) -> RcStr {
    made(rt, RcStr::from_str(rt.alloc(), s))
}

pub fn name(rt: &(impl Abort + AllocGlobal), s: &str) -> Name {
    made(rt, Name::from_normalized_str(rt.alloc(), s))
}

pub fn shared<T: Drop>(rt: &(impl Abort + AllocGlobal), value: T) -> Rc<T> {
    made(rt, Rc::new(rt.alloc(), value))
}

pub fn long(number: i64) -> Expr {
    Expr::val(Literal::Long(number))
}

// The unknown of this name, without a type.
pub fn unknown(rt: &(impl Abort + AllocGlobal), name: &str) -> Expr {
    Expr::unknown(Unknown::new_untyped(text(rt, name)))
}

// The map that binds x to 1.
pub fn x_is_one(rt: &(impl Abort + AllocGlobal)) -> HashMap<RcStr, Literal> {
    let mut values = HashMap::new(rt.alloc());
    drop(made(rt, values.insert(text(rt, "x"), Literal::Long(1))));
    values
}

// Takes both, so that they end here.
pub fn is_equal<T: PartialEq + Drop>(a: T, b: T) -> bool {
    a == b
}

// Whether its text is the one that is wanted.
pub fn shows<T: Display + Drop>(rt: &(impl Abort + AllocGlobal), value: T, wanted: &str) -> bool {
    made(rt, value.to_string(rt.alloc())).as_str() == wanted
}
