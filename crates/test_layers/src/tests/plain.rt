//! Where there are no extension values.
ghost use Rattle.std.specs.Prelude.{IsTrue, IfOk, not};
ghost use Rattle.semantics_values.specs.ValueExpr.{has_extension};
ghost use Rattle.semantics_values.specs.ValueOrder.{value_eq};
ghost use Rattle.cedar_values.specs.BareValues.{bare_value};
ghost use Rattle.cedar_values.specs.NotReadable.{IsAnswerWhere};
ghost use Rattle.cedar_values.specs.WellFormed.{well_formed};

use crate::tests::made::{is_equal, made, name};
use cedar_calls::{Extension, ExtensionFunctions, Extensions};
use cedar_terms::Literal;
use cedar_values::{ExtensionValue, NoExtension, NotValue, Value};
use std::alloc::Global;
use std::process::Abort;

// Writes a value and reads it back. By public clauses alone that is the same value, and not a value
// just where an extension value is inside.
fn there_and_back<X: ExtensionValue + Ord>(
    alloc: Global,
    value: &Value<X>,
) -> Result<Value<X>, NotValue>
    ensures same { IsTrue (well_formed X.cmp value.now)
        → IfOk result (λ v. IsTrue (value_eq X.eq (bare_value v) (bare_value value.now))) }
    ensures answers { IsTrue (well_formed X.cmp value.now)
        → IsAnswerWhere (not (has_extension (bare_value value.now))) result }
{
    let expr = value.to_expr(alloc)?;
    Value::try_from_expr(alloc, expr)
}

// The set of 2 and 1.
fn plain(rt: &(impl Abort + AllocGlobal)) -> Value {
    let literals = made(rt, vec![in rt.alloc(); Literal::Long(2), Literal::Long(1)]);
    made(rt, Value::set_of_lits(rt.alloc(), literals, None))
}

#[test]
fn plain_values(rt: HostRuntime) {
    let value = plain(&rt);
    assert!(rt; is_equal(made(&rt, there_and_back(rt.alloc(), &value)), value));
}

// The text of a table of the extension `plain`, which has no functions and no types.
fn table_text<X: ExtensionFunctions>(rt: &(impl Abort + AllocGlobal)) -> String {
    let (functions, types) = (Vec::new(rt.alloc()), Vec::new(rt.alloc()));
    let plain = Extension::<X>::new(rt.alloc(), name(rt, "plain"), functions, types);
    let mut extensions = Vec::new(rt.alloc());
    made(rt, extensions.push(made(rt, plain)));
    made(
        rt,
        format!(in rt.alloc(); "{:?}", Extensions::new(extensions)),
    )
}

#[test]
fn plain_extensions(rt: HostRuntime) {
    assert!(rt; table_text::<NoExtension>(&rt).as_str() == "[<extension plain>]");
}
