//! A builder of one's own, used after substitution: prints the names of the unknowns that are left.
#![tactic(auto)]

mod builder;
mod names;

ghost use Rattle.cedar_ast.specs.PlainNames.{bare_name};
ghost use Rattle.cedar_ast.specs.Literals.{bare_literal};
ghost use Rattle.cedar_ast.specs.Types.{literal_type};
ghost use Rattle.cedar_ast.specs.Answers.{Gives};
ghost use Rattle.cedar_ast.specs.BareExpr.{Lit};
ghost use Rattle.cedar_ast.specs.Environment.{fold};
ghost use Rattle.cedar_ast.specs.Exprs.{bare_expr};
ghost use Rattle.cedar_ast.specs.RestrictedExprs.{env_of};
ghost use Rattle.example_builder.specs.UnknownNames.{texts_of, unknown_names_ops};

use crate::builder::UnknownNames;
use crate::names::{CallRefused, Names};
use cedar_ast::{BuildFault, Expr, Literal, Unknown};
use std::alloc::{AllocError, Global};
use std::collections::HashMap;
use std::io;
use std::rc::RcStr;

fn main(rt: HostRuntime) -> io::Result<()> {
    let alloc = rt.alloc();
    let expr = sample(alloc)?;
    let mut values = HashMap::new(alloc);
    drop(values.insert(RcStr::from_str(alloc, "x")?, Literal::Long(1))?);
    match unknowns_left(alloc, &expr, &values) {
        Ok(left) => {
            for name in &left.names {
                println!(rt; "{name}")?;
            }
            Ok(())
        }
        Err(BuildFault::Build(refused)) => println!(rt; "call of {}", refused.fn_name),
        Err(BuildFault::Memory) => Err(AllocError.into()),
    }
}

// `x < 2 && y == z`, where x, y and z are unknowns.
fn sample(alloc: Global) -> Result<Expr, AllocError> {
    let below = Expr::less(alloc, unknown(alloc, "x")?, Expr::val(Literal::Long(2)))?;
    let same = Expr::is_eq(alloc, unknown(alloc, "y")?, unknown(alloc, "z")?)?;
    Expr::and(alloc, below, same)
}

// The unknown of this name.
fn unknown(alloc: Global, name: &str) -> Result<Expr, AllocError> {
    let name = RcStr::from_str(alloc, name)?;
    Ok(Expr::unknown(Unknown::new_untyped(name)))
}

/// The names of the unknowns that are left when the values are put in.
///
/// The contract is that of `substitute_into_expr` at this builder: the fold of the expression's
/// bare tree at the builder's operations, where a bound unknown is its value's literal.
fn unknowns_left(
    alloc: Global,
    expr: &Expr,
    values: &HashMap<RcStr, Literal>,
) -> Result<Names, BuildFault<CallRefused>>
    ensures { let env = env_of (λ l. literal_type (bare_literal l)) (λ l. Lit (bare_literal l))
        values.now in
        Gives texts_of (λ (refused : CallRefused). bare_name refused.fn_name)
        (fold unknown_names_ops env (bare_expr expr.now)) result }
{
    expr.substitute_into_expr::<UnknownNames, Literal>(alloc, values)
}
