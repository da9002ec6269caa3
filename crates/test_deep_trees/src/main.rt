//! Chains of as many expressions as the argument says, each one inside the next, that are made,
//! substituted, built, shown, checked and dropped on the usual stack; chains of values, whose
//! expressions are written and read back; and scripts that nest expressions as deep.
#![tactic(auto)]

ghost use Rattle.std.specs.Prelude.{◌≡◌, IfOk, Ok};
ghost use Rattle.cedar_builders.specs.Environment.{empty, fold};
ghost use Rattle.cedar_builders.specs.Trees.{tree_ops};
ghost use Rattle.cedar_exprs.specs.BareExpr.{bare_expr};

mod checks;
mod scripts;
mod values;

use crate::checks::{is_restricted, is_valid};
use crate::scripts::work_scripts;
use crate::values::{Nest, show_value};
use cedar_exprs::laws::struct_makes_trees;
use cedar_exprs::{Expr, ExprBuilder};
use cedar_names::{FromNormalizedStr, Name};
use cedar_sketch::Sketch;
use cedar_terms::{Literal, Pattern, PatternElem, Unknown, Var};
use std::alloc::{AllocError, Global};
use std::collections::HashMap;
use std::rc::RcStr;
use std::{env, io};

// How an expression stands in the next one.
#[derive(Clone, Copy, Debug)]
enum Chain {
    Not,
    Left,
    Right,
    Test,
    Else,
    Get,
    Like,
    Call,
    Set,
    Record,
}

fn main(rt: HostRuntime) -> io::Result<()> {
    let levels = levels(&rt)?;
    // Records take most memory.
    let records = levels / 10;
    show_chains(&rt, levels, records)?;
    show_innermost(&rt, levels)?;
    show_values(&rt, levels, records)?;
    work_scripts(&rt, levels)
}

// Shows what is made of a chain of each kind.
fn show_chains(rt: &HostRuntime, levels: usize, records: usize) -> io::Result<()> {
    let chains = [
        (Chain::Not, "not", levels),
        (Chain::Left, "left operand", levels),
        (Chain::Right, "right operand", levels),
        (Chain::Test, "test of if", levels),
        (Chain::Else, "else of if", levels),
        (Chain::Get, "get", levels),
        (Chain::Like, "like", levels),
        (Chain::Call, "call", levels),
        (Chain::Set, "middle of a set", levels),
        (Chain::Record, "record", records),
    ];
    for (chain, name, levels) in chains {
        let text = work(rt.alloc(), chain, levels)?;
        println!(rt; "{name}: shown in {} bytes a level", each(&text, levels))?;
    }
    Ok(())
}

// Shows what is found of sets in one another, by what stands in the innermost.
fn show_innermost(rt: &HostRuntime, levels: usize) -> io::Result<()> {
    let innermost = [
        ("unknown in sets", unknown(rt.alloc())?),
        ("variable in sets", Expr::var(Var::Context)),
        ("call in sets", make_call(rt.alloc(), unknown(rt.alloc())?)?),
    ];
    for (name, expr) in innermost {
        let found = check(rt.alloc(), expr, levels)?;
        println!(rt;
            "{name}: restricted: {}, valid: {}",
            found.is_restricted, found.is_valid
        )?;
    }
    Ok(())
}

// Shows values in one another.
fn show_values(rt: &HostRuntime, levels: usize, records: usize) -> io::Result<()> {
    let nests = [
        (Nest::Set, "set of values", levels),
        (Nest::Record, "record of values", records),
    ];
    for (nest, name, levels) in nests {
        let shown = show_value(rt.alloc(), nest, levels)?;
        println!(rt;
            "{name}: entities: {}, shown in {} bytes a level",
            shown.entities,
            each(&shown.text, levels)
        )?;
    }
    Ok(())
}

// How many levels the argument asks for.
fn levels(rt: &HostRuntime) -> io::Result<usize> {
    let argument = env::args(rt)?.nth(1);
    argument
        .and_then(|word| word.parse().ok())
        .ok_or(io::ErrorKind::InvalidInput.into())
}

// The bytes of a text for each level.
fn each(text: &str, levels: usize) -> usize {
    text.len().checked_div(levels).unwrap_or(0)
}

// The text of a chain over the unknown x, in which x is put in as `true`, and which is built again.
fn work(alloc: Global, chain: Chain, levels: usize) -> Result<String, AllocError> {
    let mut values = HashMap::new(alloc);
    drop(values.insert(RcStr::from_str(alloc, "x")?, Literal::Bool(true))?);
    let built = rebuild(
        alloc,
        &make(alloc, chain, levels)?.substitute(alloc, &values)?,
    )?;
    built.into_expr::<Sketch>(alloc)?.to_text(alloc)
}

// What was found of a chain.
#[derive(Drop)]
struct Checked {
    is_restricted: bool,
    is_valid: bool,
}

// The expression inside sets.
fn check(alloc: Global, innermost: Expr, levels: usize) -> Result<Checked, AllocError> {
    let expr = make_over(alloc, Chain::Set, levels, innermost)?;
    Ok(Checked {
        is_restricted: is_restricted(alloc, expr.clone(alloc)?)?,
        is_valid: is_valid(alloc, expr)?,
    })
}

// Through the struct, whose data type is chosen at the call.
fn rebuild<T: Copy + Default>(alloc: Global, expr: &Expr<T>) -> Result<Expr<T>, AllocError>
    ensures { IfOk result (λ made.
        fold tree_ops empty (bare_expr expr.now) ≡ Ok (bare_expr made)) }
{
    struct_makes_trees::<T>();
    expr.into_expr::<ExprBuilder<T>>(alloc)
}

fn make(alloc: Global, chain: Chain, levels: usize) -> Result<Expr, AllocError> {
    make_over(alloc, chain, levels, unknown(alloc)?)
}

fn make_over(
    alloc: Global,
    chain: Chain,
    levels: usize,
    innermost: Expr,
) -> Result<Expr, AllocError> {
    let mut expr = innermost;
    for _ in 0..levels {
        expr = wrap(alloc, chain, expr)?;
    }
    Ok(expr)
}

fn unknown(alloc: Global) -> Result<Expr, AllocError> {
    Ok(Expr::unknown(Unknown::new_untyped(RcStr::from_str(alloc, "x")?)))
}

fn wrap(alloc: Global, chain: Chain, expr: Expr) -> Result<Expr, AllocError> {
    let one = || Expr::val(Literal::Long(1));
    match chain {
        Chain::Not => Expr::not(alloc, expr),
        Chain::Left => Expr::less(alloc, expr, one()),
        Chain::Right => Expr::less(alloc, one(), expr),
        Chain::Test => Expr::ite(alloc, expr, one(), one()),
        Chain::Else => Expr::ite(alloc, one(), one(), expr),
        Chain::Get => Expr::get_attr(alloc, expr, RcStr::from_str(alloc, "a")?),
        Chain::Like => Expr::like(alloc, expr, anything(alloc)?),
        Chain::Call => make_call(alloc, expr),
        Chain::Set => Expr::set(alloc, vec![in alloc; one(), expr, one()]?),
        Chain::Record => make_record(alloc, expr),
    }
}

fn anything(alloc: Global) -> Result<Pattern, AllocError> {
    Pattern::from_vec(alloc, vec![in alloc; PatternElem::Wildcard]?)
}

// As `f` is a name, only memory can be wanting.
fn make_call(alloc: Global, arg: Expr) -> Result<Expr, AllocError> {
    let function = Name::from_normalized_str(alloc, "f").map_err(|_| AllocError)?;
    Expr::call_extension_fn(alloc, function, vec![in alloc; arg]?)
}

// As one key can't be repeated, only memory can be wanting.
fn make_record(alloc: Global, value: Expr) -> Result<Expr, AllocError> {
    let pairs = vec![in alloc; (RcStr::from_str(alloc, "a")?, value)]?;
    Expr::record(alloc, pairs).map_err(|_| AllocError)
}
