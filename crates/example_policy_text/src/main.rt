//! Conditions in Cedar's own syntax: a tree is printed, what was printed is read, a mistake in a
//! text is shown where it stands, and a builder of one's own tells how deep the trees are.
#![tactic(auto)]

ghost use Rattle.std.specs.Prelude.{IfOk, IsUtf8, string_bytes};
ghost use Rattle.cedar_builders.specs.BareExpr.{Text};
ghost use Rattle.cedar_exprs.specs.BareExpr.{bare_expr};
ghost use Rattle.semantics_printing.specs.Texts.{IsTextOfTree};
ghost use Rattle.semantics_round_trip.specs.Parsed.{IsPlain};

mod depth;

use crate::depth::depth_of;
use anyhow::Result;
use cedar_ast::{Expr, Literal, Unknown, Var};
use cedar_parser::{ParseError, parse_expr};
use cedar_printer::policy_text;
use semantics_round_trip::laws::parsed_trees_read_back;
use std::alloc::{AllocError, Global};
use std::io;
use std::rc::RcStr;

fn main(rt: HostRuntime) -> Result<()> {
    let alloc = rt.alloc();
    let tree = condition(alloc)?;
    let text = policy_text(alloc, &tree)?.text;
    println!(rt; "{text}")?;
    let read = parse_expr(alloc, &text)?;
    println!(rt; "read as the same tree: {}", tree.eq_shape(&read))?;
    show_depth(&rt, &read)?;

    // Brackets stand only where they are needed, and each node that is read has its place.
    show(&rt, "((1 + 2) * 3 == unknown(\"x\")) && (context.mfa)")?;
    show(&rt, "principal has age && principal.age >= 18")?;
    show(&rt, "principal.age >")?;

    // A leaf is 1 deep, any other node one more than its deepest child.
    show(&rt, "2")?;
    show(
        &rt,
        "unknown(\"x\") < 2 && unknown(\"y\") == unknown(\"z\")",
    )?;
    show(
        &rt,
        "f(unknown(\"x\") < 2 && unknown(\"y\") == unknown(\"z\"), 1)",
    )?;
    Ok(())
}

// An unknown is less than 2, and the principal is older than 3.
fn condition(alloc: Global) -> Result<Expr, AllocError> {
    let x = Expr::unknown(Unknown::new_untyped(RcStr::from_str(alloc, "x")?));
    let is_low = Expr::less(alloc, x, Expr::val(Literal::Long(2)))?;
    let age = RcStr::from_str(alloc, "age")?;
    let age = Expr::get_attr(alloc, Expr::var(Var::Principal), age)?;
    let is_old = Expr::greater(alloc, age, Expr::val(Literal::Long(3)))?;
    Expr::and(alloc, is_low, is_old)
}

// Prints a condition that is read, and its depth, or why it is none.
fn show(rt: &HostRuntime, text: &str) -> io::Result<()> {
    match parse_expr(rt.alloc(), text) {
        Ok(expr) => show_condition(rt, &expr),
        Err(ParseError::Syntax(error)) => println!(rt; "{error}\n{}", error.excerpt(text)),
        Err(ParseError::Memory) => println!(rt; "no memory"),
    }
}

fn show_condition(rt: &HostRuntime, expr: &Expr) -> io::Result<()> {
    println!(rt; "{}", printed(rt.alloc(), expr)?)?;
    show_depth(rt, expr)
}

// The text of a condition: where it was parsed, what is printed for it stands for it again.
fn printed(alloc: Global, expr: &Expr) -> Result<String, AllocError>
    ensures { IfOk result (λ printed. (text : Text) → IsUtf8 text
        → IsTextOfTree text (bare_expr expr.now) → IsPlain (bare_expr expr.now)
        → IsTextOfTree (string_bytes printed) (bare_expr expr.now)) }
{
    parsed_trees_read_back();
    Ok(policy_text(alloc, expr)?.text)
}

// A program that takes conditions from strangers may limit this.
fn show_depth(rt: &HostRuntime, expr: &Expr) -> io::Result<()> {
    println!(rt; "its tree is {} deep", depth_of(rt.alloc(), expr)?)
}
