//! Tests of `expr.rs`.
use crate::said::{boolean, long, says, text, title, unknown};
use cedar_builders::{ExprBuilder as _, SubstitutionError};
use cedar_exprs::{Expr, ExprBuilder, ExprShapeOnly};
use cedar_names::SlotId;
use cedar_terms::{Literal, Type, Unknown, Var};
use cedar_values::Value;
use std::alloc::{AllocError, Global};
use std::collections::{HashMap, HashSet};
use std::io;
use std::rc::RcStr;

/// Runs them.
pub fn run(rt: &HostRuntime) -> io::Result<()> {
    all_vars_are_ids(rt)?;
    simple_slots(rt)?;
    unknowns(rt)?;
    is_unknown(rt)?;
    expr_with_data(rt)?;
    expr_shape_only_not_eq(rt)?;
    expr_shape_only_set_prefix_ne(rt)?;
    untyped_subst_present(rt)?;
    typed_subst_present_correct_type(rt)?;
    typed_subst_present_wrong_type(rt)
}

fn all_vars_are_ids(rt: &HostRuntime) -> io::Result<()> {
    title(rt, "expr: all_vars_are_ids")?;
    for var in [Var::Principal, Var::Action, Var::Resource, Var::Context] {
        let id = var.to_id(rt.alloc())?;
        println!(rt; "  {id} and {}", var.to_unreserved_id(rt.alloc())?)?;
    }
    Ok(())
}

// The different slots.
fn slots(alloc: Global, e: &Expr) -> Result<HashSet<SlotId>, AllocError> {
    let mut set = HashSet::new(alloc);
    for slot in e.slots(alloc)? {
        set.insert(slot.id)?;
    }
    Ok(set)
}

// `?principal || (if true then ?resource else false)`
fn two_slots(alloc: Global) -> Result<Expr, AllocError> {
    let resource = Expr::slot(SlotId::resource());
    let either = Expr::ite(alloc, boolean(true), resource, boolean(false))?;
    Expr::or(alloc, Expr::slot(SlotId::principal()), either)
}

fn simple_slots(rt: &HostRuntime) -> io::Result<()> {
    title(rt, "expr: simple_slots")?;
    let mut set = HashSet::new(rt.alloc());
    set.insert(SlotId::principal())?;
    let found = slots(rt.alloc(), &Expr::slot(SlotId::principal()))?;
    says(rt, "?principal", found == set)?;
    set.insert(SlotId::resource())?;
    let found = slots(rt.alloc(), &two_slots(rt.alloc())?)?;
    says(rt, "?principal and ?resource", found == set)
}

// `if !a then b && 3 else c`, where a, b and c are unknowns.
fn three_unknowns(alloc: Global) -> Result<Expr, AllocError> {
    let not_a = Expr::not(alloc, Expr::unknown(unknown(alloc, "a")?))?;
    let b_and_3 = Expr::and(alloc, Expr::unknown(unknown(alloc, "b")?), long(3))?;
    Expr::ite(alloc, not_a, b_and_3, Expr::unknown(unknown(alloc, "c")?))
}

fn unknowns(rt: &HostRuntime) -> io::Result<()> {
    title(rt, "expr: unknowns")?;
    let e = three_unknowns(rt.alloc())?;
    let unknowns: Vec<&Unknown> = e.unknowns(rt.alloc())?.collect(rt.alloc())?;
    println!(rt; "  len: {}", unknowns.len())?;
    for name in ["a", "b", "c"] {
        let wanted = unknown(rt.alloc(), name)?;
        println!(rt; "  contains {name}: {}", unknowns.contains(&&wanted))?;
    }
    Ok(())
}

// `if !true then 1 && 3 else 1`
fn no_unknowns(alloc: Global) -> Result<Expr, AllocError> {
    let not_true = Expr::not(alloc, boolean(true))?;
    Expr::ite(
        alloc,
        not_true,
        Expr::and(alloc, long(1), long(3))?,
        long(1),
    )
}

fn is_unknown(rt: &HostRuntime) -> io::Result<()> {
    title(rt, "expr: is_unknown")?;
    let e = three_unknowns(rt.alloc())?;
    says(rt, "contains an unknown", e.contains_unknown(rt.alloc())?)?;
    let e = no_unknowns(rt.alloc())?;
    says(rt, "contains an unknown", e.contains_unknown(rt.alloc())?)
}

fn expr_with_data(rt: &HostRuntime) -> io::Result<()> {
    title(rt, "expr: expr_with_data")?;
    let e = ExprBuilder::with_data("data").val(rt.alloc(), Literal::Long(1))?;
    println!(rt; "  {}", e.into_data())
}

fn expr_shape_only_not_eq(rt: &HostRuntime) -> io::Result<()> {
    title(rt, "expr: expr_shape_only_not_eq")?;
    let expr1 = ExprBuilder::with_data(1u8).val(rt.alloc(), Literal::Long(1))?;
    let expr2 = ExprBuilder::with_data(1u8).val(rt.alloc(), Literal::Long(2))?;
    let shape1 = ExprShapeOnly::new_from_borrowed(&expr1);
    let shape2 = ExprShapeOnly::new_from_borrowed(&expr2);
    says(rt, "differ", shape1 != shape2)
}

// The shape of the set of the numbers from 1 on.
fn set_shape(alloc: Global, last: i64) -> Result<ExprShapeOnly<'static>, AllocError> {
    let mut members = Vec::new(alloc);
    for n in 1..=last {
        members.push(long(n))?;
    }
    Ok(ExprShapeOnly::new_from_owned(Expr::set(alloc, members)?))
}

fn expr_shape_only_set_prefix_ne(rt: &HostRuntime) -> io::Result<()> {
    title(rt, "expr: expr_shape_only_set_prefix_ne")?;
    for (one, other) in [(0, 1), (0, 2), (1, 0), (1, 2), (2, 0), (1, 0)] {
        let differ = set_shape(rt.alloc(), one)? != set_shape(rt.alloc(), other)?;
        println!(rt; "  sets of {one} and {other} differ: {differ}")?;
    }
    Ok(())
}

// The value 1 for the unknown.
fn foo_is_1(alloc: Global) -> Result<HashMap<RcStr, Value>, AllocError> {
    let mut values = HashMap::new(alloc);
    drop(values.insert(text(alloc, "foo")?, Value::from(1))?);
    Ok(values)
}

// The unknown, of this type.
fn foo(alloc: Global, ty: Type) -> Result<Expr, AllocError> {
    Ok(Expr::unknown(Unknown::new_with_type(text(alloc, "foo")?, ty)))
}

fn untyped_subst_present(rt: &HostRuntime) -> io::Result<()> {
    title(rt, "expr: untyped_subst_present")?;
    let u = Expr::unknown(unknown(rt.alloc(), "foo")?);
    let e = u.substitute(rt.alloc(), &foo_is_1(rt.alloc())?)?;
    says(rt, "1", e == long(1))
}

fn typed_subst_present_correct_type(rt: &HostRuntime) -> io::Result<()> {
    title(rt, "expr: typed_subst_present_correct_type")?;
    let u = foo(rt.alloc(), Type::Long)?;
    match u.substitute_typed(rt.alloc(), &foo_is_1(rt.alloc())?) {
        Ok(e) => says(rt, "1", e == long(1)),
        Err(error) => println!(rt; "  {error}"),
    }
}

fn typed_subst_present_wrong_type(rt: &HostRuntime) -> io::Result<()> {
    title(rt, "expr: typed_subst_present_wrong_type")?;
    let u = foo(rt.alloc(), Type::Bool)?;
    match u.substitute_typed(rt.alloc(), &foo_is_1(rt.alloc())?) {
        Err(SubstitutionError::TypeError { expected, actual }) => {
            println!(rt; "  expected: {expected}, actual: {actual}")
        }
        Err(SubstitutionError::Memory) => println!(rt; "  no memory"),
        Ok(_) => println!(rt; "  substituted"),
    }
}
