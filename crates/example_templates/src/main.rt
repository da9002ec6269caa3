//! A template: an expression with slots and unknowns. It is read, its unknowns are filled in for
//! several principals, and each filled template is printed.
#![tactic(auto)]

ghost use Rattle.std.specs.Prelude.{◌≡◌, IfOk, IfErr, OnOk, Ok, None};
ghost use Rattle.cedar_ast.specs.Environment.{fold};
ghost use Rattle.cedar_ast.specs.Exprs.{bare_expr};
ghost use Rattle.cedar_builders.specs.SubstitutionErrors.{IsClashError};
ghost use Rattle.cedar_ast.specs.Trees.{tree_ops};
ghost use Rattle.cedar_ast.specs.TypeClash.{clash};
ghost use Rattle.example_templates.specs.Filling.{filled_in};

use cedar_ast::{
    BinaryOp, EntityType, EntityUID, Expr, ExprKind, ExprShapeOnly, FromNormalizedStr, Literal,
    Name, SlotId, SubstitutionError, Type, Unknown, Var,
};
use cedar_sketch::Sketch;
use std::alloc::{AllocError, Global};
use std::collections::{HashMap, HashSet};
use std::io;
use std::rc::RcStr;

fn main(rt: HostRuntime) -> anyhow::Result<()> {
    let alloc = rt.alloc();
    let template = make_template(alloc)?;
    describe(&rt, &template)?;
    show_filled(&rt, &template, "alice", Literal::Long(5))?;
    show_filled(&rt, &template, "bob", Literal::Long(1))?;
    let secret = Literal::from_text(alloc, "secret")?;
    show_filled(&rt, &template, "carol", secret)?;
    let again = make_template(alloc)?;
    let policies = vec![in alloc; template.clone(alloc)?, again, clearance(alloc)?]?;
    println!(rt; "shapes: {}", count_shapes(alloc, &policies)?)?;
    Ok(())
}

// `resource in ?resource && (user in ?principal && user == principal) && 3 <= clearance`, where
// `user` and `clearance` are unknowns, of which the second has to be a number.
fn make_template(alloc: Global) -> Result<Expr, AllocError> {
    let place = Expr::is_in(
        alloc,
        Expr::var(Var::Resource),
        Expr::slot(SlotId::resource()),
    )?;
    let group = Expr::is_in(alloc, user(alloc)?, Expr::slot(SlotId::principal()))?;
    let themselves = Expr::is_eq(alloc, user(alloc)?, Expr::var(Var::Principal))?;
    let cleared = Expr::lesseq(alloc, Expr::val(Literal::Long(3)), clearance(alloc)?)?;
    let who = Expr::and(alloc, group, themselves)?;
    let before = Expr::and(alloc, place, who)?;
    Expr::and(alloc, before, cleared)
}

// The unknown `user`, which stands for any value.
fn user(alloc: Global) -> Result<Expr, AllocError> {
    let name = RcStr::from_str(alloc, "user")?;
    Ok(Expr::unknown(Unknown::new_untyped(name)))
}

// The unknown `clearance`, which stands for a number.
fn clearance(alloc: Global) -> Result<Expr, AllocError> {
    let name = RcStr::from_str(alloc, "clearance")?;
    Ok(Expr::unknown(Unknown::new_with_type(name, Type::Long)))
}

// Prints the template, its slots, its unknowns and the numbers that these have to reach: once for
// each position, the last child first.
fn describe(rt: &HostRuntime, template: &Expr) -> io::Result<()> {
    println!(rt; "template: {}", text(rt.alloc(), template)?)?;
    for slot in template.slots(rt.alloc())? {
        println!(rt; "slot: {}", slot.id)?;
    }
    for unknown in template.unknowns(rt.alloc())? {
        println!(rt; "unknown: {}", unknown.name)?;
    }
    for part in template.subexpressions(rt.alloc())? {
        if let Some(number) = least_number(part) {
            println!(rt; "at least: {number}")?;
        }
    }
    Ok(())
}

// The number on the left of a `<=`, as 3 in `3 <= clearance`.
fn least_number(expr: &Expr) -> Option<i64> {
    match expr.expr_kind() {
        ExprKind::BinaryApp {
            op: BinaryOp::LessEq,
            arg1,
            ..
        } => match arg1.expr_kind() {
            ExprKind::Lit(Literal::Long(number)) => Some(*number),
            _ => None,
        },
        _ => None,
    }
}

// How many of the expressions differ, whatever places and data their nodes have.
fn count_shapes(alloc: Global, exprs: &[Expr]) -> Result<usize, AllocError> {
    let mut seen = HashSet::new(alloc);
    for expr in exprs {
        seen.insert(ExprShapeOnly::new_from_borrowed(expr))?;
    }
    Ok(seen.len())
}

// Prints the template as it is filled for a user, or why it is not.
fn show_filled(
    rt: &HostRuntime,
    template: &Expr,
    name: &str,
    clearance: Literal,
) -> io::Result<()> {
    let values = values_for(rt.alloc(), name, clearance)?;
    match fill(rt.alloc(), template, &values) {
        Ok(filled) => println!(rt; "{name}: {}", text(rt.alloc(), &filled)?),
        Err(error) => println!(rt; "{name}: {error}"),
    }
}

// The values that stand for the unknowns.
fn values_for(
    alloc: Global,
    name: &str,
    clearance: Literal,
) -> Result<HashMap<RcStr, Literal>, AllocError> {
    let mut values = HashMap::new(alloc);
    drop(values.insert(RcStr::from_str(alloc, "user")?, user_uid(alloc, name)?)?);
    drop(values.insert(RcStr::from_str(alloc, "clearance")?, clearance)?);
    Ok(values)
}

// The entity of this name and of the type `User`. As `User` is a name, only memory can be wanting.
fn user_uid(alloc: Global, name: &str) -> Result<Literal, AllocError> {
    let ty = Name::from_normalized_str(alloc, "User").map_err(|_| AllocError)?;
    let uid = EntityUID::new(EntityType::from(ty), RcStr::from_str(alloc, name)?);
    Literal::from_uid(alloc, uid)
}

/// The template with each unknown that `values` binds replaced by its value. The slots stay.
///
/// The contract is that of `substitute_typed` at literals. It says what is made, and that, unless
/// memory runs out, a template is refused exactly where a value has another type than its unknown
/// is annotated with: the error names the two types.
fn fill(
    alloc: Global,
    template: &Expr,
    values: &HashMap<RcStr, Literal>,
) -> Result<Expr, SubstitutionError>
    ensures filled { IfOk result (λ e.
        fold tree_ops (filled_in values.now) (bare_expr template.now) ≡ Ok (bare_expr e)) }
    ensures passed { OnOk result (clash (filled_in values.now) (bare_expr template.now) ≡ None) }
    ensures refused { IfErr result
        (IsClashError (clash (filled_in values.now) (bare_expr template.now))) }
{
    template.substitute_typed(alloc, values)
}

// The text of the expression, in prefix form.
fn text(alloc: Global, expr: &Expr) -> Result<String, AllocError> {
    expr.into_expr::<Sketch>(alloc)?.to_text(alloc)
}
