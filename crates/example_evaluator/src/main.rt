//! Values, the evaluator and the partial evaluator: makes and reads values, and asks what a rule
//! comes to, or for its residual, before all of its unknowns are known, and again when they are.
#![tactic(auto)]

mod decision;
mod residual;
mod values;

use crate::decision::decide;
use crate::residual::{outcome_of_residual, residual_text};
use crate::values::{count_answers, has_number, numbers, worker};
use cedar_ast::evaluator::{CallRefused, Outcome, evaluate};
use cedar_ast::{BuildFault, Expr, Literal, PartialValue, Unknown, Value};
use std::alloc::{AllocError, Global};
use std::collections::HashMap;
use std::io;
use std::rc::RcStr;

fn main(rt: HostRuntime) -> io::Result<()> {
    show_values(&rt)?;

    let alloc = rt.alloc();
    let rule = door_opens(alloc)?;
    let morning = binding(alloc, "hour", Value::from(9))?;
    let night = binding(alloc, "hour", Value::from(22))?;
    let staff = binding(alloc, "badge", text(alloc, "staff")?)?;

    // In the morning it depends on the badge: the outcome is open until that is known.
    show(&rt, "morning", evaluate(alloc, &rule, &morning))?;
    let in_the_morning = decide(alloc, &rule, &morning, &staff);
    show(&rt, "morning, staff", in_the_morning)?;

    // At night the hour alone decides, and no badge changes that.
    show(&rt, "night", evaluate(alloc, &rule, &night))?;
    let at_night = decide(alloc, &rule, &night, &staff);
    show(&rt, "night, staff", at_night)?;

    // The residual of the rule by the hour, and what that comes to with the badge.
    for (when, hour) in [("morning", &morning), ("night", &night)] {
        println!(rt; "{when}, residual: {}", residual_text(alloc, &rule, hour)?)?;
        show(&rt, when, outcome_of_residual(alloc, &rule, hour, &staff))?;
    }
    Ok(())
}

// Prints a record with a set inside, what is in the set, and answers that are known in part.
fn show_values(rt: &HostRuntime) -> io::Result<()> {
    let alloc = rt.alloc();
    let hours = numbers(alloc, &[22, 9, 22])?;
    println!(rt;
        "9: {}, 10: {}",
        has_number(&hours, 9),
        has_number(&hours, 10)
    )?;
    println!(rt; "{}", worker(alloc, "ann", hours.clone(alloc)?)?)?;
    let badge = Unknown::new_untyped(RcStr::from_str(alloc, "badge")?);
    let answers = vec![in alloc; PartialValue::from(hours), PartialValue::unknown(badge)]?;
    let (count, are_values) = count_answers(alloc, answers)?;
    println!(rt; "{count} answers, all of them values: {are_values}")
}

// The rule `hour < 18 && badge == "staff"`, where hour and badge are unknowns.
fn door_opens(alloc: Global) -> Result<Expr, AllocError> {
    let by_day = Expr::less(alloc, unknown(alloc, "hour")?, Expr::val(Literal::Long(18)))?;
    let staff = Expr::val(Literal::String(RcStr::from_str(alloc, "staff")?));
    let of_staff = Expr::is_eq(alloc, unknown(alloc, "badge")?, staff)?;
    Expr::and(alloc, by_day, of_staff)
}

// The unknown of this name.
fn unknown(alloc: Global, name: &str) -> Result<Expr, AllocError> {
    let name = RcStr::from_str(alloc, name)?;
    Ok(Expr::unknown(Unknown::new_untyped(name)))
}

// The map that binds this name alone.
fn binding(alloc: Global, name: &str, value: Value) -> Result<HashMap<RcStr, Value>, AllocError> {
    let mut values = HashMap::new(alloc);
    drop(values.insert(RcStr::from_str(alloc, name)?, value)?);
    Ok(values)
}

// The value that is this text.
fn text(alloc: Global, text: &str) -> Result<Value, AllocError> {
    Ok(Value::from(RcStr::from_str(alloc, text)?))
}

// Prints what the rule came to: its value, or why there is none.
fn show(
    rt: &HostRuntime,
    when: &str,
    outcome: Result<Outcome, BuildFault<CallRefused>>,
) -> io::Result<()> {
    match outcome {
        Ok(outcome) => println!(rt; "{when}: {outcome}"),
        Err(BuildFault::Build(refused)) => println!(rt; "{when}: {refused}"),
        Err(BuildFault::Memory) => Err(AllocError.into()),
    }
}
