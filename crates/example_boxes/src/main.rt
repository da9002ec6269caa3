//! Functions of extensions as closures: one of each count of arguments is stored in an extension
//! and called. The values are those without extension values.
#![tactic(auto)]

mod storing;

ghost use Rattle.std.specs.Prelude.{◌≡◌, MatchResult, Some, pos};
ghost use Rattle.cedar_terms.specs.Types.{BoolType, LongType};
ghost use Rattle.cedar_values.specs.Holders.{held_name};
ghost use Rattle.cedar_calls.specs.Types.{Keeps};
ghost use Rattle.cedar_calls.specs.declared.err.EvaluationError.TheVariants.{Memory};
ghost use Rattle.example_boxes.specs.Numbers.{AnswersNumber, IsNumber};

use crate::storing::{answer, binary, name, nullary, show, ternary, unary, variadic};
use cedar_calls::{BoxedFunction, EvaluationError, ExtensionOutputValue, FunctionBox};
use cedar_names::Name;
use cedar_terms::SchemaType;
use cedar_values::{NoExtension, PartialValue, Value, ValueKind};
use std::alloc::Global;
use std::boxed::Box;
use std::io;

/// What a boxed function answers.
type Answer = Result<ExtensionOutputValue, EvaluationError>;

fn main(rt: HostRuntime) -> io::Result<()> {
    seven(&rt)?;
    show(
        &rt,
        &name(&rt, "eight")?,
        &eight(rt.alloc(), name(&rt, "eight")?),
    )?;
    is_set(&rt)?;
    same(&rt)?;
    between(&rt)?;
    is_among(&rt)
}

// Of no arguments: the number seven.
fn seven(rt: &HostRuntime) -> io::Result<()> {
    let func: FunctionBox = Box::new(
        rt.alloc(),
        |_alloc: Global, _args: &[&Value]| -> Answer
            ensures { Keeps held_name (Some LongType) result }
        { Ok(ExtensionOutputValue::Known(Value::from(7))) },
    )?;
    let func = BoxedFunction::new(func, Some(SchemaType::Long));
    nullary::<NoExtension>(rt, "seven", func, SchemaType::Long)
}

// Of no arguments as well: the number eight. That it is eight that a call answers is proved: the
// stored box is the one that was made here, and a call hands on what the box answers.
#[tactic(auto, using(crate::proofs::Passed::passed_number))]
fn eight(alloc: Global, name: Name) -> Result<PartialValue, EvaluationError>
    ensures { MatchResult result (IsNumber (pos 8)) (λ e. e ≡ Memory) }
{
    let func: FunctionBox = Box::new(
        alloc,
        |_alloc: Global, _args: &[&Value]| -> Answer
            ensures { AnswersNumber (pos 8) result }
        { Ok(ExtensionOutputValue::Known(Value::from(8))) },
    )?;
    let func = BoxedFunction::new(func, Some(SchemaType::Long));
    answer::<NoExtension>(alloc, name, func, SchemaType::Long)
}

// Of one argument: whether it is a set.
fn is_set(rt: &HostRuntime) -> io::Result<()> {
    let func: FunctionBox = Box::new(
        rt.alloc(),
        |_alloc: Global, args: &[&Value]| -> Answer
            ensures { Keeps held_name (Some BoolType) result }
        { known(matches!(args, [arg] if matches!(arg.value_kind(), ValueKind::Set(_)))) },
    )?;
    let func = BoxedFunction::new(func, Some(SchemaType::Bool));
    unary::<NoExtension>(rt, "is_set", func, SchemaType::Bool, &[Value::from(1)])
}

// Of two arguments: whether they are the same.
fn same(rt: &HostRuntime) -> io::Result<()> {
    let func: FunctionBox = Box::new(
        rt.alloc(),
        |_alloc: Global, args: &[&Value]| -> Answer
            ensures { Keeps held_name (Some BoolType) result }
        { known(matches!(args, [first, second] if first == second)) },
    )?;
    let func = BoxedFunction::new(func, Some(SchemaType::Bool));
    let args = [Value::from(2), Value::from(2)];
    binary::<NoExtension>(rt, "same", func, SchemaType::Bool, &args)
}

// Of three arguments: whether they ascend.
fn between(rt: &HostRuntime) -> io::Result<()> {
    let func: FunctionBox = Box::new(
        rt.alloc(),
        |_alloc: Global, args: &[&Value]| -> Answer
            ensures { Keeps held_name (Some BoolType) result }
        { known(matches!(args, [a, b, c] if a < b && b < c)) },
    )?;
    let func = BoxedFunction::new(func, Some(SchemaType::Bool));
    let args = [Value::from(1), Value::from(3), Value::from(2)];
    ternary::<NoExtension>(rt, "between", func, SchemaType::Bool, &args)
}

// Of two or more arguments: whether the first is one of the others.
fn is_among(rt: &HostRuntime) -> io::Result<()> {
    let func: FunctionBox = Box::new(
        rt.alloc(),
        |_alloc: Global, args: &[&Value]| -> Answer
            ensures { Keeps held_name (Some BoolType) result }
        { known(matches!(args, [first, others @ ..] if others.contains(first))) },
    )?;
    let func = BoxedFunction::new(func, Some(SchemaType::Bool));
    let args = [Value::from(4), Value::from(5), Value::from(4)];
    variadic::<NoExtension>(rt, "is_among", func, SchemaType::Bool, &args)
}

fn known(truth: bool) -> Answer
    ensures { Keeps held_name (Some BoolType) result }
{
    Ok(ExtensionOutputValue::Known(Value::from(truth)))
}
