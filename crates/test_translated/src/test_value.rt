//! Tests of `value.rs`.
use crate::said::{string_value, text, title};
use cedar_names::Name;
use cedar_terms::{EntityUID, Literal, StaticallyTyped, Type};
use cedar_values::{Set, Value, ValueKind};
use std::alloc::{AllocError, Global};
use std::io;

/// Runs them.
pub fn run(rt: &HostRuntime) -> io::Result<()> {
    value_types(rt)?;
    test_set_is_empty_for_empty_set(rt)?;
    test_set_is_not_empty_for_set_with_values(rt)?;
    pretty_printer(rt)?;
    set_collect(rt)
}

// Prints whether a value is of a type, by the type's text.
fn show_type(rt: &HostRuntime, value: &Value, ty: Type) -> io::Result<()> {
    println!(rt;
        "  {value} is of {ty}: {}",
        value.type_of(rt.alloc())? == ty
    )
}

fn value_types(rt: &HostRuntime) -> io::Result<()> {
    title(rt, "value: value_types")?;
    show_type(rt, &Value::from(false), Type::Bool)?;
    show_type(rt, &Value::from(23), Type::Long)?;
    show_type(rt, &Value::from(-47), Type::Long)?;
    show_type(rt, &string_value(rt.alloc(), "hello")?, Type::String)?;
    show_type(rt, &numbers(rt.alloc())?, Type::Set)?;
    show_type(rt, &Value::empty_set(rt.alloc(), None)?, Type::Set)?;
    show_type(rt, &Value::empty_record(rt.alloc(), None)?, Type::Record)?;
    show_type(rt, &hello_ham(rt.alloc())?, Type::Record)?;
    entity_type(rt)
}

fn numbers(alloc: Global) -> Result<Value, AllocError> {
    Value::from_vec(
        alloc,
        vec![in alloc; Value::from(2), Value::from(-3), Value::from(40)]?,
    )
}

fn hello_ham(alloc: Global) -> Result<Value, AllocError> {
    let pairs = vec![in alloc; (text(alloc, "hello")?, string_value(alloc, "ham")?)]?;
    Value::record(alloc, pairs, None)
}

fn entity_type(rt: &HostRuntime) -> io::Result<()> {
    let foo = Literal::from_uid(rt.alloc(), EntityUID::with_eid(rt.alloc(), "foo")?)?;
    match Name::parse_unqualified_name(rt.alloc(), "test_entity_type") {
        Ok(name) => show_type(rt, &Value::from(foo), Type::entity_type(name)),
        Err(error) => println!(rt; "  {error}"),
    }
}

fn test_set_is_empty_for_empty_set(rt: &HostRuntime) -> io::Result<()> {
    title(rt, "value: test_set_is_empty_for_empty_set")?;
    let set: Set = Set::empty(rt.alloc())?;
    println!(rt; "  is empty: {}", set.is_empty())
}

fn test_set_is_not_empty_for_set_with_values(rt: &HostRuntime) -> io::Result<()> {
    title(rt, "value: test_set_is_not_empty_for_set_with_values")?;
    let members = vec![in rt.alloc(); string_value(rt.alloc(), "abc")?]?;
    let set = Set::new(rt.alloc(), members)?;
    println!(rt; "  is empty: {}", set.is_empty())
}

fn pretty_printer(rt: &HostRuntime) -> io::Result<()> {
    title(rt, "value: pretty_printer")?;
    for text in ["abc", "\t", "🐈"] {
        println!(rt; "  {}", string_value(rt.alloc(), text)?)?;
    }
    Ok(())
}

fn set_collect(rt: &HostRuntime) -> io::Result<()> {
    title(rt, "value: set_collect")?;
    let set: Set = Set::from_values(rt.alloc(), vec![in rt.alloc(); Value::from(1)]?)?;
    println!(rt; "  len: {}", set.len())?;
    let member = Value::new(ValueKind::Set(set), None);
    let set2 = Set::from_values(rt.alloc(), vec![in rt.alloc(); member]?)?;
    println!(rt; "  len: {}", set2.len())
}
