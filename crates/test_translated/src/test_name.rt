//! Tests of `name.rs`.
use crate::said::title;
use crate::test_id::show_read;
use cedar_names::{FromNormalizedStr, InternalName, Name, ParseErrors, SlotId};
use std::alloc::Global;
use std::io;

/// Runs them.
pub fn run(rt: &HostRuntime) -> io::Result<()> {
    vars_correct(rt)?;
    display(rt)?;
    normalized_name(rt)?;
    qualify_with(rt)?;
    test_reserved(rt)?;
    test_name_identifier_intersection(rt)
}

fn vars_correct(rt: &HostRuntime) -> io::Result<()> {
    title(rt, "name: vars_correct")?;
    let _principal = SlotId::principal();
    let _resource = SlotId::resource();
    Ok(())
}

fn display(rt: &HostRuntime) -> io::Result<()> {
    title(rt, "name: display")?;
    println!(rt; "  {}", SlotId::principal())
}

fn normalized_name(rt: &HostRuntime) -> io::Result<()> {
    title(rt, "name: normalized_name")?;
    show_read::<InternalName>(
        rt,
        &[
            "foo",
            "foo::bar",
            "foo::\"bar\"",
            " foo",
            "foo ",
            "foo\n",
            "foo//comment",
            "if",
            "foo::if",
        ],
    )
}

fn qualify_with(rt: &HostRuntime) -> io::Result<()> {
    title(rt, "name: qualify_with")?;
    for (name, namespace) in [
        ("baz", Some("foo::bar")),
        ("C::D", Some("A::B")),
        ("D", Some("A::B::C")),
        ("B::C::D", Some("A")),
        ("A", None),
    ] {
        match qualified(rt.alloc(), name, namespace) {
            Ok(name) => println!(rt; "  {name}")?,
            Err(error) => println!(rt; "  {error}")?,
        }
    }
    Ok(())
}

// The name within the namespace.
fn qualified(
    alloc: Global,
    name: &str,
    namespace: Option<&str>,
) -> Result<InternalName, ParseErrors> {
    let name = InternalName::from_normalized_str(alloc, name)?;
    match namespace {
        Some(namespace) => {
            let namespace = InternalName::from_normalized_str(alloc, namespace)?;
            Ok(name.qualify_with(alloc, Some(&namespace))?)
        }
        None => Ok(name.qualify_with(alloc, None)?),
    }
}

fn test_reserved(rt: &HostRuntime) -> io::Result<()> {
    title(rt, "name: test_reserved")?;
    for text in [
        "__cedar",
        "__cedar::A",
        "__cedar::A::B",
        "A::__cedar",
        "A::__cedar::B",
        "__cedarr",
        "A::_cedar",
        "A::___cedar::B",
    ] {
        match InternalName::from_normalized_str(rt.alloc(), text) {
            Ok(name) => println!(rt; "  {text}: {}", name.is_reserved())?,
            Err(error) => println!(rt; "  {text}: {error}")?,
        }
    }
    Ok(())
}

fn test_name_identifier_intersection(rt: &HostRuntime) -> io::Result<()> {
    title(rt, "name: test_name_identifier_intersection")?;
    show_read::<Name>(
        rt,
        &[
            "A::permit",
            "A::forbid",
            "A::when",
            "A::unless",
            "A::principal",
            "A::action",
            "A::resource",
            "A::context",
        ],
    )?;
    show_read::<Name>(rt, &RESERVED_IDS)
}

const RESERVED_IDS: [&str; 10] = [
    "A::true",
    "A::false",
    "A::if",
    "A::then",
    "A::else",
    "A::in",
    "A::is",
    "A::like",
    "A::has",
    "A::__cedar",
];
