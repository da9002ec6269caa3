//! Tests of `id.rs`.
use crate::said::title;
use cedar_names::{AnyId, FromNormalizedStr, Id, UnreservedId};
use std::io;

/// Runs them.
pub fn run(rt: &HostRuntime) -> io::Result<()> {
    normalized_id(rt)?;
    normalized_unreserved_id(rt)?;
    normalized_any_id(rt)
}

/// Prints of each text whether it is read as what is asked for.
pub fn show_read<N: FromNormalizedStr + Drop>(rt: &HostRuntime, texts: &[&str]) -> io::Result<()> {
    for text in texts {
        let outcome = match N::from_normalized_str(rt.alloc(), text) {
            Ok(_) => "Ok",
            Err(_) => "Err",
        };
        println!(rt; "  {text:?}: {outcome}")?;
    }
    Ok(())
}

// What the tests of unreserved identifiers, and of any, read.
const IDS: [&str; 7] = [
    "foo",
    "__cedar",
    "if",
    "foo::bar",
    " foo",
    "foo ",
    "foo//comment",
];

fn normalized_id(rt: &HostRuntime) -> io::Result<()> {
    title(rt, "id: normalized_id")?;
    show_read::<Id>(
        rt,
        &[
            "foo",
            "foo::bar",
            "foo::\"bar\"",
            " foo",
            "foo ",
            "foo\n",
            "foo//comment",
        ],
    )
}

fn normalized_unreserved_id(rt: &HostRuntime) -> io::Result<()> {
    title(rt, "id: normalized_unreserved_id")?;
    show_read::<UnreservedId>(rt, &IDS)
}

fn normalized_any_id(rt: &HostRuntime) -> io::Result<()> {
    title(rt, "id: normalized_any_id")?;
    show_read::<AnyId>(rt, &IDS)
}
