//! Tests of `pattern.rs`.
use crate::said::title;
use cedar_terms::{Pattern, PatternElem};
use std::alloc::{AllocError, Global};
use std::io;

/// Runs them.
pub fn run(rt: &HostRuntime) -> io::Result<()> {
    test_wildcard_match_basic(rt)?;
    test_wildcard_match_unicode(rt)
}

// The pattern in which each star is a wildcard, and any other character itself.
fn pattern(alloc: Global, stars: &str) -> Result<Pattern, AllocError> {
    let mut elems = Vec::new(alloc);
    for c in stars.chars() {
        elems.push(if c == '*' {
            PatternElem::Wildcard
        } else {
            PatternElem::Char(c)
        })?;
    }
    Pattern::from_vec(alloc, elems)
}

// Prints whether a text matches.
fn show_match(rt: &HostRuntime, stars: &str, text: &str) -> io::Result<()> {
    let matches = pattern(rt.alloc(), stars)?.wildcard_match(text);
    println!(rt; "  '{text}' like '{stars}': {matches}")
}

fn test_wildcard_match_basic(rt: &HostRuntime) -> io::Result<()> {
    title(rt, "pattern: test_wildcard_match_basic")?;
    for stars in [
        "foo*", "*bar", "*o b*", "f* bar", "f**r", "*f***", "*foo", "bar*", "*bo*", "f*br",
        "*x***", "",
    ] {
        show_match(rt, stars, "foo bar")?;
    }
    for stars in ["", "*", "foo bar"] {
        show_match(rt, stars, "")?;
    }
    literal_characters(rt)?;
    show_match(rt, "*", "*")?;
    show_match(rt, r"\u{0000}", "*")
}

// Prints whether a star matches a star and the zero character.
fn literal_characters(rt: &HostRuntime) -> io::Result<()> {
    for (name, c) in [("star", '*'), ("zero", '\0')] {
        let elems = vec![in rt.alloc(); PatternElem::Char(c)]?;
        let matches = Pattern::from_vec(rt.alloc(), elems)?.wildcard_match("*");
        println!(rt; "  '*' like {name}: {matches}")?;
    }
    Ok(())
}

fn test_wildcard_match_unicode(rt: &HostRuntime) -> io::Result<()> {
    title(rt, "pattern: test_wildcard_match_unicode")?;
    for stars in ["y*", "y̆", "*p*"] {
        show_match(rt, stars, "y̆")?;
    }
    for stars in ["*p*", "*a̵̰̯͛m̴͉̋́*", "y*"] {
        show_match(rt, stars, "ḛ̶͑͝x̶͔͛a̵̰̯͛m̴͉̋́p̷̠͂l̵͇̍̔ȩ̶̣͝")?;
    }
    Ok(())
}
