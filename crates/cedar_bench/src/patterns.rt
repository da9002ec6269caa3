//! The cases of patterns.
use crate::fault::{CaseFault, expect};
use cedar_bench_runner::Stopwatch;
use cedar_terms::{Pattern, PatternElem};
use std::alloc::{AllocError, Global};
use std::time::Duration;

/// A pattern, and a text of so many characters.
#[derive(Clone, Copy)]
pub enum Wild {
    Restart,
    Stars,
    Literal,
    Unicode,
}

// How often one of the usual patterns matches one of the usual texts. Of the texts, 33,334 are of
// pictures, 33,333 of logs; the first three patterns match all of one kind, and the last the 3,666
// pictures whose user's number begins with 7.
const USUAL_MATCHES: u64 = 103_666;

/// Matches a pattern with a text of so many characters.
pub fn time_match(rt: &HostRuntime, wild: Wild, count: usize) -> Result<Duration, CaseFault> {
    let pattern = wild.pattern(rt.alloc(), count)?;
    let text = wild.text(rt.alloc(), count)?;
    let watch = Stopwatch::start(rt);
    watch.stop(expect(pattern.wildcard_match(&text) == wild.is_match()))
}

/// Matches some usual patterns with so many texts.
pub fn time_match_usual(rt: &HostRuntime, count: usize) -> Result<Duration, CaseFault> {
    let patterns = usual_patterns(rt.alloc())?;
    let texts = usual_texts(rt.alloc(), count)?;
    let watch = Stopwatch::start(rt);
    watch.stop(expect(count_matches(&patterns, &texts) == USUAL_MATCHES))
}

impl Wild {
    fn pattern(self, alloc: Global, count: usize) -> Result<Pattern, AllocError> {
        match self {
            Wild::Restart => pattern_around(alloc, "*", "a", count / 2, "b"),
            Wild::Stars => pattern_around(alloc, "", "*a", 20, "*b"),
            Wild::Literal => pattern_around(alloc, "", "a", count, ""),
            Wild::Unicode => pattern_of(alloc, "*日*é日"),
        }
    }

    fn text(self, alloc: Global, count: usize) -> Result<String, AllocError> {
        match self {
            Wild::Restart | Wild::Stars | Wild::Literal => around(alloc, "", "a", count, ""),
            Wild::Unicode => around(alloc, "", "é", count.saturating_sub(2), "é日"),
        }
    }

    // Whether the pattern matches the text.
    fn is_match(self) -> bool {
        matches!(self, Wild::Literal)
    }
}

// The pattern in which `*` is the wildcard.
fn pattern_of(alloc: Global, text: &str) -> Result<Pattern, AllocError> {
    let mut elems = Vec::new(alloc);
    for c in text.chars() {
        elems.push(match c {
            '*' => PatternElem::Wildcard,
            c => PatternElem::Char(c),
        })?;
    }
    Pattern::from_vec(alloc, elems)
}

fn pattern_around(
    alloc: Global,
    before: &str,
    part: &str,
    count: usize,
    after: &str,
) -> Result<Pattern, AllocError> {
    pattern_of(alloc, &around(alloc, before, part, count, after)?)
}

// The part so many times, between what stands before and after it.
fn around(
    alloc: Global,
    before: &str,
    part: &str,
    count: usize,
    after: &str,
) -> Result<String, AllocError> {
    let mut text = String::from_str(alloc, before)?;
    for _ in 0..count {
        text.push_str(part)?;
    }
    text.push_str(after)?;
    Ok(text)
}

// Patterns as policies have them.
fn usual_patterns(alloc: Global) -> Result<Vec<Pattern>, AllocError> {
    let mut patterns = Vec::new(alloc);
    for text in [
        "users/*/photos/*.jpg",
        "*.png",
        "arn:aws:s3:::*/logs/*",
        "users/7*",
    ] {
        patterns.push(pattern_of(alloc, text)?)?;
    }
    Ok(patterns)
}

fn usual_texts(alloc: Global, count: usize) -> Result<Vec<String>, AllocError> {
    let mut texts = Vec::new(alloc);
    for i in 0..count {
        texts.push(usual_text(alloc, i)?)?;
    }
    Ok(texts)
}

// A text to match with each of the usual patterns.
fn usual_text(alloc: Global, number: usize) -> Result<String, AllocError> {
    let of = number % 100;
    match number % 3 {
        0 => format!(in alloc; "users/{of}/photos/picture-{number}.jpg"),
        1 => format!(in alloc; "arn:aws:s3:::bucket-{of}/logs/{number}.png"),
        _ => format!(in alloc; "tmp/{number}"),
    }
}

fn count_matches(patterns: &[Pattern], texts: &[String]) -> u64 {
    let mut count = 0u64;
    for text in texts {
        for pattern in patterns {
            if pattern.wildcard_match(text) {
                count = count.saturating_add(1);
            }
        }
    }
    count
}
