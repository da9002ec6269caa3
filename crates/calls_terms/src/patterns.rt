//! Patterns.
use calls_syntax::{
    Answer, CallError, Sexpr, boolean, compare, copy_of, count, pattern, quoted, same, text,
};
use cedar_terms::{Pattern, PatternElem, Turns, try_splits};
use std::alloc::Global;
use std::rc::Rc;

/// The answer to a call on patterns.
pub fn answer(alloc: Global, call: &str, args: &[Sexpr]) -> Result<String, CallError> {
    match args {
        [p] => match call {
            "pattern" => told(alloc, p),
            "elems" => elements(alloc, p),
            "short" => short_matches(alloc, p),
            _ => Err(CallError::UnknownCall),
        },
        [p, t] => match call {
            "wild" => matched(alloc, p, t),
            "wildn" => counted(alloc, p, t),
            "splits" => split(alloc, p, t),
            "cmppattern" => compared_patterns(alloc, p, t),
            _ => Err(CallError::UnknownCall),
        },
        [p, m, t, n] => match call {
            "wildmany" => counted_many(alloc, p, m, t, n),
            _ => Err(CallError::UnknownCall),
        },
        _ => Err(CallError::UnknownCall),
    }
}

// The text and the length of a copy.
fn told(alloc: Global, p: &Sexpr) -> Result<String, CallError> {
    let copy = copy_of(alloc, pattern(alloc, p))?;
    Ok(format!(in alloc; "\"{copy}\" {}", copy.len())?)
}

fn compared_patterns(alloc: Global, p: &Sexpr, q: &Sexpr) -> Result<String, CallError> {
    compare(alloc, pattern(alloc, p), pattern(alloc, q))
}

fn elements(alloc: Global, p: &Sexpr) -> Result<String, CallError> {
    let pattern = pattern(alloc, p)?;
    is_remade(&pattern, of_items(alloc, &pattern))?;
    is_remade(&pattern, of_elements(alloc, pattern.get_elems()))?;
    told_elements(alloc, &pattern)
}

// Refuses a pattern that was made anew and is not the same.
fn is_remade(p: &Pattern, remade: Result<Pattern, CallError>) -> Result<(), CallError> {
    same(p, &remade?)
}

fn of_items(alloc: Global, p: &Pattern) -> Result<Pattern, CallError> {
    Ok(Pattern::from_items(alloc, p.iter().copied())?)
}

fn of_elements(alloc: Global, elems: &[PatternElem]) -> Result<Pattern, CallError> {
    let mut shared = Vec::new(alloc);
    for elem in elems {
        shared.push(*elem)?;
    }
    Ok(Pattern::from(Rc::new(alloc, shared)?))
}

fn told_elements(alloc: Global, p: &Pattern) -> Result<String, CallError> {
    let mut elems = Answer::new(alloc);
    for elem in p.get_elems() {
        elems = elems.made(told_element(alloc, *elem));
    }
    Answer::new(alloc)
        .labelled("empty=", &p.is_empty())
        .made(elems.end())
        .end()
}

fn told_element(alloc: Global, elem: PatternElem) -> Result<String, CallError> {
    match elem {
        PatternElem::Wildcard => Answer::new(alloc).word(&'*').end(),
        PatternElem::Char(c) => quoted_character(alloc, c),
    }
}

fn quoted_character(alloc: Global, c: char) -> Result<String, CallError> {
    let mut text = String::new(alloc);
    text.push(c)?;
    quoted(alloc, text.as_str())
}

fn matched(alloc: Global, p: &Sexpr, t: &Sexpr) -> Result<String, CallError> {
    let pattern = pattern(alloc, p)?;
    let text = text(alloc, t)?;
    boolean(alloc, pattern.wildcard_match(text.as_str()))
}

fn counted(alloc: Global, p: &Sexpr, t: &Sexpr) -> Result<String, CallError> {
    let pattern = pattern(alloc, p)?;
    let text = text(alloc, t)?;
    told_turns(alloc, &pattern, text.as_str())
}

fn counted_many(
    alloc: Global,
    p: &Sexpr,
    times: &Sexpr,
    t: &Sexpr,
    text_times: &Sexpr,
) -> Result<String, CallError> {
    let pattern = pattern_many(alloc, p, count(times)?)?;
    let text = text_many(alloc, t, count(text_times)?)?;
    told_turns(alloc, &pattern, text.as_str())
}

fn pattern_many(alloc: Global, p: &Sexpr, times: usize) -> Result<Pattern, CallError> {
    let elems = p.escaped_text()?.repeat(alloc, times)?;
    pattern(alloc, &Sexpr::Text(elems.as_str()))
}

fn text_many(alloc: Global, t: &Sexpr, times: usize) -> Result<String, CallError> {
    let text = text(alloc, t)?;
    Ok(text.repeat(alloc, times)?)
}

// The answer, the turns and their bound.
fn told_turns(alloc: Global, p: &Pattern, text: &str) -> Result<String, CallError> {
    let mut turns = Turns::new();
    let matched = p.wildcard_match_counted(text, &mut turns);
    same(&matched, &p.wildcard_match(text))?;
    Answer::new(alloc)
        .word(&matched)
        .word(&turns.get())
        .word(&bound(p, text))
        .end()
}

// The bound of the turns: for each character of the text one for each element, and one more.
fn bound(p: &Pattern, text: &str) -> u128 {
    let each = (p.len() as u128).saturating_add(1);
    let mut bound = 0u128;
    for _ in text.chars() {
        bound = bound.saturating_add(each);
    }
    bound
}

fn split(alloc: Global, p: &Sexpr, t: &Sexpr) -> Result<String, CallError> {
    let pattern = pattern(alloc, p)?;
    let text = text(alloc, t)?;
    told_splits(alloc, &pattern, text.as_str())
}

fn told_splits(alloc: Global, p: &Pattern, text: &str) -> Result<String, CallError> {
    let (answer, steps) = try_splits(p.get_elems(), text);
    same(&answer, &p.wildcard_match(text))?;
    Answer::new(alloc)
        .word(&answer)
        .labelled("more=", &(steps > bound(p, text)))
        .end()
}

// The short texts that match, which has to be so as well where every split is tried.
fn short_matches(alloc: Global, p: &Sexpr) -> Result<String, CallError> {
    let pattern = pattern(alloc, p)?;
    told_matches(alloc, &pattern)
}

fn told_matches(alloc: Global, p: &Pattern) -> Result<String, CallError> {
    let mut texts = Answer::new(alloc);
    for text in SHORT_TEXTS {
        if is_matched(p, text)? {
            texts = texts.made(quoted(alloc, text));
        }
    }
    texts.end()
}

fn is_matched(p: &Pattern, text: &str) -> Result<bool, CallError> {
    let matches = p.wildcard_match(text);
    same(&matches, &try_splits(p.get_elems(), text).0)?;
    Ok(matches)
}

const SHORT_TEXTS: &[&str] = &[
    "", "a", "b", "aa", "ab", "ba", "bb", "aaa", "aab", "aba", "abb", "baa", "bab", "bba", "bbb",
    "aaaa", "aaab", "aaba", "aabb", "abaa", "abab", "abba", "abbb", "baaa", "baab", "baba", "babb",
    "bbaa", "bbab", "bbba", "bbbb",
];
