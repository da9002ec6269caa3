//! What patterns of `like` match (Cedar's file `pattern.rs`).
ghost use Rattle.std.specs.Prelude.{◌≡◌, ℕ, ◌≤◌, ◌+◌, ◌*◌, ◌↔◌, ◌⊎◌, IsTrue, length};
ghost use Rattle.std.specs.List.{list_all};
ghost use Rattle.std.specs.Str.{chars};
ghost use Rattle.cedar_terms.specs.Patterns.{Matches, is_wildcard, matches};

use crate::pattern::{Pattern, PatternElem};
use crate::text::first_char;
use std::marker::Model;

/// How many turns a match took, which clauses see as that number.
///
/// A turn is one passage through the matching loop.
#[derive(Debug, Drop)]
pub struct Turns {
    count: u128,
}

impl Model for Turns {
    ghost Value = { ℕ };

    ghost view = { λ turns. turns.count };

    ghost inverse = { λ n. record { count = n } };
}

impl Turns {
    /// No turns.
    pub fn new() -> Turns
        ensures { result ≡ 0 }
    {
        Turns { count: 0 }
    }

    /// The number of turns.
    pub fn get(&self) -> u128
        ensures { result ≡ self.now }
    {
        self.count
    }
}

impl Pattern {
    /// Whether the pattern matches the text, as lists of characters. It takes no memory.
    ///
    /// ```rust
    /// // `a*\*`: an `a`, any characters, and the character `*`.
    /// let star = PatternElem::Char('*');
    /// let elems = vec![in alloc; PatternElem::Char('a'), PatternElem::Wildcard, star]?;
    /// let pattern = Pattern::from_vec(alloc, elems)?;
    /// pattern.wildcard_match("abc*"); // true
    /// pattern.wildcard_match("a*"); // true
    /// pattern.wildcard_match("abc"); // false
    /// ```
    pub fn wildcard_match(&self, text: &str) -> bool
        ensures decides { IsTrue result ↔ Matches self.now (chars text.now) }
        ensures value { result ≡ matches self.now (chars text.now) }
    {
        match_counted(self.get_elems(), text).0
    }

    /// The same, with the number of turns that it took, whatever `turns` held.
    ///
    /// Where the text goes on after a mismatch, the loop goes back to the latest wildcard alone. So
    /// a text of n characters and a pattern of m elements take at most `n * (m + 1)` turns.
    pub fn wildcard_match_counted(&self, text: &str, turns: &mut Turns) -> bool
        ensures decides { IsTrue result ↔ Matches self.now (chars text.now) }
        ensures value { result ≡ matches self.now (chars text.now) }
        ensures bound { turns.new ≤ length (chars text.now) * (length self.now + 1) }
        ensures none { turns.new ≡ 0 ↔ (length (chars text.now) ≡ 0) ⊎ (length self.now ≡ 0) }
    {
        let (answer, count) = match_counted(self.get_elems(), text);
        *turns = Turns { count };
        answer
    }
}

// Whether the elements match the text, and how many passages of the loop that took. What is left to
// match is kept beside the place to go back to, which is behind the latest wildcard.
fn match_counted(pattern: &[PatternElem], text: &str) -> (bool, u128)
    ensures answer { result.0 ≡ matches pattern.now (chars text.now) }
    ensures bound { result.1 ≤ length (chars text.now) * (length pattern.now + 1) }
    ensures none { result.1 ≡ 0 ↔ (length (chars text.now) ≡ 0) ⊎ (length pattern.now ≡ 0) }
{
    let mut turns: u128 = 0;
    if pattern.is_empty() {
        return (first_char(text).is_none(), turns);
    }
    let mut seen = false;
    let mut retry_pattern = pattern;
    let mut retry_text = text;
    let mut rest_pattern = pattern;
    let mut rest_text = text;
    'passages: while let Some((found, after)) = first_char(rest_text) {
        turns += 1;
        match rest_pattern.split_first() {
            Some((PatternElem::Wildcard, later)) => {
                if later.is_empty() {
                    return (true, turns);
                }
                seen = true;
                retry_pattern = later;
                retry_text = rest_text;
                rest_pattern = later;
            }
            Some((PatternElem::Char(wanted), later)) if *wanted == found => {
                rest_pattern = later;
                rest_text = after;
            }
            _ => {
                if !seen {
                    return (false, turns);
                }
                if let Some((_, next)) = first_char(retry_text) {
                    rest_pattern = retry_pattern;
                    rest_text = next;
                    retry_text = next;
                }
            }
        }
    }
    (are_wildcards(rest_pattern), turns)
}

// Whether all the elements are wildcards.
fn are_wildcards(pattern: &[PatternElem]) -> bool
    ensures { result ≡ list_all is_wildcard pattern.now }
{
    pattern
        .iter()
        .all(|elem| matches!(elem, PatternElem::Wildcard))
}
