//! Matching by every split at each wildcard, which the loop is compared with.
ghost use Rattle.std.specs.Prelude.{◌≡◌};
ghost use Rattle.std.specs.Str.{chars};
ghost use Rattle.cedar_terms.specs.Patterns.{matches};

use crate::pattern::PatternElem;
use crate::text::first_char;

/// Whether the elements match the text, by trying every split at each wildcard, and how many steps
/// that took. For comparison alone: the steps grow exponentially with the wildcards, and the
/// recursion goes as deep as the text and the pattern are long. It takes no memory.
pub fn try_splits(pattern: &[PatternElem], text: &str) -> (bool, u128)
    ensures { result.0 ≡ matches pattern.now (chars text.now) }
{
    match pattern.split_first() {
        None => (first_char(text).is_none(), 0),
        Some((PatternElem::Char(wanted), later)) => match first_char(text) {
            None => (false, 1),
            Some((found, rest)) => {
                if found != *wanted {
                    return (false, 1);
                }
                let (answer, steps) = try_splits(later, rest);
                (answer, steps.saturating_add(1))
            }
        },
        Some((PatternElem::Wildcard, later)) => {
            let (here, steps) = try_splits(later, text);
            if here {
                return (true, steps.saturating_add(1));
            }
            match first_char(text) {
                None => (false, steps.saturating_add(1)),
                Some((_, rest)) => {
                    let (answer, more) = try_splits(pattern, rest);
                    (answer, steps.saturating_add(more).saturating_add(1))
                }
            }
        }
    }
}
