//! The patterns that a script spells.
ghost use Rattle.std.specs.Prelude.{◌≡◌, ◌++◌, ◌⊎◌, IfOk, IfErr, MatchOption};
ghost use Rattle.std.specs.Str.{chars};
ghost use Rattle.cedar_script.specs.Patterns.{elem_spelling, spelling, BeginsWithNone, SpellsNone};

use crate::command_error::CommandError;
use cedar_terms::{Pattern, PatternElem, first_char};
use std::alloc::Global;

/// Reads the pattern that a text spells: `*` is the wildcard, `\*` and `\\` are the two characters,
/// any other character is itself.
///
/// A text with another backslash is a bad line.
pub fn parse_pattern(alloc: Global, text: &str) -> Result<Pattern, CommandError>
    ensures spelled { IfOk result (λ p. chars text.now ≡ spelling p) }
    ensures refused { IfErr result (λ e. (e ≡ CommandError.BadLine) ⊎ (e ≡ CommandError.Memory)) }
    ensures bad { IfErr result (λ e. e ≡ CommandError.BadLine → SpellsNone (chars text.now)) }
{
    let mut elems = Vec::new(alloc);
    let mut rest = text;
    'elems: while let Some((elem, later)) = parse_elem(rest) {
        elems.push(elem)?;
        rest = later;
    }
    match first_char(rest) {
        None => Ok(Pattern::from_vec(alloc, elems)?),
        Some(_) => Err(CommandError::BadLine),
    }
}

// Reads the element that a text begins with, and gives what follows it too.
fn parse_elem(text: &str) -> Option<(PatternElem, &str)>
    ensures { MatchOption result
        (BeginsWithNone (chars text.now))
        (λ x. chars text.now ≡ elem_spelling x.0 ++ chars x.1.now) }
{
    match first_char(text)? {
        ('*', rest) => Some((PatternElem::Wildcard, rest)),
        ('\\', rest) => match first_char(rest)? {
            (c @ ('*' | '\\'), rest) => Some((PatternElem::Char(c), rest)),
            _ => None,
        },
        (c, rest) => Some((PatternElem::Char(c), rest)),
    }
}
