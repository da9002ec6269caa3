//! Laws of tokens, and of what stands between quotes.
ghost use Rattle.std.specs.Prelude.{◌≡◌, ℕ, List, IsTrue};
ghost use Rattle.std.specs.Str.{chars, encode_utf8_all, IsUtf8};
ghost use Rattle.cedar_terms.specs.Escape.{escaped};
ghost use Rattle.cedar_terms.specs.Patterns.{pattern_text};
ghost use Rattle.cedar_lexer.specs.Escapes.{IsInsideOfText, IsInsideOfPattern, has_scalars};
ghost use Rattle.cedar_lexer.specs.TokenPlaces.{AreSame, AreTokens, IsStuckIn};
ghost use Rattle.cedar_lexer.specs.declared.parse_failure.ParseFailure.TheVariants.{Memory};

use crate::parse_failure::ParseFailure;
use crate::token::Token;
use cedar_terms::PatternElem;

/// A text is cut into tokens in one way only. If it can be cut, it is refused only when memory runs
/// out.
pub fn tokens_are_unique()
    ensures same { (text : List ℕ) (ts us : List Token) →
        AreTokens text ts → AreTokens text us → AreSame ts us }
    ensures accepted { (text : List ℕ) (ts : List Token) (e : ParseFailure) →
        AreTokens text ts → IsStuckIn text e → e ≡ Memory }
{}

/// What is written between quotes stands for the text, or the pattern, that was written.
pub fn texts_read_back()
    ensures texts { (t : List ℕ) → IsUtf8 t → IsInsideOfText (chars (escaped t)) (chars t) }
    ensures patterns { (es : List PatternElem) → IsTrue (has_scalars es) →
        IsInsideOfPattern (chars (encode_utf8_all (pattern_text es))) es }
{}

/// What is written between quotes stands for one text, and for one pattern.
pub fn texts_are_unique()
    ensures texts { (inside cs ds : List ℕ) →
        IsInsideOfText inside cs → IsInsideOfText inside ds → cs ≡ ds }
    ensures patterns { (inside : List ℕ) (es fs : List PatternElem) →
        IsInsideOfPattern inside es → IsInsideOfPattern inside fs → es ≡ fs }
{}
