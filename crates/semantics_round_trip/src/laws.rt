//! The laws of parsing what was printed.
//!
//! Each function here does nothing: its contract is the law, over the definitions alone.
ghost use Rattle.std.specs.Prelude.{◌≡◌, IsUtf8, List, Ok, ℕ};
ghost use Rattle.cedar_builders.specs.BareExpr.{BareExpr, Text};
ghost use Rattle.cedar_builders.specs.Environment.{empty, fold};
ghost use Rattle.cedar_terms.specs.declared.precedence.Precedence.{Precedence};
ghost use Rattle.semantics_grammar.specs.Grammar.{Stands};
ghost use Rattle.semantics_grammar.specs.Lexemes.{Lexeme};
ghost use Rattle.semantics_grammar.specs.Written.{IsTextOf};
ghost use Rattle.semantics_printing.specs.PolicyTexts.{policy_text_ops};
ghost use Rattle.semantics_printing.specs.Texts.{IsTextOfTree};
ghost use Rattle.semantics_printing.specs.Writable.{IsWritable, unknown_call};
ghost use Rattle.semantics_round_trip.specs.Parsed.{
  AreTokenTexts,
  IsPlain,
  unknown_method,
};

use cedar_names::laws::name_texts_differ;
use semantics_printing::laws::printed_texts_stand;

/// A tree for which tokens stand can be written, unless a call of a function `unknown` on one text
/// stands in it.
pub fn parsed_trees_are_writable()
    ensures tokens { (ts : List Lexeme) (e : BareExpr) → AreTokenTexts ts → Stands ts e
        → IsPlain e → IsWritable e }
    ensures texts { (text : Text) (e : BareExpr) → IsUtf8 text → IsTextOfTree text e
        → IsPlain e → IsWritable e }
{
    name_texts_differ();
}

/// What is printed for such a tree stands for it again: to parse a text, to print what it stands
/// for and to parse that gives the same tree twice.
pub fn parsed_trees_read_back()
    ensures { (text : Text) (e : BareExpr) (p : Text × Precedence) → IsUtf8 text
        → IsTextOfTree text e → IsPlain e → fold policy_text_ops empty e ≡ Ok p
        → IsTextOfTree p.0 e }
{
    parsed_trees_are_writable();
    printed_texts_stand();
}

/// Such a call is parsed from a method, as from `"x".unknown()`.
pub fn unknown_may_be_a_method()
    ensures { (word : List ℕ) (text : Text) → IsTextOf word text
        → Stands (unknown_method word) (unknown_call text) }
{}
