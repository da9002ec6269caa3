//! The laws of the grammar.
//!
//! Each function here does nothing: its contract is the law, over the definitions alone.
ghost use Rattle.std.specs.Prelude.{◌≡◌, List, [], true};
ghost use Rattle.cedar_builders.specs.BareExpr.{BareExpr};
ghost use Rattle.cedar_lexer.specs.Groups.{Passes};
ghost use Rattle.semantics_grammar.specs.Grammar.{Stands};
ghost use Rattle.semantics_grammar.specs.Lexemes.{Lexeme, kinds_of_lexemes};

use cedar_lexer::laws::texts_are_unique;
use cedar_names::laws::name_texts_differ;

/// The grammar is unambiguous: tokens stand for one tree.
pub fn tree_is_unique()
    ensures { (ts : List Lexeme) (a b : BareExpr) → Stands ts a → Stands ts b → a ≡ b }
{
    name_texts_differ();
    texts_are_unique();
}

/// The brackets of an expression are whole pairs, and no comma stands outside them: so it ends
/// where a group of tokens does.
pub fn brackets_are_whole()
    ensures { (ts : List Lexeme) (e : BareExpr) → Stands ts e →
        Passes true (kinds_of_lexemes ts) [] }
{}
