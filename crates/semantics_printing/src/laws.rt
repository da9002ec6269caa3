//! The laws of printed texts.
//!
//! Each function here does nothing: its contract is the law, over the definitions alone.
ghost use Rattle.std.specs.Prelude.{◌≡◌, List, None, Some, Ok};
ghost use Rattle.cedar_builders.specs.BareExpr.{BareExpr, Text, Unknown};
ghost use Rattle.cedar_builders.specs.Environment.{empty, fold};
ghost use Rattle.cedar_lexer.specs.TokenPlaces.{AreTokens};
ghost use Rattle.cedar_lexer.specs.declared.token.Token.{Token};
ghost use Rattle.cedar_terms.specs.Types.{BareType};
ghost use Rattle.cedar_terms.specs.declared.precedence.Precedence.{Precedence};
ghost use Rattle.semantics_grammar.specs.Grammar.{Stands};
ghost use Rattle.semantics_grammar.specs.Lexemes.{Lexeme, lexemes_of};
ghost use Rattle.semantics_printing.specs.PolicyTexts.{policy_text_ops};
ghost use Rattle.semantics_printing.specs.Texts.{IsTextOfTree};
ghost use Rattle.semantics_printing.specs.Writable.{IsWritable, unknown_call};

use cedar_lexer::laws::{texts_read_back, tokens_are_unique};
use semantics_grammar::laws::tree_is_unique;

/// What is printed for a tree stands for it: the text can be cut into tokens, and they are an
/// expression of the grammar, which is the tree.
pub fn printed_texts_stand()
    ensures { (e : BareExpr) (p : Text × Precedence) → IsWritable e
        → fold policy_text_ops empty e ≡ Ok p → IsTextOfTree p.0 e }
{
    texts_read_back();
}

/// A text stands for one tree only.
pub fn texts_stand_for_one_tree()
    ensures { (text : Text) (e f : BareExpr) →
        IsTextOfTree text e → IsTextOfTree text f → e ≡ f }
{
    tokens_are_unique();
    tree_is_unique();
}

/// However what is printed is cut into tokens, they stand for the tree that was printed, and for no
/// other.
pub fn printed_texts_read_back()
    ensures stands { (e : BareExpr) (p : Text × Precedence) (ts : List Token) → IsWritable e
        → fold policy_text_ops empty e ≡ Ok p → AreTokens p.0 ts → Stands (lexemes_of ts) e }
    ensures only { (e f : BareExpr) (p : Text × Precedence) (ts : List Token) → IsWritable e
        → fold policy_text_ops empty e ≡ Ok p → AreTokens p.0 ts → Stands (lexemes_of ts) f
        → f ≡ e }
{
    printed_texts_stand();
    tokens_are_unique();
    tree_is_unique();
}

/// Two trees that are printed alike are the same.
pub fn printed_texts_differ()
    ensures { (e f : BareExpr) (p q : Text × Precedence) → IsWritable e → IsWritable f
        → fold policy_text_ops empty e ≡ Ok p → fold policy_text_ops empty f ≡ Ok q
        → p.0 ≡ q.0 → e ≡ f }
{
    printed_texts_stand();
    texts_stand_for_one_tree();
}

/// Two trees that an expression can have are not writable. No tokens stand for an unknown with an
/// annotation, and a call of a function `unknown` on one text is printed as the unknown is.
pub fn unwritable_trees()
    ensures annotation { (ts : List Lexeme) (name : Text) (t : BareType) →
        Stands ts (Unknown name (Some t)) → ⊥ }
    ensures call { (name : Text) (p q : Text × Precedence) →
        fold policy_text_ops empty (unknown_call name) ≡ Ok p
        → fold policy_text_ops empty (Unknown name None) ≡ Ok q → p.0 ≡ q.0 }
{}
