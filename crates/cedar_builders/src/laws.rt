//! The laws of substitution, of shapes and of walks, for all trees and environments.
//!
//! Each function here does nothing: its contract is the law, over the definitions alone.
ghost use Rattle.std.specs.Prelude.{◌≡◌, ◌↔◌, IsTrue};
ghost use Rattle.std.specs.Cmp.{IsTotalOrder};
ghost use Rattle.std.specs.declared.cmp.Ordering.TheVariants.{Equal};
ghost use Rattle.cedar_terms.specs.Literals.{BareLiteral};
ghost use Rattle.cedar_builders.specs.BareExpr.{BareExpr, Lit, If, Set, no_trees, tree};
ghost use Rattle.cedar_builders.specs.Keys.{
  keys_of,
  keyed,
  are_distinct,
  in_key_order,
  IsInKeyOrder,
};
ghost use Rattle.cedar_builders.specs.Laws.{
  BuiltAfter,
  RebuiltTwice,
  SubstitutedTwice,
  ThenIsBoth,
  ThenIsNotAlwaysBoth,
  SubstitutedByFold,
  RestrictedRebuilt,
};
ghost use Rattle.cedar_builders.specs.Shapes.{shape_cmp};
ghost use Rattle.cedar_builders.specs.TypeClash.{ClashByChildren};
ghost use Rattle.cedar_builders.specs.Walks.{need};

use crate::expr_builder::LawfulExprBuilder;
use std::rc::RcStr;

/// To substitute and then build is to build in the environment: the same meaning, or the same first
/// error.
pub fn built_after<B: LawfulExprBuilder>()
    ensures { BuiltAfter B.ops }
{}

/// To rebuild a tree twice is to rebuild it once.
pub fn rebuilt_twice()
    ensures { RebuiltTwice }
{}

/// To substitute by one environment and then build in another is to build in the first, whose trees
/// are substituted by the second, followed by the second.
pub fn substituted_twice<B: LawfulExprBuilder>()
    ensures { SubstitutedTwice B.ops }
{}

/// One environment and then another binds what both together bind, where the first one binds
/// restricted trees only and none of these holds an unknown that the second one binds. So it is for
/// all values without extension values.
pub fn then_is_both()
    ensures { ThenIsBoth }
{}

/// That condition is needed: some tree is made another one by some two environments of restricted
/// trees, of which the first binds an unknown to a call of an unknown that the second one binds.
pub fn then_is_not_always_both()
    ensures { ThenIsNotAlwaysBoth }
{}

/// The fold at the builder of trees never fails, and gives the tree in which each bound unknown is
/// made its tree.
pub fn substituted_by_fold()
    ensures { SubstitutedByFold }
{}

/// A restricted tree is rebuilt as it is: it has none of the nodes that the builder of trees
/// simplifies.
pub fn restricted_rebuilt()
    ensures { RestrictedRebuilt }
{}

/// The clash at the first position in preorder is the first one found child by child.
pub fn clash_by_children()
    ensures { ClashByChildren }
{}

/// Pairs with distinct keys, in the order of their keys: the same pairs, whose keys strictly
/// ascend.
pub fn pairs_in_key_order<A>(pairs: &[(RcStr, A)])
    ensures { IsTrue (are_distinct (keys_of pairs.now))
        → IsInKeyOrder (keyed pairs.now) (in_key_order (keyed pairs.now)) }
{}

/// The order of trees by their shape is total, and two trees are equal in it just where they are
/// the same.
pub fn shapes_are_ordered()
    ensures total { IsTotalOrder shape_cmp }
    ensures exact { (a b : BareExpr) → (shape_cmp a b ≡ Equal) ↔ (a ≡ b) }
{}

/// How many entries the stack of a walk needs at some trees of literals: the later a child, the
/// more of those before it wait.
pub fn stack_needs()
    ensures literal { (l : BareLiteral) → need (Lit l) ≡ 1 }
    ensures empty_set { need (Set no_trees) ≡ 1 }
    ensures set_of_five { (a b c d e : BareLiteral) → need (Set (tree (Lit a) (tree (Lit b)
        (tree (Lit c) (tree (Lit d) (tree (Lit e) no_trees)))))) ≡ 5 }
    ensures if_as_test { (a b c d e : BareLiteral) →
        need (If (If (Lit a) (Lit b) (Lit c)) (Lit d) (Lit e)) ≡ 3 }
    ensures if_as_else { (a b c d e : BareLiteral) →
        need (If (Lit a) (Lit b) (If (Lit c) (Lit d) (Lit e))) ≡ 5 }
{}
