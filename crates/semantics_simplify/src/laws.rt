//! The laws of the simplifier.
//!
//! Each function here does nothing: its contract is the law, over the definitions alone, for each
//! ordered type of extension values.
ghost use Rattle.cedar_builders.specs.Lawful.{Lawful};
ghost use Rattle.semantics_values.specs.BareValue.{BareCall};
ghost use Rattle.semantics_simplify.specs.Laws.{
  AsksByChildren,
  AsksNoMore,
  ClosedIsKnown,
  IsOnePass,
  KnownStays,
  MeansTheSame,
  PartialIsSound,
  SimplifiedTwice,
  StagesAreOne,
  ValueKnown,
  ValuesAskNothing,
};
ghost use Rattle.semantics_simplify.specs.Simplifier.{simplifier_ops};
ghost use Rattle.semantics_simplify.specs.Worked.{AreWorkedSimplified};

use cedar_builders::laws::substituted_by_fold;
use semantics_eval::laws::{ascending_lists, value_kept};

/// The simplifier keeps the simplifications of the builder of trees, so substitution can be moved
/// past it.
pub fn simplifier_is_lawful<X: Ord>()
    ensures { (C : X → BareCall) → Lawful (simplifier_ops X.cmp X.eq C) }
{}

/// Simplification keeps the meaning: wherever unknowns are bound to values without extension
/// values, the simplified tree has the outcome of the tree, or is refused by the same name.
pub fn simplified_means_the_same<X: Ord>()
    ensures { MeansTheSame X.cmp X.eq }
{
    value_kept::<X>();
    ascending_lists::<X>();
}

/// To put values for some unknowns, to simplify, and to evaluate with values for further ones is to
/// evaluate with both.
pub fn partial_evaluation_is_sound<X: Ord>()
    ensures { PartialIsSound X.cmp X.eq }
{
    value_kept::<X>();
    ascending_lists::<X>();
    substituted_by_fold();
}

/// To simplify with values for some unknowns is to put them and then to simplify.
pub fn one_pass<X: Ord>()
    ensures { IsOnePass X.cmp X.eq }
{
    substituted_by_fold();
}

/// What is known stays: a value that is known with values for some unknowns is the outcome,
/// whatever values are bound to further ones.
pub fn known_stays<X: Ord>()
    ensures { KnownStays X.cmp X.eq }
{
    value_kept::<X>();
    ascending_lists::<X>();
    substituted_by_fold();
}

/// What is closed and calls nothing is known: where each unknown is bound, there is no variable, no
/// slot and no call, and the outcome is a value, the tree is made that value.
pub fn closed_is_known<X: Ord>()
    ensures { ClosedIsKnown X.cmp X.eq }
{
    value_kept::<X>();
    ascending_lists::<X>();
}

/// The expression of a well formed value without extension values is made that value, which is
/// known: so a value that an unknown is bound to need not be written out as an expression.
pub fn value_known<X: Ord>()
    ensures { ValueKnown X.cmp X.eq }
{
    value_kept::<X>();
    ascending_lists::<X>();
}

/// What is simplified asks for no more: each variable, slot, unknown and called function of the
/// simplified tree is one of the tree, and no unknown that is bound.
pub fn asks_no_more<X: Ord>()
    ensures { AsksNoMore X.cmp X.eq }
{
    value_kept::<X>();
    ascending_lists::<X>();
}

/// Stages are one: to simplify with values for some unknowns, and then with values for further
/// ones, is to simplify with values for all of them at once.
pub fn stages_are_one<X: Ord>()
    ensures { StagesAreOne X.cmp X.eq }
{
    value_kept::<X>();
    ascending_lists::<X>();
}

/// To simplify twice is to simplify once: the tree of what was simplified gives the same value or
/// residual again.
pub fn simplified_twice<X: Ord>()
    ensures { SimplifiedTwice X.cmp X.eq }
{
    value_kept::<X>();
    ascending_lists::<X>();
}

/// What a tree asks for, its root and its children ask for: a builder can say so of a node at once.
pub fn asks_by_children()
    ensures { AsksByChildren }
{}

/// The expression of a value without extension values asks for nothing.
pub fn values_ask_nothing<X>()
    ensures { ValuesAskNothing X }
{}

/// Some values and residuals, worked out by hand.
pub fn worked_simplified<X: Ord>()
    ensures { (C : X → BareCall) → AreWorkedSimplified X.cmp X.eq C }
{}
