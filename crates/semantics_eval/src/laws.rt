//! The laws of the evaluator.
//!
//! Each function here does nothing: its contract is the law, over the definitions alone, for each
//! ordered type of extension values.
ghost use Rattle.std.specs.Int.{w64};
ghost use Rattle.std.specs.Prelude.{◌↔◌, ℤ, FitsSigned, IsTrue};
ghost use Rattle.cedar_builders.specs.Lawful.{Lawful};
ghost use Rattle.semantics_eval.specs.Evaluator.{evaluator_ops};
ghost use Rattle.semantics_eval.specs.Laws.{
  DecidedStays,
  IsOneList,
  IsAscendingList,
  NeverOpen,
  PlainIsExact,
  ValueKept,
};
ghost use Rattle.semantics_eval.specs.Longs.{is_long};
ghost use Rattle.semantics_eval.specs.Worked.{AreWorkedOutcomes};

/// The evaluator keeps the simplifications of the builder of trees, so substitution can be moved
/// past it.
pub fn evaluator_is_lawful<X: Ord>()
    ensures { Lawful (evaluator_ops X.cmp X.eq) }
{}

/// The expression of a well formed value without extension values evaluates to that value.
pub fn value_kept<X: Ord>()
    ensures { ValueKept X.cmp X.eq }
{}

/// What is decided stays: a value, a mistake or a refused call is the same where further unknowns
/// are bound to values without extension values.
pub fn decided_stays<X: Ord>()
    ensures { DecidedStays X.cmp X.eq }
{}

/// What is closed is decided: where each unknown is bound to a value without extension values, and
/// there is no variable and no slot, the outcome is not open.
pub fn never_open<X: Ord>()
    ensures { NeverOpen X.cmp X.eq }
{}

/// Two values without extension values are one where neither stands before the other.
pub fn plain_is_exact<X: Ord>()
    ensures { PlainIsExact X.cmp }
{}

/// Whatever way the set of some values without extension values is made, its list is that of the
/// evaluator.
pub fn one_list<X: Ord>()
    ensures { IsOneList X.cmp }
{}

/// The list of the evaluator's set ascends strictly, and has the classes of the members' values,
/// each as one of them.
pub fn ascending_lists<X: Ord>()
    ensures { IsAscendingList X.cmp }
{}

/// A result is a value just where it fits the machine's integer of 64 bits.
pub fn longs_fit()
    ensures { (z : ℤ) → IsTrue (is_long z) ↔ FitsSigned w64 z }
{}

/// Some outcomes, worked out by hand.
pub fn worked_outcomes<X: Ord>()
    ensures { AreWorkedOutcomes X.cmp X.eq }
{}
