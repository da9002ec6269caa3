//! The laws of value trees.
//!
//! Each function here does nothing: its contract is the law, over the definitions alone, for each
//! ordered type of extension values.
ghost use Rattle.std.specs.Prelude.{◌≡◌};
ghost use Rattle.std.specs.Cmp.{IsTotalOrder};
ghost use Rattle.std.specs.Ordering.{eq_by_cmp};
ghost use Rattle.semantics_values.specs.BareValue.{BareValue};
ghost use Rattle.semantics_values.specs.ValueOrder.{value_cmp, value_eq};
ghost use Rattle.semantics_values.specs.Laws.{
  ExpressionsReadBack,
  IsReading,
  PlainWhereNone,
  ThenIsBothOfValues,
};

use cedar_builders::laws::then_is_both;

/// Values are totally ordered, and two of them are the same exactly where neither stands before the
/// other.
pub fn values_are_ordered<X: Ord>()
    ensures total { IsTotalOrder (value_cmp X.cmp) }
    ensures ties { (t u : BareValue _) → value_eq X.eq t u ≡ eq_by_cmp (value_cmp X.cmp) t u }
{}

/// The expression of a well formed value is read back as that value, unless an extension value is
/// inside; then nothing is.
pub fn expressions_read_back<X: Ord>()
    ensures { ExpressionsReadBack X.cmp X.eq }
{}

/// What is read of a tree is well formed, and one value up to sameness. It is read of a tree of
/// literals, sets and records alone.
pub fn reading_gives_one_value<X: Ord>()
    ensures { IsReading X.cmp X.eq }
{}

/// One environment and then another binds what both together bind, where the first one binds values
/// without extension values: nothing can be substituted inside them.
pub fn then_is_both_of_values<X>()
    ensures { ThenIsBothOfValues X }
{
    then_is_both();
}

/// Where there are no extension values, none is inside of a value.
pub fn plain_where_none<X>()
    ensures { PlainWhereNone X }
{}
