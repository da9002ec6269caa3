//! Rows that are taken apart without memory and without the machine's stack: vectors of items, and
//! maps to items. What can't be taken apart yet waits in the place of an item.
//!
//! Items are told by their nodes: an item is one itself, and so is all that stands below it.
#![tactic(auto)]

ghost use Rattle.std.specs.Prelude.{◌≡◌, ℕ, ◌+◌, ◌<◌};
ghost use Rattle.cedar_iterative_drop.specs.Rows.{IsTaken, taken_after, waiting_nodes};

/// How many levels of a tree are dropped by recursion. It is faster than a loop, which drops what
/// is deeper.
pub const LEVELS: u32 = 128;

/// What is taken out of a row: what stands below an item.
pub enum Taken<B> {
    /// What stands below an item.
    Subtrees(B),
    /// The same, where a leaf was dropped before.
    AfterLeaf(B),
    /// Nothing: the row had leaves only, and these are dropped. This waits.
    Nothing(Option<B>),
}

/// What is taken after a first item that was a leaf: what stands below the last item, or, where
/// that was the only one, what waits below it.
pub fn after_leaf<B>(last: Option<B>, is_only: bool) -> Taken<B>
    ensures is { result ≡ taken_after last is_only }
    ensures fewer { (g : B → ℕ) (m w n : ℕ) → waiting_nodes g last + n < m + w
        → IsTaken g m w n result }
{
    match last {
        Some(last) => {
            if is_only {
                Taken::Nothing(Some(last))
            } else {
                Taken::AfterLeaf(last)
            }
        }
        None => Taken::Nothing(None),
    }
}
