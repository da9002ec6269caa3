//! How an expression is dropped.
ghost use Rattle.std.specs.Prelude.{◌≡◌, ℕ, ◌+◌, ◌<◌, ◌≤◌, suc, IfSome};
ghost use Rattle.cedar_iterative_drop.specs.Rows.{IsTaken};
ghost use Rattle.cedar_exprs.specs.Steps.{
  nodes,
  kind_nodes,
  below_nodes,
  if_node,
  if_row,
  item_nodes,
  field_nodes,
  row_nodes,
  all_nodes,
  IsStep,
};

use crate::drop::row_items::{last_branch, last_branch_value, take_item, take_value};
use crate::drop::subtrees::{Row, Subtrees, drop_leaf, take_subtrees};
use crate::expr::{Expr, ExprKind};
use cedar_iterative_drop::{LEVELS, Taken};
use cedar_terms::UnaryOp;
use std::collections::BTreeMap;
use std::mem;
use std::rc::{Rc, RcStr};

// Drops a kind with all that it alone owns.
pub(crate) fn drop_kind<T: Drop>(kind: ExprKind<T>) {
    drop_near(take_subtrees(kind), LEVELS);
}

// Drops what stands below a node, as far as it alone owns it: so many levels by recursion, and what
// is deeper by the loop.
#[cycle(dropped)]
fn drop_near<T: Drop>(below: Subtrees<T>, levels: u32) {
    if levels == 0 {
        return drop_below(below);
    }
    match below {
        Subtrees::Nothing => {}
        Subtrees::One(child) => drop_child(child, levels - 1),
        Subtrees::Two(first, second) => {
            drop_child(first, levels - 1);
            drop_child(second, levels - 1);
        }
        Subtrees::Three(first, second, third) => {
            drop_child(first, levels - 1);
            drop_child(second, levels - 1);
            drop_child(third, levels - 1);
        }
        Subtrees::Row(row) => drop_row(row, levels - 1),
    }
}

// Drops a child, so many levels by recursion.
#[cycle(dropped)]
fn drop_child<T: Drop>(child: Rc<Expr<T>>, levels: u32) {
    if let Some(node) = Rc::into_inner(child) {
        drop_node(node, levels);
    }
}

// Drops a node, so many levels below it by recursion. A leaf is dropped where it lies.
#[cycle(dropped)]
#[inline(always)]
fn drop_node<T: Drop>(node: Expr<T>, levels: u32) {
    if let Some(below) = node.into_subtrees() {
        drop_near(below, levels);
    }
}

// Drops what stands below a node by a loop, without memory, and without the stack but where a weak
// pointer keeps a block. Leaves are dropped where they lie.
//
// What is not dropped yet waits, in two lists, in blocks that are to be freed anyway. A node that
// is done with, but for some of its children, waits: its own block holds those children and the
// node that waits below it. A row (the members of a set, the arguments of a call, the values of a
// record) waits with the items that it still has: the first of them is the row that waits below it.
#[cycle(dropped)]
fn drop_below<T: Drop>(below: Subtrees<T>) {
    let mut left = Remaining {
        below,
        waiting: None,
        rows: None,
    };
    'down: loop {
        match enter_subtrees(left) {
            Step::Into(next) => left = next,
            Step::On(next) => left = next,
            Step::Watched(rest, next) => {
                drop_below(rest);
                left = next;
            }
            Step::Row(row, next) => {
                drop_row(row, 0);
                match next {
                    Some(next) => left = next,
                    None => return,
                }
            }
            Step::End => return,
        }
    }
}

// What a drop has still to do.
struct Remaining<T> {
    // What comes next.
    below: Subtrees<T>,
    // The nodes that wait.
    waiting: Option<Rc<Expr<T>>>,
    // The rows that wait, as the one that is the first of them. Nodes go first.
    rows: Option<Subtrees<T>>,
}

// A step of a drop.
enum Step<T> {
    // Into a part, beside which the others wait.
    Into(Remaining<T>),
    // A node is gone.
    On(Remaining<T>),
    // A weak pointer keeps the block of a node, so that the children beside it can't wait there:
    // these, and what is left beside them.
    Watched(Subtrees<T>, Remaining<T>),
    // A row that can't wait, and what is left beside it.
    Row(Row<T>, Option<Remaining<T>>),
    // Nothing is left.
    End,
}

fn enter_subtrees<T: Drop>(left: Remaining<T>) -> Step<T>
    ensures { IsStep (below_nodes left.below) (all_nodes left) result }
{
    let Remaining {
        below,
        waiting,
        rows,
    } = left;
    match below {
        Subtrees::Nothing => go_up(waiting, rows),
        Subtrees::One(child) => go_through(child, waiting, rows),
        Subtrees::Two(first, second) => go_two(first, second, waiting, rows),
        Subtrees::Three(first, second, third) => go_three(first, second, third, waiting, rows),
        Subtrees::Row(Row::Items(items)) => open_items(items, waiting, rows),
        Subtrees::Row(Row::Fields(fields)) => open_fields(fields, waiting, rows),
    }
}

// Into three children, of which a leaf is dropped at once.
#[inline(never)]
fn go_three<T: Drop>(
    first: Rc<Expr<T>>,
    second: Rc<Expr<T>>,
    third: Rc<Expr<T>>,
    waiting: Option<Rc<Expr<T>>>,
    rows: Option<Subtrees<T>>,
) -> Step<T>
    ensures { IsStep (suc (nodes first.value + (nodes second.value + nodes third.value)))
        (suc (nodes first.value + (nodes second.value + nodes third.value))
        + (if_node waiting + if_row rows)) result }
{
    match unless_leaf(third) {
        Some(third) => match unless_leaf(second) {
            Some(second) => match unless_leaf(first) {
                Some(first) => go_down(first, rest_of_two(second, third, waiting), rows),
                None => go_two(second, third, waiting, rows),
            },
            None => go_two(first, third, waiting, rows),
        },
        None => go_two(first, second, waiting, rows),
    }
}

// Into two children, of which a leaf is dropped at once.
fn go_two<T: Drop>(
    first: Rc<Expr<T>>,
    second: Rc<Expr<T>>,
    waiting: Option<Rc<Expr<T>>>,
    rows: Option<Subtrees<T>>,
) -> Step<T>
    ensures { (k n : ℕ) → nodes first.value < k
        → suc (nodes first.value + nodes second.value + (if_node waiting + if_row rows)) ≤ n
        → IsStep k n result }
{
    match unless_leaf(second) {
        Some(second) => match unless_leaf(first) {
            Some(first) => go_down(first, rest_of_one(second, waiting), rows),
            None => go_through(second, waiting, rows),
        },
        None => go_through(first, waiting, rows),
    }
}

// Drops a child if it is a leaf.
#[inline(never)]
fn unless_leaf<T: Drop>(child: Rc<Expr<T>>) -> Option<Rc<Expr<T>>>
    ensures { IfSome result (λ rest. rest ≡ child) }
{
    if !child.is_leaf() {
        return Some(child);
    }
    if let Some(node) = Rc::into_inner(child) {
        drop_leaf(node.into_parts().0);
    }
    None
}

// Into an only child, and on as long as there is one alone. Nothing waits for them, so their blocks
// are freed at once.
fn go_through<T: Drop>(
    child: Rc<Expr<T>>,
    waiting: Option<Rc<Expr<T>>>,
    rows: Option<Subtrees<T>>,
) -> Step<T>
    ensures { (k n : ℕ) → nodes child.value + (if_node waiting + if_row rows) < n
        → IsStep k n result }
{
    let mut child = child;
    'only: loop {
        match Rc::into_inner(child) {
            Some(node) => match take_subtrees(node.into_parts().0) {
                Subtrees::Nothing => return go_up(waiting, rows),
                Subtrees::One(next) => child = next,
                below => {
                    return Step::On(Remaining {
                        below,
                        waiting,
                        rows,
                    });
                }
            },
            None => return go_up(waiting, rows),
        }
    }
}

// Into a child, whose block then holds the rest.
#[inline(never)]
#[tactic(auto, using(crate::proofs::Fewer::nodes_of, crate::proofs::Fewer::written_node))]
fn go_down<T: Drop>(child: Rc<Expr<T>>, rest: ExprKind<T>, rows: Option<Subtrees<T>>) -> Step<T>
    ensures { (k n : ℕ) → nodes child.value < k
        → nodes child.value + kind_nodes rest + if_row rows ≤ n → IsStep k n result }
{
    let mut child = child;
    match Rc::get_mut(&mut child) {
        Some(node) => {
            let kind = mem::replace(&mut node.expr_kind, rest);
            Step::Into(Remaining {
                below: take_subtrees(kind),
                waiting: Some(child),
                rows,
            })
        }
        None => go_beside(child, rest, rows),
    }
}

// As `go_down`, where the child's block can't hold the rest.
#[inline(never)]
#[tactic(auto, using(crate::proofs::Fewer::nodes_of))]
fn go_beside<T: Drop>(child: Rc<Expr<T>>, rest: ExprKind<T>, rows: Option<Subtrees<T>>) -> Step<T>
    ensures { (k n : ℕ) → nodes child.value + kind_nodes rest + if_row rows ≤ n
        → IsStep k n result }
{
    match Rc::into_inner(child) {
        Some(node) => Step::Watched(
            take_subtrees(rest),
            remaining_of(take_subtrees(node.into_parts().0), rows),
        ),
        None => Step::On(remaining_of(take_subtrees(rest), rows)),
    }
}

// To what waits.
fn go_up<T: Drop>(waiting: Option<Rc<Expr<T>>>, rows: Option<Subtrees<T>>) -> Step<T>
    ensures { (k n : ℕ) → if_node waiting + if_row rows < n → IsStep k n result }
{
    match resume_waiting(waiting, rows) {
        Some(left) => Step::On(left),
        None => Step::End,
    }
}

// What waits: a node, and after all of these a row.
#[inline(never)]
fn resume_waiting<T: Drop>(
    waiting: Option<Rc<Expr<T>>>,
    rows: Option<Subtrees<T>>,
) -> Option<Remaining<T>>
    ensures { IfSome result (λ left. all_nodes left ≤ if_node waiting + if_row rows) }
{
    match next_of(waiting) {
        Some(below) => Some(remaining_of(below, rows)),
        None => match rows {
            Some(Subtrees::Row(Row::Items(items))) => Some(resume_items(items)),
            Some(Subtrees::Row(Row::Fields(fields))) => Some(resume_fields(fields)),
            Some(below) => Some(remaining_of(below, None)),
            None => None,
        },
    }
}

// What stands below a node that waits.
fn next_of<T: Drop>(waiting: Option<Rc<Expr<T>>>) -> Option<Subtrees<T>>
    ensures { IfSome result (λ below. below_nodes below ≡ if_node waiting) }
{
    match waiting {
        Some(node) => match Rc::into_inner(node) {
            Some(node) => Some(take_subtrees(node.into_parts().0)),
            None => None,
        },
        None => None,
    }
}

// What comes next, and the rows that wait.
fn remaining_of<T>(below: Subtrees<T>, rows: Option<Subtrees<T>>) -> Remaining<T>
    ensures { all_nodes result ≡ below_nodes below + if_row rows }
{
    Remaining {
        below,
        waiting: None,
        rows,
    }
}

// Into an item of a row, which then waits.
#[inline(never)]
fn open_items<T: Drop>(
    items: Rc<Vec<Expr<T>>>,
    waiting: Option<Rc<Expr<T>>>,
    rows: Option<Subtrees<T>>,
) -> Step<T>
    ensures { IsStep (suc (item_nodes items.value.items))
        (suc (item_nodes items.value.items) + (if_node waiting + if_row rows)) result }
{
    let mut items = items;
    match Rc::get_mut(&mut items) {
        Some(row) => enter_item(take_item(row, rows), waiting, Row::Items(items)),
        None => enter_item(Taken::Nothing(rows), waiting, Row::Items(items)),
    }
}

// Into a value of a record, which then waits.
#[inline(never)]
fn open_fields<T: Drop>(
    fields: Rc<BTreeMap<RcStr, Expr<T>>>,
    waiting: Option<Rc<Expr<T>>>,
    rows: Option<Subtrees<T>>,
) -> Step<T>
    ensures { IsStep (suc (field_nodes fields.value.entries))
        (suc (field_nodes fields.value.entries) + (if_node waiting + if_row rows)) result }
{
    let mut fields = fields;
    match Rc::get_mut(&mut fields) {
        Some(row) => enter_item(take_value(row, rows), waiting, Row::Fields(fields)),
        None => enter_item(Taken::Nothing(rows), waiting, Row::Fields(fields)),
    }
}

// Into an item that was taken out of a row, which then waits.
fn enter_item<T: Drop>(
    item: Taken<Subtrees<T>>,
    waiting: Option<Rc<Expr<T>>>,
    row: Row<T>,
) -> Step<T>
    ensures { (m w n : ℕ) → IsTaken below_nodes m w n item → row_nodes row ≡ n
        → IsStep (suc m) (suc m + (if_node waiting + w)) result }
{
    match item {
        Taken::Subtrees(below) => Step::Into(Remaining {
            below,
            waiting,
            rows: Some(Subtrees::Row(row)),
        }),
        Taken::AfterLeaf(below) => Step::On(Remaining {
            below,
            waiting,
            rows: Some(Subtrees::Row(row)),
        }),
        Taken::Nothing(rows) => Step::Row(row, resume_waiting(waiting, rows)),
    }
}

// The last item of a row that waits, but for leaves.
fn resume_items<T: Drop>(items: Rc<Vec<Expr<T>>>) -> Remaining<T>
    ensures { all_nodes result ≤ suc (item_nodes items.value.items) }
{
    let mut items = items;
    match Rc::get_mut(&mut items) {
        Some(row) => {
            let last = last_branch(row);
            resume_row(last, row.is_empty(), Row::Items(items))
        }
        None => remaining_of(Subtrees::Row(Row::Items(items)), None),
    }
}

// The last value of a record that waits, but for leaves.
fn resume_fields<T: Drop>(fields: Rc<BTreeMap<RcStr, Expr<T>>>) -> Remaining<T>
    ensures { all_nodes result ≤ suc (field_nodes fields.value.entries) }
{
    let mut fields = fields;
    match Rc::get_mut(&mut fields) {
        Some(row) => {
            let last = last_branch_value(row);
            resume_row(last, row.is_empty(), Row::Fields(fields))
        }
        None => remaining_of(Subtrees::Row(Row::Fields(fields)), None),
    }
}

// The last item of a row that waits, beside that row. If it was the only one, it is taken to be the
// row that waits below, and the row is done with.
fn resume_row<T>(last: Option<Subtrees<T>>, is_only: bool, row: Row<T>) -> Remaining<T>
    ensures { all_nodes result ≡ if_row last + suc (row_nodes row) }
{
    match last {
        Some(last) => {
            if is_only {
                remaining_of(Subtrees::Row(row), Some(last))
            } else {
                remaining_of(last, Some(Subtrees::Row(row)))
            }
        }
        None => remaining_of(Subtrees::Row(row), None),
    }
}

// Drops a row, so many levels by recursion.
#[cycle(dropped)]
fn drop_row<T: Drop>(row: Row<T>, levels: u32) {
    match row {
        Row::Items(items) => drop_items(items, levels),
        Row::Fields(fields) => drop_fields(fields, levels),
    }
}

#[cycle(dropped)]
fn drop_items<T: Drop>(items: Rc<Vec<Expr<T>>>, levels: u32) {
    if let Some(mut row) = Rc::into_inner(items) {
        'each: while let Some(item) = row.pop() {
            drop_node(item, levels);
        }
        row.destroy_empty();
    }
}

#[cycle(dropped)]
fn drop_fields<T: Drop>(fields: Rc<BTreeMap<RcStr, Expr<T>>>, levels: u32) {
    if let Some(mut row) = Rc::into_inner(fields) {
        // From the last on: without its first entry, a node of the map has to move all others.
        'each: while let Some((key, item)) = row.pop_last() {
            drop(key);
            drop_node(item, levels);
        }
        row.destroy_empty();
    }
}

// A kind with one child, and what waits.
fn rest_of_one<T>(child: Rc<Expr<T>>, waiting: Option<Rc<Expr<T>>>) -> ExprKind<T>
    ensures { kind_nodes result ≡ suc (nodes child.value + if_node waiting) }
{
    match waiting {
        Some(waiting) => ExprKind::And {
            left: child,
            right: waiting,
        },
        None => ExprKind::UnaryApp {
            op: UnaryOp::Not,
            arg: child,
        },
    }
}

// A kind with two children, and what waits.
fn rest_of_two<T>(
    first: Rc<Expr<T>>,
    second: Rc<Expr<T>>,
    waiting: Option<Rc<Expr<T>>>,
) -> ExprKind<T>
    ensures { kind_nodes result ≡ suc (nodes first.value + nodes second.value + if_node waiting) }
{
    match waiting {
        Some(waiting) => ExprKind::If {
            test_expr: first,
            then_expr: second,
            else_expr: waiting,
        },
        None => ExprKind::And {
            left: first,
            right: second,
        },
    }
}
