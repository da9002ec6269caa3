//! Walks over the positions of an expression (`expr_iterator.rs`).
//!
//! A walk reserves at its start what its stack will ever need, so that its `next` takes no memory.
ghost use Rattle.std.specs.Prelude.{◌≡◌, ◌+◌, ◌≤◌, ◌<◌, ◌++◌, [], ◌∷◌, length, map, IfOk, OnOk};
ghost use Rattle.std.specs.Prelude.{vec_len, vec_capacity};
ghost use Rattle.std.specs.List.{filter_map};
ghost use Rattle.std.specs.Option.{option_copied};
ghost use Rattle.cedar_builders.specs.Walks.{need};
ghost use Rattle.cedar_exprs.specs.BareExpr.{bare_expr};
ghost use Rattle.cedar_exprs.specs.Walks.{children, positions, referents, need_of};

use crate::expr::{Expr, ExprKind};
use crate::walks::children::NodeChildren;
use crate::walks::entries::entries;
use cedar_names::{Loc, Slot, SlotId};
use cedar_terms::Unknown;
use std::alloc::{AllocError, Global};
use std::collections::BTreeMap;
use std::rc::RcStr;

/// The positions of an expression: itself, then those of its children, the last child first.
///
/// A child that is shared comes once for each position.
#[derive(Debug, Drop)]
pub struct ExprIterator<'a, T = ()> {
    // What is still to be walked over, the next on top.
    expression_stack: Vec<&'a Expr<T>>,
    ghost room: { need_of (referents expression_stack.items) ≤ vec_capacity expression_stack },
}

impl<'a, T> ExprIterator<'a, T> {
    ghost use Rattle.cedar_exprs.specs.Iterators.{positions_left, reserved};

    /// The walk over an expression. All the memory that it takes is taken here.
    pub fn new(alloc: Global, expr: &'a Expr<T>) -> Result<ExprIterator<'a, T>, AllocError>
        ensures gives { IfOk result (λ walk. positions_left walk ≡ positions expr.now) }
        ensures reserves { IfOk result (λ walk. reserved walk ≡ need (bare_expr expr.now)) }
        ensures fits { OnOk result (need (bare_expr expr.now) < usize.MAX) }
    {
        let mut expression_stack = Vec::with_capacity(alloc, entries(alloc, expr)?)?;
        expression_stack.push_reserved(expr);
        Ok(ExprIterator { expression_stack })
    }
}

impl<'a, T> Iterator for ExprIterator<'a, T> {
    type Item = &'a Expr<T>;

    ghost use Rattle.std.specs.Iterator.{YieldsFirstRef, item_count};
    ghost use Rattle.cedar_exprs.specs.Iterators.{positions_left, reserved};

    ghost next_gives = { λ old r new. YieldsFirstRef positions_left old r new
        × (reserved new ≡ reserved old) };

    ghost remaining = { item_count positions_left };

    #[inline(always)]
    fn next(&mut self) -> Option<&'a Expr<T>> {
        let expr = self.expression_stack.pop()?;
        push_children(&mut self.expression_stack, expr);
        Some(expr)
    }
}

// Puts the children onto the stack in field order.
#[inline(always)]
pub(crate) fn push_children<'a, T>(stack: &mut Vec<&'a Expr<T>>, expr: &'a Expr<T>)
    requires { vec_len stack.old + length (children expr.now) ≤ vec_capacity stack.old }
    ensures items { referents stack.new.items ≡ referents stack.old.items ++ children expr.now }
    ensures room { vec_capacity stack.new ≡ vec_capacity stack.old }
{
    match NodeChildren::of(expr) {
        NodeChildren::Nothing => {}
        NodeChildren::One(child) => stack.push_reserved(child),
        NodeChildren::Two(first, second) => push_two(stack, first, second),
        NodeChildren::Three(first, second, third) => {
            stack.push_reserved(first);
            push_two(stack, second, third)
        }
        NodeChildren::Row(row) => push_row(stack, row),
        NodeChildren::Values(pairs) => push_values(stack, pairs),
    }
}

#[inline(always)]
fn push_two<'a, T>(stack: &mut Vec<&'a Expr<T>>, first: &'a Expr<T>, second: &'a Expr<T>)
    requires { vec_len stack.old + 2 ≤ vec_capacity stack.old }
    ensures items { referents stack.new.items
        ≡ referents stack.old.items ++ first.now ∷ second.now ∷ [] }
    ensures room { vec_capacity stack.new ≡ vec_capacity stack.old }
{
    stack.push_reserved(first);
    stack.push_reserved(second);
}

fn push_row<'a, T>(stack: &mut Vec<&'a Expr<T>>, row: &'a [Expr<T>])
    requires { vec_len stack.old + length row.now ≤ vec_capacity stack.old }
    ensures items { referents stack.new.items ≡ referents stack.old.items ++ row.now }
    ensures room { vec_capacity stack.new ≡ vec_capacity stack.old }
{
    for member in row {
        stack.push_reserved(member);
    }
}

#[inline(never)]
fn push_values<'a, T>(stack: &mut Vec<&'a Expr<T>>, pairs: &'a BTreeMap<RcStr, Expr<T>>)
    requires { vec_len stack.old + length pairs.now.entries ≤ vec_capacity stack.old }
    ensures items { referents stack.new.items
        ≡ referents stack.old.items ++ map (λ e. e.1) pairs.now.entries }
    ensures room { vec_capacity stack.new ≡ vec_capacity stack.old }
{
    for value in pairs.values() {
        stack.push_reserved(value);
    }
}

/// A slot of an expression, and the place where it was written, if known.
#[derive(Debug, Drop)]
pub struct SlotRef<'a> {
    /// The slot.
    pub id: SlotId,
    /// Its place.
    pub loc: Option<&'a Loc>,
}

impl SlotRef<'_> {
    /// The slot with a copy of its place, which takes no memory.
    pub fn to_slot(&self, alloc: Global) -> Result<Slot, AllocError>
        ensures id { IfOk result (λ slot. slot.id ≡ self.now.id) }
        ensures place { IfOk result (λ slot. slot.loc ≡ option_copied self.now.loc) }
    {
        let loc = Loc::clone_option(alloc, self.loc)?;
        Ok(Slot { id: self.id, loc })
    }
}

/// The slots of an expression, in the order of its positions.
#[derive(Debug, Drop)]
pub struct Slots<'a, T = ()> {
    walk: ExprIterator<'a, T>,
}

impl<'a, T> Iterator for Slots<'a, T> {
    type Item = SlotRef<'a>;

    ghost use Rattle.std.specs.Iterator.{YieldsFirstBy, item_count};
    ghost use Rattle.cedar_exprs.specs.Iterators.{slot_at, slots_left, reserved_by_slots};

    ghost next_gives = { λ old r new. YieldsFirstBy slot_at slots_left old r new
        × (reserved_by_slots new ≡ reserved_by_slots old) };

    ghost remaining = { item_count slots_left };

    fn next(&mut self) -> Option<SlotRef<'a>> {
        while let Some(expr) = self.walk.next() {
            if let ExprKind::Slot(id) = expr.expr_kind() {
                return Some(SlotRef {
                    id: *id,
                    loc: expr.source_loc(),
                });
            }
        }
        None
    }
}

/// The unknowns of an expression, in the order of its positions.
#[derive(Debug, Drop)]
pub struct Unknowns<'a, T = ()> {
    walk: ExprIterator<'a, T>,
}

impl<'a, T> Iterator for Unknowns<'a, T> {
    type Item = &'a Unknown;

    ghost use Rattle.std.specs.Iterator.{YieldsFirstRef, item_count};
    ghost use Rattle.cedar_exprs.specs.Iterators.{unknowns_left, reserved_by_unknowns};

    ghost next_gives = { λ old r new. YieldsFirstRef unknowns_left old r new
        × (reserved_by_unknowns new ≡ reserved_by_unknowns old) };

    ghost remaining = { item_count unknowns_left };

    fn next(&mut self) -> Option<&'a Unknown> {
        while let Some(expr) = self.walk.next() {
            if let ExprKind::Unknown(unknown) = expr.expr_kind() {
                return Some(unknown);
            }
        }
        None
    }
}

impl<T> Expr<T> {
    ghost use Rattle.cedar_exprs.specs.Iterators.{positions_left, reserved};
    ghost use Rattle.cedar_exprs.specs.Iterators.{reserved_by_slots, slot_of, slots_left};
    ghost use Rattle.cedar_exprs.specs.Iterators.{reserved_by_unknowns, unknown_of, unknowns_left};

    /// The expression, then the positions of its children, the last child first.
    pub fn subexpressions(&self, alloc: Global) -> Result<ExprIterator<'_, T>, AllocError>
        ensures gives { IfOk result (λ walk. positions_left walk ≡ positions self.now) }
        ensures reserves { IfOk result (λ walk. reserved walk ≡ need (bare_expr self.now)) }
        ensures fits { OnOk result (need (bare_expr self.now) < usize.MAX) }
    {
        ExprIterator::new(alloc, self)
    }

    /// The slots, with their places, in the order of the positions.
    pub fn slots(&self, alloc: Global) -> Result<Slots<'_, T>, AllocError>
        ensures gives { IfOk result
            (λ slots. slots_left slots ≡ filter_map slot_of (positions self.now)) }
        ensures reserves { IfOk result
            (λ slots. reserved_by_slots slots ≡ need (bare_expr self.now)) }
        ensures fits { OnOk result (need (bare_expr self.now) < usize.MAX) }
    {
        let walk = ExprIterator::new(alloc, self)?;
        Ok(Slots { walk })
    }

    /// The unknowns, in the order of the positions.
    pub fn unknowns(&self, alloc: Global) -> Result<Unknowns<'_, T>, AllocError>
        ensures gives { IfOk result
            (λ unknowns. unknowns_left unknowns ≡ filter_map unknown_of (positions self.now)) }
        ensures reserves { IfOk result
            (λ unknowns. reserved_by_unknowns unknowns ≡ need (bare_expr self.now)) }
        ensures fits { OnOk result (need (bare_expr self.now) < usize.MAX) }
    {
        let walk = ExprIterator::new(alloc, self)?;
        Ok(Unknowns { walk })
    }
}
