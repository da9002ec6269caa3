//! The hash of what an expression is, whatever its places and data.
ghost use Rattle.std.specs.Prelude.{◌≡◌, ◌++◌, fold};
ghost use Rattle.std.specs.Hash as fed;
ghost use Rattle.std.specs.Rc.{rc_str_bytes};
ghost use Rattle.cedar_builders.specs.ShapeFeed.{attributes_fed, shape_fed, row_fed, fields_fed};
ghost use Rattle.cedar_builders.specs.Shapes.{has_number, kind_number, row_count, field_count};
ghost use Rattle.cedar_exprs.specs.BareExpr.{bare_expr, bare_expr_kind, bare_exprs, bare_fields};
ghost use Rattle.cedar_exprs.specs.BareExpr.{further};

use crate::expr::{Expr, ExprKind};
use cedar_names::NonEmpty;
use std::collections::BTreeMap;
use std::hash::{Hash, Hasher};
use std::rc::RcStr;

impl<T> Expr<T> {
    /// Feeds the kind's number as one byte and then its fields, without places and data: alike
    /// expressions feed alike.
    ///
    /// The keys of each record are fed in ascending order.
    pub fn hash_shape<H: Hasher>(&self, state: &mut H)
        ensures { state.new ≡ fold H.write state.old (shape_fed (bare_expr self.now)) }
    {
        hash_shape(self, state)
    }
}

// Feeds the number of the kind as one byte, then the fields in their order.
#[cycle(shape)]
pub(crate) fn hash_shape<T, H: Hasher>(e: &Expr<T>, state: &mut H)
    ensures { state.new ≡ fold H.write state.old (shape_fed (bare_expr e.now)) }
{
    state.write_u8(kind_number(e.expr_kind()));
    match e.expr_kind() {
        ExprKind::Lit(literal) => literal.hash(state),
        ExprKind::Var(var) => var.hash(state),
        ExprKind::Slot(slot) => slot.hash(state),
        ExprKind::Unknown(unknown) => unknown.hash(state),
        ExprKind::If {
            test_expr,
            then_expr,
            else_expr,
        } => {
            hash_shape(test_expr, state);
            hash_shape(then_expr, state);
            hash_shape(else_expr, state);
        }
        ExprKind::And { left, right } => {
            hash_shape(left, state);
            hash_shape(right, state);
        }
        ExprKind::Or { left, right } => {
            hash_shape(left, state);
            hash_shape(right, state);
        }
        ExprKind::UnaryApp { op, arg } => {
            op.hash(state);
            hash_shape(arg, state);
        }
        ExprKind::BinaryApp { op, arg1, arg2 } => {
            op.hash(state);
            hash_shape(arg1, state);
            hash_shape(arg2, state);
        }
        ExprKind::ExtensionFunctionApp { fn_name, args } => {
            fn_name.hash(state);
            hash_members(args, state);
        }
        ExprKind::GetAttr { expr, attr } => {
            hash_shape(expr, state);
            attr.hash(state);
        }
        ExprKind::HasAttr { expr, attrs } => {
            hash_shape(expr, state);
            hash_attributes(attrs, state);
        }
        ExprKind::Like { expr, pattern } => {
            hash_shape(expr, state);
            pattern.hash(state);
        }
        ExprKind::Set(members) => hash_members(members, state),
        ExprKind::Record(pairs) => hash_pairs(pairs, state),
        ExprKind::Is { expr, entity_type } => {
            hash_shape(expr, state);
            entity_type.hash(state);
        }
    }
}

// Feeds their number, then each.
#[cycle(shape)]
fn hash_members<T, H: Hasher>(members: &[Expr<T>], state: &mut H)
    ensures { state.new ≡ fold H.write state.old
        (fed.usize (row_count (bare_exprs members.now)) ++ row_fed (bare_exprs members.now)) }
{
    state.write_usize(members.len());
    for member in members {
        hash_shape(member, state);
    }
}

// Feeds their number, then each key with its value.
#[cycle(shape)]
fn hash_pairs<T, H: Hasher>(pairs: &BTreeMap<RcStr, Expr<T>>, state: &mut H)
    ensures { state.new ≡ fold H.write state.old
        (fed.usize (field_count (bare_fields pairs.now.entries))
        ++ fields_fed (bare_fields pairs.now.entries)) }
{
    state.write_usize(pairs.len());
    for (key, value) in pairs.iter() {
        key.hash(state);
        hash_shape(value, state);
    }
}

// One attribute alone, or the first and the list of the others.
fn hash_attributes<H: Hasher>(attrs: &NonEmpty<RcStr>, state: &mut H)
    ensures { state.new ≡ fold H.write state.old
        (attributes_fed (rc_str_bytes attrs.now.head) (further attrs.now)) }
{
    match attrs.tail.as_slice() {
        [] => attrs.head.hash(state),
        [_, ..] => attrs.hash(state),
    }
}

// The number that an expression compares by first.
pub(crate) fn kind_number<T>(kind: &ExprKind<T>) -> u8
    ensures { result ≡ kind_number (bare_expr_kind kind.now) }
{
    match kind {
        ExprKind::Lit(_) => 0,
        ExprKind::Var(_) => 1,
        ExprKind::Slot(_) => 2,
        ExprKind::Unknown(_) => 3,
        ExprKind::If { .. } => 4,
        ExprKind::And { .. } => 5,
        ExprKind::Or { .. } => 6,
        ExprKind::UnaryApp { .. } => 7,
        ExprKind::BinaryApp { .. } => 8,
        ExprKind::ExtensionFunctionApp { .. } => 9,
        ExprKind::GetAttr { .. } => 10,
        ExprKind::HasAttr { attrs, .. } => has_number(attrs),
        ExprKind::Like { .. } => 13,
        ExprKind::Set(_) => 14,
        ExprKind::Record(_) => 15,
        ExprKind::Is { .. } => 16,
    }
}

// The number of a test for attributes: one attribute comes before more.
pub(crate) fn has_number(attrs: &NonEmpty<RcStr>) -> u8
    ensures { result ≡ has_number (further attrs.now) }
{
    match attrs.tail.as_slice() {
        [] => 11,
        [_, ..] => 12,
    }
}
