//! The order of expressions by what they are, whatever their places and data.
ghost use Rattle.std.specs.Prelude.{◌≡◌, ◌↔◌, ◌∷◌, IsTrue, map};
ghost use Rattle.std.specs.Cmp.Lexicographic.{slice_cmp};
ghost use Rattle.std.specs.Ordering.{nat_cmp};
ghost use Rattle.std.specs.Rc.{rc_str_bytes};
ghost use Rattle.cedar_terms.specs.Ops.{unary_op_number, binary_op_number};
ghost use Rattle.cedar_terms.specs.Unknowns.{bare_unknown};
ghost use Rattle.cedar_builders.specs.Shapes.{◌or_else◌, has_number, kind_number, row_count};
ghost use Rattle.cedar_builders.specs.Shapes.{field_count, shape_cmp, row_cmp, fields_cmp};
ghost use Rattle.cedar_exprs.specs.BareExpr.{bare_expr, bare_exprs, bare_fields, further};
ghost use Rattle.cedar_exprs.specs.BareExpr.{unknown_tree};

use crate::expr::{Expr, ExprKind};
use crate::shapes::hashing::{has_number, kind_number};
use cedar_names::NonEmpty;
use cedar_terms::{BinaryOp, UnaryOp, Unknown};
use std::cmp::Ordering;
use std::collections::BTreeMap;
use std::rc::RcStr;

impl<T> Expr<T> {
    /// Whether the expressions are the same but for their places and data.
    pub fn eq_shape<U>(&self, other: &Expr<U>) -> bool
        ensures { IsTrue result ↔ (bare_expr self.now ≡ bare_expr other.now) }
    {
        cmp_shape(self, other).is_eq()
    }

    /// Compares what the expressions are, without their places and data.
    ///
    /// Kinds come first, in the order of `ExprKind`, `HasAttr` of one attribute before `HasAttr` of
    /// more. Within a kind the operator, the name, the attributes or the pattern come before the
    /// children, the number of arguments, members or pairs before these, and of a record each key
    /// before its value.
    pub fn cmp_shape(&self, other: &Expr<T>) -> Ordering
        ensures { result ≡ shape_cmp (bare_expr self.now) (bare_expr other.now) }
    {
        cmp_shape(self, other)
    }
}

// The first of several comparisons that is not `Equal`; those behind it are not made.
macro_rules! in_turn {
    ($last:expr) => { $last };
    ($first:expr, $($rest:expr),+) => {
        match $first {
            Ordering::Equal => in_turn!($($rest),+),
            decided => decided,
        }
    };
}

// Like kinds by their fields, others by the numbers of the kinds.
#[cycle(shape_order)]
pub(crate) fn cmp_shape<T, U>(a: &Expr<T>, b: &Expr<U>) -> Ordering
    ensures { result ≡ shape_cmp (bare_expr a.now) (bare_expr b.now) }
{
    match (&a.expr_kind, &b.expr_kind) {
        (ExprKind::Lit(x), ExprKind::Lit(y)) => x.cmp(y),
        (ExprKind::Var(x), ExprKind::Var(y)) => x.cmp(y),
        (ExprKind::Slot(x), ExprKind::Slot(y)) => x.cmp(y),
        (ExprKind::Unknown(x), ExprKind::Unknown(y)) => cmp_unknown(x, y),
        (
            ExprKind::If {
                test_expr,
                then_expr,
                else_expr,
            },
            ExprKind::If {
                test_expr: other_test,
                then_expr: other_then,
                else_expr: other_else,
            },
        ) => in_turn!(
            cmp_shape(test_expr, other_test),
            cmp_shape(then_expr, other_then),
            cmp_shape(else_expr, other_else)
        ),
        (ExprKind::And { left: e, right: f }, ExprKind::And { left: g, right: h }) => {
            in_turn!(cmp_shape(e, g), cmp_shape(f, h))
        }
        (ExprKind::Or { left: e, right: f }, ExprKind::Or { left: g, right: h }) => {
            in_turn!(cmp_shape(e, g), cmp_shape(f, h))
        }
        (ExprKind::UnaryApp { op: x, arg: e }, ExprKind::UnaryApp { op: y, arg: f }) => {
            in_turn!(cmp_unary_ops(*x, *y), cmp_shape(e, f))
        }
        (
            ExprKind::BinaryApp { op, arg1, arg2 },
            ExprKind::BinaryApp {
                op: other,
                arg1: other1,
                arg2: other2,
            },
        ) => in_turn!(
            cmp_binary_ops(*op, *other),
            cmp_shape(arg1, other1),
            cmp_shape(arg2, other2)
        ),
        (
            ExprKind::ExtensionFunctionApp { fn_name, args },
            ExprKind::ExtensionFunctionApp {
                fn_name: other,
                args: other_args,
            },
        ) => in_turn!(fn_name.cmp(other), cmp_members(args, other_args)),
        (ExprKind::GetAttr { expr: e, attr: x }, ExprKind::GetAttr { expr: f, attr: y }) => {
            in_turn!(x.cmp(y), cmp_shape(e, f))
        }
        (ExprKind::HasAttr { expr: e, attrs: x }, ExprKind::HasAttr { expr: f, attrs: y }) => {
            in_turn!(cmp_has_numbers(x, y), cmp_paths(x, y), cmp_shape(e, f))
        }
        (
            ExprKind::Like { expr, pattern },
            ExprKind::Like {
                expr: other_expr,
                pattern: other,
            },
        ) => in_turn!(pattern.cmp(other), cmp_shape(expr, other_expr)),
        (ExprKind::Set(es), ExprKind::Set(fs)) => cmp_members(es, fs),
        (ExprKind::Record(ps), ExprKind::Record(qs)) => cmp_pairs(ps, qs),
        (
            ExprKind::Is { expr, entity_type },
            ExprKind::Is {
                expr: other_expr,
                entity_type: other,
            },
        ) => in_turn!(entity_type.cmp(other), cmp_shape(expr, other_expr)),
        _ => cmp_kinds(a, b),
    }
}

// By their number, then one by one.
#[cycle(shape_order)]
fn cmp_members<T, U>(es: &[Expr<T>], fs: &[Expr<U>]) -> Ordering
    ensures { result ≡ (nat_cmp (row_count (bare_exprs es.now)) (row_count (bare_exprs fs.now))
        or_else row_cmp (bare_exprs es.now) (bare_exprs fs.now)) }
{
    let counts = es.len().cmp(&fs.len());
    if counts.is_ne() {
        return counts;
    }
    let mut rest = fs.iter();
    for e in es {
        let Some(f) = rest.next() else {
            return Ordering::Greater;
        };
        let first = cmp_shape(e, f);
        if first.is_ne() {
            return first;
        }
    }
    match rest.next() {
        Some(_) => Ordering::Less,
        None => Ordering::Equal,
    }
}

// By their number, then pair by pair, each key before its value.
#[cycle(shape_order)]
fn cmp_pairs<T, U>(ps: &BTreeMap<RcStr, Expr<T>>, qs: &BTreeMap<RcStr, Expr<U>>) -> Ordering
    ensures { result ≡ (nat_cmp (field_count (bare_fields ps.now.entries))
        (field_count (bare_fields qs.now.entries))
        or_else fields_cmp (bare_fields ps.now.entries) (bare_fields qs.now.entries)) }
{
    let counts = ps.len().cmp(&qs.len());
    if counts.is_ne() {
        return counts;
    }
    let mut rest = qs.iter();
    for (key, e) in ps.iter() {
        let Some((other, f)) = rest.next() else {
            return Ordering::Greater;
        };
        let keys = key.cmp(other);
        if keys.is_ne() {
            return keys;
        }
        let first = cmp_shape(e, f);
        if first.is_ne() {
            return first;
        }
    }
    match rest.next() {
        Some(_) => Ordering::Less,
        None => Ordering::Equal,
    }
}

// By the numbers of the kinds.
#[tactic(auto, using(crate::proofs::ShapeWalks::number_of))]
fn cmp_kinds<T, U>(a: &Expr<T>, b: &Expr<U>) -> Ordering
    ensures { result ≡ nat_cmp (kind_number (bare_expr a.now)) (kind_number (bare_expr b.now)) }
{
    kind_number(a.expr_kind()).cmp(&kind_number(b.expr_kind()))
}

fn cmp_unary_ops(a: UnaryOp, b: UnaryOp) -> Ordering
    ensures { result ≡ nat_cmp (unary_op_number a) (unary_op_number b) }
{
    a.cmp(&b)
}

fn cmp_binary_ops(a: BinaryOp, b: BinaryOp) -> Ordering
    ensures { result ≡ nat_cmp (binary_op_number a) (binary_op_number b) }
{
    a.cmp(&b)
}

// A test for one attribute comes before one for more.
fn cmp_has_numbers(a: &NonEmpty<RcStr>, b: &NonEmpty<RcStr>) -> Ordering
    ensures { result ≡ nat_cmp (has_number (further a.now)) (has_number (further b.now)) }
{
    has_number(a).cmp(&has_number(b))
}

// By the attributes, one after the other.
fn cmp_paths(a: &NonEmpty<RcStr>, b: &NonEmpty<RcStr>) -> Ordering
    ensures { result ≡ slice_cmp (slice_cmp nat_cmp)
        (rc_str_bytes a.now.head ∷ further a.now) (rc_str_bytes b.now.head ∷ further b.now) }
{
    match a.head.cmp(&b.head) {
        Ordering::Equal => cmp_texts(&a.tail, &b.tail),
        other => other,
    }
}

fn cmp_texts(a: &Vec<RcStr>, b: &Vec<RcStr>) -> Ordering
    ensures { result ≡ slice_cmp (slice_cmp nat_cmp)
        (map rc_str_bytes a.now.items) (map rc_str_bytes b.now.items) }
{
    a.cmp(b)
}

// By the name, then by the annotation, none first.
fn cmp_unknown(a: &Unknown, b: &Unknown) -> Ordering
    ensures { result ≡
        shape_cmp (unknown_tree (bare_unknown a.now)) (unknown_tree (bare_unknown b.now)) }
{
    a.name
        .cmp(&b.name)
        .then_with(|| a.type_annotation.cmp(&b.type_annotation))
}
