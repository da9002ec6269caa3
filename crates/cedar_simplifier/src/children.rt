//! The children of a node, simplified: members of a set, arguments of a call, values of a record.
ghost use Rattle.std.specs.Prelude.{◌≡◌, IfOk, map};
ghost use Rattle.std.specs.List.{filter_map, list_all};
ghost use Rattle.cedar_builders.specs.BareExpr as bare;
ghost use Rattle.cedar_builders.specs.Keys.{keys_of, meant_pairs};
ghost use Rattle.cedar_exprs.specs.BareExpr.{bare_expr, bare_exprs};
ghost use Rattle.semantics_simplify.specs.Asks.{holds_no_call};
ghost use Rattle.semantics_simplify.specs.Simplified as meant;
ghost use Rattle.cedar_simplifier.specs.Simplified.{held_pair, held_value, is_known, meaning_of};

use crate::simplified::Simplified;
use cedar_exprs::Expr;
use cedar_values::{ExtensionValue, Value};
use std::alloc::{AllocError, Global};
use std::rc::RcStr;

// The expressions of children, and whether none of them holds a call.
#[derive(Debug, Drop)]
pub(crate) struct Children {
    pub(crate) exprs: Vec<Expr>,
    pub(crate) calls_nothing: bool,
    ghost kept: { calls_nothing ≡ list_all (λ e. holds_no_call (bare_expr e)) exprs.items },
}

// The same of the values of a record, by their keys.
#[derive(Debug, Drop)]
pub(crate) struct Fields {
    pub(crate) pairs: Vec<(RcStr, Expr)>,
    pub(crate) calls_nothing: bool,
    ghost kept: { calls_nothing ≡ list_all (λ p. holds_no_call (bare_expr p.1)) pairs.items },
}

// Whether each child is a known value.
pub(crate) fn are_known<X: Ord + Drop>(children: &[Simplified<X>]) -> bool
    ensures { result ≡ list_all (λ p. is_known (meaning_of p)) children.now }
{
    children.iter().all(|child| child.is_known())
}

// The values of the children that are known.
pub(crate) fn values_of<X: Ord + Drop>(
    alloc: Global,
    children: Vec<Simplified<X>>,
) -> Result<Vec<Value<X>>, AllocError>
    ensures { IfOk result (λ vs. vs.items ≡ filter_map held_value children.items) }
{
    children
        .into_iter()
        .filter_map(|child| child.into_value())
        .collect(alloc)
}

// The expressions of children.
pub(crate) fn children_of<X: ExtensionValue + Ord>(
    alloc: Global,
    children: Vec<Simplified<X>>,
) -> Result<Children, AllocError>
    ensures { IfOk result (λ c.
        bare_exprs c.exprs.items ≡ meant.child_trees X.canonical (map meaning_of children.items)) }
{
    let mut exprs = Vec::with_capacity(alloc, children.len())?;
    let mut calls_nothing = true;
    for child in children {
        let tree = child.into_tree(alloc)?;
        calls_nothing &= tree.calls_nothing();
        exprs.push(tree.into_expr())?;
    }
    Ok(Children {
        exprs,
        calls_nothing,
    })
}

// Whether each value of a record is known.
pub(crate) fn have_known<X: Ord + Drop>(pairs: &[(RcStr, Simplified<X>)]) -> bool
    ensures { result ≡ list_all (λ p. is_known (meaning_of p.1)) pairs.now }
{
    pairs.iter().all(|pair| pair.1.is_known())
}

// The values of a record that are known, by their keys.
pub(crate) fn values_by_key<X: Ord + Drop>(
    alloc: Global,
    pairs: Vec<(RcStr, Simplified<X>)>,
) -> Result<Vec<(RcStr, Value<X>)>, AllocError>
    ensures { IfOk result (λ vs. vs.items ≡ filter_map held_pair pairs.items) }
{
    pairs
        .into_iter()
        .filter_map(|pair| value_by_key(pair))
        .collect(alloc)
}

// A value that is known, with its key.
fn value_by_key<X: Ord + Drop>(pair: (RcStr, Simplified<X>)) -> Option<(RcStr, Value<X>)>
    ensures { result ≡ held_pair pair }
{
    let (key, child) = pair;
    match child.into_value() {
        Some(value) => Some((key, value)),
        None => None,
    }
}

// The expressions of a record's values, by their keys.
pub(crate) fn fields_of<X: ExtensionValue + Ord>(
    alloc: Global,
    pairs: Vec<(RcStr, Simplified<X>)>,
) -> Result<Fields, AllocError>
    ensures keys { IfOk result (λ f. keys_of f.pairs.items ≡ keys_of pairs.items) }
    ensures trees { IfOk result (λ f. bare.fields_of (meant_pairs bare_expr f.pairs.items)
        ≡ meant.child_fields X.canonical (meant_pairs meaning_of pairs.items)) }
{
    let mut fields = Vec::with_capacity(alloc, pairs.len())?;
    let mut calls_nothing = true;
    for (key, child) in pairs {
        let tree = child.into_tree(alloc)?;
        calls_nothing &= tree.calls_nothing();
        fields.push((key, tree.into_expr()))?;
    }
    Ok(Fields {
        pairs: fields,
        calls_nothing,
    })
}
