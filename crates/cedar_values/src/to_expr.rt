//! The expression of a value (`value.rs`, `extension.rs`).
ghost use Rattle.std.specs.Prelude.{◌≡◌, ◌<◌, ◌≤◌, ◌++◌, IsTrue, IfOk, IfSome, None};
ghost use Rattle.std.specs.Option.{option_copied};
ghost use Rattle.std.specs.Slice.Iter.{iter_rest};
ghost use Rattle.cedar_terms.specs.Literals.{bare_literal};
ghost use Rattle.cedar_builders.specs.BareExpr.{Lit};
ghost use Rattle.cedar_builders.specs.Keys.{IsAscending, keys_of};
ghost use Rattle.cedar_builders.specs.Restricted.{IsRestricted};
ghost use Rattle.cedar_exprs.specs.BareExpr.{bare_expr, expr_place};
ghost use Rattle.cedar_exprs.specs.RestrictedExprs.{bare_restricted_expr};
ghost use Rattle.semantics_values.specs.Reading.{ReadsBack};
ghost use Rattle.semantics_values.specs.ValueExpr.{call_expr, value_expr};
ghost use Rattle.cedar_values.specs.BareCalls.{bare_call};
ghost use Rattle.cedar_values.specs.BareValues.{
  bare_representable,
  bare_value,
  bare_value_kind,
  value_place,
};
ghost use Rattle.cedar_values.specs.Conversions.{bare_pairs};
ghost use Rattle.cedar_values.specs.Counts.{nodes, nodes_of, pair_nodes};
ghost use Rattle.cedar_values.specs.Rows.{
  AreRestricted,
  ArePairsRestricted,
  IsRow,
  IsStep,
  filled,
  members_tree,
  pairs_tree,
  row_left,
  row_place,
  step_left,
  step_place,
  step_tree,
};
ghost use Rattle.cedar_values.specs.WellFormed.{kind_well_formed, well_formed};

use crate::extension_value::{ExtensionValue, RepresentableExtensionValue};
use crate::put_last::put_last;
use crate::value::{Value, ValueKind};
use cedar_builders::ExprBuilder as _;
use cedar_exprs::{Expr, ExprBuilder, ExprKind, RestrictedExpr};
use cedar_names::{Loc, Name};
use cedar_terms::Literal;
use semantics_values::laws::expressions_read_back;
use std::alloc::{AllocError, Global};
use std::collections::{BTreeMap, btree_map};
use std::rc::{Rc, RcStr};
use std::slice;

impl<X: ExtensionValue + Ord> Value<X> {
    /// The expression of the value, with each value's place. An extension value becomes the call
    /// that was given for it, else its canonical one.
    pub fn to_expr(&self, alloc: Global) -> Result<Expr, AllocError>
        ensures tree { IfOk result (λ e.
            bare_expr e ≡ value_expr X.canonical (bare_value self.now)) }
        ensures restricted { IfOk result (λ e. IsRestricted (bare_expr e)) }
        ensures place { IfOk result (λ e. expr_place e ≡ value_place self.now) }
        ensures read_back { IfOk result (λ e. IsTrue (well_formed X.cmp self.now)
            → ReadsBack X.cmp X.eq (bare_expr e) (bare_value self.now)) }
    {
        expressions_read_back::<X>();
        expr_at(alloc, self.value_kind(), self.source_loc())
    }
}

impl<X: ExtensionValue + Ord> ValueKind<X> {
    /// The expression of the value, at no place; the values inside have theirs.
    pub fn to_expr(&self, alloc: Global) -> Result<Expr, AllocError>
        ensures tree { IfOk result (λ e.
            bare_expr e ≡ value_expr X.canonical (bare_value_kind self.now)) }
        ensures restricted { IfOk result (λ e. IsRestricted (bare_expr e)) }
        ensures place { IfOk result (λ e. expr_place e ≡ None) }
        ensures read_back { IfOk result (λ e. IsTrue (kind_well_formed X.cmp self.now)
            → ReadsBack X.cmp X.eq (bare_expr e) (bare_value_kind self.now)) }
    {
        expressions_read_back::<X>();
        expr_at(alloc, self, None)
    }
}

impl<X: ExtensionValue> RepresentableExtensionValue<X> {
    /// The call that was given for it, else its canonical one.
    pub fn to_restricted_expr(&self, alloc: Global) -> Result<RestrictedExpr, AllocError>
        ensures { IfOk result (λ r.
            bare_restricted_expr r ≡ value_expr X.canonical (bare_representable self.now)) }
    {
        Ok(RestrictedExpr::new_unchecked(representation(alloc, self)?))
    }
}

// The expression of a value of this kind at this place, if any.
//
// The sets and the records around the value that comes next wait on the heap, so that no depth of a
// value ends the walk.
fn expr_at<X: ExtensionValue + Ord>(
    alloc: Global,
    kind: &ValueKind<X>,
    loc: Option<&Loc>,
) -> Result<Expr, AllocError>
    ensures tree { IfOk result (λ e.
        bare_expr e ≡ value_expr X.canonical (bare_value_kind kind.now)) }
    ensures restricted { IfOk result (λ e. IsRestricted (bare_expr e)) }
    ensures place { IfOk result (λ e. expr_place e ≡ option_copied loc.entry) }
{
    let mut waiting = Vec::new(alloc);
    let mut step = enter_value(alloc, kind, loc)?;
    'walk: loop {
        match step {
            Step::Into(row, value) => {
                waiting.push(row)?;
                step = enter_value(alloc, value.value_kind(), value.source_loc())?;
            }
            Step::Made(expr) => match waiting.pop() {
                Some(row) => step = resume_row(alloc, row, expr)?,
                None => return Ok(expr),
            },
        }
    }
}

// A set that is being written: the expressions of its first members, and the other members.
#[derive(Drop)]
struct SetRow<'a, X> {
    exprs: Vec<Expr>,
    rest: slice::Iter<'a, Value<X>>,
    loc: Option<&'a Loc>,
}

// A record that is being written.
#[derive(Drop)]
struct RecordRow<'a, X> {
    exprs: BTreeMap<RcStr, Expr>,
    rest: btree_map::Iter<'a, RcStr, Value<X>>,
    loc: Option<&'a Loc>,
}

// What waits for the expression of a value inside.
#[derive(Drop)]
enum Waiting<'a, X> {
    // The next member of a set.
    InSet(SetRow<'a, X>),
    // The next value of a record, and its key.
    InRecord(RecordRow<'a, X>, RcStr),
}

// A step of the walk.
#[derive(Drop)]
enum Step<'a, X> {
    // The expression of a value.
    Made(Expr),
    // A value has to be written first, for which this waits.
    Into(Waiting<'a, X>, &'a Value<X>),
}

// Enters a value of this kind at this place.
fn enter_value<'a, X: ExtensionValue + Ord>(
    alloc: Global,
    kind: &'a ValueKind<X>,
    loc: Option<&'a Loc>,
) -> Result<Step<'a, X>, AllocError>
    ensures tree { IfOk result (λ step.
        step_tree X.canonical step ≡ value_expr X.canonical (bare_value_kind kind.now)) }
    ensures place { IfOk result (λ step. step_place step ≡ option_copied loc.entry) }
    ensures is_step { IfOk result IsStep }
    ensures fewer { IfOk result (λ step. step_left step < nodes (bare_value_kind kind.now)) }
{
    match kind {
        ValueKind::Lit(literal) => Ok(Step::Made(literal_at(alloc, literal, loc)?)),
        ValueKind::Set(set) => {
            let members = set.authoritative();
            let exprs = Vec::with_capacity(alloc, members.len())?;
            let rest = members.iter();
            write_members(alloc, SetRow { exprs, rest, loc })
        }
        ValueKind::Record(pairs) => {
            let exprs = BTreeMap::new(alloc);
            let rest = pairs.iter();
            write_pairs(alloc, RecordRow { exprs, rest, loc })
        }
        ValueKind::ExtensionValue(value) => Ok(Step::Made(extension_at(alloc, value, loc)?)),
    }
}

// Resumes what waited for this expression, which is put behind those that it has.
fn resume_row<'a, X: ExtensionValue + Ord>(
    alloc: Global,
    row: Waiting<'a, X>,
    expr: Expr,
) -> Result<Step<'a, X>, AllocError>
    requires is_row { IsRow row }
    requires restricted { IsRestricted (bare_expr expr) }
    ensures tree { IfOk result (λ step.
        step_tree X.canonical step ≡ filled X.canonical row.entry (bare_expr expr)) }
    ensures place { IfOk result (λ step. step_place step ≡ row_place row.entry) }
    ensures is_step { IfOk result IsStep }
    ensures fewer { IfOk result (λ step. step_left step ≤ row_left row.entry) }
{
    match row {
        Waiting::InSet(row) => {
            let mut row = row;
            row.exprs.push(expr)?;
            write_members(alloc, row)
        }
        Waiting::InRecord(row, key) => {
            let mut row = row;
            put_last(&mut row.exprs, key, expr)?;
            write_pairs(alloc, row)
        }
    }
}

// Writes the other members, up to one that has values inside.
fn write_members<'a, X: ExtensionValue + Ord>(
    alloc: Global,
    row: SetRow<'a, X>,
) -> Result<Step<'a, X>, AllocError>
    requires { AreRestricted row.exprs.items }
    ensures tree { IfOk result (λ step.
        step_tree X.canonical step ≡ members_tree X.canonical row.entry) }
    ensures place { IfOk result (λ step. step_place step ≡ option_copied row.entry.loc) }
    ensures is_step { IfOk result IsStep }
    ensures fewer { IfOk result (λ step. step_left step ≤ nodes_of (iter_rest row.entry.rest)) }
{
    let mut row = row;
    'each: while let Some(member) = row.rest.next() {
        match leaf(alloc, member)? {
            // `push` would hand the expression back where it fails, which costs a move.
            Some(expr) => {
                row.exprs.reserve(1)?;
                row.exprs.push_reserved(expr);
            }
            None => return Ok(Step::Into(Waiting::InSet(row), member)),
        }
    }
    let set = Expr::set(alloc, row.exprs)?;
    Ok(Step::Made(at_place(set, Loc::clone_option(alloc, row.loc)?)))
}

// Writes the other values, up to one that has values inside.
fn write_pairs<'a, X: ExtensionValue + Ord>(
    alloc: Global,
    row: RecordRow<'a, X>,
) -> Result<Step<'a, X>, AllocError>
    requires restricted { ArePairsRestricted row.exprs.entries }
    requires ascending { IsAscending (keys_of row.exprs.entries ++ keys_of row.rest) }
    ensures tree { IfOk result (λ step.
        step_tree X.canonical step ≡ pairs_tree X.canonical row.entry) }
    ensures place { IfOk result (λ step. step_place step ≡ option_copied row.entry.loc) }
    ensures is_step { IfOk result IsStep }
    ensures fewer { IfOk result (λ step. step_left step ≤ pair_nodes (bare_pairs row.entry.rest)) }
{
    let mut row = row;
    'each: while let Some((key, value)) = row.rest.next() {
        let key = key.clone()?;
        match leaf(alloc, value)? {
            Some(expr) => put_last(&mut row.exprs, key, expr)?,
            None => return Ok(Step::Into(Waiting::InRecord(row, key), value)),
        }
    }
    let record = Expr::record_arc(Rc::new(alloc, row.exprs)?);
    Ok(Step::Made(at_place(record, Loc::clone_option(alloc, row.loc)?)))
}

// The expression of a value without values inside; none of another value.
#[inline(always)]
fn leaf<X: ExtensionValue + Ord>(
    alloc: Global,
    value: &Value<X>,
) -> Result<Option<Expr>, AllocError>
    ensures tree { IfOk result (λ made. IfSome made (λ e.
        bare_expr e ≡ value_expr X.canonical (bare_value value.now))) }
    ensures restricted { IfOk result (λ made. IfSome made (λ e. IsRestricted (bare_expr e))) }
    ensures place { IfOk result (λ made. IfSome made (λ e. expr_place e ≡ value_place value.now)) }
{
    let loc = value.source_loc();
    match value.value_kind() {
        ValueKind::Lit(literal) => Ok(Some(literal_at(alloc, literal, loc)?)),
        ValueKind::ExtensionValue(value) => Ok(Some(extension_at(alloc, value, loc)?)),
        ValueKind::Set(_) => Ok(None),
        ValueKind::Record(_) => Ok(None),
    }
}

// The expression of a literal, at a place.
#[inline(always)]
fn literal_at(alloc: Global, literal: &Literal, loc: Option<&Loc>) -> Result<Expr, AllocError>
    ensures tree { IfOk result (λ e. bare_expr e ≡ Lit (bare_literal literal.now)) }
    ensures place { IfOk result (λ e. expr_place e ≡ option_copied loc.entry) }
{
    let source_loc = Loc::clone_option(alloc, loc)?;
    let literal = literal.clone(alloc)?;
    let builder = ExprBuilder::new().with_maybe_source_loc(source_loc);
    Ok(builder.with_expr_kind(ExprKind::Lit(literal)))
}

// The expression of an extension value, at a place.
#[inline(never)]
fn extension_at<X: ExtensionValue>(
    alloc: Global,
    value: &RepresentableExtensionValue<X>,
    loc: Option<&Loc>,
) -> Result<Expr, AllocError>
    ensures tree { IfOk result (λ e.
        bare_expr e ≡ value_expr X.canonical (bare_representable value.now)) }
    ensures restricted { IfOk result (λ e. IsRestricted (bare_expr e)) }
    ensures place { IfOk result (λ e. expr_place e ≡ option_copied loc.entry) }
{
    let expr = representation(alloc, value)?;
    Ok(at_place(expr, Loc::clone_option(alloc, loc)?))
}

// The expression at another place.
#[inline(always)]
fn at_place(expr: Expr, loc: Option<Loc>) -> Expr
    ensures tree { bare_expr result ≡ bare_expr expr }
    ensures place { expr_place result ≡ loc }
{
    expr.with_maybe_source_loc(loc)
}

// The call that was given for an extension value, else its canonical one.
#[inline(never)]
fn representation<X: ExtensionValue>(
    alloc: Global,
    value: &RepresentableExtensionValue<X>,
) -> Result<Expr, AllocError>
    ensures tree { IfOk result (λ e.
        bare_expr e ≡ value_expr X.canonical (bare_representable value.now)) }
    ensures restricted { IfOk result (λ e. IsRestricted (bare_expr e)) }
    ensures place { IfOk result (λ e. expr_place e ≡ None) }
{
    match value.given() {
        Some(call) => Ok(expr_of_call(alloc, call)?),
        None => {
            let call = value.value().canonical_repr(alloc)?;
            Ok(expr_of_call(alloc, &call)?)
        }
    }
}

// The call of a function on its arguments.
fn expr_of_call(alloc: Global, call: &(Name, Vec<RestrictedExpr>)) -> Result<Expr, AllocError>
    ensures tree { IfOk result (λ e. bare_expr e ≡ call_expr (bare_call call.now)) }
    ensures restricted { IfOk result (λ e. IsRestricted (bare_expr e)) }
    ensures place { IfOk result (λ e. expr_place e ≡ None) }
{
    let mut args = Vec::with_capacity(alloc, call.1.len())?;
    for arg in &call.1 {
        args.push(arg.as_expr().clone(alloc)?)?;
    }
    Ok(Expr::call_extension_fn(alloc, call.0.clone(alloc)?, args)?)
}
