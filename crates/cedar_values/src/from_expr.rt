//! The value of an expression (`value.rs`).
ghost use Rattle.std.specs.Prelude.{◌≡◌, ◌<◌, ◌≤◌, IsTrue, IfOk, IfSome, MatchResult};
ghost use Rattle.std.specs.Option.{option_copied};
ghost use Rattle.std.specs.Slice.Iter.{iter_rest};
ghost use Rattle.cedar_terms.specs.Literals.{bare_literal};
ghost use Rattle.cedar_builders.specs.Count.{count};
ghost use Rattle.cedar_exprs.specs.BareExpr.{bare_expr, expr_place, kind_of};
ghost use Rattle.semantics_values.specs.BareValue as bare;
ghost use Rattle.semantics_values.specs.Reading.{IsValueOf, is_readable};
ghost use Rattle.cedar_values.specs.BareValues.{bare_value, bare_value_kind, value_place};
ghost use Rattle.cedar_values.specs.NotReadable.{first_not_readable, IsAnswerWhere, IsNotValueAt};
ghost use Rattle.cedar_values.specs.RowsRead.{
  IsNext,
  IsRecordRead,
  IsSetRead,
  IsStepFor,
  expr_nodes,
  pair_nodes,
  row_expr,
  row_left,
  step_left,
};
ghost use Rattle.cedar_values.specs.WellFormed.{kind_well_formed, well_formed};

use crate::extension_value::ExtensionValue;
use crate::not_value::NotValue;
use crate::put_last::put_last;
use crate::set::Set;
use crate::value::{Value, ValueKind};
use cedar_exprs::laws::nodes_in_preorder;
use cedar_exprs::{Expr, ExprKind};
use cedar_names::Loc;
use cedar_terms::Literal;
use semantics_values::laws::{reading_gives_one_value, values_are_ordered};
use std::alloc::{AllocError, Global};
use std::collections::{BTreeMap, btree_map};
use std::rc::{Rc, RcStr};
use std::slice;

impl<X: ExtensionValue + Ord> Value<X> {
    /// The value of an expression of literals, sets and records.
    ///
    /// Each value has the place of its expression, but the members of a set of literals have none.
    pub fn try_from_expr(alloc: Global, expr: Expr) -> Result<Value<X>, NotValue>
        ensures outcome { MatchResult result
            (λ v. IsValueOf X.cmp (bare_expr expr) (bare_value v))
            (IsNotValueAt (first_not_readable expr)) }
        ensures readable { IsAnswerWhere (is_readable (bare_expr expr)) result }
        ensures well_formed { IfOk result (λ v. IsTrue (well_formed X.cmp v)) }
        ensures place { IfOk result (λ v. value_place v ≡ expr_place expr) }
    {
        nodes_in_preorder::<()>();
        reading_gives_one_value::<X>();
        value_of(alloc, &expr)
    }
}

impl<X: ExtensionValue + Ord> ValueKind<X> {
    /// The value of an expression of literals, sets and records, without its place.
    pub fn try_from_expr(alloc: Global, expr: Expr) -> Result<ValueKind<X>, NotValue>
        ensures outcome { MatchResult result
            (λ k. IsValueOf X.cmp (bare_expr expr) (bare_value_kind k))
            (IsNotValueAt (first_not_readable expr)) }
        ensures readable { IsAnswerWhere (is_readable (bare_expr expr)) result }
        ensures well_formed { IfOk result (λ k. IsTrue (kind_well_formed X.cmp k)) }
    {
        nodes_in_preorder::<()>();
        reading_gives_one_value::<X>();
        let value = value_of(alloc, &expr)?;
        Ok(value.into_kind())
    }
}

// The value of an expression, at its place.
//
// The sets and the records around the expression that comes next wait on the heap, so that no depth
// of an expression ends the walk.
fn value_of<X: ExtensionValue + Ord>(alloc: Global, expr: &Expr) -> Result<Value<X>, NotValue>
    ensures outcome { MatchResult result
        (λ v. IsValueOf X.cmp (bare_expr expr.now) (bare_value v))
        (IsNotValueAt (first_not_readable expr.now)) }
    ensures well_formed { IfOk result (λ v. IsTrue (well_formed X.cmp v)) }
    ensures place { IfOk result (λ v. value_place v ≡ expr_place expr.now) }
{
    nodes_in_preorder::<()>();
    reading_gives_one_value::<X>();
    let mut waiting = Vec::new(alloc);
    let mut step = enter_expr(alloc, expr)?;
    'walk: loop {
        match step {
            Step::Into(row, inner) => {
                waiting.push(row)?;
                step = enter_expr(alloc, inner)?;
            }
            Step::Read(value) => match waiting.pop() {
                Some(row) => step = resume_row(alloc, row, value)?,
                None => return Ok(value),
            },
        }
    }
}

// A set that is being read: the values of its first members, and the other members.
#[derive(Drop)]
struct SetRow<'a, X> {
    expr: &'a Expr,
    values: Vec<Value<X>>,
    rest: slice::Iter<'a, Expr>,
}

// A record that is being read.
#[derive(Drop)]
struct RecordRow<'a, X> {
    expr: &'a Expr,
    values: BTreeMap<RcStr, Value<X>>,
    rest: btree_map::Iter<'a, RcStr, Expr>,
}

// What waits for the value of an expression inside.
#[derive(Drop)]
enum Waiting<'a, X> {
    // The next member of a set.
    InSet(SetRow<'a, X>),
    // The next value of a record, and its key.
    InRecord(RecordRow<'a, X>, RcStr),
}

// A step of the walk.
#[derive(Drop)]
enum Step<'a, X> {
    // The value of an expression.
    Read(Value<X>),
    // An expression has to be read first, for which this waits.
    Into(Waiting<'a, X>, &'a Expr),
}

// Enters an expression.
fn enter_expr<'a, X: ExtensionValue + Ord>(
    alloc: Global,
    expr: &'a Expr,
) -> Result<Step<'a, X>, NotValue>
    ensures outcome { MatchResult result (IsStepFor X.cmp expr.now)
        (IsNotValueAt (first_not_readable expr.now)) }
    ensures fewer { IfOk result (λ step. step_left step < count (bare_expr expr.now)) }
{
    nodes_in_preorder::<()>();
    match expr_kind(expr) {
        ExprKind::Lit(literal) => Ok(Step::Read(literal_at(alloc, literal, expr.source_loc())?)),
        ExprKind::Set(members) => {
            let values = Vec::with_capacity(alloc, members.len())?;
            let rest = members.iter();
            Ok(read_members(alloc, SetRow { expr, values, rest })?)
        }
        ExprKind::Record(pairs) => {
            let values = BTreeMap::new(alloc);
            let rest = pairs.iter();
            Ok(read_pairs(alloc, RecordRow { expr, values, rest })?)
        }
        _ => Err(NotValue::NotValue {
            loc: Loc::clone_option(alloc, expr.source_loc())?,
        }),
    }
}

// Resumes what waited for this value, which is put behind those that it has.
fn resume_row<'a, X: ExtensionValue + Ord>(
    alloc: Global,
    row: Waiting<'a, X>,
    value: Value<X>,
) -> Result<Step<'a, X>, AllocError>
    requires { IsNext X.cmp row value }
    ensures step { IfOk result (IsStepFor X.cmp (row_expr row.entry)) }
    ensures fewer { IfOk result (λ step. step_left step ≤ row_left row.entry) }
{
    match row {
        Waiting::InSet(row) => {
            let mut row = row;
            row.values.push(value)?;
            read_members(alloc, row)
        }
        Waiting::InRecord(row, key) => {
            let mut row = row;
            put_last(&mut row.values, key, value)?;
            read_pairs(alloc, row)
        }
    }
}

// Reads the other members, up to one that is no literal.
fn read_members<'a, X: ExtensionValue + Ord>(
    alloc: Global,
    row: SetRow<'a, X>,
) -> Result<Step<'a, X>, AllocError>
    requires { IsSetRead X.cmp row.expr.now row.values.items (iter_rest row.rest) }
    ensures step { IfOk result (IsStepFor X.cmp row.entry.expr.now) }
    ensures fewer { IfOk result (λ step. step_left step ≤ expr_nodes (iter_rest row.entry.rest)) }
{
    values_are_ordered::<X>();
    let mut row = row;
    'each: while let Some(member) = row.rest.next() {
        match leaf(alloc, member)? {
            Some(value) => row.values.push(value)?,
            None => return Ok(Step::Into(Waiting::InSet(row), member)),
        }
    }
    let set = Set::from_values(alloc, row.values)?;
    let loc = Loc::clone_option(alloc, row.expr.source_loc())?;
    Ok(Step::Read(Value::new(ValueKind::Set(set), loc)))
}

// Reads the other values, up to one that is no literal.
fn read_pairs<'a, X: ExtensionValue + Ord>(
    alloc: Global,
    row: RecordRow<'a, X>,
) -> Result<Step<'a, X>, AllocError>
    requires { IsRecordRead X.cmp row.expr.now row.values.entries row.rest }
    ensures step { IfOk result (IsStepFor X.cmp row.entry.expr.now) }
    ensures fewer { IfOk result (λ step. step_left step ≤ pair_nodes row.entry.rest) }
{
    let mut row = row;
    'each: while let Some((key, expr)) = row.rest.next() {
        let key = key.clone()?;
        match leaf(alloc, expr)? {
            Some(value) => put_last(&mut row.values, key, value)?,
            None => return Ok(Step::Into(Waiting::InRecord(row, key), expr)),
        }
    }
    let record = Rc::new(alloc, row.values)?;
    let loc = Loc::clone_option(alloc, row.expr.source_loc())?;
    Ok(Step::Read(Value::record_arc(record, loc)))
}

// The value of a literal; none of another expression.
#[inline(always)]
fn leaf<X: ExtensionValue + Ord>(alloc: Global, expr: &Expr) -> Result<Option<Value<X>>, AllocError>
    ensures read { IfOk result (λ made. IfSome made (λ v.
        IsValueOf X.cmp (bare_expr expr.now) (bare_value v))) }
    ensures well_formed { IfOk result (λ made. IfSome made (λ v. IsTrue (well_formed X.cmp v))) }
{
    match expr_kind(expr) {
        ExprKind::Lit(literal) => Ok(Some(literal_at(alloc, literal, expr.source_loc())?)),
        _ => Ok(None),
    }
}

// The value of a literal, at a place.
#[inline(always)]
fn literal_at<X: ExtensionValue + Ord>(
    alloc: Global,
    literal: &Literal,
    loc: Option<&Loc>,
) -> Result<Value<X>, AllocError>
    ensures tree { IfOk result (λ v. bare_value v ≡ bare.LitValue (bare_literal literal.now)) }
    ensures well_formed { IfOk result (λ v. IsTrue (well_formed X.cmp v)) }
    ensures place { IfOk result (λ v. value_place v ≡ option_copied loc.entry) }
{
    let kind = ValueKind::Lit(literal.clone(alloc)?);
    Ok(Value::new(kind, Loc::clone_option(alloc, loc)?))
}

// The kind of an expression without data.
fn expr_kind(expr: &Expr) -> &ExprKind
    ensures { result.now ≡ kind_of expr.now }
{
    expr.expr_kind()
}
