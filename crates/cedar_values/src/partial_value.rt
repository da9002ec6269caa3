//! What partial evaluation hands on (`partial_value.rs`).
ghost use Rattle.std.specs.Prelude.{◌≡◌, [], IfOk, IsTrue};
ghost use Rattle.std.specs.List.{AllZip, filter_map, list_any};
ghost use Rattle.cedar_builders.specs.Queries.{contains_unknown};
ghost use Rattle.cedar_exprs.specs.BareExpr.{bare_expr, expr_place, unknown_tree};
ghost use Rattle.cedar_exprs.specs.MadeNode.{IsPlain};
ghost use Rattle.cedar_terms.specs.Unknowns.{bare_unknown};
ghost use Rattle.cedar_values.specs.PartialValues.{
  IsExprOf,
  IsMoved,
  IsPartialCopy,
  IsResidualWith,
  IsSplit,
  GivesValue,
  is_residual,
  partial_expr,
  partial_place,
  residual_of,
  value_in,
};

use crate::extension_value::{ExtensionValue, NoExtension};
use crate::value::Value;
use cedar_exprs::Expr;
use cedar_names::Loc;
use cedar_terms::Unknown;
use either::{Either, Left, Right};
use std::alloc::{AllocError, Global};
use std::vec::IntoIter;
use thiserror::Error;

/// What partial evaluation hands on: a value, or a residual.
///
/// Two are equal where both are values that are equal, or both are equal expressions; places do not
/// count.
#[derive(Debug, Drop)]
#[derive_where(PartialEq, Eq; X)]
pub enum PartialValue<X = NoExtension> {
    /// A value.
    Value(Value<X>),
    /// An expression that waits for its unknowns.
    Residual(Expr),
}

impl<X> PartialValue<X> {
    /// The residual that is an unknown alone, at no place.
    pub fn unknown(unknown: Unknown) -> PartialValue<X>
        ensures { IsResidualWith (IsPlain (unknown_tree (bare_unknown unknown)) []) result }
    {
        PartialValue::Residual(Expr::unknown(unknown))
    }

    /// The residual that is an expression in which some position is an unknown.
    pub fn from_expr(expr: Expr) -> PartialValue<X>
        requires { IsTrue (contains_unknown (bare_expr expr)) }
        ensures { result ≡ PartialValue.Residual expr }
    {
        PartialValue::Residual(expr)
    }
}

impl<X: Drop> PartialValue<X> {
    /// The same at another place, or at none. The places inside stay.
    pub fn with_maybe_source_loc(self, loc: Option<Loc>) -> PartialValue<X>
        ensures { IsMoved loc self result }
    {
        match self {
            PartialValue::Value(value) => PartialValue::Value(value.with_maybe_source_loc(loc)),
            PartialValue::Residual(expr) => PartialValue::Residual(expr.with_maybe_source_loc(loc)),
        }
    }

    /// A copy, which shares what is inside.
    pub fn clone(&self, _alloc: Global) -> Result<PartialValue<X>, AllocError>
        ensures { IfOk result (IsPartialCopy self.now) }
    {
        Clone::clone(self)
    }
}

impl<X: Drop> Clone for PartialValue<X> {
    ghost is_clone = { IsPartialCopy };

    fn clone(&self) -> Result<PartialValue<X>, AllocError> {
        match self {
            PartialValue::Value(value) => Ok(PartialValue::Value(Clone::clone(value)?)),
            PartialValue::Residual(expr) => Ok(PartialValue::Residual(Clone::clone(expr)?)),
        }
    }
}

impl<X: ExtensionValue + Ord> PartialValue<X> {
    /// Its expression: that of the value, or the residual.
    pub fn to_expr(&self, alloc: Global) -> Result<Expr, AllocError>
        ensures tree { IfOk result (λ e. bare_expr e ≡ partial_expr X.canonical self.now) }
        ensures place { IfOk result (λ e. expr_place e ≡ partial_place self.now) }
    {
        match self {
            PartialValue::Value(value) => value.to_expr(alloc),
            PartialValue::Residual(expr) => expr.clone(alloc),
        }
    }

    /// Its expression, as `to_expr` gives it; a residual is not copied.
    pub fn into_expr(self, alloc: Global) -> Result<Expr, AllocError>
        ensures { IfOk result (IsExprOf X.canonical self) }
    {
        match self {
            PartialValue::Value(value) => value.to_expr(alloc),
            PartialValue::Residual(expr) => Ok(expr),
        }
    }
}

impl<X> PartialValue<X> {
    // The value, if it is one.
    fn into_value(self) -> Option<Value<X>>
        ensures { result ≡ value_in self }
    {
        match self {
            PartialValue::Value(value) => Some(value),
            PartialValue::Residual(_) => None,
        }
    }

    // Whether it is a residual.
    fn is_residual(&self) -> bool
        ensures { result ≡ is_residual self.now }
    {
        match self {
            PartialValue::Value(_) => false,
            PartialValue::Residual(_) => true,
        }
    }
}

impl<X> From<Value<X>> for PartialValue<X> {
    ghost use Rattle.cedar_values.specs.declared.partial_value.PartialValue.TheVariants as partials;

    ghost from_gives = { λ v p. p ≡ partials.Value v };

    fn from(value: Value<X>) -> PartialValue<X> {
        PartialValue::Value(value)
    }
}

/// Why a partial value is no value.
#[derive(Debug, Clone, PartialEq, Eq, Drop, Error)]
pub enum PartialValueToValueError {
    /// It is a residual.
    #[error(transparent)]
    ContainsUnknown(ContainsUnknown),
}

impl From<ContainsUnknown> for PartialValueToValueError {
    ghost use Rattle.cedar_values.specs.declared.partial_value.PartialValueToValueError.TheVariants as errors;

    ghost from_gives = { λ x e. e ≡ errors.ContainsUnknown x };

    fn from(error: ContainsUnknown) -> PartialValueToValueError {
        PartialValueToValueError::ContainsUnknown(error)
    }
}

/// A partial value is a residual: an expression that waits for its unknowns.
#[derive(Debug, Clone, PartialEq, Eq, Drop, Error)]
#[error("value contains a residual expression")]
pub struct ContainsUnknown {
    residual: Expr,
}

impl ContainsUnknown {
    /// The residual.
    pub fn residual(&self) -> &Expr
        ensures { result.now ≡ residual_of self.now }
    {
        &self.residual
    }
}

impl<X: Drop> TryFrom<PartialValue<X>> for Value<X> {
    type Error = PartialValueToValueError;

    ghost try_from_gives = { GivesValue };

    fn try_from(value: PartialValue<X>) -> Result<Value<X>, PartialValueToValueError> {
        match value {
            PartialValue::Value(value) => Ok(value),
            PartialValue::Residual(residual) => Err(ContainsUnknown { residual }.into()),
        }
    }
}

/// The values where each item is one, else the expressions of all items; either in the order of the
/// items.
///
/// `split` of 1, a residual and 3 gives on the right the expression 1, the residual and the
/// expression 3; of 1 and 3 it gives the two values on the left.
pub fn split<X: ExtensionValue + Ord>(
    alloc: Global,
    items: Vec<PartialValue<X>>,
) -> Result<Either<IntoIter<Value<X>>, IntoIter<Expr>>, AllocError>
    ensures { IfOk result (IsSplit X.canonical items.items) }
{
    if has_residual(&items) {
        let exprs = exprs_of(alloc, items)?;
        Ok(Right(exprs.into_iter()))
    } else {
        let values = values_of(alloc, items)?;
        Ok(Left(values.into_iter()))
    }
}

// Whether one of the items is a residual.
fn has_residual<X>(items: &[PartialValue<X>]) -> bool
    ensures { result ≡ list_any is_residual items.now }
{
    items.iter().any(|item| item.is_residual())
}

// Those of the items that are values.
fn values_of<X: Drop>(
    alloc: Global,
    items: Vec<PartialValue<X>>,
) -> Result<Vec<Value<X>>, AllocError>
    ensures { IfOk result (λ values. values.items ≡ filter_map value_in items.items) }
{
    items
        .into_iter()
        .filter_map(|item| item.into_value())
        .collect(alloc)
}

// The expressions of the items.
fn exprs_of<X: ExtensionValue + Ord>(
    alloc: Global,
    items: Vec<PartialValue<X>>,
) -> Result<Vec<Expr>, AllocError>
    ensures { IfOk result (λ exprs. AllZip (IsExprOf X.canonical) items.items exprs.items) }
{
    let mut exprs = Vec::with_capacity(alloc, items.len())?;
    for item in items {
        exprs.push(item.into_expr(alloc)?)?;
    }
    Ok(exprs)
}
