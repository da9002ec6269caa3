//! Expressions of literals, unknowns, sets, records and calls, and the values that unknowns are
//! bound to.
ghost use Rattle.std.specs.Prelude.{◌≡◌, ⊤, IfOk, MatchResult, IsOk, ◌↔◌, map};
ghost use Rattle.cedar_names.specs.PlainNames.{bare_name};
ghost use Rattle.cedar_terms.specs.Literals.{bare_literal};
ghost use Rattle.cedar_terms.specs.Types.{BareType, bare_type, literal_type};
ghost use Rattle.cedar_builders.specs.BareExpr.{BareExpr, ExtensionFunctionApp, Lit, trees_of};
ghost use Rattle.cedar_builders.specs.Restricted.{IsRestricted};
ghost use Rattle.cedar_exprs.specs.BareExpr.{bare_expr};

use crate::expr::Expr;
use crate::walks::not_restricted::first_not_restricted;
use cedar_names::{Loc, Name};
use cedar_terms::{Literal, StaticallyTyped, Type};
use std::alloc::{AllocError, Global};
use std::fmt;
use thiserror::Error;

/// An expression in which each node is a literal, an unknown, a set, a record or a call
/// (`RestrictedExpr` of `restricted_expr.rs`). These are the expressions that a value may have.
#[derive(PartialEq, Eq, Hash, Drop)]
pub struct RestrictedExpr {
    expr: Expr,
    ghost restricted: { IsRestricted (bare_expr expr) },
}

impl RestrictedExpr {
    ghost use Rattle.cedar_exprs.specs.MadeNode.{IsPlain};
    ghost use Rattle.cedar_exprs.specs.RestrictedExprs.{expr_of, bare_restricted_expr};
    ghost use Rattle.cedar_exprs.specs.NotRestricted.{first_not_restricted, IsRefusalOf};

    /// The same expression, known to be restricted. Memory is taken for the walk alone. Where that
    /// is refused memory, it begins again, by recursion.
    pub fn new(alloc: Global, expr: Expr) -> Result<RestrictedExpr, RestrictedExprError>
        ensures outcome { MatchResult result
            (λ r. expr_of r ≡ expr) (IsRefusalOf (first_not_restricted expr)) }
        ensures succeeds { IsOk result ↔ IsRestricted (bare_expr expr) }
    {
        match first_not_restricted(alloc, &expr) {
            Some(node) => Err(RestrictedExprError::NotRestricted {
                loc: Loc::clone_option(alloc, node.source_loc())?,
            }),
            None => Ok(RestrictedExpr { expr }),
        }
    }

    /// The same expression, where the caller knows that it is restricted: it is not walked.
    pub fn new_unchecked(expr: Expr) -> RestrictedExpr
        requires { IsRestricted (bare_expr expr) }
        ensures { expr_of result ≡ expr }
    {
        RestrictedExpr { expr }
    }

    /// The expression.
    pub fn as_expr(&self) -> &Expr
        ensures same { result.now ≡ expr_of self.now }
        ensures restricted { IsRestricted (bare_expr result.now) }
    {
        &self.expr
    }

    // The expression of one that is consumed.
    pub(crate) fn into_expr(self) -> Expr
        ensures same { result ≡ expr_of self }
        ensures restricted { IsRestricted (bare_expr result) }
    {
        self.expr
    }

    /// The call of an extension function.
    pub fn call_extension_fn(
        alloc: Global,
        fn_name: Name,
        args: Vec<RestrictedExpr>,
    ) -> Result<RestrictedExpr, AllocError>
        ensures { IfOk result (λ r. IsPlain (ExtensionFunctionApp (bare_name fn_name)
            (trees_of (map bare_restricted_expr args.items))) (map expr_of args.items)
            (expr_of r)) }
    {
        let exprs = RestrictedExpr::exprs_of(alloc, args)?;
        let expr = Expr::call_extension_fn(alloc, fn_name, exprs)?;
        Ok(RestrictedExpr { expr })
    }

    // The expressions of those that are consumed.
    fn exprs_of(alloc: Global, restricted: Vec<RestrictedExpr>) -> Result<Vec<Expr>, AllocError>
        ensures { IfOk result (λ es. es.items ≡ map expr_of restricted.items) }
    {
        restricted.into_iter().map(|r| r.into_expr()).collect(alloc)
    }

    // The literal.
    pub(crate) fn of_literal(literal: Literal) -> RestrictedExpr
        ensures { bare_restricted_expr result ≡ Lit (bare_literal literal) }
    {
        RestrictedExpr {
            expr: Expr::val(literal),
        }
    }
}

/// A copy, which shares what is below the outermost node.
impl Clone for RestrictedExpr {
    ghost use Rattle.cedar_exprs.specs.Copies.{IsCopy};
    ghost use Rattle.cedar_exprs.specs.RestrictedExprs.{expr_of};

    ghost is_clone = { λ r copy. IsCopy (λ _ _. ⊤) (expr_of r) (expr_of copy) };

    fn clone(&self) -> Result<RestrictedExpr, AllocError> {
        let expr = Clone::clone(&self.expr)?;
        Ok(RestrictedExpr { expr })
    }
}

impl fmt::Debug for RestrictedExpr {
    fn fmt<W: fmt::Write>(&self, f: &mut fmt::Formatter<W>) -> fmt::Result {
        f.debug_tuple("RestrictedExpr").field(&self.expr).finish()
    }
}

impl From<RestrictedExpr> for Expr {
    ghost use Rattle.cedar_exprs.specs.RestrictedExprs.{expr_of};

    ghost from_gives = { λ r e. e ≡ expr_of r };

    fn from(restricted: RestrictedExpr) -> Expr {
        restricted.into_expr()
    }
}

/// A value that may take an unknown's place.
pub trait SubstituteValue {
    ghost use Rattle.cedar_exprs.specs.RestrictedExprs.{bare_restricted_expr};

    // The type of the value.
    ghost bare_type_of: { Self → BareType };

    // The bare tree of the value.
    ghost bare_expr_of: { Self → BareExpr };

    /// The type of the value.
    fn value_type(&self, alloc: Global) -> Result<Type, AllocError>
        ensures { IfOk result (λ ty. bare_type ty ≡ bare_type_of self.now) };

    /// The expression of the value, with the value's places.
    fn value_expr(&self, alloc: Global) -> Result<RestrictedExpr, AllocError>
        ensures { IfOk result (λ r. bare_restricted_expr r ≡ bare_expr_of self.now) };
}

impl SubstituteValue for Literal {
    ghost bare_type_of = { λ literal. literal_type (bare_literal literal) };

    ghost bare_expr_of = { λ literal. Lit (bare_literal literal) };

    fn value_type(&self, alloc: Global) -> Result<Type, AllocError> {
        self.type_of(alloc)
    }

    fn value_expr(&self, alloc: Global) -> Result<RestrictedExpr, AllocError> {
        Ok(RestrictedExpr::of_literal(self.clone(alloc)?))
    }
}

/// Why an expression is not restricted.
#[derive(Debug, Clone, PartialEq, Eq, Drop, Error)]
pub enum RestrictedExprError {
    /// A node is no literal, unknown, set, record or call. The place, if known, is that of the
    /// first such node, where each node comes before its children and the values of a record come
    /// in the order of their keys.
    #[error("not a restricted expression")]
    NotRestricted { loc: Option<Loc> },
    /// There is such a node, and its place is shared as often as can be counted.
    #[error("no memory")]
    Memory,
}

impl From<AllocError> for RestrictedExprError {
    ghost use Rattle.cedar_exprs.specs.declared.restricted_expr.RestrictedExprError.TheVariants.{Memory};

    ghost from_gives = { λ _ e. e ≡ Memory };

    fn from(_: AllocError) -> RestrictedExprError {
        RestrictedExprError::Memory
    }
}
