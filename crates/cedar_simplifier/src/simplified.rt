//! What the simplifier makes of an expression.
ghost use Rattle.std.specs.Prelude.{◌≡◌, IsTrue, is_some};
ghost use Rattle.cedar_terms.specs.Literals.{bare_literal};
ghost use Rattle.cedar_exprs.specs.BareExpr.{bare_expr};
ghost use Rattle.cedar_simplifier.specs.Kept.{is_kept};

use crate::boolean::is_boolean_kind;
use crate::kind::Kind;
use crate::tree::Tree;
use cedar_evaluator::operations::{as_bool, literal_value};
use cedar_exprs::Expr;
use cedar_terms::Literal;
use cedar_values::{ExtensionValue, NoExtension, Value};
use std::alloc::{AllocError, Global};

/// What an expression is simplified to: a well formed value that is known, whatever unknowns are
/// bound to, or a residual expression.
///
/// ```rust
/// fn is_allowed(simplified: &Simplified) -> bool {
///     match simplified.as_value() {
///         Some(value) => matches!(value.try_as_lit(), Some(Literal::Bool(true))),
///         None => false,
///     }
/// }
/// ```
#[derive(Debug, Drop)]
pub struct Simplified<X: Ord = NoExtension> {
    kind: Kind<X>,
    ghost kept: { IsTrue (is_kept X.cmp kind) },
}

impl<X: Ord + Drop> Simplified<X> {
    ghost use Rattle.std.specs.Prelude.{IfSome, option_map};
    ghost use Rattle.cedar_values.specs.BareValues.{bare_value};
    ghost use Rattle.cedar_values.specs.WellFormed.{well_formed};
    ghost use Rattle.semantics_values.specs.BareValue.{LitValue};
    ghost use Rattle.semantics_simplify.specs.Simplified as meant;
    ghost use Rattle.cedar_simplifier.specs.Simplified.{
      bare_tree,
      held_value,
      known_value,
      meaning_of,
    };

    /// A well formed value, which is known.
    pub fn known(value: Value<X>) -> Simplified<X>
        requires { IsTrue (well_formed X.cmp value) }
        ensures { meaning_of result ≡ meant.Known (bare_value value) }
    {
        Simplified {
            kind: Kind::Known(value),
        }
    }

    /// A literal, which is known.
    pub fn lit(literal: Literal) -> Simplified<X>
        ensures { meaning_of result ≡ meant.Known (LitValue (bare_literal literal)) }
    {
        Simplified {
            kind: Kind::Known(literal_value(literal)),
        }
    }

    /// The value, if it is known.
    pub fn as_value(&self) -> Option<&Value<X>>
        ensures value { option_map (λ v. bare_value v.now) result
            ≡ known_value (meaning_of self.now) }
        ensures well_formed { IfSome result (λ v. IsTrue (well_formed X.cmp v.now)) }
    {
        match &self.kind {
            Kind::Known(value) => Some(value),
            Kind::Residual(_) => None,
        }
    }

    /// The value, if it is known, of what is consumed.
    pub fn into_value(self) -> Option<Value<X>>
        ensures same { result ≡ held_value self }
        ensures value { option_map bare_value result ≡ known_value (meaning_of self) }
        ensures well_formed { IfSome result (λ v. IsTrue (well_formed X.cmp v)) }
    {
        let kind = self.kind;
        match kind {
            Kind::Known(value) => Some(value),
            Kind::Residual(_) => None,
        }
    }

    /// Whether the value is known.
    pub fn is_known(&self) -> bool
        ensures { result ≡ is_some (known_value (meaning_of self.now)) }
    {
        match &self.kind {
            Kind::Known(_) => true,
            Kind::Residual(_) => false,
        }
    }

    // A residual.
    pub(crate) fn residual(tree: Tree) -> Simplified<X>
        ensures { meaning_of result ≡ meant.Residual (bare_tree tree) }
    {
        Simplified {
            kind: Kind::Residual(tree),
        }
    }

    // The Boolean that is known, if any.
    pub(crate) fn truth(&self) -> Option<bool>
        ensures { result ≡ meant.known_truth (meaning_of self.now) }
    {
        match &self.kind {
            Kind::Known(value) => as_bool(value),
            Kind::Residual(_) => None,
        }
    }

    // Whether it is known, or holds no call.
    pub(crate) fn calls_nothing(&self) -> bool
        ensures { result ≡ meant.calls_nothing (meaning_of self.now) }
    {
        match &self.kind {
            Kind::Known(_) => true,
            Kind::Residual(tree) => tree.calls_nothing(),
        }
    }

    // Whether it can only be a Boolean or a fault.
    pub(crate) fn is_boolean(&self) -> bool
        ensures { result ≡ meant.is_boolean (meaning_of self.now) }
    {
        match &self.kind {
            Kind::Known(value) => as_bool(value).is_some(),
            Kind::Residual(tree) => is_boolean_kind(tree.expr()),
        }
    }
}

impl<X: ExtensionValue + Ord> Simplified<X> {
    ghost use Rattle.std.specs.Prelude.{IfOk};
    ghost use Rattle.semantics_simplify.specs.Simplified.{tree_of};
    ghost use Rattle.cedar_simplifier.specs.Simplified.{bare_tree, meaning_of};

    /// The residual, or the expression of the known value.
    pub fn into_expr(self, alloc: Global) -> Result<Expr, AllocError>
        ensures { IfOk result (λ e. bare_expr e ≡ tree_of X.canonical (meaning_of self)) }
    {
        Ok(self.into_tree(alloc)?.into_expr())
    }

    // The same, with whether it holds a call.
    pub(crate) fn into_tree(self, alloc: Global) -> Result<Tree, AllocError>
        ensures { IfOk result (λ t. bare_tree t ≡ tree_of X.canonical (meaning_of self)) }
    {
        let kind = self.kind;
        match kind {
            Kind::Known(value) => Tree::of_value(alloc, &value),
            Kind::Residual(tree) => Ok(tree),
        }
    }
}
