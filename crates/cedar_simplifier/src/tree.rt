//! Residuals.
//!
//! Whether an expression holds a call is known where it is made, so nothing looks for calls.
ghost use Rattle.std.specs.Prelude.{◌≡◌};
ghost use Rattle.cedar_exprs.specs.BareExpr.{bare_expr};
ghost use Rattle.semantics_simplify.specs.Asks.{holds_no_call};

use crate::children::{Children, Fields};
use cedar_builders::laws::pairs_in_key_order;
use cedar_builders::{ExprBuilder as _, ExpressionConstructionError};
use cedar_exprs::{Expr, ExprBuilder, ExprKind};
use cedar_names::{Loc, Name, NonEmpty, SlotId};
use cedar_terms::{BinaryOp, EntityType, Pattern, UnaryOp, Unknown, Var};
use cedar_values::{ExtensionValue, Value};
use semantics_simplify::laws::asks_by_children;
use std::alloc::{AllocError, Global};
use std::rc::{Rc, RcStr};

// An expression, and whether no position of it is a call.
#[derive(Debug, Drop)]
pub(crate) struct Tree {
    expr: Expr,
    calls_nothing: bool,
    ghost kept: { calls_nothing ≡ holds_no_call (bare_expr expr) },
}

impl Tree {
    ghost use Rattle.std.specs.Prelude.{IfOk, IfErr, map};
    ghost use Rattle.std.specs.Rc.{rc_str_bytes};
    ghost use Rattle.cedar_names.specs.PlainNames.{bare_name};
    ghost use Rattle.cedar_terms.specs.Entities.{bare_entity_type};
    ghost use Rattle.cedar_terms.specs.Unknowns.{bare_unknown};
    ghost use Rattle.cedar_builders.specs.BareExpr.{
      And,
      BinaryApp,
      ExtensionFunctionApp,
      GetAttr,
      HasAttr,
      If,
      Is,
      Like,
      Or,
      Record,
      Set,
      Slot,
      UnaryApp,
      Unknown as unknown_tree,
      Var as var_tree,
      fields_of,
    };
    ghost use Rattle.cedar_builders.specs.Keys.{HasRepeat, IsAscending, keys_of, meant_pairs};
    ghost use Rattle.cedar_builders.specs.Errors.{OnDuplicateKey};
    ghost use Rattle.cedar_builders.specs.declared.expression_construction_errors.ExpressionConstructionError.TheVariants as error;
    ghost use Rattle.cedar_exprs.specs.BareExpr.{bare_exprs};
    ghost use Rattle.cedar_values.specs.BareValues.{bare_value};
    ghost use Rattle.semantics_values.specs.ValueExpr.{value_expr};
    ghost use Rattle.cedar_simplifier.specs.Simplified.{bare_tree};

    // The expression.
    pub(crate) fn expr(&self) -> &Expr
        ensures { bare_expr result.now ≡ bare_tree self.now }
    {
        &self.expr
    }

    // The expression, by itself.
    pub(crate) fn into_expr(self) -> Expr
        ensures { bare_expr result ≡ bare_tree self }
    {
        self.expr
    }

    // Whether no position of it is a call.
    pub(crate) fn calls_nothing(&self) -> bool
        ensures { result ≡ holds_no_call (bare_tree self.now) }
    {
        self.calls_nothing
    }

    // The same expression with this place, or with none.
    pub(crate) fn at(self, place: Option<Loc>) -> Tree
        ensures { bare_tree result ≡ bare_tree self }
    {
        Tree {
            expr: self.expr.with_maybe_source_loc(place),
            calls_nothing: self.calls_nothing,
        }
    }

    // A variable of the request.
    pub(crate) fn var(var: Var) -> Tree
        ensures { bare_tree result ≡ var_tree var }
    {
        Tree {
            expr: Expr::var(var),
            calls_nothing: true,
        }
    }

    // A slot of a template.
    pub(crate) fn slot(slot: SlotId) -> Tree
        ensures { bare_tree result ≡ Slot slot }
    {
        Tree {
            expr: Expr::slot(slot),
            calls_nothing: true,
        }
    }

    // A value that is not known yet.
    pub(crate) fn unknown(unknown: Unknown) -> Tree
        ensures { bare_tree result
            ≡ unknown_tree (bare_unknown unknown).name (bare_unknown unknown).annotation }
    {
        Tree {
            expr: Expr::unknown(unknown),
            calls_nothing: true,
        }
    }

    // The expression of a value: it holds a call where an extension value is inside.
    pub(crate) fn of_value<X: ExtensionValue + Ord>(
        alloc: Global,
        value: &Value<X>,
    ) -> Result<Tree, AllocError>
        ensures { IfOk result (λ t. bare_tree t ≡ value_expr X.canonical (bare_value value.now)) }
    {
        asks_by_children();
        let expr = value.to_expr(alloc)?;
        let holds_call = value.holds_extension(alloc)?;
        Ok(Tree {
            expr,
            calls_nothing: !holds_call,
        })
    }

    // The second where the first holds, else the third.
    pub(crate) fn ite(
        alloc: Global,
        test: Tree,
        then: Tree,
        other: Tree,
    ) -> Result<Tree, AllocError>
        ensures { IfOk result (λ t.
            bare_tree t ≡ If (bare_tree test) (bare_tree then) (bare_tree other)) }
    {
        asks_by_children();
        let expr = Expr::ite(alloc, test.expr, then.expr, other.expr)?;
        Ok(Tree {
            expr,
            calls_nothing: test.calls_nothing && then.calls_nothing && other.calls_nothing,
        })
    }

    // The conjunction, as it stands.
    pub(crate) fn and(alloc: Global, left: Tree, right: Tree) -> Result<Tree, AllocError>
        ensures { IfOk result (λ t. bare_tree t ≡ And (bare_tree left) (bare_tree right)) }
    {
        asks_by_children();
        let kind = ExprKind::And {
            left: Rc::new(alloc, left.expr)?,
            right: Rc::new(alloc, right.expr)?,
        };
        Ok(Tree {
            expr: ExprBuilder::new().with_expr_kind(kind),
            calls_nothing: left.calls_nothing && right.calls_nothing,
        })
    }

    // The disjunction, as it stands.
    pub(crate) fn or(alloc: Global, left: Tree, right: Tree) -> Result<Tree, AllocError>
        ensures { IfOk result (λ t. bare_tree t ≡ Or (bare_tree left) (bare_tree right)) }
    {
        asks_by_children();
        let kind = ExprKind::Or {
            left: Rc::new(alloc, left.expr)?,
            right: Rc::new(alloc, right.expr)?,
        };
        Ok(Tree {
            expr: ExprBuilder::new().with_expr_kind(kind),
            calls_nothing: left.calls_nothing && right.calls_nothing,
        })
    }

    // An operator on one argument.
    pub(crate) fn unary(alloc: Global, op: UnaryOp, arg: Tree) -> Result<Tree, AllocError>
        ensures { IfOk result (λ t. bare_tree t ≡ UnaryApp op (bare_tree arg)) }
    {
        asks_by_children();
        let expr = Expr::unary_app(alloc, op, arg.expr)?;
        Ok(Tree {
            expr,
            calls_nothing: arg.calls_nothing,
        })
    }

    // An operator on two arguments.
    pub(crate) fn binary(
        alloc: Global,
        op: BinaryOp,
        left: Tree,
        right: Tree,
    ) -> Result<Tree, AllocError>
        ensures { IfOk result (λ t.
            bare_tree t ≡ BinaryApp op (bare_tree left) (bare_tree right)) }
    {
        asks_by_children();
        let expr = Expr::binary_app(alloc, op, left.expr, right.expr)?;
        Ok(Tree {
            expr,
            calls_nothing: left.calls_nothing && right.calls_nothing,
        })
    }

    // A call of an extension function.
    pub(crate) fn call(alloc: Global, func: Name, args: Children) -> Result<Tree, AllocError>
        ensures { IfOk result (λ t.
            bare_tree t ≡ ExtensionFunctionApp (bare_name func) (bare_exprs args.exprs.items)) }
    {
        asks_by_children();
        let expr = Expr::call_extension_fn(alloc, func, args.exprs)?;
        Ok(Tree {
            expr,
            calls_nothing: false,
        })
    }

    // An attribute.
    pub(crate) fn get(alloc: Global, arg: Tree, attr: RcStr) -> Result<Tree, AllocError>
        ensures { IfOk result (λ t.
            bare_tree t ≡ GetAttr (bare_tree arg) (rc_str_bytes attr)) }
    {
        asks_by_children();
        let expr = Expr::get_attr(alloc, arg.expr, attr)?;
        Ok(Tree {
            expr,
            calls_nothing: arg.calls_nothing,
        })
    }

    // Whether each attribute is there in turn.
    pub(crate) fn has(alloc: Global, arg: Tree, attrs: NonEmpty<RcStr>) -> Result<Tree, AllocError>
        ensures { IfOk result (λ t. bare_tree t
            ≡ HasAttr (bare_tree arg) (rc_str_bytes attrs.head)
            (map rc_str_bytes attrs.tail.items)) }
    {
        asks_by_children();
        let expr = Expr::extended_has_attr(alloc, arg.expr, attrs)?;
        Ok(Tree {
            expr,
            calls_nothing: arg.calls_nothing,
        })
    }

    // Whether the pattern matches the text.
    pub(crate) fn like(alloc: Global, arg: Tree, pattern: Pattern) -> Result<Tree, AllocError>
        ensures { IfOk result (λ t. bare_tree t ≡ Like (bare_tree arg) pattern) }
    {
        asks_by_children();
        let expr = Expr::like(alloc, arg.expr, pattern)?;
        Ok(Tree {
            expr,
            calls_nothing: arg.calls_nothing,
        })
    }

    // Whether the entity is of the type.
    pub(crate) fn is_of_type(alloc: Global, arg: Tree, ty: EntityType) -> Result<Tree, AllocError>
        ensures { IfOk result (λ t. bare_tree t ≡ Is (bare_tree arg) (bare_entity_type ty)) }
    {
        asks_by_children();
        let expr = Expr::is_entity_type(alloc, arg.expr, ty)?;
        Ok(Tree {
            expr,
            calls_nothing: arg.calls_nothing,
        })
    }

    // A set by its members.
    pub(crate) fn set(alloc: Global, members: Children) -> Result<Tree, AllocError>
        ensures { IfOk result (λ t. bare_tree t ≡ Set (bare_exprs members.exprs.items)) }
    {
        asks_by_children();
        let calls_nothing = members.calls_nothing;
        let expr = Expr::set(alloc, members.exprs)?;
        Ok(Tree {
            expr,
            calls_nothing,
        })
    }

    // A record by its keys and values.
    pub(crate) fn record(alloc: Global, fields: Fields) -> Result<Tree, ExpressionConstructionError>
        ensures tree { IsAscending (keys_of fields.pairs.items) → IfOk result (λ t.
            bare_tree t ≡ Record (fields_of (meant_pairs bare_expr fields.pairs.items))) }
        ensures accepts { IsAscending (keys_of fields.pairs.items)
            → IfErr result (λ e. e ≡ error.Memory) }
        ensures refuses { IfErr result
            (OnDuplicateKey (λ _. HasRepeat (keys_of fields.pairs.items))) }
    {
        asks_by_children();
        let calls_nothing = fields.calls_nothing;
        pairs_in_key_order(&fields.pairs);
        let expr = ExprBuilder::new().record(alloc, fields.pairs)?;
        Ok(Tree {
            expr,
            calls_nothing,
        })
    }
}
