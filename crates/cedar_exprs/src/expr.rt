//! Expression trees.
ghost use Rattle.std.specs.Prelude.{◌≡◌, [], IsTrue, IfOk};
ghost use Rattle.std.specs.Option.{option_copied};
ghost use Rattle.cedar_terms.specs.Literals.{bare_literal};
ghost use Rattle.cedar_builders.specs.Trees.{bool_of, literal_bool};
ghost use Rattle.cedar_builders.specs.Walks as bare;
ghost use Rattle.cedar_exprs.specs.BareExpr.{bare_expr, bare_expr_kind, kind_of, expr_place};
ghost use Rattle.cedar_exprs.specs.BareExpr.{data_of};
ghost use Rattle.cedar_exprs.specs.Copies.{IsCopy};
ghost use Rattle.cedar_exprs.specs.ExprData.{data_tree, kind_data};
ghost use Rattle.cedar_exprs.specs.Steps.{is_leaf};
ghost use Rattle.cedar_exprs.specs.Walks.{children, kind_children};

use crate::drop::dropping::drop_kind;
use cedar_names::{Loc, Name, NonEmpty, SlotId};
use cedar_terms::{BinaryOp, EntityType, Literal, Pattern, UnaryOp, Unknown, Var};
use std::alloc::{AllocError, Global};
use std::collections::BTreeMap;
use std::rc::{Rc, RcStr};

/// The kind of an expression. Match on it to walk over a tree.
pub type ExprKind<T = ()> = KindOf<Expr<T>>;

/// The kinds of expressions, over children of any type: `ExprKind` has expressions there.
#[derive(Debug, PartialEq, Eq, Hash, Drop)]
#[derive_where(Clone; E: Drop)]
pub enum KindOf<E> {
    /// A literal.
    Lit(Literal),
    /// A variable of the request.
    Var(Var),
    /// A slot of a template.
    Slot(SlotId),
    /// A value that is not known yet.
    Unknown(Unknown),
    /// The second where the first holds, else the third.
    If {
        test_expr: Rc<E>,
        then_expr: Rc<E>,
        else_expr: Rc<E>,
    },
    /// Both sides hold; the right one counts only where the left one holds.
    And {
        left: Rc<E>,
        right: Rc<E>,
    },
    /// Either side holds; the right one counts only where the left one does not hold.
    Or {
        left: Rc<E>,
        right: Rc<E>,
    },
    /// An operator on one argument.
    UnaryApp {
        op: UnaryOp,
        arg: Rc<E>,
    },
    /// An operator on two arguments.
    BinaryApp {
        op: BinaryOp,
        arg1: Rc<E>,
        arg2: Rc<E>,
    },
    /// A call of an extension function.
    ExtensionFunctionApp {
        fn_name: Name,
        args: Rc<Vec<E>>,
    },
    /// An attribute of an entity or a field of a record.
    GetAttr {
        expr: Rc<E>,
        attr: RcStr,
    },
    /// Whether an entity has an attribute, or a record a field; with more than one of them, whether
    /// the first is there, and in it the second, and so on.
    HasAttr {
        expr: Rc<E>,
        attrs: NonEmpty<RcStr>,
    },
    /// Whether a text matches a pattern.
    Like {
        expr: Rc<E>,
        pattern: Pattern,
    },
    /// A set by its members, in the order in which they were written.
    Set(Rc<Vec<E>>),
    /// A record by its keys and values.
    Record(Rc<BTreeMap<RcStr, E>>),
    /// Whether an entity has a type.
    Is {
        expr: Rc<E>,
        entity_type: EntityType,
    },
}

/// An expression: its kind, the place where it was written, if known, and data of the caller's type
/// on each node.
///
/// Equality and hash see the kind and the data, and no place.
#[derive(Debug)]
#[derive_where(PartialEq, Eq, Hash; T)]
pub struct Expr<T = ()> {
    pub(crate) expr_kind: ExprKind<T>,
    #[derive_where(skip(EqHashOrd))]
    source_loc: Option<Loc>,
    data: T,
}

impl<T: Drop> Drop for Expr<T> {
    fn drop(self) {
        drop_kind(self.into_parts().0);
    }
}

impl<T> Expr<T> {
    pub(crate) fn new(expr_kind: ExprKind<T>, source_loc: Option<Loc>, data: T) -> Expr<T>
        ensures kind { kind_of result ≡ expr_kind }
        ensures place { expr_place result ≡ source_loc }
        ensures of_node { data_of result ≡ «data» }
    {
        Expr {
            expr_kind,
            source_loc,
            data,
        }
    }

    /// The kind, with the children.
    pub fn expr_kind(&self) -> &ExprKind<T>
        ensures { result.now ≡ kind_of self.now }
    {
        &self.expr_kind
    }

    /// The kind, with the children, of a consumed expression.
    pub fn into_expr_kind(self) -> ExprKind<T>
    where
        T: Drop,
        ensures { result ≡ kind_of self }
    {
        self.into_parts().0
    }

    // Whether nothing stands below it.
    pub(crate) fn is_leaf(&self) -> bool
        ensures kind { result ≡ is_leaf (kind_of self.now) }
        ensures childless { IsTrue result → bare.children (bare_expr self.now) ≡ [] }
    {
        matches!(
            &self.expr_kind,
            ExprKind::Lit(_) | ExprKind::Var(_) | ExprKind::Slot(_) | ExprKind::Unknown(_)
        )
    }

    // The Boolean that the expression is a literal of.
    pub(crate) fn as_bool(&self) -> Option<bool>
        ensures { result ≡ bool_of (bare_expr self.now) }
    {
        match &self.expr_kind {
            ExprKind::Lit(literal) => literal_bool(literal),
            _ => None,
        }
    }

    /// The data of the outermost node.
    pub fn data(&self) -> &T
        ensures { result.now ≡ data_of self.now }
    {
        &self.data
    }

    /// The data of the outermost node of a consumed expression.
    pub fn into_data(self) -> T
    where
        T: Drop,
        ensures { result ≡ data_of self }
    {
        let (expr_kind, _, data) = self.into_parts();
        drop_kind(expr_kind);
        data
    }

    /// The kind, the place and the data of the outermost node.
    pub fn into_parts(self) -> (ExprKind<T>, Option<Loc>, T)
        ensures kind { result.0 ≡ kind_of self }
        ensures place { result.1 ≡ expr_place self }
        ensures of_node { result.2 ≡ data_of self }
    {
        let Expr {
            expr_kind,
            source_loc,
            data,
        } = self;
        (expr_kind, source_loc, data)
    }

    /// The place of the outermost node, if it is known.
    pub fn source_loc(&self) -> Option<&Loc>
        ensures { option_copied result ≡ expr_place self.now }
    {
        self.source_loc.as_ref()
    }

    /// The expression with this place, or none, on its outermost node; the places inside stay.
    pub fn with_maybe_source_loc(self, source_loc: Option<Loc>) -> Expr<T>
        ensures kind { kind_of result ≡ kind_of self }
        ensures place { expr_place result ≡ source_loc }
        ensures of_node { data_of result ≡ data_of self }
    {
        let mut expr = self;
        expr.source_loc = source_loc;
        expr
    }

    /// Replaces the data of the outermost node.
    pub fn set_data(&mut self, data: T)
    where
        T: Drop,
        ensures kind { kind_of self.new ≡ kind_of self.old }
        ensures place { expr_place self.new ≡ expr_place self.old }
        ensures of_node { data_of self.new ≡ «data» }
    {
        self.data = data;
    }
}

/// A copy, which shares the children; its data are a copy of the data.
impl<T: Clone> Clone for Expr<T> {
    ghost is_clone = { IsCopy T.is_clone };

    fn clone(&self) -> Result<Expr<T>, AllocError> {
        self.copy_with(self.data.clone()?)
    }
}

impl<T: Copy> Expr<T> {
    /// A copy, which shares the children.
    #[inline(always)]
    pub fn clone(&self, _alloc: Global) -> Result<Expr<T>, AllocError>
        ensures tree { IfOk result (λ e. bare_expr e ≡ bare_expr self.now) }
        ensures place { IfOk result (λ e. expr_place e ≡ expr_place self.now) }
        ensures children { IfOk result (λ e. children e ≡ children self.now) }
        ensures at_each_position { IfOk result (λ e. data_tree e ≡ data_tree self.now) }
    {
        self.copy_with(self.data)
    }
}

impl<T: Drop> Expr<T> {
    // A copy with these data, which shares the children.
    #[inline(always)]
    fn copy_with(&self, data: T) -> Result<Expr<T>, AllocError>
        ensures copy { IfOk result (IsCopy (λ _ d. d ≡ «data») self.now) }
        ensures at_each_position { «data» ≡ data_of self.now
            → IfOk result (λ e. data_tree e ≡ data_tree self.now) }
    {
        let source_loc = self.source_loc.clone()?;
        // A literal needs little of the room that a copy of any kind takes.
        let expr_kind = match &self.expr_kind {
            ExprKind::Lit(literal) => ExprKind::Lit(Clone::clone(literal)?),
            kind => kind.copied()?,
        };
        Ok(Expr::new(expr_kind, source_loc, data))
    }
}

// The Boolean that a literal is.
fn literal_bool(literal: &Literal) -> Option<bool>
    ensures { result ≡ literal_bool (bare_literal literal.now) }
{
    match literal {
        Literal::Bool(b) => Some(*b),
        _ => None,
    }
}

impl<T: Copy> ExprKind<T> {
    /// A copy, which shares the children.
    #[inline(never)]
    pub fn clone(&self, _alloc: Global) -> Result<ExprKind<T>, AllocError>
        ensures tree { IfOk result (λ k. bare_expr_kind k ≡ bare_expr_kind self.now) }
        ensures children { IfOk result (λ k. kind_children k ≡ kind_children self.now) }
        ensures at_each_position { IfOk result (λ k. kind_data k ≡ kind_data self.now) }
    {
        Clone::clone(self)
    }
}

impl<T: Drop> ExprKind<T> {
    // A copy, which shares the children.
    #[inline(never)]
    fn copied(&self) -> Result<ExprKind<T>, AllocError>
        ensures tree { IfOk result (λ k. bare_expr_kind k ≡ bare_expr_kind self.now) }
        ensures children { IfOk result (λ k. kind_children k ≡ kind_children self.now) }
        ensures at_each_position { IfOk result (λ k. kind_data k ≡ kind_data self.now) }
    {
        Clone::clone(self)
    }
}
