//! Residual nodes, over what their operands were simplified to.
ghost use Rattle.std.specs.Prelude.{◌≡◌, IfOk, map};
ghost use Rattle.std.specs.Rc.{rc_str_bytes};
ghost use Rattle.cedar_terms.specs.Entities.{bare_entity_type};
ghost use Rattle.cedar_builders.specs.BareExpr.{
  And,
  BinaryApp,
  GetAttr,
  HasAttr,
  If,
  Is,
  Like,
  Or,
  Set,
  UnaryApp,
};
ghost use Rattle.semantics_simplify.specs.Simplified.{Residual, child_trees, tree_of};
ghost use Rattle.cedar_simplifier.specs.Simplified.{bare_tree, meaning_of};

use crate::children::children_of;
use crate::simplified::Simplified;
use crate::simplifier_of::SimplifierOf;
use crate::tree::Tree;
use cedar_names::NonEmpty;
use cedar_terms::{BinaryOp, EntityType, Pattern, UnaryOp};
use cedar_values::ExtensionValue;
use std::alloc::{AllocError, Global};
use std::rc::RcStr;

impl<X: ExtensionValue + Ord> SimplifierOf<X> {
    // A tree, which gets the place of the builder.
    pub(crate) fn residual(self, tree: Tree) -> Simplified<X>
        ensures { meaning_of result ≡ Residual (bare_tree tree) }
    {
        Simplified::residual(tree.at(self.place))
    }

    // The second where the first holds, else the third.
    pub(crate) fn residual_if(
        self,
        alloc: Global,
        test: Simplified<X>,
        then: Simplified<X>,
        other: Simplified<X>,
    ) -> Result<Simplified<X>, AllocError>
        ensures { IfOk result (λ p. meaning_of p
            ≡ Residual (If (tree_of X.canonical (meaning_of test))
            (tree_of X.canonical (meaning_of then))
            (tree_of X.canonical (meaning_of other)))) }
    {
        let test = test.into_tree(alloc)?;
        let then = then.into_tree(alloc)?;
        let other = other.into_tree(alloc)?;
        Ok(self.residual(Tree::ite(alloc, test, then, other)?))
    }

    // The conjunction.
    pub(crate) fn residual_and(
        self,
        alloc: Global,
        left: Simplified<X>,
        right: Simplified<X>,
    ) -> Result<Simplified<X>, AllocError>
        ensures { IfOk result (λ p. meaning_of p
            ≡ Residual (And (tree_of X.canonical (meaning_of left))
            (tree_of X.canonical (meaning_of right)))) }
    {
        let left = left.into_tree(alloc)?;
        let right = right.into_tree(alloc)?;
        Ok(self.residual(Tree::and(alloc, left, right)?))
    }

    // The disjunction.
    pub(crate) fn residual_or(
        self,
        alloc: Global,
        left: Simplified<X>,
        right: Simplified<X>,
    ) -> Result<Simplified<X>, AllocError>
        ensures { IfOk result (λ p. meaning_of p
            ≡ Residual (Or (tree_of X.canonical (meaning_of left))
            (tree_of X.canonical (meaning_of right)))) }
    {
        let left = left.into_tree(alloc)?;
        let right = right.into_tree(alloc)?;
        Ok(self.residual(Tree::or(alloc, left, right)?))
    }

    // An operator on one argument.
    pub(crate) fn residual_unary(
        self,
        alloc: Global,
        op: UnaryOp,
        arg: Simplified<X>,
    ) -> Result<Simplified<X>, AllocError>
        ensures { IfOk result (λ p. meaning_of p
            ≡ Residual (UnaryApp op (tree_of X.canonical (meaning_of arg)))) }
    {
        let arg = arg.into_tree(alloc)?;
        Ok(self.residual(Tree::unary(alloc, op, arg)?))
    }

    /// An operator on two arguments, as a residual with the builder's place, whatever is known.
    pub fn residual_binary(
        self,
        alloc: Global,
        op: BinaryOp,
        left: Simplified<X>,
        right: Simplified<X>,
    ) -> Result<Simplified<X>, AllocError>
        ensures { IfOk result (λ p. meaning_of p
            ≡ Residual (BinaryApp op (tree_of X.canonical (meaning_of left))
            (tree_of X.canonical (meaning_of right)))) }
    {
        let left = left.into_tree(alloc)?;
        let right = right.into_tree(alloc)?;
        Ok(self.residual(Tree::binary(alloc, op, left, right)?))
    }

    /// An attribute, as a residual with the builder's place, whatever is known of its operand.
    pub fn residual_get(
        self,
        alloc: Global,
        arg: Simplified<X>,
        attr: RcStr,
    ) -> Result<Simplified<X>, AllocError>
        ensures { IfOk result (λ p. meaning_of p
            ≡ Residual (GetAttr (tree_of X.canonical (meaning_of arg)) (rc_str_bytes attr))) }
    {
        let arg = arg.into_tree(alloc)?;
        Ok(self.residual(Tree::get(alloc, arg, attr)?))
    }

    /// Whether each attribute is there in turn, as a residual with the builder's place, whatever is
    /// known of its operand.
    pub fn residual_has(
        self,
        alloc: Global,
        arg: Simplified<X>,
        attrs: NonEmpty<RcStr>,
    ) -> Result<Simplified<X>, AllocError>
        ensures { IfOk result (λ p. meaning_of p
            ≡ Residual (HasAttr (tree_of X.canonical (meaning_of arg)) (rc_str_bytes attrs.head)
            (map rc_str_bytes attrs.tail.items))) }
    {
        let arg = arg.into_tree(alloc)?;
        Ok(self.residual(Tree::has(alloc, arg, attrs)?))
    }

    // Whether the pattern matches the text.
    pub(crate) fn residual_like(
        self,
        alloc: Global,
        arg: Simplified<X>,
        pattern: Pattern,
    ) -> Result<Simplified<X>, AllocError>
        ensures { IfOk result (λ p. meaning_of p
            ≡ Residual (Like (tree_of X.canonical (meaning_of arg)) pattern)) }
    {
        let arg = arg.into_tree(alloc)?;
        Ok(self.residual(Tree::like(alloc, arg, pattern)?))
    }

    // Whether the entity is of the type.
    pub(crate) fn residual_is(
        self,
        alloc: Global,
        arg: Simplified<X>,
        ty: EntityType,
    ) -> Result<Simplified<X>, AllocError>
        ensures { IfOk result (λ p. meaning_of p
            ≡ Residual (Is (tree_of X.canonical (meaning_of arg)) (bare_entity_type ty))) }
    {
        let arg = arg.into_tree(alloc)?;
        Ok(self.residual(Tree::is_of_type(alloc, arg, ty)?))
    }

    // A set.
    pub(crate) fn residual_set(
        self,
        alloc: Global,
        members: Vec<Simplified<X>>,
    ) -> Result<Simplified<X>, AllocError>
        ensures { IfOk result (λ p. meaning_of p
            ≡ Residual (Set (child_trees X.canonical (map meaning_of members.items)))) }
    {
        let children = children_of(alloc, members)?;
        Ok(self.residual(Tree::set(alloc, children)?))
    }
}
