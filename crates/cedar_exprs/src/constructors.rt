//! The constructors of expressions without data and places (`expr.rs`): what the builder makes that
//! has neither.
ghost use Rattle.std.specs.Prelude.{◌≡◌, map, [], ◌∷◌, IfOk, IfErr, OnOk, IsTrue, codes};
ghost use Rattle.std.specs.Rc.{rc_str_bytes};
ghost use Rattle.cedar_names.specs.PlainNames.{bare_name};
ghost use Rattle.cedar_terms.specs.Entities.{bare_entity_type};
ghost use Rattle.cedar_terms.specs.Literals.{bare_literal};
ghost use Rattle.cedar_terms.specs.Unknowns.{bare_unknown};
ghost use Rattle.cedar_builders.specs.BareExpr.{ExtensionFunctionApp, Set, Record};
ghost use Rattle.cedar_builders.specs.Keys.{keys_of, are_distinct, IsFirstRepeat};
ghost use Rattle.cedar_builders.specs.Errors.{key_of, context_of, OnDuplicateKey};
ghost use Rattle.cedar_builders.specs.Trees.{tree_ops};
ghost use Rattle.cedar_exprs.specs.BareExpr.{bare_expr, bare_exprs, bare_fields, further};
ghost use Rattle.cedar_exprs.specs.BareExpr.{unknown_tree};
ghost use Rattle.cedar_exprs.specs.RecordPairs.{record_fields, record_values};
ghost use Rattle.cedar_exprs.specs.MadeNode.{of_connective, IsPlain, IsPlainNegation};

use crate::builder::ExprBuilder;
use crate::expr::{Expr, ExprKind};
use cedar_builders::{BuildFault, ExprBuilder as _, ExpressionConstructionError};
use cedar_names::{Name, NonEmpty, SlotId};
use cedar_terms::{BinaryOp, EntityType, Literal, Pattern, UnaryOp, Unknown, Var};
use std::alloc::{AllocError, Global};
use std::collections::BTreeMap;
use std::rc::{Rc, RcStr};

impl Expr {
    /// A literal.
    pub fn val(literal: Literal) -> Expr
        ensures { IsPlain (tree_ops.lit_of (bare_literal literal)) [] result }
    {
        ExprBuilder::new().with_expr_kind(ExprKind::Lit(literal))
    }

    /// A variable of the request.
    pub fn var(var: Var) -> Expr
        ensures { IsPlain (tree_ops.var_of var) [] result }
    {
        ExprBuilder::new().with_expr_kind(ExprKind::Var(var))
    }

    /// A slot of a template.
    pub fn slot(slot: SlotId) -> Expr
        ensures { IsPlain (tree_ops.slot_of slot) [] result }
    {
        ExprBuilder::new().with_expr_kind(ExprKind::Slot(slot))
    }

    /// A value that is not known yet.
    pub fn unknown(unknown: Unknown) -> Expr
        ensures { IsPlain (unknown_tree (bare_unknown unknown)) [] result }
    {
        ExprBuilder::new().with_expr_kind(ExprKind::Unknown(unknown))
    }

    /// The second expression where the first holds, else the third.
    pub fn ite(
        alloc: Global,
        test_expr: Expr,
        then_expr: Expr,
        else_expr: Expr,
    ) -> Result<Expr, AllocError>
        ensures { IfOk result
            (IsPlain
            (tree_ops.if_of (bare_expr test_expr) (bare_expr then_expr) (bare_expr else_expr))
            (test_expr ∷ then_expr ∷ else_expr ∷ [])) }
    {
        ExprBuilder::new().ite(alloc, test_expr, then_expr, else_expr)
    }

    /// The same of expressions that are shared.
    pub fn ite_arc(test_expr: Rc<Expr>, then_expr: Rc<Expr>, else_expr: Rc<Expr>) -> Expr
        ensures { IsPlain
            (tree_ops.if_of (bare_expr test_expr.value) (bare_expr then_expr.value)
            (bare_expr else_expr.value))
            (test_expr.value ∷ then_expr.value ∷ else_expr.value ∷ []) result }
    {
        ExprBuilder::new().ite_arc(test_expr, then_expr, else_expr)
    }

    /// `left && right`: of two Boolean literals their literal, else the node.
    pub fn and(alloc: Global, left: Expr, right: Expr) -> Result<Expr, AllocError>
        ensures { IfOk result
            (IsPlain (tree_ops.and_of (bare_expr left) (bare_expr right))
            (of_connective left right)) }
    {
        ExprBuilder::new().and(alloc, left, right)
    }

    /// `left || right`: of two Boolean literals their literal, else the node.
    pub fn or(alloc: Global, left: Expr, right: Expr) -> Result<Expr, AllocError>
        ensures { IfOk result
            (IsPlain (tree_ops.or_of (bare_expr left) (bare_expr right))
            (of_connective left right)) }
    {
        ExprBuilder::new().or(alloc, left, right)
    }

    /// An operator on one argument.
    pub fn unary_app(alloc: Global, op: UnaryOp, arg: Expr) -> Result<Expr, AllocError>
        ensures { IfOk result (IsPlain (tree_ops.unary_of op (bare_expr arg)) (arg ∷ [])) }
    {
        ExprBuilder::new().unary_app(alloc, op, arg)
    }

    /// An operator on two arguments.
    pub fn binary_app(
        alloc: Global,
        op: BinaryOp,
        arg1: Expr,
        arg2: Expr,
    ) -> Result<Expr, AllocError>
        ensures { IfOk result
            (IsPlain (tree_ops.binary_of op (bare_expr arg1) (bare_expr arg2))
            (arg1 ∷ arg2 ∷ [])) }
    {
        ExprBuilder::new().binary_app(alloc, op, arg1, arg2)
    }

    /// A set by its members, in this order; repeated ones are kept.
    pub fn set(alloc: Global, members: Vec<Expr>) -> Result<Expr, AllocError>
        ensures { IfOk result (IsPlain (Set (bare_exprs members.items)) members.items) }
    {
        ExprBuilder::new().set(alloc, members)
    }

    /// A call of an extension function.
    pub fn call_extension_fn(
        alloc: Global,
        fn_name: Name,
        args: Vec<Expr>,
    ) -> Result<Expr, AllocError>
        ensures { IfOk result
            (IsPlain (ExtensionFunctionApp (bare_name fn_name) (bare_exprs args.items))
            args.items) }
    {
        match ExprBuilder::new().call_extension_fn(alloc, fn_name, args) {
            Ok(call) => Ok(call),
            Err(BuildFault::Build(never)) => match never {},
            Err(BuildFault::Memory) => Err(AllocError),
        }
    }

    /// `expr.attr`: an attribute of an entity or a field of a record.
    pub fn get_attr(alloc: Global, expr: Expr, attr: RcStr) -> Result<Expr, AllocError>
        ensures { IfOk result
            (IsPlain (tree_ops.get_of (bare_expr expr) (rc_str_bytes attr)) (expr ∷ [])) }
    {
        ExprBuilder::new().get_attr(alloc, expr, attr)
    }

    /// `expr has attr`: whether an entity has the attribute, or a record the field.
    pub fn has_attr(alloc: Global, expr: Expr, attr: RcStr) -> Result<Expr, AllocError>
        ensures { IfOk result
            (IsPlain (tree_ops.has_of (bare_expr expr) (rc_str_bytes attr) []) (expr ∷ [])) }
    {
        ExprBuilder::new().has_attr(alloc, expr, attr)
    }

    /// `expr has a.b.c`: whether each attribute is there in turn.
    pub fn extended_has_attr(
        alloc: Global,
        expr: Expr,
        attrs: NonEmpty<RcStr>,
    ) -> Result<Expr, AllocError>
        ensures { IfOk result
            (IsPlain
            (tree_ops.has_of (bare_expr expr) (rc_str_bytes attrs.head) (further attrs))
            (expr ∷ [])) }
    {
        ExprBuilder::new().extended_has_attr(alloc, expr, attrs)
    }

    /// `expr like pattern`: whether the pattern matches the text.
    pub fn like(alloc: Global, expr: Expr, pattern: Pattern) -> Result<Expr, AllocError>
        ensures { IfOk result (IsPlain (tree_ops.like_of (bare_expr expr) pattern) (expr ∷ [])) }
    {
        ExprBuilder::new().like(alloc, expr, pattern)
    }

    /// `expr is entity_type`: whether the entity is of the type.
    pub fn is_entity_type(
        alloc: Global,
        expr: Expr,
        entity_type: EntityType,
    ) -> Result<Expr, AllocError>
        ensures { IfOk result
            (IsPlain (tree_ops.is_of (bare_expr expr) (bare_entity_type entity_type))
            (expr ∷ [])) }
    {
        ExprBuilder::new().is_entity_type(alloc, expr, entity_type)
    }

    /// A record by its pairs, which may come in any order.
    ///
    /// The first pair whose key stood before it is refused as a duplicate key.
    ///
    /// ```rust
    /// let b = (RcStr::from_str(alloc, "b")?, Expr::val(Literal::Long(1)));
    /// let a = (RcStr::from_str(alloc, "a")?, Expr::val(Literal::Long(2)));
    /// let record = Expr::record(alloc, vec![in alloc; b, a]?)?; // {"a": 2, "b": 1}
    /// ```
    ///
    /// Of the keys `b`, `a`, `b` the refusal is "duplicate key `b` in record literal".
    pub fn record(
        alloc: Global,
        pairs: Vec<(RcStr, Expr)>,
    ) -> Result<Expr, ExpressionConstructionError>
        ensures made { IfOk result
            (IsPlain (Record (record_fields pairs.items)) (record_values pairs.items)) }
        ensures distinct { OnOk result (IsTrue (are_distinct (keys_of pairs.items))) }
        ensures refused { IfErr result (OnDuplicateKey
            (λ e. IsFirstRepeat (keys_of pairs.items) (key_of e))) }
        ensures context { IfErr result (OnDuplicateKey
            (λ e. context_of e ≡ codes "in record literal")) }
    {
        ExprBuilder::new().record(alloc, pairs)
    }

    /// A record of a shared map.
    pub fn record_arc(values: Rc<BTreeMap<RcStr, Expr>>) -> Expr
        ensures { IsPlain (Record (bare_fields values.value.entries))
            (map (λ e. e.1) values.value.entries) result }
    {
        ExprBuilder::new().record_arc(values)
    }

    /// `!arg`.
    pub fn not(alloc: Global, arg: Expr) -> Result<Expr, AllocError>
        ensures { IfOk result
            (IsPlain (tree_ops.unary_of UnaryOp.Not (bare_expr arg)) (arg ∷ [])) }
    {
        Expr::unary_app(alloc, UnaryOp::Not, arg)
    }

    /// `-arg`.
    pub fn neg(alloc: Global, arg: Expr) -> Result<Expr, AllocError>
        ensures { IfOk result
            (IsPlain (tree_ops.unary_of UnaryOp.Neg (bare_expr arg)) (arg ∷ [])) }
    {
        Expr::unary_app(alloc, UnaryOp::Neg, arg)
    }

    /// `arg.isEmpty()`: whether the set has no member.
    pub fn is_empty(alloc: Global, arg: Expr) -> Result<Expr, AllocError>
        ensures { IfOk result
            (IsPlain (tree_ops.unary_of UnaryOp.IsEmpty (bare_expr arg)) (arg ∷ [])) }
    {
        Expr::unary_app(alloc, UnaryOp::IsEmpty, arg)
    }

    /// `arg1 == arg2`.
    pub fn is_eq(alloc: Global, arg1: Expr, arg2: Expr) -> Result<Expr, AllocError>
        ensures { IfOk result
            (IsPlain (tree_ops.binary_of BinaryOp.Eq (bare_expr arg1) (bare_expr arg2))
            (arg1 ∷ arg2 ∷ [])) }
    {
        Expr::binary_app(alloc, BinaryOp::Eq, arg1, arg2)
    }

    /// `arg1 < arg2`.
    pub fn less(alloc: Global, arg1: Expr, arg2: Expr) -> Result<Expr, AllocError>
        ensures { IfOk result
            (IsPlain (tree_ops.binary_of BinaryOp.Less (bare_expr arg1) (bare_expr arg2))
            (arg1 ∷ arg2 ∷ [])) }
    {
        Expr::binary_app(alloc, BinaryOp::Less, arg1, arg2)
    }

    /// `arg1 <= arg2`.
    pub fn lesseq(alloc: Global, arg1: Expr, arg2: Expr) -> Result<Expr, AllocError>
        ensures { IfOk result
            (IsPlain (tree_ops.binary_of BinaryOp.LessEq (bare_expr arg1) (bare_expr arg2))
            (arg1 ∷ arg2 ∷ [])) }
    {
        Expr::binary_app(alloc, BinaryOp::LessEq, arg1, arg2)
    }

    /// `arg1 + arg2`.
    pub fn add(alloc: Global, arg1: Expr, arg2: Expr) -> Result<Expr, AllocError>
        ensures { IfOk result
            (IsPlain (tree_ops.binary_of BinaryOp.Add (bare_expr arg1) (bare_expr arg2))
            (arg1 ∷ arg2 ∷ [])) }
    {
        Expr::binary_app(alloc, BinaryOp::Add, arg1, arg2)
    }

    /// `arg1 - arg2`.
    pub fn sub(alloc: Global, arg1: Expr, arg2: Expr) -> Result<Expr, AllocError>
        ensures { IfOk result
            (IsPlain (tree_ops.binary_of BinaryOp.Sub (bare_expr arg1) (bare_expr arg2))
            (arg1 ∷ arg2 ∷ [])) }
    {
        Expr::binary_app(alloc, BinaryOp::Sub, arg1, arg2)
    }

    /// `arg1 * arg2`.
    pub fn mul(alloc: Global, arg1: Expr, arg2: Expr) -> Result<Expr, AllocError>
        ensures { IfOk result
            (IsPlain (tree_ops.binary_of BinaryOp.Mul (bare_expr arg1) (bare_expr arg2))
            (arg1 ∷ arg2 ∷ [])) }
    {
        Expr::binary_app(alloc, BinaryOp::Mul, arg1, arg2)
    }

    /// `arg1 in arg2`: membership in the hierarchy.
    pub fn is_in(alloc: Global, arg1: Expr, arg2: Expr) -> Result<Expr, AllocError>
        ensures { IfOk result
            (IsPlain (tree_ops.binary_of BinaryOp.In (bare_expr arg1) (bare_expr arg2))
            (arg1 ∷ arg2 ∷ [])) }
    {
        Expr::binary_app(alloc, BinaryOp::In, arg1, arg2)
    }

    /// `arg1.contains(arg2)`: whether the set has the member.
    pub fn contains(alloc: Global, arg1: Expr, arg2: Expr) -> Result<Expr, AllocError>
        ensures { IfOk result
            (IsPlain (tree_ops.binary_of BinaryOp.Contains (bare_expr arg1) (bare_expr arg2))
            (arg1 ∷ arg2 ∷ [])) }
    {
        Expr::binary_app(alloc, BinaryOp::Contains, arg1, arg2)
    }

    /// `arg1.containsAll(arg2)`: whether the first set contains the second.
    pub fn contains_all(alloc: Global, arg1: Expr, arg2: Expr) -> Result<Expr, AllocError>
        ensures { IfOk result
            (IsPlain (tree_ops.binary_of BinaryOp.ContainsAll (bare_expr arg1) (bare_expr arg2))
            (arg1 ∷ arg2 ∷ [])) }
    {
        Expr::binary_app(alloc, BinaryOp::ContainsAll, arg1, arg2)
    }

    /// `arg1.containsAny(arg2)`: whether the sets share a member.
    pub fn contains_any(alloc: Global, arg1: Expr, arg2: Expr) -> Result<Expr, AllocError>
        ensures { IfOk result
            (IsPlain (tree_ops.binary_of BinaryOp.ContainsAny (bare_expr arg1) (bare_expr arg2))
            (arg1 ∷ arg2 ∷ [])) }
    {
        Expr::binary_app(alloc, BinaryOp::ContainsAny, arg1, arg2)
    }

    /// `arg1.getTag(arg2)`: the tag of an entity.
    pub fn get_tag(alloc: Global, arg1: Expr, arg2: Expr) -> Result<Expr, AllocError>
        ensures { IfOk result
            (IsPlain (tree_ops.binary_of BinaryOp.GetTag (bare_expr arg1) (bare_expr arg2))
            (arg1 ∷ arg2 ∷ [])) }
    {
        Expr::binary_app(alloc, BinaryOp::GetTag, arg1, arg2)
    }

    /// `arg1.hasTag(arg2)`: whether an entity has the tag.
    pub fn has_tag(alloc: Global, arg1: Expr, arg2: Expr) -> Result<Expr, AllocError>
        ensures { IfOk result
            (IsPlain (tree_ops.binary_of BinaryOp.HasTag (bare_expr arg1) (bare_expr arg2))
            (arg1 ∷ arg2 ∷ [])) }
    {
        Expr::binary_app(alloc, BinaryOp::HasTag, arg1, arg2)
    }

    /// `!(arg1 == arg2)`: two nodes, both without a place.
    pub fn noteq(alloc: Global, arg1: Expr, arg2: Expr) -> Result<Expr, AllocError>
        ensures { IfOk result
            (IsPlainNegation (tree_ops.binary_of BinaryOp.Eq (bare_expr arg1) (bare_expr arg2))
            (arg1 ∷ arg2 ∷ [])) }
    {
        Expr::not(alloc, Expr::is_eq(alloc, arg1, arg2)?)
    }

    /// `!(arg1 <= arg2)`: two nodes, both without a place.
    pub fn greater(alloc: Global, arg1: Expr, arg2: Expr) -> Result<Expr, AllocError>
        ensures { IfOk result
            (IsPlainNegation (tree_ops.binary_of BinaryOp.LessEq (bare_expr arg1) (bare_expr arg2))
            (arg1 ∷ arg2 ∷ [])) }
    {
        Expr::not(alloc, Expr::lesseq(alloc, arg1, arg2)?)
    }

    /// `!(arg1 < arg2)`: two nodes, both without a place.
    pub fn greatereq(alloc: Global, arg1: Expr, arg2: Expr) -> Result<Expr, AllocError>
        ensures { IfOk result
            (IsPlainNegation (tree_ops.binary_of BinaryOp.Less (bare_expr arg1) (bare_expr arg2))
            (arg1 ∷ arg2 ∷ [])) }
    {
        Expr::not(alloc, Expr::less(alloc, arg1, arg2)?)
    }
}
