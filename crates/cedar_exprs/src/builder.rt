//! The builder of expressions (the struct `ExprBuilder` of `expr.rs`).
ghost use Rattle.std.specs.Prelude.{◌≡◌, None, [], ◌∷◌, IfOk, IfErr, OnOk, IsTrue, codes, Ok};
ghost use Rattle.std.specs.Prelude.{map, refl, ⊤};
ghost use Rattle.std.specs.Option.{option_copied};
ghost use Rattle.std.specs.Rc.{rc_str_bytes};
ghost use Rattle.cedar_names.specs.PlainNames.{bare_name};
ghost use Rattle.cedar_terms.specs.Entities.{bare_entity_type};
ghost use Rattle.cedar_terms.specs.Literals.{bare_literal, BoolLit};
ghost use Rattle.cedar_terms.specs.Unknowns.{bare_unknown};
ghost use Rattle.cedar_builders.specs.BareExpr.{BareExpr, Lit, ExtensionFunctionApp, Set, Record};
ghost use Rattle.cedar_builders.specs.Keys.{keys_of, are_distinct, meant_pairs, IsAscending};
ghost use Rattle.cedar_builders.specs.Keys.{HasRepeat, IsFirstRepeat};
ghost use Rattle.cedar_builders.specs.Errors.{key_of, context_of, OnDuplicateKey};
ghost use Rattle.cedar_builders.specs.declared.expression_construction_errors.ExpressionConstructionError.TheVariants as error;
ghost use Rattle.cedar_builders.specs.Trees.{tree_ops};
ghost use Rattle.cedar_exprs.specs.BareExpr.{bare_expr, bare_expr_kind, bare_exprs, bare_fields};
ghost use Rattle.cedar_exprs.specs.BareExpr.{expr_place, further, kind_of, unknown_tree};
ghost use Rattle.cedar_exprs.specs.RecordPairs.{record_fields, record_values};
ghost use Rattle.cedar_builders.specs.Answers.{never, IfBuilt};
ghost use Rattle.cedar_exprs.specs.Walks.{kind_children};
ghost use Rattle.cedar_exprs.specs.MadeNode.{builder_place, builder_data, of_connective, IsMadeBy};

use crate::expr::{Expr, ExprKind};
use cedar_builders::keys::collect_distinct;
use cedar_builders::{
    BuildFault, ExprBuilderInfallibleBuild, ExpressionConstructionError, LawfulExprBuilder,
    expr_builder,
};
use cedar_names::{Loc, Name, NonEmpty, SlotId};
use cedar_terms::{BinaryOp, EntityType, Literal, Pattern, UnaryOp, Unknown, Var};
use std::alloc::{AllocError, Global};
use std::collections::BTreeMap;
use std::convert::Infallible;
use std::rc::{Rc, RcStr};

/// Makes expressions, each with the builder's place and data on its outermost node.
///
/// `and` and `or` of two Boolean literals make the literal of the result; `noteq`, `greater` and
/// `greatereq` make two nodes; every other call makes one. Most of its calls are those of the trait
/// of the same name: `use cedar_ast::expr_builder::ExprBuilder as _;`.
///
/// As the type argument of `into_expr` and its like it stands in a function that is generic in `T`:
/// see there.
#[derive(Debug, Drop)]
pub struct ExprBuilder<T> {
    source_loc: Option<Loc>,
    data: T,
}

/// A copy with a copy of the data.
impl<T: Clone> Clone for ExprBuilder<T> {
    ghost is_clone = { λ b copy.
        (builder_place copy ≡ builder_place b) × T.is_clone (builder_data b) (builder_data copy) };

    fn clone(&self) -> Result<ExprBuilder<T>, AllocError> {
        Ok(ExprBuilder {
            source_loc: self.source_loc.clone()?,
            data: self.data.clone()?,
        })
    }
}

impl<T: Default + Copy> ExprBuilder<T> {
    /// The builder with the place of this expression. It takes no memory.
    pub fn with_same_source_loc<U>(
        self,
        alloc: Global,
        expr: &Expr<U>,
    ) -> Result<ExprBuilder<T>, AllocError>
        ensures place { IfOk result (λ b. builder_place b ≡ expr_place expr.now) }
        ensures of_node { IfOk result (λ b. builder_data b ≡ builder_data self) }
    {
        Ok(ExprBuilder {
            source_loc: Loc::clone_option(alloc, expr.source_loc())?,
            data: self.data,
        })
    }

    /// A copy, which takes no memory.
    pub fn clone(&self, alloc: Global) -> Result<ExprBuilder<T>, AllocError>
        ensures place { IfOk result (λ b. builder_place b ≡ builder_place self.now) }
        ensures of_node { IfOk result (λ b. builder_data b ≡ builder_data self.now) }
    {
        Ok(ExprBuilder {
            source_loc: Loc::clone_option(alloc, self.source_loc.as_ref())?,
            data: self.data,
        })
    }

    /// The node of this kind, as it stands: nothing is simplified.
    #[inline(always)]
    pub fn with_expr_kind(self, expr_kind: ExprKind<T>) -> Expr<T>
        ensures node { IsMadeBy self (bare_expr_kind expr_kind) (kind_children expr_kind) result }
        ensures kind { kind_of result ≡ expr_kind }
    {
        Expr::new(expr_kind, self.source_loc, self.data)
    }

    // The literal of a Boolean.
    fn bool_literal(self, value: bool) -> Expr<T>
        ensures { IsMadeBy self (Lit (BoolLit value)) [] result }
    {
        self.with_expr_kind(ExprKind::Lit(Literal::Bool(value)))
    }

    /// The second expression where the first holds, else the third, all of them shared.
    pub fn ite_arc(
        self,
        test_expr: Rc<Expr<T>>,
        then_expr: Rc<Expr<T>>,
        else_expr: Rc<Expr<T>>,
    ) -> Expr<T>
        ensures { IsMadeBy self
            (tree_ops.if_of (bare_expr test_expr.value) (bare_expr then_expr.value)
            (bare_expr else_expr.value))
            (test_expr.value ∷ then_expr.value ∷ else_expr.value ∷ []) result }
    {
        self.with_expr_kind(ExprKind::If {
            test_expr,
            then_expr,
            else_expr,
        })
    }

    // The conjunction of shared expressions: of two Boolean literals their literal, else the node.
    pub(crate) fn and_arc(self, left: Rc<Expr<T>>, right: Rc<Expr<T>>) -> Expr<T>
        ensures { IsMadeBy self (tree_ops.and_of (bare_expr left.value) (bare_expr right.value))
            (of_connective left.value right.value) result }
    {
        match (left.as_bool(), right.as_bool()) {
            (Some(a), Some(b)) => self.bool_literal(a && b),
            _ => self.with_expr_kind(ExprKind::And { left, right }),
        }
    }

    // The disjunction of shared expressions: of two Boolean literals their literal, else the node.
    pub(crate) fn or_arc(self, left: Rc<Expr<T>>, right: Rc<Expr<T>>) -> Expr<T>
        ensures { IsMadeBy self (tree_ops.or_of (bare_expr left.value) (bare_expr right.value))
            (of_connective left.value right.value) result }
    {
        match (left.as_bool(), right.as_bool()) {
            (Some(a), Some(b)) => self.bool_literal(a || b),
            _ => self.with_expr_kind(ExprKind::Or { left, right }),
        }
    }

    /// A record of a shared map.
    pub fn record_arc(self, values: Rc<BTreeMap<RcStr, Expr<T>>>) -> Expr<T>
        ensures { IsMadeBy self (Record (bare_fields values.value.entries))
            (map (λ e. e.1) values.value.entries) result }
    {
        self.with_expr_kind(ExprKind::Record(values))
    }
}

impl<T: Default + Copy> expr_builder::ExprBuilder for ExprBuilder<T> {
    type Expr = Expr<T>;

    type Data = T;

    type BuildError = Infallible;

    ghost Meaning = { BareExpr };

    ghost Fault = { ⊥ };

    ghost ops = { tree_ops };

    ghost meaning_of = { bare_expr };

    ghost fault_of = { never };

    ghost is_new = { λ b. T.is_default (builder_data b) };

    ghost place_of = { builder_place };

    ghost kept_place = { λ place. place };

    ghost makes_unary = { λ b op arg e.
        IsMadeBy b (tree_ops.unary_of op (bare_expr arg)) (arg ∷ []) e };

    ghost makes_binary = { λ b op arg1 arg2 e.
        IsMadeBy b (tree_ops.binary_of op (bare_expr arg1) (bare_expr arg2)) (arg1 ∷ arg2 ∷ []) e };

    fn new() -> ExprBuilder<T>
        ensures place { builder_place result ≡ None }
        ensures default { T.is_default (builder_data result) }
    {
        ExprBuilder {
            source_loc: None,
            data: T::default(),
        }
    }

    fn with_data(data: T) -> ExprBuilder<T>
        ensures place { builder_place result ≡ None }
        ensures of_node { builder_data result ≡ «data» }
    {
        ExprBuilder {
            source_loc: None,
            data,
        }
    }

    fn loc(&self) -> Option<&Loc>
        ensures { option_copied result ≡ builder_place self.now }
    {
        self.source_loc.as_ref()
    }

    fn data(&self) -> &T
        ensures { result.now ≡ builder_data self.now }
    {
        &self.data
    }

    fn with_maybe_source_loc(self, source_loc: Option<Loc>) -> ExprBuilder<T>
        ensures place { builder_place result ≡ source_loc }
        ensures of_node { builder_data result ≡ builder_data self }
    {
        ExprBuilder {
            source_loc,
            data: self.data,
        }
    }

    fn val(self, _alloc: Global, literal: Literal) -> Result<Expr<T>, AllocError>
        ensures { IfOk result (IsMadeBy self (tree_ops.lit_of (bare_literal literal)) []) }
    {
        Ok(self.with_expr_kind(ExprKind::Lit(literal)))
    }

    fn var(self, _alloc: Global, var: Var) -> Result<Expr<T>, AllocError>
        ensures { IfOk result (IsMadeBy self (tree_ops.var_of var) []) }
    {
        Ok(self.with_expr_kind(ExprKind::Var(var)))
    }

    fn slot(self, _alloc: Global, slot: SlotId) -> Result<Expr<T>, AllocError>
        ensures { IfOk result (IsMadeBy self (tree_ops.slot_of slot) []) }
    {
        Ok(self.with_expr_kind(ExprKind::Slot(slot)))
    }

    fn unknown(self, _alloc: Global, unknown: Unknown) -> Result<Expr<T>, AllocError>
        ensures { IfOk result (IsMadeBy self (unknown_tree (bare_unknown unknown)) []) }
    {
        Ok(self.with_expr_kind(ExprKind::Unknown(unknown)))
    }

    #[inline(always)]
    fn ite(
        self,
        alloc: Global,
        test_expr: Expr<T>,
        then_expr: Expr<T>,
        else_expr: Expr<T>,
    ) -> Result<Expr<T>, AllocError>
        ensures { IfOk result
            (IsMadeBy self
            (tree_ops.if_of (bare_expr test_expr) (bare_expr then_expr)
            (bare_expr else_expr))
            (test_expr ∷ then_expr ∷ else_expr ∷ [])) }
    {
        Ok(self.ite_arc(
            Rc::new(alloc, test_expr)?,
            Rc::new(alloc, then_expr)?,
            Rc::new(alloc, else_expr)?,
        ))
    }

    #[inline(always)]
    fn and(self, alloc: Global, left: Expr<T>, right: Expr<T>) -> Result<Expr<T>, AllocError>
        ensures { IfOk result
            (IsMadeBy self (tree_ops.and_of (bare_expr left) (bare_expr right))
            (of_connective left right)) }
    {
        match (left.as_bool(), right.as_bool()) {
            (Some(a), Some(b)) => Ok(self.bool_literal(a && b)),
            _ => Ok(self.with_expr_kind(ExprKind::And {
                left: Rc::new(alloc, left)?,
                right: Rc::new(alloc, right)?,
            })),
        }
    }

    #[inline(always)]
    fn or(self, alloc: Global, left: Expr<T>, right: Expr<T>) -> Result<Expr<T>, AllocError>
        ensures { IfOk result
            (IsMadeBy self (tree_ops.or_of (bare_expr left) (bare_expr right))
            (of_connective left right)) }
    {
        match (left.as_bool(), right.as_bool()) {
            (Some(a), Some(b)) => Ok(self.bool_literal(a || b)),
            _ => Ok(self.with_expr_kind(ExprKind::Or {
                left: Rc::new(alloc, left)?,
                right: Rc::new(alloc, right)?,
            })),
        }
    }

    #[inline(always)]
    fn unary_app(self, alloc: Global, op: UnaryOp, arg: Expr<T>) -> Result<Expr<T>, AllocError>
        ensures { IfOk result
            (IsMadeBy self (tree_ops.unary_of op (bare_expr arg)) (arg ∷ [])) }
    {
        Ok(self.with_expr_kind(ExprKind::UnaryApp {
            op,
            arg: Rc::new(alloc, arg)?,
        }))
    }

    #[inline(always)]
    fn binary_app(
        self,
        alloc: Global,
        op: BinaryOp,
        arg1: Expr<T>,
        arg2: Expr<T>,
    ) -> Result<Expr<T>, AllocError>
        ensures { IfOk result
            (IsMadeBy self (tree_ops.binary_of op (bare_expr arg1) (bare_expr arg2))
            (arg1 ∷ arg2 ∷ [])) }
    {
        Ok(self.with_expr_kind(ExprKind::BinaryApp {
            op,
            arg1: Rc::new(alloc, arg1)?,
            arg2: Rc::new(alloc, arg2)?,
        }))
    }

    fn call_extension_fn(
        self,
        alloc: Global,
        fn_name: Name,
        args: Vec<Expr<T>>,
    ) -> Result<Expr<T>, BuildFault<Infallible>>
        ensures { IfBuilt result
            (IsMadeBy self (ExtensionFunctionApp (bare_name fn_name) (bare_exprs args.items))
            args.items) }
    {
        Ok(self.with_expr_kind(ExprKind::ExtensionFunctionApp {
            fn_name,
            args: Rc::new(alloc, args)?,
        }))
    }

    #[inline(always)]
    fn get_attr(self, alloc: Global, expr: Expr<T>, attr: RcStr) -> Result<Expr<T>, AllocError>
        ensures { IfOk result
            (IsMadeBy self (tree_ops.get_of (bare_expr expr) (rc_str_bytes attr))
            (expr ∷ [])) }
    {
        Ok(self.with_expr_kind(ExprKind::GetAttr {
            expr: Rc::new(alloc, expr)?,
            attr,
        }))
    }

    #[inline(always)]
    fn extended_has_attr(
        self,
        alloc: Global,
        expr: Expr<T>,
        attrs: NonEmpty<RcStr>,
    ) -> Result<Expr<T>, AllocError>
        ensures { IfOk result
            (IsMadeBy self
            (tree_ops.has_of (bare_expr expr) (rc_str_bytes attrs.head) (further attrs))
            (expr ∷ [])) }
    {
        Ok(self.with_expr_kind(ExprKind::HasAttr {
            expr: Rc::new(alloc, expr)?,
            attrs,
        }))
    }

    fn has_attr(self, alloc: Global, expr: Expr<T>, attr: RcStr) -> Result<Expr<T>, AllocError>
        ensures { IfOk result
            (IsMadeBy self (tree_ops.has_of (bare_expr expr) (rc_str_bytes attr) [])
            (expr ∷ [])) }
    {
        self.extended_has_attr(alloc, expr, NonEmpty::new(attr, Vec::new(alloc)))
    }

    #[inline(always)]
    fn like(self, alloc: Global, expr: Expr<T>, pattern: Pattern) -> Result<Expr<T>, AllocError>
        ensures { IfOk result
            (IsMadeBy self (tree_ops.like_of (bare_expr expr) pattern) (expr ∷ [])) }
    {
        Ok(self.with_expr_kind(ExprKind::Like {
            expr: Rc::new(alloc, expr)?,
            pattern,
        }))
    }

    #[inline(always)]
    fn is_entity_type(
        self,
        alloc: Global,
        expr: Expr<T>,
        entity_type: EntityType,
    ) -> Result<Expr<T>, AllocError>
        ensures { IfOk result
            (IsMadeBy self (tree_ops.is_of (bare_expr expr) (bare_entity_type entity_type))
            (expr ∷ [])) }
    {
        Ok(self.with_expr_kind(ExprKind::Is {
            expr: Rc::new(alloc, expr)?,
            entity_type,
        }))
    }

    fn set(self, alloc: Global, members: Vec<Expr<T>>) -> Result<Expr<T>, AllocError>
        ensures { IfOk result
            (IsMadeBy self (Set (bare_exprs members.items)) members.items) }
    {
        Ok(self.with_expr_kind(ExprKind::Set(Rc::new(alloc, members)?)))
    }

    fn record(
        self,
        alloc: Global,
        pairs: Vec<(RcStr, Expr<T>)>,
    ) -> Result<Expr<T>, ExpressionConstructionError>
        ensures made { IfOk result
            (IsMadeBy self (Record (record_fields pairs.items)) (record_values pairs.items)) }
        ensures distinct { OnOk result (IsTrue (are_distinct (keys_of pairs.items))) }
        ensures refused { IfErr result (OnDuplicateKey
            (λ e. IsFirstRepeat (keys_of pairs.items) (key_of e))) }
        ensures context { IfErr result (OnDuplicateKey
            (λ e. context_of e ≡ codes "in record literal")) }

        // What the trait asks of every builder.
        ensures means { IsAscending (keys_of pairs.items)
            → IfOk result (λ e.
            bare_expr e ≡ tree_ops.record_of (meant_pairs bare_expr pairs.items)) }
        ensures accepts { IsAscending (keys_of pairs.items) → IfErr result (λ e. e ≡ error.Memory) }
        ensures refuses { IfErr result (OnDuplicateKey (λ _. HasRepeat (keys_of pairs.items))) }
    {
        let values = collect_distinct(alloc, pairs)?;
        Ok(self.record_arc(Rc::new(alloc, values)?))
    }
}

impl<T: Default + Copy> ExprBuilderInfallibleBuild for ExprBuilder<T> {}

impl<T: Default + Copy> LawfulExprBuilder for ExprBuilder<T> {
    ghost lawful = { record { and_of_literals = λ a b. refl; or_of_literals = λ a b. refl } };
}
