//! Builders of expressions (Cedar's `expr_builder.rs`).
ghost use Rattle.std.specs.Prelude.{◌≡◌, ⊤, [], None, Option, IfOk, IfErr, map};
ghost use Rattle.std.specs.Option.{option_copied};
ghost use Rattle.std.specs.Rc.{rc_str_bytes};
ghost use Rattle.cedar_names.specs.Place.{Place};
ghost use Rattle.cedar_names.specs.PlainNames.{bare_name};
ghost use Rattle.cedar_terms.specs.Entities.{bare_entity_type};
ghost use Rattle.cedar_terms.specs.Literals.{bare_literal};
ghost use Rattle.cedar_terms.specs.declared.ops.UnaryOp.{UnaryOp};
ghost use Rattle.cedar_terms.specs.declared.ops.BinaryOp.{BinaryOp};
ghost use Rattle.cedar_terms.specs.Unknowns.{bare_unknown};
ghost use Rattle.cedar_builders.specs.Ops.{Ops};
ghost use Rattle.cedar_builders.specs.Lawful.{Lawful};
ghost use Rattle.cedar_builders.specs.Keys.{keys_of, meant_pairs, IsAscending, HasRepeat};
ghost use Rattle.cedar_builders.specs.Errors.{OnDuplicateKey};
ghost use Rattle.cedar_builders.specs.Answers.{Gives, Means};
ghost use Rattle.cedar_builders.specs.BuildFaults.{build_fault_text};
ghost use Rattle.cedar_builders.specs.Negated.{MakesNegated};
ghost use Rattle.cedar_builders.specs.declared.expr_builder.BuildFault.TheVariants.{Memory};
ghost use Rattle.cedar_builders.specs.declared.expression_construction_errors.ExpressionConstructionError.TheVariants as error;

use crate::expression_construction_errors::ExpressionConstructionError;
use cedar_names::{Loc, Name, NonEmpty, SlotId};
use cedar_terms::{BinaryOp, EntityType, Literal, Pattern, UnaryOp, Unknown, Var};
use std::alloc::{AllocError, AllocFailed, Global};
use std::convert::Infallible;
use std::fmt;
use std::rc::RcStr;
use thiserror::Error;

/// Why an expression was not built: the builder's own error, or memory ran out.
///
/// Its text is that of the builder's own error, or `no memory`.
#[derive(Debug, Clone, PartialEq, Eq, Drop, Error)]
pub enum BuildFault<E> {
    /// The builder's own error.
    Build(E),
    /// Memory was refused.
    Memory,
}

impl<E> From<AllocError> for BuildFault<E> {
    ghost from_gives = { λ _ fault. fault ≡ Memory };

    fn from(_: AllocError) -> BuildFault<E> {
        BuildFault::Memory
    }
}

impl<E, T: Drop> From<AllocFailed<T>> for BuildFault<E> {
    ghost from_gives = { λ _ fault. fault ≡ Memory };

    fn from(_: AllocFailed<T>) -> BuildFault<E> {
        BuildFault::Memory
    }
}

// Where the builder has no error of its own, only memory is left to be refused.
impl From<BuildFault<Infallible>> for AllocError {
    fn from(fault: BuildFault<Infallible>) -> AllocError {
        match fault {
            BuildFault::Build(never) => match never {},
            BuildFault::Memory => AllocError,
        }
    }
}

impl<E: fmt::Display> fmt::Display for BuildFault<E> {
    ghost output = { build_fault_text E.output };

    fn fmt<W: fmt::Write>(&self, f: &mut fmt::Formatter<W>) -> fmt::Result {
        match self {
            BuildFault::Build(error) => fmt::Display::fmt(error, f),
            BuildFault::Memory => f.write_str("no memory"),
        }
    }
}

/// What makes expressions: a call for each kind of expression, and one for each operator.
///
/// A builder says what the expressions that it makes mean, and what its errors mean, in types of
/// its own choice. Each call that makes a node then means one operation on the node's own fields
/// and the meanings of its children. Only a call of an extension function may be refused for a
/// reason of the builder's own.
///
/// Each call consumes its builder, so a tree takes a new one for each node:
///
/// ```rust
/// fn one_below_context<B: ExprBuilder>(alloc: Global) -> Result<B::Expr, AllocError> {
///     let one = B::new().val(alloc, Literal::Long(1))?;
///     let context = B::new().var(alloc, Var::Context)?;
///     B::new().less(alloc, one, context)
/// }
/// ```
///
/// The program `example_builder` has an implementation with each ghost member explained.
pub trait ExprBuilder: Sized + Drop {
    /// What the builder makes.
    type Expr: Drop;

    /// The data that a node carries.
    type Data;

    /// Why the builder may refuse a call of an extension function.
    type BuildError: Drop;

    // The type of the meanings of expressions.
    ghost Meaning: { Type 0 };

    // The type of the meanings of errors.
    ghost Fault: { Type 0 };

    // What each kind of node means.
    ghost ops: { Ops Meaning Fault };

    // What an expression means.
    ghost meaning_of: { Self.Expr → Meaning };

    // What an error means.
    ghost fault_of: { Self.BuildError → Fault };

    // The builder was made by `new`, whatever place was set since.
    ghost is_new: { Self → Type 0 } = { λ _. ⊤ };

    // The place that is given to what is made, and what is kept of a place that is set.
    ghost place_of: { Self → Option Place } = { λ _. None };

    ghost kept_place: { Option Place → Option Place } = { λ _. None };

    // What `unary_app` and `binary_app` make, as far as the builder says more than the meaning.
    ghost makes_unary: { Self → UnaryOp → Self.Expr → Self.Expr → Type 0 } = { λ _ _ _ _. ⊤ };

    ghost makes_binary: { Self → BinaryOp → Self.Expr → Self.Expr → Self.Expr → Type 0 } = { λ _ _ _ _ _. ⊤ };

    /// A builder with no place and the data that a node has by default.
    fn new() -> Self
        ensures new { is_new result }
        ensures place { place_of result ≡ kept_place None };

    /// A builder with no place, whose nodes carry this data. What a builder does with data is its
    /// own affair.
    fn with_data(data: Self::Data) -> Self
        ensures { place_of result ≡ kept_place None };

    /// The place that is given to what is made. A builder may keep none, whatever was set: meanings
    /// do not depend on places.
    fn loc(&self) -> Option<&Loc>
        ensures { option_copied result ≡ place_of self.now };

    /// The data that is given to what is made, of which nothing is promised either.
    fn data(&self) -> &Self::Data;

    /// The builder with this place, or with none. What it makes means the same.
    fn with_maybe_source_loc(self, source_loc: Option<Loc>) -> Self
        ensures new { is_new self → is_new result }
        ensures place { place_of result ≡ kept_place source_loc };

    /// A literal.
    fn val(self, alloc: Global, literal: Literal) -> Result<Self::Expr, AllocError>
        ensures { is_new self → Means meaning_of (ops.lit_of (bare_literal literal)) result };

    /// A variable of the request.
    fn var(self, alloc: Global, var: Var) -> Result<Self::Expr, AllocError>
        ensures { is_new self → Means meaning_of (ops.var_of var) result };

    /// A slot of a template.
    fn slot(self, alloc: Global, slot: SlotId) -> Result<Self::Expr, AllocError>
        ensures { is_new self → Means meaning_of (ops.slot_of slot) result };

    /// A value that is not known yet.
    fn unknown(self, alloc: Global, unknown: Unknown) -> Result<Self::Expr, AllocError>
        ensures { is_new self
            → Means meaning_of
            (ops.unknown_of (bare_unknown unknown).name (bare_unknown unknown).annotation)
            result };

    /// The second expression where the first holds, else the third.
    fn ite(
        self,
        alloc: Global,
        test_expr: Self::Expr,
        then_expr: Self::Expr,
        else_expr: Self::Expr,
    ) -> Result<Self::Expr, AllocError>
        ensures { is_new self
            → Means meaning_of
            (ops.if_of (meaning_of test_expr) (meaning_of then_expr) (meaning_of else_expr))
            result };

    /// The conjunction of two expressions.
    fn and(
        self,
        alloc: Global,
        left: Self::Expr,
        right: Self::Expr,
    ) -> Result<Self::Expr, AllocError>
        ensures { is_new self
            → Means meaning_of (ops.and_of (meaning_of left) (meaning_of right)) result };

    /// The disjunction of two expressions.
    fn or(
        self,
        alloc: Global,
        left: Self::Expr,
        right: Self::Expr,
    ) -> Result<Self::Expr, AllocError>
        ensures { is_new self
            → Means meaning_of (ops.or_of (meaning_of left) (meaning_of right)) result };

    /// An operator on one argument.
    fn unary_app(
        self,
        alloc: Global,
        op: UnaryOp,
        arg: Self::Expr,
    ) -> Result<Self::Expr, AllocError>
        ensures means { is_new self → Means meaning_of (ops.unary_of op (meaning_of arg)) result }
        ensures makes { IfOk result (makes_unary self op arg) };

    /// An operator on two arguments.
    fn binary_app(
        self,
        alloc: Global,
        op: BinaryOp,
        arg1: Self::Expr,
        arg2: Self::Expr,
    ) -> Result<Self::Expr, AllocError>
        ensures means { is_new self
            → Means meaning_of (ops.binary_of op (meaning_of arg1) (meaning_of arg2)) result }
        ensures makes { IfOk result (makes_binary self op arg1 arg2) };

    /// A call of an extension function. The builder's own errors come from here alone.
    fn call_extension_fn(
        self,
        alloc: Global,
        fn_name: Name,
        args: Vec<Self::Expr>,
    ) -> Result<Self::Expr, BuildFault<Self::BuildError>>
        ensures { is_new self
            → Gives meaning_of fault_of
            (ops.call_of (bare_name fn_name) (map meaning_of args.items)) result };

    /// `expr.attr`: the attribute of an entity or a record.
    fn get_attr(
        self,
        alloc: Global,
        expr: Self::Expr,
        attr: RcStr,
    ) -> Result<Self::Expr, AllocError>
        ensures { is_new self
            → Means meaning_of (ops.get_of (meaning_of expr) (rc_str_bytes attr)) result };

    /// `expr has a.b.c`: whether each attribute is there in turn.
    fn extended_has_attr(
        self,
        alloc: Global,
        expr: Self::Expr,
        attrs: NonEmpty<RcStr>,
    ) -> Result<Self::Expr, AllocError>
        ensures { is_new self
            → Means meaning_of
            (ops.has_of (meaning_of expr) (rc_str_bytes attrs.head)
            (map rc_str_bytes attrs.tail.items))
            result };

    /// `expr like pattern`: whether the pattern matches the text.
    fn like(
        self,
        alloc: Global,
        expr: Self::Expr,
        pattern: Pattern,
    ) -> Result<Self::Expr, AllocError>
        ensures { is_new self → Means meaning_of (ops.like_of (meaning_of expr) pattern) result };

    /// `expr is entity_type`: whether the entity is of the type.
    fn is_entity_type(
        self,
        alloc: Global,
        expr: Self::Expr,
        entity_type: EntityType,
    ) -> Result<Self::Expr, AllocError>
        ensures { is_new self
            → Means meaning_of (ops.is_of (meaning_of expr) (bare_entity_type entity_type))
            result };

    /// A set by its members, in this order.
    fn set(self, alloc: Global, members: Vec<Self::Expr>) -> Result<Self::Expr, AllocError>
        ensures { is_new self
            → Means meaning_of (ops.set_of (map meaning_of members.items)) result };

    /// A record by its keys and values. Pairs whose keys ascend strictly, by bytes, are always
    /// accepted; a builder may refuse others with `DuplicateKey`, where a key stands twice.
    fn record(
        self,
        alloc: Global,
        pairs: Vec<(RcStr, Self::Expr)>,
    ) -> Result<Self::Expr, ExpressionConstructionError>
        ensures means { is_new self
            → IsAscending (keys_of pairs.items)
            → Means meaning_of (ops.record_of (meant_pairs meaning_of pairs.items)) result }
        ensures accepts { IsAscending (keys_of pairs.items) → IfErr result (λ e. e ≡ error.Memory) }
        ensures refuses { IfErr result (OnDuplicateKey (λ _. HasRepeat (keys_of pairs.items))) };

    /// `expr has attr`: whether an entity or a record has the attribute.
    fn has_attr(
        self,
        alloc: Global,
        expr: Self::Expr,
        attr: RcStr,
    ) -> Result<Self::Expr, AllocError>
        ensures { is_new self
            → Means meaning_of (ops.has_of (meaning_of expr) (rc_str_bytes attr) []) result }
    {
        self.extended_has_attr(alloc, expr, NonEmpty::new(attr, Vec::new(alloc)))
    }

    /// `!arg`.
    fn not(self, alloc: Global, arg: Self::Expr) -> Result<Self::Expr, AllocError>
        ensures means { is_new self
            → Means meaning_of (ops.unary_of UnaryOp.Not (meaning_of arg)) result }
        ensures makes { IfOk result (makes_unary self UnaryOp.Not arg) }
    {
        self.unary_app(alloc, UnaryOp::Not, arg)
    }

    /// `-arg`.
    fn neg(self, alloc: Global, arg: Self::Expr) -> Result<Self::Expr, AllocError>
        ensures means { is_new self
            → Means meaning_of (ops.unary_of UnaryOp.Neg (meaning_of arg)) result }
        ensures makes { IfOk result (makes_unary self UnaryOp.Neg arg) }
    {
        self.unary_app(alloc, UnaryOp::Neg, arg)
    }

    /// `arg.isEmpty()`: whether the set has no member.
    fn is_empty(self, alloc: Global, arg: Self::Expr) -> Result<Self::Expr, AllocError>
        ensures means { is_new self
            → Means meaning_of (ops.unary_of UnaryOp.IsEmpty (meaning_of arg)) result }
        ensures makes { IfOk result (makes_unary self UnaryOp.IsEmpty arg) }
    {
        self.unary_app(alloc, UnaryOp::IsEmpty, arg)
    }

    /// `e1 == e2`.
    fn is_eq(self, alloc: Global, e1: Self::Expr, e2: Self::Expr) -> Result<Self::Expr, AllocError>
        ensures means { is_new self → Means meaning_of
            (ops.binary_of BinaryOp.Eq (meaning_of e1) (meaning_of e2)) result }
        ensures makes { IfOk result (makes_binary self BinaryOp.Eq e1 e2) }
    {
        self.binary_app(alloc, BinaryOp::Eq, e1, e2)
    }

    /// `e1 < e2`.
    fn less(self, alloc: Global, e1: Self::Expr, e2: Self::Expr) -> Result<Self::Expr, AllocError>
        ensures means { is_new self → Means meaning_of
            (ops.binary_of BinaryOp.Less (meaning_of e1) (meaning_of e2)) result }
        ensures makes { IfOk result (makes_binary self BinaryOp.Less e1 e2) }
    {
        self.binary_app(alloc, BinaryOp::Less, e1, e2)
    }

    /// `e1 <= e2`.
    fn lesseq(self, alloc: Global, e1: Self::Expr, e2: Self::Expr) -> Result<Self::Expr, AllocError>
        ensures means { is_new self → Means meaning_of
            (ops.binary_of BinaryOp.LessEq (meaning_of e1) (meaning_of e2)) result }
        ensures makes { IfOk result (makes_binary self BinaryOp.LessEq e1 e2) }
    {
        self.binary_app(alloc, BinaryOp::LessEq, e1, e2)
    }

    /// `e1 + e2`.
    fn add(self, alloc: Global, e1: Self::Expr, e2: Self::Expr) -> Result<Self::Expr, AllocError>
        ensures means { is_new self → Means meaning_of
            (ops.binary_of BinaryOp.Add (meaning_of e1) (meaning_of e2)) result }
        ensures makes { IfOk result (makes_binary self BinaryOp.Add e1 e2) }
    {
        self.binary_app(alloc, BinaryOp::Add, e1, e2)
    }

    /// `e1 - e2`.
    fn sub(self, alloc: Global, e1: Self::Expr, e2: Self::Expr) -> Result<Self::Expr, AllocError>
        ensures means { is_new self → Means meaning_of
            (ops.binary_of BinaryOp.Sub (meaning_of e1) (meaning_of e2)) result }
        ensures makes { IfOk result (makes_binary self BinaryOp.Sub e1 e2) }
    {
        self.binary_app(alloc, BinaryOp::Sub, e1, e2)
    }

    /// `e1 * e2`.
    fn mul(self, alloc: Global, e1: Self::Expr, e2: Self::Expr) -> Result<Self::Expr, AllocError>
        ensures means { is_new self → Means meaning_of
            (ops.binary_of BinaryOp.Mul (meaning_of e1) (meaning_of e2)) result }
        ensures makes { IfOk result (makes_binary self BinaryOp.Mul e1 e2) }
    {
        self.binary_app(alloc, BinaryOp::Mul, e1, e2)
    }

    /// `e1 in e2`: membership in the hierarchy.
    fn is_in(self, alloc: Global, e1: Self::Expr, e2: Self::Expr) -> Result<Self::Expr, AllocError>
        ensures means { is_new self → Means meaning_of
            (ops.binary_of BinaryOp.In (meaning_of e1) (meaning_of e2)) result }
        ensures makes { IfOk result (makes_binary self BinaryOp.In e1 e2) }
    {
        self.binary_app(alloc, BinaryOp::In, e1, e2)
    }

    /// `e1.contains(e2)`: whether the set has the member.
    fn contains(
        self,
        alloc: Global,
        e1: Self::Expr,
        e2: Self::Expr,
    ) -> Result<Self::Expr, AllocError>
        ensures means { is_new self → Means meaning_of
            (ops.binary_of BinaryOp.Contains (meaning_of e1) (meaning_of e2)) result }
        ensures makes { IfOk result (makes_binary self BinaryOp.Contains e1 e2) }
    {
        self.binary_app(alloc, BinaryOp::Contains, e1, e2)
    }

    /// `e1.containsAll(e2)`: whether the first set contains the second.
    fn contains_all(
        self,
        alloc: Global,
        e1: Self::Expr,
        e2: Self::Expr,
    ) -> Result<Self::Expr, AllocError>
        ensures means { is_new self → Means meaning_of
            (ops.binary_of BinaryOp.ContainsAll (meaning_of e1) (meaning_of e2)) result }
        ensures makes { IfOk result (makes_binary self BinaryOp.ContainsAll e1 e2) }
    {
        self.binary_app(alloc, BinaryOp::ContainsAll, e1, e2)
    }

    /// `e1.containsAny(e2)`: whether the sets share a member.
    fn contains_any(
        self,
        alloc: Global,
        e1: Self::Expr,
        e2: Self::Expr,
    ) -> Result<Self::Expr, AllocError>
        ensures means { is_new self → Means meaning_of
            (ops.binary_of BinaryOp.ContainsAny (meaning_of e1) (meaning_of e2)) result }
        ensures makes { IfOk result (makes_binary self BinaryOp.ContainsAny e1 e2) }
    {
        self.binary_app(alloc, BinaryOp::ContainsAny, e1, e2)
    }

    /// `e1.getTag(e2)`: the tag of an entity.
    fn get_tag(
        self,
        alloc: Global,
        e1: Self::Expr,
        e2: Self::Expr,
    ) -> Result<Self::Expr, AllocError>
        ensures means { is_new self → Means meaning_of
            (ops.binary_of BinaryOp.GetTag (meaning_of e1) (meaning_of e2)) result }
        ensures makes { IfOk result (makes_binary self BinaryOp.GetTag e1 e2) }
    {
        self.binary_app(alloc, BinaryOp::GetTag, e1, e2)
    }

    /// `e1.hasTag(e2)`: whether an entity has the tag.
    fn has_tag(
        self,
        alloc: Global,
        e1: Self::Expr,
        e2: Self::Expr,
    ) -> Result<Self::Expr, AllocError>
        ensures means { is_new self → Means meaning_of
            (ops.binary_of BinaryOp.HasTag (meaning_of e1) (meaning_of e2)) result }
        ensures makes { IfOk result (makes_binary self BinaryOp.HasTag e1 e2) }
    {
        self.binary_app(alloc, BinaryOp::HasTag, e1, e2)
    }

    /// `!(e1 == e2)`: two nodes, of which the inner one has the builder's place and the data of
    /// a new builder.
    fn noteq(self, alloc: Global, e1: Self::Expr, e2: Self::Expr) -> Result<Self::Expr, AllocError>
        ensures means { is_new self → Means meaning_of (ops.unary_of UnaryOp.Not
            (ops.binary_of BinaryOp.Eq (meaning_of e1) (meaning_of e2))) result }
        ensures makes { IfOk result
            (MakesNegated is_new place_of kept_place makes_unary makes_binary self BinaryOp.Eq
            e1 e2) }
    {
        let inner = Self::new().with_maybe_source_loc(Loc::clone_option(alloc, self.loc())?);
        let inner = inner.is_eq(alloc, e1, e2)?;
        self.not(alloc, inner)
    }

    /// `!(e1 <= e2)`: two nodes, of which the inner one has the builder's place and the data of
    /// a new builder.
    fn greater(
        self,
        alloc: Global,
        e1: Self::Expr,
        e2: Self::Expr,
    ) -> Result<Self::Expr, AllocError>
        ensures means { is_new self → Means meaning_of (ops.unary_of UnaryOp.Not
            (ops.binary_of BinaryOp.LessEq (meaning_of e1) (meaning_of e2))) result }
        ensures makes { IfOk result
            (MakesNegated is_new place_of kept_place makes_unary makes_binary self BinaryOp.LessEq
            e1 e2) }
    {
        let inner = Self::new().with_maybe_source_loc(Loc::clone_option(alloc, self.loc())?);
        let inner = inner.lesseq(alloc, e1, e2)?;
        self.not(alloc, inner)
    }

    /// `!(e1 < e2)`: two nodes, of which the inner one has the builder's place and the data of
    /// a new builder.
    fn greatereq(
        self,
        alloc: Global,
        e1: Self::Expr,
        e2: Self::Expr,
    ) -> Result<Self::Expr, AllocError>
        ensures means { is_new self → Means meaning_of (ops.unary_of UnaryOp.Not
            (ops.binary_of BinaryOp.Less (meaning_of e1) (meaning_of e2))) result }
        ensures makes { IfOk result
            (MakesNegated is_new place_of kept_place makes_unary makes_binary self BinaryOp.Less
            e1 e2) }
    {
        let inner = Self::new().with_maybe_source_loc(Loc::clone_option(alloc, self.loc())?);
        let inner = inner.less(alloc, e1, e2)?;
        self.not(alloc, inner)
    }
}

/// A builder whose calls are never refused for a reason of its own.
pub trait ExprBuilderInfallibleBuild: ExprBuilder<BuildError = Infallible> {}

/// A builder that keeps the simplifications of Cedar's own builder: `and` and `or` of two Boolean
/// literals mean the literal of the result.
pub trait LawfulExprBuilder: ExprBuilder {
    // The laws of `and` and `or`.
    ghost lawful: { Lawful Self.ops };
}
