//! Substitution of unknowns by values, as a walk.
//!
//! `substitute_node` has a small function for each kind: one function would keep room for the
//! locals of all kinds.
ghost use Rattle.std.specs.Prelude.{◌≡◌, ◌≤◌, Option, Some, Ok, IfOk, [], ◌∷◌, length, map};
ghost use Rattle.std.specs.Prelude.{vec_len};
ghost use Rattle.std.specs.Rc.{rc_str_bytes};
ghost use Rattle.cedar_names.specs.PlainNames.{bare_name};
ghost use Rattle.cedar_terms.specs.Entities.{bare_entity_type};
ghost use Rattle.cedar_terms.specs.Unknowns.{bare_unknown};
ghost use Rattle.cedar_builders.specs.Answers.{Gives};
ghost use Rattle.cedar_builders.specs.BareExpr.{BareExpr};
ghost use Rattle.cedar_builders.specs.Environment.{empty, fold};
ghost use Rattle.cedar_builders.specs.Keys.{keys_of, IsAscending};
ghost use Rattle.cedar_builders.specs.NodeByNode.{OfOne, OfTwo, OfThree, keyed};
ghost use Rattle.cedar_builders.specs.Rebuilding.{checked_ops, new_or, all_new_or, renewed};
ghost use Rattle.cedar_builders.specs.Rebuilding.{IsRenewedOf, renewed_by_nodes};
ghost use Rattle.cedar_builders.specs.Trees.{tree_ops, bound_tree, substituted, sure};
ghost use Rattle.cedar_builders.specs.TypeClash.{TwoTypes, refused_binding, first_refusal};
ghost use Rattle.cedar_builders.specs.Walks.{children, members_of, values_of};
ghost use Rattle.cedar_exprs.specs.BareExpr.{bare_expr, bare_expr_kind, bare_exprs, bare_fields};
ghost use Rattle.cedar_exprs.specs.BareExpr.{further, unknown_tree};
ghost use Rattle.cedar_exprs.specs.PostOrder.{IsMade};
ghost use Rattle.cedar_exprs.specs.Refusals.{Refuses};
ghost use Rattle.cedar_exprs.specs.Substituting.{new_tree, IsRenewedOfLast};
ghost use Rattle.cedar_exprs.specs.RestrictedExprs.{env_of};

use crate::builder::ExprBuilder;
use crate::expr::{Expr, ExprKind};
use crate::restricted_expr::SubstituteValue;
use crate::substitution::function::{SubstitutionFunction, UntypedSubstitution};
use crate::walks::post_order::{PostOrder, PostOrderFault, run};
use crate::walks::results::{push_item, take_many, take_three, take_two};
use cedar_builders::laws::{built_after, restricted_rebuilt, substituted_by_fold};
use cedar_builders::{
    BuildFault, ExprBuilder as _, ExpressionConstructionError, LawfulExprBuilder,
};
use cedar_names::{Name, NonEmpty};
use cedar_terms::{BinaryOp, EntityType, Pattern, UnaryOp, Unknown};
use std::alloc::{AllocError, Global};
use std::collections::{BTreeMap, HashMap};
use std::marker::PhantomData;
use std::rc::{Rc, RcStr};

impl Expr {
    /// The expression with each unknown that `values` binds replaced by its value's expression,
    /// which is not searched for further unknowns; unknowns that are not bound stay.
    ///
    /// Literals, variables and slots keep their places, and a value's expression has the value's.
    /// Every other node of the answer is made anew and has none.
    ///
    /// ```rust
    /// let x = Expr::unknown(Unknown::new_untyped(RcStr::from_str(alloc, "x")?));
    /// let both = Expr::and(alloc, x, Expr::val(Literal::Bool(true)))?;
    /// let mut values = HashMap::new(alloc);
    /// drop(values.insert(RcStr::from_str(alloc, "x")?, Literal::Bool(false))?);
    /// let answer = both.substitute(alloc, &values)?; // the literal `false`
    /// ```
    pub fn substitute<V: SubstituteValue>(
        &self,
        alloc: Global,
        values: &HashMap<RcStr, V>,
    ) -> Result<Expr, AllocError>
        ensures { IfOk result (λ e.
            fold tree_ops (env_of V.bare_type_of V.bare_expr_of values.now) (bare_expr self.now)
            ≡ Ok (bare_expr e)) }
    {
        substituted_by_fold();
        match substitute_general::<UntypedSubstitution, V>(alloc, self, values) {
            Ok(expr) => Ok(expr),
            Err(PostOrderFault::Refused(never)) => match never {},
            Err(PostOrderFault::Memory) => Err(AllocError),
        }
    }

    /// What a builder makes of the substituted expression: what it makes of the expression itself
    /// where each unknown that `values` binds is built from its value's expression, its first error
    /// included.
    ///
    /// The program `example_builder` calls it at a builder of its own. For the struct
    /// `ExprBuilder<T>` see `into_expr`.
    pub fn substitute_into_expr<B: LawfulExprBuilder, V: SubstituteValue>(
        &self,
        alloc: Global,
        values: &HashMap<RcStr, V>,
    ) -> Result<B::Expr, BuildFault<B::BuildError>>
        ensures { Gives B.meaning_of B.fault_of
            (fold B.ops (env_of V.bare_type_of V.bare_expr_of values.now) (bare_expr self.now))
            result }
    {
        built_after::<B>();
        let substituted = self.substitute(alloc, values)?;
        substituted.try_into_expr::<B>(alloc)
    }
}

// The expression with each unknown replaced, or the first refusal.
pub(crate) fn substitute_general<S: SubstitutionFunction, V: SubstituteValue>(
    alloc: Global,
    expr: &Expr,
    values: &HashMap<RcStr, V>,
) -> Result<Expr, PostOrderFault<S::Refusal>>
    ensures tree { IfOk result (λ e.
        bare_expr e
        ≡ substituted (env_of V.bare_type_of V.bare_expr_of values.now) (bare_expr expr.now)) }
    ensures refused { Refuses S.types_of
        (first_refusal S.refuses (env_of V.bare_type_of V.bare_expr_of values.now)
        (bare_expr expr.now))
        result }
{
    let walk = Substitution::<S, V> {
        values,
        function: PhantomData,
    };
    let new = run(alloc, &walk, expr)?;
    Ok(new_or_copy(alloc, new, expr)?)
}

// Unknowns that are bound become their values' expressions.
#[derive(Drop)]
struct Substitution<'a, S, V> {
    values: &'a HashMap<RcStr, V>,
    function: PhantomData<S>,
}

// What becomes of a node.
#[derive(Drop)]
enum Substituted<'a, V> {
    // It stays as it is, and so may be shared.
    Same,
    // It is an unknown that is bound to this value, whose expression is made where it is put.
    Value(&'a V),
    // It becomes this expression.
    New(Rc<Expr>),
}

impl<'a, S: SubstitutionFunction, V: SubstituteValue> PostOrder<()> for Substitution<'a, S, V> {
    type Out = Substituted<'a, V>;

    type Refusal = S::Refusal;

    ghost Meaning = { Option BareExpr };

    ghost Fault = { TwoTypes };

    ghost meaning_of = { new_tree V.bare_expr_of };

    ghost fault_of = { S.types_of };

    ghost answer = { λ w e. renewed S.refuses (env_of V.bare_type_of V.bare_expr_of w.values.now)
        e };

    ghost is_made_of = { λ w e. IsRenewedOf S.refuses
        (env_of V.bare_type_of V.bare_expr_of w.values.now) e };

    #[inline(always)]
    fn make(
        &self,
        alloc: Global,
        node: &Expr,
        done: &mut Vec<Substituted<'a, V>>,
    ) -> Result<(), PostOrderFault<S::Refusal>> {
        let new = self.substitute_node(alloc, node, done)?;
        Ok(push_item(done, new)?)
    }

    ghost by_nodes = { λ w. renewed_by_nodes S.refuses
        (env_of V.bare_type_of V.bare_expr_of w.values.now) };
}

impl<'a, S: SubstitutionFunction, V: SubstituteValue> Substitution<'a, S, V> {
    // What becomes of a node: what became of its children is taken off the results.
    #[inline(always)]
    fn substitute_node(
        &self,
        alloc: Global,
        node: &Expr,
        done: &mut Vec<Substituted<'a, V>>,
    ) -> Result<Substituted<'a, V>, PostOrderFault<S::Refusal>>
        requires { length (children (bare_expr node.now)) ≤ vec_len done.old }
        ensures { IsMade (new_tree V.bare_expr_of) S.types_of
            (IsRenewedOf S.refuses (env_of V.bare_type_of V.bare_expr_of self.now.values.now)
            (bare_expr node.now))
            (length (children (bare_expr node.now))) done.old.items done.new.items result }
    {
        match node.expr_kind() {
            ExprKind::Lit(_) => Ok(Substituted::Same),
            ExprKind::Var(_) => Ok(Substituted::Same),
            ExprKind::Slot(_) => Ok(Substituted::Same),
            ExprKind::Unknown(unknown) => Ok(replace::<S, V>(alloc, unknown, self.values)?),
            ExprKind::If {
                test_expr,
                then_expr,
                else_expr,
            } => Ok(Substituted::New(substitute_if(alloc, test_expr, then_expr, else_expr, done)?)),
            ExprKind::And { left, right } => Ok(Substituted::New(substitute_and(
                alloc, left, right, done,
            )?)),
            ExprKind::Or { left, right } => Ok(Substituted::New(substitute_or(
                alloc, left, right, done,
            )?)),
            ExprKind::UnaryApp { op, arg } => Ok(Substituted::New(substitute_unary(
                alloc, *op, arg, done,
            )?)),
            ExprKind::BinaryApp { op, arg1, arg2 } => {
                Ok(Substituted::New(substitute_binary(alloc, *op, arg1, arg2, done)?))
            }
            ExprKind::ExtensionFunctionApp { fn_name, args } => {
                Ok(Substituted::New(substitute_call(alloc, fn_name, args, done)?))
            }
            ExprKind::GetAttr { expr, attr } => Ok(Substituted::New(substitute_get(
                alloc, expr, attr, done,
            )?)),
            ExprKind::HasAttr { expr, attrs } => Ok(Substituted::New(substitute_has(
                alloc, expr, attrs, done,
            )?)),
            ExprKind::Like { expr, pattern } => {
                Ok(Substituted::New(substitute_like(alloc, expr, pattern, done)?))
            }
            ExprKind::Set(members) => Ok(Substituted::New(substitute_set(alloc, members, done)?)),
            ExprKind::Record(pairs) => Ok(Substituted::New(substitute_record(alloc, pairs, done)?)),
            ExprKind::Is { expr, entity_type } => {
                Ok(Substituted::New(substitute_is(alloc, expr, entity_type, done)?))
            }
        }
    }
}

// The value that an unknown is bound to, else the unknown, made anew.
#[inline(never)]
fn replace<'a, S: SubstitutionFunction, V: SubstituteValue>(
    alloc: Global,
    unknown: &Unknown,
    values: &'a HashMap<RcStr, V>,
) -> Result<Substituted<'a, V>, PostOrderFault<S::Refusal>>
    ensures tree { IfOk result (λ new.
        new_tree V.bare_expr_of new
        ≡ Some (bound_tree
        (env_of V.bare_type_of V.bare_expr_of values.now
        (rc_str_bytes unknown.now.name))
        (unknown_tree (bare_unknown unknown.now)))) }
    ensures refused { Refuses S.types_of
        (refused_binding S.refuses (bare_unknown unknown.now).annotation
        (env_of V.bare_type_of V.bare_expr_of values.now (rc_str_bytes unknown.now.name)))
        result }
{
    match values.get(unknown.name.as_str()) {
        Some(value) => {
            S::check(alloc, unknown, value)?;
            Ok(Substituted::Value(value))
        }
        None => {
            let unknown = Expr::unknown(unknown.clone(alloc)?);
            Ok(Substituted::New(Rc::new(alloc, unknown)?))
        }
    }
}

// The expression of a value, to be shared.
#[inline(never)]
fn shared_expr_of<V: SubstituteValue>(alloc: Global, value: &V) -> Result<Rc<Expr>, AllocError>
    ensures { IfOk result (λ e.
        bare_expr e.value ≡ sure (fold tree_ops empty (V.bare_expr_of value.now))) }
{
    Ok(Rc::new(alloc, expr_of(alloc, value)?)?)
}

// The expression of a value.
fn expr_of<V: SubstituteValue>(alloc: Global, value: &V) -> Result<Expr, AllocError>
    ensures { IfOk result (λ e.
        bare_expr e ≡ sure (fold tree_ops empty (V.bare_expr_of value.now))) }
{
    restricted_rebuilt();
    Ok(value.value_expr(alloc)?.into_expr())
}

// The new expression of a child, else the child, which is shared.
fn new_or_shared<V: SubstituteValue>(
    alloc: Global,
    new: Substituted<'_, V>,
    child: &Rc<Expr>,
) -> Result<Rc<Expr>, AllocError>
    ensures { IfOk result (λ e.
        bare_expr e.value
        ≡ new_or (bare_expr child.now.value) (new_tree V.bare_expr_of new.entry)) }
{
    match new {
        Substituted::Same => child.clone(),
        Substituted::Value(value) => shared_expr_of(alloc, value),
        Substituted::New(new) => Ok(new),
    }
}

// The new expression of a member, else a copy of the member.
#[inline(always)]
fn new_or_copy<V: SubstituteValue>(
    alloc: Global,
    new: Substituted<'_, V>,
    member: &Expr,
) -> Result<Expr, AllocError>
    ensures { IfOk result (λ e.
        bare_expr e ≡ new_or (bare_expr member.now) (new_tree V.bare_expr_of new.entry)) }
{
    match new {
        Substituted::Same => member.clone(alloc),
        Substituted::Value(value) => expr_of(alloc, value),
        Substituted::New(new) => owned(alloc, new),
    }
}

// What a pointer holds, or a copy of it where it is shared.
fn owned(alloc: Global, expr: Rc<Expr>) -> Result<Expr, AllocError>
    ensures { IfOk result (λ e. bare_expr e ≡ bare_expr expr.value) }
{
    match Rc::try_unwrap(expr) {
        Ok(owned) => Ok(owned),
        Err(shared) => Expr::clone(&shared, alloc),
    }
}

// A node with no place.
fn node(alloc: Global, expr_kind: ExprKind<()>) -> Result<Rc<Expr>, AllocError>
    ensures { IfOk result (λ e. bare_expr e.value ≡ bare_expr_kind expr_kind) }
{
    Ok(Rc::new(alloc, ExprBuilder::new().with_expr_kind(expr_kind))?)
}

#[inline(never)]
fn substitute_if<V: SubstituteValue>(
    alloc: Global,
    test_expr: &Rc<Expr>,
    then_expr: &Rc<Expr>,
    else_expr: &Rc<Expr>,
    done: &mut Vec<Substituted<'_, V>>,
) -> Result<Rc<Expr>, AllocError>
    requires { 3 ≤ vec_len done.old }
    ensures { IfOk result
        (IsRenewedOfLast V.bare_expr_of
        (bare_expr test_expr.now.value ∷ bare_expr then_expr.now.value
        ∷ bare_expr else_expr.now.value ∷ [])
        (OfThree checked_ops.if_of) done.old.items done.new.items) }
{
    let (new_test, new_then, new_else) = take_three(done);
    let test_expr = new_or_shared(alloc, new_test, test_expr)?;
    let then_expr = new_or_shared(alloc, new_then, then_expr)?;
    let else_expr = new_or_shared(alloc, new_else, else_expr)?;
    Ok(Rc::new(alloc, Expr::ite_arc(test_expr, then_expr, else_expr))?)
}

#[inline(never)]
fn substitute_and<V: SubstituteValue>(
    alloc: Global,
    left: &Rc<Expr>,
    right: &Rc<Expr>,
    done: &mut Vec<Substituted<'_, V>>,
) -> Result<Rc<Expr>, AllocError>
    requires { 2 ≤ vec_len done.old }
    ensures { IfOk result
        (IsRenewedOfLast V.bare_expr_of
        (bare_expr left.now.value ∷ bare_expr right.now.value ∷ [])
        (OfTwo checked_ops.and_of) done.old.items done.new.items) }
{
    let (new_left, new_right) = take_two(done);
    let left = new_or_shared(alloc, new_left, left)?;
    let right = new_or_shared(alloc, new_right, right)?;
    Ok(Rc::new(alloc, ExprBuilder::new().and_arc(left, right))?)
}

#[inline(never)]
fn substitute_or<V: SubstituteValue>(
    alloc: Global,
    left: &Rc<Expr>,
    right: &Rc<Expr>,
    done: &mut Vec<Substituted<'_, V>>,
) -> Result<Rc<Expr>, AllocError>
    requires { 2 ≤ vec_len done.old }
    ensures { IfOk result
        (IsRenewedOfLast V.bare_expr_of
        (bare_expr left.now.value ∷ bare_expr right.now.value ∷ [])
        (OfTwo checked_ops.or_of) done.old.items done.new.items) }
{
    let (new_left, new_right) = take_two(done);
    let left = new_or_shared(alloc, new_left, left)?;
    let right = new_or_shared(alloc, new_right, right)?;
    Ok(Rc::new(alloc, ExprBuilder::new().or_arc(left, right))?)
}

#[inline(never)]
fn substitute_unary<V: SubstituteValue>(
    alloc: Global,
    op: UnaryOp,
    arg: &Rc<Expr>,
    done: &mut Vec<Substituted<'_, V>>,
) -> Result<Rc<Expr>, AllocError>
    requires { 1 ≤ vec_len done.old }
    ensures { IfOk result
        (IsRenewedOfLast V.bare_expr_of (bare_expr arg.now.value ∷ [])
        (OfOne (checked_ops.unary_of op))
        done.old.items done.new.items) }
{
    let arg = new_or_shared(alloc, done.take_last(), arg)?;
    node(alloc, ExprKind::UnaryApp { op, arg })
}

#[inline(never)]
fn substitute_binary<V: SubstituteValue>(
    alloc: Global,
    op: BinaryOp,
    arg1: &Rc<Expr>,
    arg2: &Rc<Expr>,
    done: &mut Vec<Substituted<'_, V>>,
) -> Result<Rc<Expr>, AllocError>
    requires { 2 ≤ vec_len done.old }
    ensures { IfOk result
        (IsRenewedOfLast V.bare_expr_of
        (bare_expr arg1.now.value ∷ bare_expr arg2.now.value ∷ [])
        (OfTwo (checked_ops.binary_of op)) done.old.items done.new.items) }
{
    let (new1, new2) = take_two(done);
    let arg1 = new_or_shared(alloc, new1, arg1)?;
    let arg2 = new_or_shared(alloc, new2, arg2)?;
    node(alloc, ExprKind::BinaryApp { op, arg1, arg2 })
}

#[inline(never)]
fn substitute_call<V: SubstituteValue>(
    alloc: Global,
    fn_name: &Name,
    args: &Vec<Expr>,
    done: &mut Vec<Substituted<'_, V>>,
) -> Result<Rc<Expr>, AllocError>
    requires { length args.now.items ≤ vec_len done.old }
    ensures { IfOk result
        (IsRenewedOfLast V.bare_expr_of (members_of (bare_exprs args.now.items))
        (λ ts r. r ≡ checked_ops.call_of (bare_name fn_name.now) ts)
        done.old.items done.new.items) }
{
    let args = substitute_members(alloc, args, take_many(done, args.len())?)?;
    Ok(Rc::new(
        alloc,
        Expr::call_extension_fn(alloc, fn_name.clone(alloc)?, args)?,
    )?)
}

#[inline(never)]
fn substitute_get<V: SubstituteValue>(
    alloc: Global,
    expr: &Rc<Expr>,
    attr: &RcStr,
    done: &mut Vec<Substituted<'_, V>>,
) -> Result<Rc<Expr>, AllocError>
    requires { 1 ≤ vec_len done.old }
    ensures { IfOk result
        (IsRenewedOfLast V.bare_expr_of (bare_expr expr.now.value ∷ [])
        (OfOne (λ m. checked_ops.get_of m (rc_str_bytes attr.now)))
        done.old.items done.new.items) }
{
    let expr = new_or_shared(alloc, done.take_last(), expr)?;
    let attr = attr.clone()?;
    node(alloc, ExprKind::GetAttr { expr, attr })
}

#[inline(never)]
fn substitute_has<V: SubstituteValue>(
    alloc: Global,
    expr: &Rc<Expr>,
    attrs: &NonEmpty<RcStr>,
    done: &mut Vec<Substituted<'_, V>>,
) -> Result<Rc<Expr>, AllocError>
    requires { 1 ≤ vec_len done.old }
    ensures { IfOk result
        (IsRenewedOfLast V.bare_expr_of (bare_expr expr.now.value ∷ [])
        (OfOne (λ m. checked_ops.has_of m (rc_str_bytes attrs.now.head) (further attrs.now)))
        done.old.items done.new.items) }
{
    let expr = new_or_shared(alloc, done.take_last(), expr)?;
    let attrs = attrs.clone(alloc)?;
    node(alloc, ExprKind::HasAttr { expr, attrs })
}

#[inline(never)]
fn substitute_like<V: SubstituteValue>(
    alloc: Global,
    expr: &Rc<Expr>,
    pattern: &Pattern,
    done: &mut Vec<Substituted<'_, V>>,
) -> Result<Rc<Expr>, AllocError>
    requires { 1 ≤ vec_len done.old }
    ensures { IfOk result
        (IsRenewedOfLast V.bare_expr_of (bare_expr expr.now.value ∷ [])
        (OfOne (λ m. checked_ops.like_of m pattern.now)) done.old.items done.new.items) }
{
    let expr = new_or_shared(alloc, done.take_last(), expr)?;
    let pattern = pattern.clone(alloc)?;
    node(alloc, ExprKind::Like { expr, pattern })
}

#[inline(never)]
fn substitute_set<V: SubstituteValue>(
    alloc: Global,
    members: &Vec<Expr>,
    done: &mut Vec<Substituted<'_, V>>,
) -> Result<Rc<Expr>, AllocError>
    requires { length members.now.items ≤ vec_len done.old }
    ensures { IfOk result
        (IsRenewedOfLast V.bare_expr_of (members_of (bare_exprs members.now.items))
        (λ ts r. r ≡ Ok (checked_ops.set_of ts)) done.old.items done.new.items) }
{
    let members = substitute_members(alloc, members, take_many(done, members.len())?)?;
    Ok(Rc::new(alloc, Expr::set(alloc, members)?)?)
}

#[inline(never)]
fn substitute_record<V: SubstituteValue>(
    alloc: Global,
    pairs: &BTreeMap<RcStr, Expr>,
    done: &mut Vec<Substituted<'_, V>>,
) -> Result<Rc<Expr>, AllocError>
    requires { length pairs.now.entries ≤ vec_len done.old }
    ensures { IfOk result
        (IsRenewedOfLast V.bare_expr_of (values_of (bare_fields pairs.now.entries))
        (λ ts r. r ≡ Ok (checked_ops.record_of (keyed (bare_fields pairs.now.entries) ts)))
        done.old.items done.new.items) }
{
    let pairs = substitute_values(alloc, pairs, take_many(done, pairs.len())?)?;
    match ExprBuilder::new().record(alloc, pairs) {
        Ok(record) => Ok(Rc::new(alloc, record)?),
        Err(ExpressionConstructionError::Memory) => Err(AllocError),
        // The keys of a map ascend, and the builder accepts such pairs.
        Err(ExpressionConstructionError::DuplicateKey(_)) => unreachable!(),
    }
}

#[inline(never)]
fn substitute_is<V: SubstituteValue>(
    alloc: Global,
    expr: &Rc<Expr>,
    entity_type: &EntityType,
    done: &mut Vec<Substituted<'_, V>>,
) -> Result<Rc<Expr>, AllocError>
    requires { 1 ≤ vec_len done.old }
    ensures { IfOk result
        (IsRenewedOfLast V.bare_expr_of (bare_expr expr.now.value ∷ [])
        (OfOne (λ m. checked_ops.is_of m (bare_entity_type entity_type.now)))
        done.old.items done.new.items) }
{
    let expr = new_or_shared(alloc, done.take_last(), expr)?;
    let entity_type = entity_type.clone(alloc)?;
    node(alloc, ExprKind::Is { expr, entity_type })
}

// The members, each renewed.
fn substitute_members<V: SubstituteValue>(
    alloc: Global,
    members: &Vec<Expr>,
    new: Vec<Substituted<'_, V>>,
) -> Result<Vec<Expr>, AllocError>
    requires { length new.items ≡ length members.now.items }
    ensures { IfOk result (λ es.
        map bare_expr es.items
        ≡ all_new_or (map bare_expr members.now.items)
        (map (new_tree V.bare_expr_of) new.entry.items)) }
{
    let mut done = Vec::with_capacity(alloc, members.len())?;
    let mut rest = new.into_iter();
    for member in members {
        match rest.next() {
            Some(new) => done.push_reserved(new_or_copy(alloc, new, member)?),
            None => unreachable!(),
        }
    }
    Ok(done)
}

// The keys of a record, each with its value renewed.
fn substitute_values<V: SubstituteValue>(
    alloc: Global,
    pairs: &BTreeMap<RcStr, Expr>,
    new: Vec<Substituted<'_, V>>,
) -> Result<Vec<(RcStr, Expr)>, AllocError>
    requires { length new.items ≡ length pairs.now.entries }
    ensures keys { IfOk result (λ ps. keys_of ps.items ≡ keys_of pairs.now.entries) }
    ensures values { IfOk result (λ ps.
        map bare_expr (map (λ p. p.1) ps.items)
        ≡ all_new_or (map (λ p. bare_expr p.1) pairs.now.entries)
        (map (new_tree V.bare_expr_of) new.entry.items)) }
    ensures ascending { IfOk result (λ ps. IsAscending (keys_of ps.items)) }
{
    let mut done = Vec::with_capacity(alloc, pairs.len())?;
    let mut rest = new.into_iter();
    for (key, value) in pairs.iter() {
        match rest.next() {
            Some(new) => {
                let value = new_or_copy(alloc, new, value)?;
                done.push_reserved((key.clone()?, value))
            }
            None => unreachable!(),
        }
    }
    Ok(done)
}
