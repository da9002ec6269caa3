//! A builder of one's own: what it makes of an expression is how deep its tree is.
ghost use Rattle.std.specs.Prelude.{◌≡◌, ℕ, List, map, IfOk, IfErr, Ok};
ghost use Rattle.cedar_ast.specs.PlainNames.{bare_name};
ghost use Rattle.cedar_ast.specs.Answers.{Gives, never};
ghost use Rattle.cedar_ast.specs.Environment.{empty, fold};
ghost use Rattle.cedar_ast.specs.Errors.{OnDuplicateKey};
ghost use Rattle.cedar_ast.specs.Exprs.{bare_expr};
ghost use Rattle.cedar_ast.specs.Keys.{keys_of, meant_pairs, IsAscending, HasRepeat};
ghost use Rattle.cedar_ast.specs.Construction as error;
ghost use Rattle.example_policy_text.specs.TreeDepth.{above, deepest, depth_ops};

use cedar_ast::expr_builder::ExprBuilder;
use cedar_ast::{
    BinaryOp, BuildFault, EntityType, Expr, ExprBuilderInfallibleBuild,
    ExpressionConstructionError, Literal, Loc, Name, NonEmpty, Pattern, SlotId, UnaryOp, Unknown,
    Var,
};
use std::alloc::{AllocError, Global};
use std::convert::Infallible;
use std::rc::RcStr;

/// How deep the tree of the expression is: a leaf is 1 deep.
pub fn depth_of(alloc: Global, expr: &Expr) -> Result<usize, AllocError>
    ensures { IfOk result (λ depth. fold depth_ops empty (bare_expr expr.now) ≡ Ok depth) }
{
    expr.into_expr::<TreeDepth>(alloc)
}

/// The builder: of `x < 2 && y == x` it makes 3.
///
/// It is not lawful: `true && false` is two deep, and `false` one.
#[derive(Debug, Drop)]
pub struct TreeDepth;

impl ExprBuilder for TreeDepth {
    type Expr = usize;

    type Data = ();

    type BuildError = Infallible;

    ghost Meaning = { ℕ };

    ghost Fault = { ⊥ };

    ghost ops = { depth_ops };

    ghost meaning_of = { λ depth. depth };

    ghost fault_of = { never };

    fn new() -> TreeDepth {
        TreeDepth
    }

    fn with_data(_data: ()) -> TreeDepth {
        TreeDepth
    }

    fn loc(&self) -> Option<&Loc> {
        None
    }

    fn data(&self) -> &() {
        &()
    }

    fn with_maybe_source_loc(self, _source_loc: Option<Loc>) -> TreeDepth {
        self
    }

    fn val(self, _alloc: Global, _literal: Literal) -> Result<usize, AllocError> {
        Ok(1)
    }

    fn var(self, _alloc: Global, _var: Var) -> Result<usize, AllocError> {
        Ok(1)
    }

    fn slot(self, _alloc: Global, _slot: SlotId) -> Result<usize, AllocError> {
        Ok(1)
    }

    fn unknown(self, _alloc: Global, _unknown: Unknown) -> Result<usize, AllocError> {
        Ok(1)
    }

    fn ite(
        self,
        _alloc: Global,
        test_expr: usize,
        then_expr: usize,
        else_expr: usize,
    ) -> Result<usize, AllocError> {
        Ok(one_above(test_expr.max(then_expr.max(else_expr))))
    }

    fn and(self, _alloc: Global, left: usize, right: usize) -> Result<usize, AllocError> {
        Ok(one_above(left.max(right)))
    }

    fn or(self, _alloc: Global, left: usize, right: usize) -> Result<usize, AllocError> {
        Ok(one_above(left.max(right)))
    }

    fn unary_app(self, _alloc: Global, _op: UnaryOp, arg: usize) -> Result<usize, AllocError> {
        Ok(one_above(arg))
    }

    fn binary_app(
        self,
        _alloc: Global,
        _op: BinaryOp,
        arg1: usize,
        arg2: usize,
    ) -> Result<usize, AllocError> {
        Ok(one_above(arg1.max(arg2)))
    }

    fn call_extension_fn(
        self,
        _alloc: Global,
        fn_name: Name,
        args: Vec<usize>,
    ) -> Result<usize, BuildFault<Infallible>>
        ensures { Gives (λ depth. depth) never
            (depth_ops.call_of (bare_name fn_name) (map (λ depth. depth) args.items)) result }
    {
        drop(fn_name);
        Ok(one_above(greatest(args)))
    }

    fn get_attr(self, _alloc: Global, expr: usize, _attr: RcStr) -> Result<usize, AllocError> {
        Ok(one_above(expr))
    }

    fn extended_has_attr(
        self,
        _alloc: Global,
        expr: usize,
        _attrs: NonEmpty<RcStr>,
    ) -> Result<usize, AllocError> {
        Ok(one_above(expr))
    }

    fn like(self, _alloc: Global, expr: usize, _pattern: Pattern) -> Result<usize, AllocError> {
        Ok(one_above(expr))
    }

    fn is_entity_type(
        self,
        _alloc: Global,
        expr: usize,
        _entity_type: EntityType,
    ) -> Result<usize, AllocError> {
        Ok(one_above(expr))
    }

    // Of `call_extension_fn`, `set` and `record`, which take a vector, the trait's clauses are
    // written again in the builder's own words.
    fn set(self, _alloc: Global, members: Vec<usize>) -> Result<usize, AllocError>
        ensures { IfOk result (λ depth.
            depth ≡ depth_ops.set_of (map (λ depth. depth) members.items)) }
    {
        Ok(one_above(greatest(members)))
    }

    fn record(
        self,
        _alloc: Global,
        pairs: Vec<(RcStr, usize)>,
    ) -> Result<usize, ExpressionConstructionError>
        ensures means { IsAscending (keys_of pairs.items) → IfOk result (λ depth.
            depth ≡ depth_ops.record_of (meant_pairs (λ depth. depth) pairs.items)) }
        ensures accepts { IsAscending (keys_of pairs.items) → IfErr result (λ e. e ≡ error.Memory) }
        ensures refuses { IfErr result (OnDuplicateKey (λ _. HasRepeat (keys_of pairs.items))) }
    {
        let mut greatest: usize = 0;
        for (_key, depth) in pairs {
            greatest = greatest.max(depth);
        }
        Ok(one_above(greatest))
    }
}

impl ExprBuilderInfallibleBuild for TreeDepth {}

// The depth of a node whose deepest child is this deep.
fn one_above(depth: usize) -> usize
    ensures { result ≡ above depth }
{
    depth.saturating_add(1)
}

// The greatest of the depths, 0 if there are none.
fn greatest(depths: Vec<usize>) -> usize
    ensures { result ≡ deepest depths.items }
{
    let mut greatest: usize = 0;
    for depth in depths {
        greatest = greatest.max(depth);
    }
    greatest
}
