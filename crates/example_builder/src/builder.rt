//! A builder of the example's own: what it makes of an expression is the list of the names of the
//! unknowns that stand in it.
ghost use Rattle.std.specs.Prelude.{◌≡◌, List, map, IfOk, IfErr, Err, None, ⊤, refl};
ghost use Rattle.cedar_ast.specs.Names.{BareName};
ghost use Rattle.cedar_ast.specs.PlainNames.{bare_name};
ghost use Rattle.cedar_ast.specs.Answers.{Gives};
ghost use Rattle.cedar_ast.specs.BareExpr.{Text};
ghost use Rattle.cedar_ast.specs.Errors.{OnDuplicateKey};
ghost use Rattle.cedar_ast.specs.Keys.{keys_of, meant_pairs, IsAscending, HasRepeat};
ghost use Rattle.cedar_ast.specs.Construction as error;
ghost use Rattle.example_builder.specs.UnknownNames.{texts_of, unknown_names_ops};

use crate::names::{CallRefused, Names};
use cedar_ast::expr_builder::ExprBuilder;
use cedar_ast::{
    BinaryOp, BuildFault, EntityType, ExpressionConstructionError, LawfulExprBuilder, Literal, Loc,
    Name, NonEmpty, Pattern, SlotId, UnaryOp, Unknown, Var,
};
use std::alloc::{AllocError, Global};
use std::rc::RcStr;

/// The builder: of `x < 2 && y == x` it makes the names `x`, `y`, `x`.
#[derive(Debug, Drop)]
pub struct UnknownNames;

impl ExprBuilder for UnknownNames {
    type Expr = Names;

    type Data = ();

    type BuildError = CallRefused;

    // An expression means the texts of its unknowns' names.
    ghost Meaning = { List Text };

    // An error means the name of the function, without its place.
    ghost Fault = { BareName };

    // What each kind of node means, from what its children mean.
    ghost ops = { unknown_names_ops };

    // The meaning of what the calls below make.
    ghost meaning_of = { texts_of };

    // The meaning of the error of `call_extension_fn`.
    ghost fault_of = { λ refused. bare_name refused.fn_name };

    // The other ghost members have defaults, which suit a builder that says no more than meanings:
    // `is_new`, `place_of`, `kept_place`, `makes_unary` and `makes_binary`.

    fn new() -> UnknownNames {
        UnknownNames
    }

    fn with_data(_data: ()) -> UnknownNames {
        UnknownNames
    }

    fn loc(&self) -> Option<&Loc> {
        None
    }

    fn data(&self) -> &() {
        &()
    }

    fn with_maybe_source_loc(self, _source_loc: Option<Loc>) -> UnknownNames {
        self
    }

    fn val(self, alloc: Global, _literal: Literal) -> Result<Names, AllocError> {
        Ok(Names::none(alloc))
    }

    fn var(self, alloc: Global, _var: Var) -> Result<Names, AllocError> {
        Ok(Names::none(alloc))
    }

    fn slot(self, alloc: Global, _slot: SlotId) -> Result<Names, AllocError> {
        Ok(Names::none(alloc))
    }

    fn unknown(self, alloc: Global, unknown: Unknown) -> Result<Names, AllocError> {
        let name = unknown.name.clone()?;
        Ok(Names {
            names: vec![in alloc; name]?,
        })
    }

    fn ite(
        self,
        _alloc: Global,
        test_expr: Names,
        then_expr: Names,
        else_expr: Names,
    ) -> Result<Names, AllocError> {
        test_expr.join(then_expr.join(else_expr)?)
    }

    fn and(self, _alloc: Global, left: Names, right: Names) -> Result<Names, AllocError> {
        left.join(right)
    }

    fn or(self, _alloc: Global, left: Names, right: Names) -> Result<Names, AllocError> {
        left.join(right)
    }

    fn unary_app(self, _alloc: Global, _op: UnaryOp, arg: Names) -> Result<Names, AllocError> {
        Ok(arg)
    }

    fn binary_app(
        self,
        _alloc: Global,
        _op: BinaryOp,
        arg1: Names,
        arg2: Names,
    ) -> Result<Names, AllocError> {
        arg1.join(arg2)
    }

    fn call_extension_fn(
        self,
        _alloc: Global,
        fn_name: Name,
        _args: Vec<Names>,
    ) -> Result<Names, BuildFault<CallRefused>>
        ensures { Gives texts_of (λ (refused : CallRefused). bare_name refused.fn_name)
            (Err (bare_name fn_name)) result }
    {
        Err(BuildFault::Build(CallRefused { fn_name }))
    }

    fn get_attr(self, _alloc: Global, expr: Names, _attr: RcStr) -> Result<Names, AllocError> {
        Ok(expr)
    }

    fn extended_has_attr(
        self,
        _alloc: Global,
        expr: Names,
        _attrs: NonEmpty<RcStr>,
    ) -> Result<Names, AllocError> {
        Ok(expr)
    }

    fn like(self, _alloc: Global, expr: Names, _pattern: Pattern) -> Result<Names, AllocError> {
        Ok(expr)
    }

    fn is_entity_type(
        self,
        _alloc: Global,
        expr: Names,
        _entity_type: EntityType,
    ) -> Result<Names, AllocError> {
        Ok(expr)
    }

    // Of `call_extension_fn`, `set` and `record`, which take a vector, the trait's clauses are
    // written again in the builder's own words.
    fn set(self, alloc: Global, members: Vec<Names>) -> Result<Names, AllocError>
        ensures { IfOk result (λ found.
            texts_of found ≡ unknown_names_ops.set_of (map texts_of members.items)) }
    {
        let mut all = Names::none(alloc);
        for member in members {
            all = all.join(member)?;
        }
        Ok(all)
    }

    fn record(
        self,
        alloc: Global,
        pairs: Vec<(RcStr, Names)>,
    ) -> Result<Names, ExpressionConstructionError>
        ensures means { IsAscending (keys_of pairs.items) → IfOk result (λ found.
            texts_of found ≡ unknown_names_ops.record_of (meant_pairs texts_of pairs.items)) }
        ensures accepts { IsAscending (keys_of pairs.items) → IfErr result (λ e. e ≡ error.Memory) }
        ensures refuses { IfErr result (OnDuplicateKey (λ _. HasRepeat (keys_of pairs.items))) }
    {
        let mut all = Names::none(alloc);
        for (_key, value) in pairs {
            all = all.join(value)?;
        }
        Ok(all)
    }
}

// The laws hold by computation: literals give no names, so neither does what joins them.
impl LawfulExprBuilder for UnknownNames {
    ghost lawful = { record {
      and_of_literals = λ a b. refl;
      or_of_literals = λ a b. refl;
    } };
}
