//! Tables of the extension functions that conditions may call, as the evaluator asks them.
use cedar_evaluator::EvalFault;
use cedar_names::Name;
use cedar_values::{Value, WellFormedValue};
use std::alloc::{AllocError, Global};
use std::cmp::Ordering;

/// A function that conditions may call.
pub trait CallableFunction<X: Ord> {
    ghost use Rattle.std.specs.Prelude.{◌≡◌, IfOk, IsTrue, List, Result, map};
    ghost use Rattle.std.specs.List.{list_all};
    ghost use Rattle.semantics_values.specs.BareValue.{BareValue};
    ghost use Rattle.semantics_eval.specs.Outcomes.{Mistake, settled};
    ghost use Rattle.cedar_values.specs.BareValues.{bare_value};
    ghost use Rattle.cedar_values.specs.WellFormed.{well_formed};
    ghost use Rattle.cedar_request.specs.Calls.{answered};

    // What it gives.
    ghost gives: { Self → List (BareValue X) → Result (BareValue X) Mistake };

    /// What it makes of well formed arguments: a value, or any fault but `Open`.
    fn call(
        &self,
        alloc: Global,
        args: &[Value<X>],
    ) -> Result<Result<WellFormedValue<X>, EvalFault>, AllocError>
        requires { IsTrue (list_all (well_formed X.cmp) args.now) }
        ensures { IfOk result (λ answer.
            answered answer ≡ settled (gives self.now (map bare_value args.now))) };
}

/// A table of functions by their names, which knows how extension values compare.
pub trait CallableFunctions<X: Ord> {
    ghost use Rattle.std.specs.Prelude.{◌≡◌, option_map};
    ghost use Rattle.cedar_names.specs.PlainNames.{bare_name};
    ghost use Rattle.semantics_request.specs.Requests.{Functions};

    /// What it holds for a name.
    type Function: CallableFunction<X> + Drop;

    // What it means.
    ghost bare_functions: { Self → Functions X };

    /// The function of a name, if there is one.
    fn func(&self, name: &Name) -> Option<Self::Function>
        ensures { option_map Self.Function.gives result
            ≡ (bare_functions self.now).call (bare_name name.now) };

    /// How `<` and `<=` compare two extension values, if they may.
    fn compare(&self, left: &X, right: &X) -> Option<Ordering>
        ensures { result ≡ (bare_functions self.now).compare left.now right.now };
}

/// The table that has no function: each call is refused, and no extension values compare.
#[derive(Debug, Drop)]
pub struct NoFunctions;

/// A function of the empty table, which hands out none.
#[derive(Debug, Drop)]
pub struct NoFunction;

impl<X: Ord> CallableFunction<X> for NoFunction {
    ghost use Rattle.std.specs.Prelude.{Err};
    ghost use Rattle.semantics_eval.specs.Outcomes.{WrongType};

    ghost gives = { λ _ _. Err WrongType };

    fn call(
        &self,
        _alloc: Global,
        _args: &[Value<X>],
    ) -> Result<Result<WellFormedValue<X>, EvalFault>, AllocError> {
        Ok(Err(EvalFault::WrongType))
    }
}

impl<X: Ord> CallableFunctions<X> for NoFunctions {
    ghost use Rattle.std.specs.Prelude.{None};

    type Function = NoFunction;

    ghost bare_functions = { λ _. record { call = λ _. None; compare = λ _ _. None } };

    fn func(&self, _name: &Name) -> Option<NoFunction> {
        None
    }

    fn compare(&self, _left: &X, _right: &X) -> Option<Ordering> {
        None
    }
}
