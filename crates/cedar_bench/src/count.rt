//! An extension whose values are counts, and its function `total`.
ghost use Rattle.std.specs.Prelude.{◌≡◌, IfOk, Some, codes};
ghost use Rattle.cedar_names.specs.Names.{unqualified};
ghost use Rattle.cedar_names.specs.PlainNames.{bare_name};
ghost use Rattle.cedar_terms.specs.Types.{LongType};
ghost use Rattle.cedar_builders.specs.BareExpr.{no_trees};
ghost use Rattle.cedar_calls.specs.Types.{Keeps};

use cedar_calls::{
    EvaluationError, ExtensionFunctions, ExtensionOutputValue, NoFunction, NullaryFunction,
    UnaryFunction, VariadicFunction,
};
use cedar_exprs::RestrictedExpr;
use cedar_names::{Name, ParseErrors};
use cedar_terms::Literal;
use cedar_values::{ExtensionValue, Value, ValueKind};
use std::alloc::{AllocError, Global};

/// A count, whose type and whose canonical function are `count`.
#[derive(PartialEq, Eq, PartialOrd, Ord, Drop)]
pub struct Count(pub i64);

// The name `count`.
fn count_name(alloc: Global) -> Result<Name, AllocError>
    ensures { IfOk result (λ n. bare_name n ≡ unqualified (codes "count")) }
{
    match Name::parse_unqualified_name(alloc, "count") {
        Ok(name) => Ok(name),
        Err(_) => Err(AllocError),
    }
}

/// The name of the function.
pub fn total_name(alloc: Global) -> Result<Name, ParseErrors> {
    Name::parse_unqualified_name(alloc, "total")
}

impl ExtensionValue for Count {
    ghost use Rattle.std.specs.Prelude.{[], false};

    ghost type_name = { λ _. unqualified (codes "count") };

    ghost canonical = { λ _. record { func = unqualified (codes "count"); args = no_trees } };

    ghost text_of = { λ _. [] };

    ghost is_overloadable = { λ _. false };

    fn typename(&self, alloc: Global) -> Result<Name, AllocError> {
        count_name(alloc)
    }

    fn supports_operator_overloading(&self) -> bool {
        false
    }

    fn canonical_repr(&self, alloc: Global) -> Result<(Name, Vec<RestrictedExpr>), AllocError> {
        Ok((count_name(alloc)?, Vec::new(alloc)))
    }

    fn text(&self) -> &str {
        ""
    }
}

// The number that an argument is; zero for one that is none.
fn number(arg: &Value<Count>) -> i64 {
    match arg.value_kind() {
        ValueKind::Lit(Literal::Long(n)) => *n,
        _ => 0,
    }
}

// A number as an answer.
fn answer(n: i64) -> Result<ExtensionOutputValue<Count>, EvaluationError>
    ensures { Keeps (λ _. unqualified (codes "count")) (Some LongType) result }
{
    let number = Value::new(ValueKind::Lit(Literal::Long(n)), None);
    Ok(ExtensionOutputValue::Known(number))
}

/// The sum of the arguments, of however many; it wraps around.
#[derive(Drop)]
pub struct Total;

impl NullaryFunction<Count> for Total {
    ghost gives = { λ f r. Keeps (λ _. unqualified (codes "count")) (Some LongType) r };

    fn call(&self, _alloc: Global) -> Result<ExtensionOutputValue<Count>, EvaluationError> {
        answer(0)
    }
}

impl UnaryFunction<Count> for Total {
    ghost gives = { λ f x r. Keeps (λ _. unqualified (codes "count")) (Some LongType) r };

    fn call(
        &self,
        _alloc: Global,
        arg: &Value<Count>,
    ) -> Result<ExtensionOutputValue<Count>, EvaluationError> {
        answer(number(arg))
    }
}

impl VariadicFunction<Count> for Total {
    ghost gives = { λ f x xs r. Keeps (λ _. unqualified (codes "count")) (Some LongType) r };

    fn call(
        &self,
        _alloc: Global,
        first: &Value<Count>,
        rest: &[Value<Count>],
    ) -> Result<ExtensionOutputValue<Count>, EvaluationError> {
        let mut sum = number(first);
        for arg in rest {
            sum = sum.wrapping_add(number(arg));
        }
        answer(sum)
    }
}

impl ExtensionFunctions for Count {
    type Nullary = Total;

    type Unary = Total;

    type Binary = NoFunction;

    type Ternary = NoFunction;

    type Variadic = Total;
}
