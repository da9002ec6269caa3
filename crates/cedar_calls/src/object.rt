//! The functions that extensions store, by the count of their arguments (`extension.rs`).
//!
//! A box of a function over values of a type parameter can't be stored, so what is stored is a type
//! of the user's own: for each count a trait says how it is called and what it may answer, and
//! `ExtensionFunctions` names these types for the extension values that they are about.
use crate::err::EvaluationError;
use crate::output_value::ExtensionOutputValue;
use cedar_values::{ExtensionValue, NoExtension, Value};
use std::alloc::Global;
use std::fmt;

/// A function of no arguments.
pub trait NullaryFunction<X>: Drop {
    ghost use Rattle.cedar_calls.specs.OutputValues.{Answer};

    // It may give this answer.
    ghost gives: { Self → Answer X → Type 0 };

    /// Calls it.
    fn call(&self, alloc: Global) -> Result<ExtensionOutputValue<X>, EvaluationError>
        ensures { gives self.now result };
}

/// A function of one argument.
pub trait UnaryFunction<X>: Drop {
    ghost use Rattle.cedar_values.specs.declared.value.Value.{Value};
    ghost use Rattle.cedar_calls.specs.OutputValues.{Answer};

    // It may give this answer to the argument.
    ghost gives: { Self → Value X → Answer X → Type 0 };

    /// Calls it.
    fn call(
        &self,
        alloc: Global,
        arg: &Value<X>,
    ) -> Result<ExtensionOutputValue<X>, EvaluationError>
        ensures { gives self.now arg.now result };
}

/// A function of two arguments.
pub trait BinaryFunction<X>: Drop {
    ghost use Rattle.cedar_values.specs.declared.value.Value.{Value};
    ghost use Rattle.cedar_calls.specs.OutputValues.{Answer};

    // It may give this answer to the arguments, in their order.
    ghost gives: { Self → Value X → Value X → Answer X → Type 0 };

    /// Calls it.
    fn call(
        &self,
        alloc: Global,
        first: &Value<X>,
        second: &Value<X>,
    ) -> Result<ExtensionOutputValue<X>, EvaluationError>
        ensures { gives self.now first.now second.now result };
}

/// A function of three arguments.
pub trait TernaryFunction<X>: Drop {
    ghost use Rattle.cedar_values.specs.declared.value.Value.{Value};
    ghost use Rattle.cedar_calls.specs.OutputValues.{Answer};

    // It may give this answer to the arguments, in their order.
    ghost gives: { Self → Value X → Value X → Value X → Answer X → Type 0 };

    /// Calls it.
    fn call(
        &self,
        alloc: Global,
        first: &Value<X>,
        second: &Value<X>,
        third: &Value<X>,
    ) -> Result<ExtensionOutputValue<X>, EvaluationError>
        ensures { gives self.now first.now second.now third.now result };
}

/// A function of a first argument and one or more further ones.
pub trait VariadicFunction<X>: Drop {
    ghost use Rattle.std.specs.Prelude.{List};
    ghost use Rattle.cedar_values.specs.declared.value.Value.{Value};
    ghost use Rattle.cedar_calls.specs.OutputValues.{Answer};

    // It may give this answer to the first argument and the further ones.
    ghost gives: { Self → Value X → List (Value X) → Answer X → Type 0 };

    /// Calls it.
    fn call(
        &self,
        alloc: Global,
        first: &Value<X>,
        rest: &[Value<X>],
    ) -> Result<ExtensionOutputValue<X>, EvaluationError>
        ensures { gives self.now first.now rest.now result };
}

/// Extension values, with the types of the functions that extensions store for them.
pub trait ExtensionFunctions: ExtensionValue + Ord {
    /// Functions of no arguments.
    type Nullary: NullaryFunction<Self>;

    /// Functions of one argument.
    type Unary: UnaryFunction<Self>;

    /// Functions of two arguments.
    type Binary: BinaryFunction<Self>;

    /// Functions of three arguments.
    type Ternary: TernaryFunction<Self>;

    /// Functions of two or more arguments.
    type Variadic: VariadicFunction<Self>;
}

/// A stored function, by the count of the arguments that it takes.
#[derive(Drop)]
pub enum ExtensionFunctionObject<X: ExtensionFunctions = NoExtension> {
    /// Of no arguments.
    Nullary(X::Nullary),
    /// Of the first of one or more arguments.
    PartialEvalUnknown(X::Unary),
    /// Of one argument.
    Unary(X::Unary),
    /// Of two arguments.
    Binary(X::Binary),
    /// Of three arguments.
    Ternary(X::Ternary),
    /// Of two or more arguments.
    Variadic(X::Variadic),
}

impl<X: ExtensionFunctions> fmt::Debug for ExtensionFunctionObject<X> {
    fn fmt<W: fmt::Write>(&self, f: &mut fmt::Formatter<W>) -> fmt::Result {
        f.write_str(match self {
            ExtensionFunctionObject::Nullary(_) => "Nullary",
            ExtensionFunctionObject::PartialEvalUnknown(_) => "PartialEvalUnknown",
            ExtensionFunctionObject::Unary(_) => "Unary",
            ExtensionFunctionObject::Binary(_) => "Binary",
            ExtensionFunctionObject::Ternary(_) => "Ternary",
            ExtensionFunctionObject::Variadic(_) => "Variadic",
        })
    }
}
