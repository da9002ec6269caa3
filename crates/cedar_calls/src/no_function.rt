//! No function, for the counts of arguments at which an extension has none.
use crate::err::EvaluationError;
use crate::object::{
    BinaryFunction, NullaryFunction, TernaryFunction, UnaryFunction, VariadicFunction,
};
use crate::output_value::ExtensionOutputValue;
use cedar_names::Name;
use cedar_values::Value;
use std::alloc::Global;
use std::convert::Infallible;
use std::rc::RcStr;

/// A function that refuses each call with a name and a message, beside a `T`.
#[derive(Debug, Drop)]
pub struct Refuser<T> {
    held: T,
    name: Name,
    message: RcStr,
}

/// What an extension type names where it has no function of some count of arguments.
pub type NoFunction = Refuser<Infallible>;

impl<T> Refuser<T> {
    ghost use Rattle.cedar_calls.specs.Refusals.{IsRefusalOf};

    // Its refusal.
    fn refusal(&self, alloc: Global) -> EvaluationError
        ensures { IsRefusalOf self.now result }
    {
        match self.name.clone(alloc) {
            Ok(name) => match self.message.clone() {
                Ok(message) => EvaluationError::Function { name, message },
                Err(e) => EvaluationError::from(e),
            },
            Err(e) => EvaluationError::from(e),
        }
    }
}

impl<T: Drop, X> NullaryFunction<X> for Refuser<T> {
    ghost use Rattle.cedar_calls.specs.Refusals.{Refuses};

    ghost gives = { λ f r. Refuses f r };

    fn call(&self, alloc: Global) -> Result<ExtensionOutputValue<X>, EvaluationError> {
        Err(self.refusal(alloc))
    }
}

impl<T: Drop, X> UnaryFunction<X> for Refuser<T> {
    ghost use Rattle.cedar_calls.specs.Refusals.{Refuses};

    ghost gives = { λ f x r. Refuses f r };

    fn call(
        &self,
        alloc: Global,
        _arg: &Value<X>,
    ) -> Result<ExtensionOutputValue<X>, EvaluationError> {
        Err(self.refusal(alloc))
    }
}

impl<T: Drop, X> BinaryFunction<X> for Refuser<T> {
    ghost use Rattle.cedar_calls.specs.Refusals.{Refuses};

    ghost gives = { λ f x y r. Refuses f r };

    fn call(
        &self,
        alloc: Global,
        _first: &Value<X>,
        _second: &Value<X>,
    ) -> Result<ExtensionOutputValue<X>, EvaluationError> {
        Err(self.refusal(alloc))
    }
}

impl<T: Drop, X> TernaryFunction<X> for Refuser<T> {
    ghost use Rattle.cedar_calls.specs.Refusals.{Refuses};

    ghost gives = { λ f x y z r. Refuses f r };

    fn call(
        &self,
        alloc: Global,
        _first: &Value<X>,
        _second: &Value<X>,
        _third: &Value<X>,
    ) -> Result<ExtensionOutputValue<X>, EvaluationError> {
        Err(self.refusal(alloc))
    }
}

impl<T: Drop, X> VariadicFunction<X> for Refuser<T> {
    ghost use Rattle.cedar_calls.specs.Refusals.{Refuses};

    ghost gives = { λ f x xs r. Refuses f r };

    fn call(
        &self,
        alloc: Global,
        _first: &Value<X>,
        _rest: &[Value<X>],
    ) -> Result<ExtensionOutputValue<X>, EvaluationError> {
        Err(self.refusal(alloc))
    }
}
