//! The table of Cedar's extension functions, as evaluators ask it.
ghost use Rattle.std.specs.Prelude.{◌≡◌};
ghost use Rattle.cedar_functions.specs.Functions as meant;

use crate::calls::{call, function_of};
use crate::extension::BuiltinExtension;
use cedar_evaluator::EvalFault;
use cedar_function_names::ExtensionFunction;
use cedar_names::Name;
use cedar_request::{CallableFunction, CallableFunctions};
use cedar_values::{Value, WellFormedValue};
use std::alloc::{AllocError, Global};
use std::cmp::Ordering;

/// The table of Cedar's extension functions. `<` and `<=` compare two moments, or two durations.
///
/// ```rust
/// let evaluator = RequestEvaluator::new(&request, &entities, &BuiltinFunctions, &values);
/// ```
#[derive(Clone, Copy, Debug)]
pub struct BuiltinFunctions;

/// A function of the table.
#[derive(Clone, Copy, Debug)]
pub struct BuiltinFunction {
    function: ExtensionFunction,
}

impl CallableFunction<BuiltinExtension> for BuiltinFunction {
    ghost use Rattle.cedar_functions.specs.Functions.{gives};

    ghost gives = { λ f. gives f.function };

    fn call(
        &self,
        alloc: Global,
        args: &[Value<BuiltinExtension>],
    ) -> Result<Result<WellFormedValue<BuiltinExtension>, EvalFault>, AllocError> {
        call(alloc, self.function, args)
    }
}

impl CallableFunctions<BuiltinExtension> for BuiltinFunctions {
    ghost use Rattle.cedar_functions.specs.Functions.{extension_functions};

    type Function = BuiltinFunction;

    ghost bare_functions = { λ _. extension_functions };

    fn func(&self, name: &Name) -> Option<BuiltinFunction> {
        match function_of(name) {
            Some(function) => Some(BuiltinFunction { function }),
            None => None,
        }
    }

    fn compare(&self, left: &BuiltinExtension, right: &BuiltinExtension) -> Option<Ordering> {
        compare(*left, *right)
    }
}

// How two extension values compare, if they may.
fn compare(left: BuiltinExtension, right: BuiltinExtension) -> Option<Ordering>
    ensures { result ≡ meant.compared left right }
{
    match (left, right) {
        (BuiltinExtension::Datetime(left), BuiltinExtension::Datetime(right)) => {
            Some(left.milliseconds.cmp(&right.milliseconds))
        }
        (BuiltinExtension::Duration(left), BuiltinExtension::Duration(right)) => {
            Some(left.milliseconds.cmp(&right.milliseconds))
        }
        _ => None,
    }
}
