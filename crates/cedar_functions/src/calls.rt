//! Calls of extension functions on values.
ghost use Rattle.std.specs.Prelude.{◌≡◌, IfOk, IsTrue, map};
ghost use Rattle.cedar_names.specs.PlainNames.{bare_name};
ghost use Rattle.semantics_eval.specs.Outcomes.{settled};
ghost use Rattle.cedar_values.specs.BareValues.{bare_value, bare_value_kind};
ghost use Rattle.cedar_values.specs.WellFormed.{kind_well_formed};
ghost use Rattle.cedar_evaluator.specs.Kinds.{extension_in, text_of};
ghost use Rattle.cedar_request.specs.Calls as called;
ghost use Rattle.cedar_request.specs.Values.{tree_of};
ghost use Rattle.cedar_functions.specs.Answers.{answer_value, answered};
ghost use Rattle.cedar_functions.specs.Functions as meant;

use crate::answer::Answer;
use crate::extension::BuiltinExtension;
use crate::extensions::{of_extension, of_extensions};
use crate::texts::of_text;
use cedar_evaluator::EvalFault;
use cedar_evaluator::operations::{as_extension, as_text};
use cedar_function_names::ExtensionFunction;
use cedar_names::Name;
use cedar_terms::Literal;
use cedar_values::laws::values_by_kind;
use cedar_values::{RepresentableExtensionValue, Value, ValueKind, WellFormedValue};
use std::alloc::{AllocError, Global};
use std::convert::AsStr;
use std::rc::Rc;

// What a function gives of one argument.
fn of_one(function: ExtensionFunction, arg: &Value<BuiltinExtension>) -> Result<Answer, EvalFault>
    ensures { answered result ≡ settled (meant.of_one function (text_of (bare_value arg.now))
        (extension_in (bare_value arg.now))) }
{
    match as_text(arg) {
        Some(text) => of_text(function, text),
        None => match as_extension(arg) {
            Some(value) => of_extension(function, *value),
            None => Err(EvalFault::WrongType),
        },
    }
}

// What a function gives of two arguments.
fn of_two(
    function: ExtensionFunction,
    first: &Value<BuiltinExtension>,
    second: &Value<BuiltinExtension>,
) -> Result<Answer, EvalFault>
    ensures { answered result ≡ settled (meant.of_two function
        (extension_in (bare_value first.now)) (extension_in (bare_value second.now))) }
{
    match as_extension(first) {
        Some(left) => match as_extension(second) {
            Some(right) => of_extensions(function, *left, *right),
            None => Err(EvalFault::WrongType),
        },
        None => Err(EvalFault::WrongType),
    }
}

// What a function gives of its arguments.
fn answer(
    function: ExtensionFunction,
    args: &[Value<BuiltinExtension>],
) -> Result<Answer, EvalFault>
    ensures { answered result ≡ settled (meant.gives function (map bare_value args.now)) }
{
    match args {
        [arg] => of_one(function, arg),
        [first, second] => of_two(function, first, second),
        _ => Err(EvalFault::WrongType),
    }
}

// The value of a kind, at no place.
fn value_of_kind(kind: ValueKind<BuiltinExtension>) -> WellFormedValue<BuiltinExtension>
    requires { IsTrue (kind_well_formed ⟦<BuiltinExtension as Ord>⟧.cmp kind) }
    ensures { tree_of result ≡ bare_value_kind kind }
{
    values_by_kind::<BuiltinExtension>();
    WellFormedValue::new_unchecked(Value::new(kind, None))
}

// The value of an answer.
#[tactic(auto, using(crate::proofs::Kept::extension_kept))]
fn value_of(alloc: Global, answer: Answer) -> Result<WellFormedValue<BuiltinExtension>, AllocError>
    ensures { IfOk result (λ v. tree_of v ≡ answer_value answer) }
{
    values_by_kind::<BuiltinExtension>();
    match answer {
        Answer::Bool(truth) => Ok(value_of_kind(ValueKind::Lit(Literal::Bool(truth)))),
        Answer::Long(number) => Ok(value_of_kind(ValueKind::Lit(Literal::Long(number)))),
        Answer::Extension(value) => {
            let value = Rc::new(alloc, RepresentableExtensionValue::new_lazy(value))?;
            Ok(value_of_kind(ValueKind::ExtensionValue(value)))
        }
    }
}

/// The function of a name, if Cedar has one of it. It is in no namespace.
pub fn function_of(name: &Name) -> Option<ExtensionFunction>
    ensures { result ≡ meant.named (bare_name name.now) }
{
    if name.is_unqualified() {
        ExtensionFunction::from_name(name.basename_as_ref().as_str())
    } else {
        None
    }
}

/// What a function makes of its arguments, as Cedar's guide says: a value, or why there is none.
///
/// `WrongType` where the arguments are too few or too many, one has the wrong type, or a text
/// stands for no value; `Overflow` where 64 bits do not hold a moment or a duration. There is no
/// other fault.
///
/// ```rust
/// call(alloc, ExtensionFunction::IsIpv4, &args)?
/// ```
pub fn call(
    alloc: Global,
    function: ExtensionFunction,
    args: &[Value<BuiltinExtension>],
) -> Result<Result<WellFormedValue<BuiltinExtension>, EvalFault>, AllocError>
    ensures { IfOk result (λ made.
        called.answered made ≡ settled (meant.gives function (map bare_value args.now))) }
{
    match answer(function, args) {
        Ok(answer) => Ok(Ok(value_of(alloc, answer)?)),
        Err(fault) => Ok(Err(fault)),
    }
}
