//! Faults in words.
use cedar_evaluator::{CallRefused, EvalFault};
use cedar_function_names::ExtensionFunction;
use cedar_json::nearest;
use std::alloc::{AllocError, Global};

/// What a fault says.
pub fn fault_words(fault: EvalFault) -> &'static str {
    match fault {
        EvalFault::Open => "this is not known",
        EvalFault::WrongType => "a value has the wrong type",
        EvalFault::Overflow => "an integer is outside 64 bits",
        EvalFault::Missing => "the attribute or the tag is missing",
        EvalFault::Store => "there is no such entity",
    }
}

/// What the call of an unknown function says, with the nearest name that is known.
pub fn refusal_words(alloc: Global, refused: &CallRefused) -> Result<String, AllocError> {
    let name = format!(in alloc; "{}", refused.name)?;
    let names = ExtensionFunction::all().map(ExtensionFunction::name);
    match nearest(alloc, &name, &names)? {
        Some(near) => { format!(in alloc; "there is no function `{name}`: did you mean `{near}`?") }
        None => format!(in alloc; "there is no function `{name}`"),
    }
}
