//! Calls of stored functions, and what these say of themselves.
use crate::stored::function;
use calls_decode::sketch;
use calls_decode_values::{Keyed, KeyedValue, value, values};
use calls_syntax::{Answer, CallError, Sexpr, join, place, shown};
use cedar_calls::{CallStyle, EvaluationError, ExtensionFunction, ExtensionOutputValue};
use cedar_names::Name;
use cedar_terms::{SchemaType, Unknown};
use cedar_values::PartialValue;
use std::alloc::Global;
use std::rc::RcStr;

type Outcome = Result<PartialValue<Keyed>, EvaluationError>;

/// The answer to a call of a function, or of what one says of itself.
pub fn answer(alloc: Global, call: &str, args: &[Sexpr]) -> Result<String, CallError> {
    match args {
        [first, later @ ..] => match call {
            "call" | "callfault" => {
                of_call(alloc, call, first.word()?, values(alloc, later)?.as_slice())
            }
            "function" => about(alloc, &function(alloc, "f", first.word()?)?),
            "signature" => signature(alloc, &named_function(alloc, first)?),
            "output" => output(alloc, first),
            _ => Err(CallError::UnknownCall),
        },
        [] => Err(CallError::UnknownCall),
    }
}

fn of_call(
    alloc: Global,
    call: &str,
    word: &str,
    args: &[KeyedValue],
) -> Result<String, CallError> {
    match call {
        "call" => called(alloc, word, args),
        _ => refused(alloc, word, args),
    }
}

/// The function `(NAME WORD)`.
pub fn named_function(alloc: Global, sexpr: &Sexpr) -> Result<ExtensionFunction<Keyed>, CallError> {
    match sexpr.list()? {
        [name, word] => function(alloc, name.word()?, word.word()?),
        _ => Err(CallError::BadArguments),
    }
}

// What the function `f` of this word answers.
fn outcome(alloc: Global, word: &str, args: &[KeyedValue]) -> Result<Outcome, CallError> {
    let f = function(alloc, "f", word)?;
    Ok(f.call(alloc, args))
}

fn called(alloc: Global, word: &str, args: &[KeyedValue]) -> Result<String, CallError> {
    match outcome(alloc, word, args)? {
        Ok(answer) => answer_text(alloc, &answer),
        Err(fault) => fault_text(alloc, word, &fault),
    }
}

fn answer_text(alloc: Global, answer: &PartialValue<Keyed>) -> Result<String, CallError> {
    match answer {
        PartialValue::Value(v) => Answer::new(alloc).labelled("value ", v).end(),
        PartialValue::Residual(e) => Answer::new(alloc)
            .labelled_made("residual ", sketch(alloc, e))
            .end(),
    }
}

// That there is no memory is an answer of `wanting` alone.
fn is_answer(word: &str, fault: &EvaluationError) -> Result<(), CallError> {
    match fault {
        EvaluationError::Memory if word != "wanting" => Err(CallError::Memory),
        _ => Ok(()),
    }
}

fn fault_text(alloc: Global, word: &str, fault: &EvaluationError) -> Result<String, CallError> {
    is_answer(word, fault)?;
    match fault {
        EvaluationError::WrongNumArguments {
            name,
            expected,
            actual,
            loc,
        } => Answer::new(alloc)
            .labelled("wrong-number ", name)
            .word(expected)
            .word(actual)
            .made(place(alloc, loc.as_ref()))
            .end(),
        EvaluationError::Function { name, message } => {
            Ok(format!(in alloc; "fault {name}: {message}")?)
        }
        EvaluationError::Memory => Ok(format!(in alloc; "no memory")?),
    }
}

fn refused(alloc: Global, word: &str, args: &[KeyedValue]) -> Result<String, CallError> {
    match outcome(alloc, word, args)? {
        Ok(_) => Ok(format!(in alloc; "none")?),
        Err(fault) => said(alloc, word, &fault),
    }
}

fn said(alloc: Global, word: &str, fault: &EvaluationError) -> Result<String, CallError> {
    is_answer(word, fault)?;
    Ok(format!(in alloc; "{fault}")?)
}

fn about(alloc: Global, f: &ExtensionFunction<Keyed>) -> Result<String, CallError> {
    Answer::new(alloc)
        .made(debug_text(alloc, f))
        .labelled("variadic=", &f.is_variadic())
        .labelled("args=", &f.arg_types().len())
        .labelled("return=", &f.return_type().is_some())
        .labelled("single=", &f.is_single_arg_constructor())
        .end()
}

fn debug_text(alloc: Global, f: &ExtensionFunction<Keyed>) -> Result<String, CallError> {
    Ok(format!(in alloc; "{f:?}")?)
}

/// Its name, its style, its types, and the extension types that it returns.
pub fn signature(alloc: Global, f: &ExtensionFunction<Keyed>) -> Result<String, CallError> {
    let types = f.ext_types(alloc)?;
    Answer::new(alloc)
        .word(f.name())
        .word(&style_text(f.style()))
        .labelled_made("takes=", takes(alloc, f.arg_types()))
        .labelled_made("returns=", returns(alloc, f.return_type()))
        .labelled_made("types=", names(alloc, types.as_slice()))
        .end()
}

/// The names, with commas between.
pub fn names(alloc: Global, names: &[Name]) -> Result<String, CallError> {
    let mut text = String::new(alloc);
    for name in names {
        join(&mut text, ",", name)?;
    }
    Ok(text)
}

/// `function` or `method`.
pub fn style_text(style: CallStyle) -> &'static str {
    match style {
        CallStyle::FunctionStyle => "function",
        CallStyle::MethodStyle => "method",
    }
}

fn takes(alloc: Global, types: &[SchemaType]) -> Result<String, CallError> {
    let mut text = String::new(alloc);
    for ty in types {
        join(&mut text, ",", &type_text(alloc, ty)?)?;
    }
    Ok(text)
}

/// The type, or `none`.
pub fn returns(alloc: Global, ty: Option<&SchemaType>) -> Result<String, CallError> {
    match ty {
        Some(ty) => type_text(alloc, ty),
        None => Ok(format!(in alloc; "none")?),
    }
}

fn type_text(alloc: Global, ty: &SchemaType) -> Result<String, CallError> {
    shown(alloc, ty.to_type(alloc))
}

// A copy of what a function answers: `(v V)` a value, `(u NAME)` an unknown.
fn output(alloc: Global, sexpr: &Sexpr) -> Result<String, CallError> {
    match sexpr.list()? {
        [head, inner] => copied(alloc, &of_word(alloc, head.word()?, inner)?),
        _ => Err(CallError::BadArguments),
    }
}

fn of_word(
    alloc: Global,
    head: &str,
    inner: &Sexpr,
) -> Result<ExtensionOutputValue<Keyed>, CallError> {
    match head {
        "v" => Ok(ExtensionOutputValue::from(value(alloc, inner)?)),
        "u" => unknown(alloc, inner.word()?),
        _ => Err(CallError::BadArguments),
    }
}

fn unknown(alloc: Global, name: &str) -> Result<ExtensionOutputValue<Keyed>, CallError> {
    let name = RcStr::from_str(alloc, name)?;
    Ok(ExtensionOutputValue::Unknown(Unknown::new_untyped(name)))
}

fn copied(alloc: Global, output: &ExtensionOutputValue<Keyed>) -> Result<String, CallError> {
    output_text(alloc, &output.clone(alloc)?)
}

fn output_text(alloc: Global, output: &ExtensionOutputValue<Keyed>) -> Result<String, CallError> {
    match output {
        ExtensionOutputValue::Known(v) => Answer::new(alloc).labelled("known ", v).end(),
        ExtensionOutputValue::Unknown(unknown) => Answer::new(alloc)
            .labelled("unknown ", &unknown.name)
            .end(),
    }
}
