//! Extensions, and tables of them.
use crate::functions::{named_function, names, returns, signature, style_text};
use calls_decode_values::Keyed;
use calls_syntax::{Answer, CallError, Sexpr, join, name};
use cedar_calls::{Extension, ExtensionFunction, Extensions, FunctionTable};
use cedar_names::Name;
use std::alloc::Global;

/// The answer to a call on extensions.
pub fn answer(alloc: Global, call: &str, args: &[Sexpr]) -> Result<String, CallError> {
    match args {
        [x] => match call {
            "extension" => about(alloc, &extension(alloc, x)?),
            _ => Err(CallError::UnknownCall),
        },
        [x, f] => match call {
            "getfunc" => of_extension(alloc, &extension(alloc, x)?, &name(alloc, f.word()?)?),
            "tablefunc" => of_table(alloc, &table(alloc, x.list()?)?, &name(alloc, f.word()?)?),
            _ => Err(CallError::UnknownCall),
        },
        _ => Err(CallError::UnknownCall),
    }
}

// `(NAME (F ..) (N ..))`.
fn extension(alloc: Global, sexpr: &Sexpr) -> Result<Extension<Keyed>, CallError> {
    match sexpr.list()? {
        [x, functions, types] => {
            let x = name(alloc, x.word()?)?;
            made(alloc, x, functions.list()?, named(alloc, types.list()?)?)
        }
        _ => Err(CallError::BadArguments),
    }
}

fn made(
    alloc: Global,
    x: Name,
    sexprs: &[Sexpr],
    types: Vec<Name>,
) -> Result<Extension<Keyed>, CallError> {
    let mut functions = Vec::new(alloc);
    for sexpr in sexprs {
        functions.push(named_function(alloc, sexpr)?)?;
    }
    Ok(Extension::new(alloc, x, functions, types)?)
}

fn named(alloc: Global, sexprs: &[Sexpr]) -> Result<Vec<Name>, CallError> {
    let mut names = Vec::new(alloc);
    for sexpr in sexprs {
        names.push(name(alloc, sexpr.word()?)?)?;
    }
    Ok(names)
}

fn table(alloc: Global, sexprs: &[Sexpr]) -> Result<Extensions<Keyed>, CallError> {
    let mut extensions = Vec::new(alloc);
    for sexpr in sexprs {
        extensions.push(extension(alloc, sexpr)?)?;
    }
    Ok(Extensions::new(extensions))
}

fn about(alloc: Global, x: &Extension<Keyed>) -> Result<String, CallError> {
    let types = x.ext_types(alloc)?;
    Answer::new(alloc)
        .made(debug_text(alloc, x))
        .labelled("name=", x.name())
        .labelled_made("functions=", functions(alloc, x))
        .labelled_made("types=", names(alloc, types.as_slice()))
        .labelled_made("overloading=", overloading(alloc, x))
        .end()
}

fn debug_text(alloc: Global, x: &Extension<Keyed>) -> Result<String, CallError> {
    Ok(format!(in alloc; "{x:?}")?)
}

fn functions(alloc: Global, x: &Extension<Keyed>) -> Result<String, CallError> {
    let mut text = String::new(alloc);
    for f in x.funcs() {
        join(&mut text, ",", f.name())?;
    }
    Ok(text)
}

fn overloading(alloc: Global, x: &Extension<Keyed>) -> Result<String, CallError> {
    let mut text = String::new(alloc);
    for name in x.types_with_operator_overloading() {
        join(&mut text, ",", name)?;
    }
    Ok(text)
}

fn of_extension(alloc: Global, x: &Extension<Keyed>, f: &Name) -> Result<String, CallError> {
    found(alloc, x.get_func(f))
}

// The function's signature, or `none`.
fn found(alloc: Global, f: Option<&ExtensionFunction<Keyed>>) -> Result<String, CallError> {
    match f {
        Some(f) => signature(alloc, f),
        None => Ok(format!(in alloc; "none")?),
    }
}

fn of_table(alloc: Global, table: &Extensions<Keyed>, f: &Name) -> Result<String, CallError> {
    Answer::new(alloc)
        .made(told(alloc, table, f))
        .labelled_made("| ", found(alloc, table.func(f)))
        .end()
}

// Style and return type, as a table of functions tells them.
fn told<T: FunctionTable>(alloc: Global, table: &T, f: &Name) -> Result<String, CallError> {
    let style = match table.style(f) {
        Some(style) => style_text(style),
        None => "none",
    };
    Answer::new(alloc)
        .word(&style)
        .labelled_made("returns=", returns(alloc, table.return_type(f)))
        .end()
}
