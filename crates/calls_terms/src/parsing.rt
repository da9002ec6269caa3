//! Names and identifiers, parsed from texts.
use crate::told::Told;
use calls_syntax::{Answer, CallError, Sexpr, boolean, ok, text};
use cedar_names::{
    AnyId, FromNormalizedStr, Id, InternalName, Name, ParseErrors, RawName, UnreservedId,
    is_normalized_ident,
};
use std::alloc::Global;

// How a refusal is answered: by a word for its kind and what it holds, or by the text of the error.
#[derive(Clone, Copy)]
enum Refusal {
    Kind,
    Text,
}

/// The answer to a parser's call.
pub fn answer(alloc: Global, call: &str, args: &[Sexpr]) -> Result<String, CallError> {
    match args {
        [] => match call {
            "kinds" => kinds(alloc),
            "nomemory" => Answer::new(alloc).word(&ParseErrors::Memory).end(),
            _ => Err(CallError::UnknownCall),
        },
        [text] => match call {
            "ident" => ident(alloc, text),
            _ => read(alloc, call, text, Refusal::Kind),
        },
        [parser, text] => match call {
            "refusal" => read(alloc, parser.word()?, text, Refusal::Text),
            _ => Err(CallError::UnknownCall),
        },
        _ => Err(CallError::UnknownCall),
    }
}

fn read(alloc: Global, parser: &str, sexpr: &Sexpr, refusal: Refusal) -> Result<String, CallError> {
    match parser {
        "id" => read_as::<Id>(alloc, sexpr, refusal),
        "uid" => read_as::<UnreservedId>(alloc, sexpr, refusal),
        "anyid" => read_as::<AnyId>(alloc, sexpr, refusal),
        "iname" => read_as::<InternalName>(alloc, sexpr, refusal),
        "unq-iname" => unqualified_internal(alloc, sexpr, refusal),
        "name" => read_as::<Name>(alloc, sexpr, refusal),
        "unq-name" => unqualified_plain(alloc, sexpr, refusal),
        "rawname" => raw(alloc, sexpr, refusal),
        "unq-rawname" => unqualified_raw(alloc, sexpr, refusal),
        _ => Err(CallError::UnknownCall),
    }
}

fn ident(alloc: Global, sexpr: &Sexpr) -> Result<String, CallError> {
    let text = text(alloc, sexpr)?;
    boolean(alloc, is_normalized_ident(text.as_str()))
}

fn kinds(alloc: Global) -> Result<String, CallError> {
    Answer::new(alloc)
        .word(&Id::describe_self())
        .labelled("| ", &UnreservedId::describe_self())
        .labelled("| ", &AnyId::describe_self())
        .labelled("| ", &InternalName::describe_self())
        .labelled("| ", &Name::describe_self())
        .end()
}

fn read_as<T: FromNormalizedStr + Told>(
    alloc: Global,
    sexpr: &Sexpr,
    refusal: Refusal,
) -> Result<String, CallError> {
    let text = text(alloc, sexpr)?;
    told(alloc, T::from_normalized_str(alloc, text.as_str()), refusal)
}

fn raw(alloc: Global, sexpr: &Sexpr, refusal: Refusal) -> Result<String, CallError> {
    let text = text(alloc, sexpr)?;
    told(
        alloc,
        RawName::from_normalized_str(alloc, text.as_str()),
        refusal,
    )
}

fn unqualified_internal(
    alloc: Global,
    sexpr: &Sexpr,
    refusal: Refusal,
) -> Result<String, CallError> {
    let text = text(alloc, sexpr)?;
    told(
        alloc,
        InternalName::parse_unqualified_name(alloc, text.as_str()),
        refusal,
    )
}

fn unqualified_plain(alloc: Global, sexpr: &Sexpr, refusal: Refusal) -> Result<String, CallError> {
    let text = text(alloc, sexpr)?;
    told(
        alloc,
        Name::parse_unqualified_name(alloc, text.as_str()),
        refusal,
    )
}

fn unqualified_raw(alloc: Global, sexpr: &Sexpr, refusal: Refusal) -> Result<String, CallError> {
    let text = text(alloc, sexpr)?;
    match RawName::parse_unqualified_name(alloc, text.as_str()) {
        Ok(name) => ok(alloc, &name),
        Err(e) => refused(alloc, &e, refusal),
    }
}

// What was read says of itself, or why it was not.
fn told<T: Told>(
    alloc: Global,
    read: Result<T, ParseErrors>,
    refusal: Refusal,
) -> Result<String, CallError> {
    match read {
        Ok(read) => read.told(alloc),
        Err(e) => refused(alloc, &e, refusal),
    }
}

fn refused(alloc: Global, e: &ParseErrors, refusal: Refusal) -> Result<String, CallError> {
    match e {
        ParseErrors::Memory => Err(CallError::Memory),
        e => match refusal {
            Refusal::Text => Answer::new(alloc).word(e).end(),
            Refusal::Kind => refused_by_kind(alloc, e),
        },
    }
}

fn refused_by_kind(alloc: Global, e: &ParseErrors) -> Result<String, CallError> {
    match e {
        ParseErrors::Memory => Err(CallError::Memory),
        ParseErrors::NotNormalized { kind } => {
            Answer::new(alloc).labelled("not-normalized ", kind).end()
        }
        ParseErrors::Reserved(e) => Answer::new(alloc).labelled("reserved ", e.name()).end(),
    }
}
