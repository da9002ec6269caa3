//! References to types.
use calls_syntax::{
    Answer, CallError, Sexpr, equal, internal_name, namespace, ok, parsed, place_in_text, same,
};
use cedar_names::{
    AllDefs, ConditionalName, InternalName, RawName, ReferenceType, TypeNotDefinedError,
};
use std::alloc::Global;
use std::collections::BTreeSet;
use std::fmt::Display;

/// The answer to a call on references to types.
pub fn answer(alloc: Global, call: &str, args: &[Sexpr]) -> Result<String, CallError> {
    match args {
        [name, common, entity] => match call {
            "defs" => declared_as(alloc, name, common, entity),
            "refat" => placed(alloc, args),
            _ => Err(CallError::UnknownCall),
        },
        [name, kind, common, entity] => match call {
            "resolve1" => alone_resolved(alloc, name, kind, common, entity),
            _ => Err(CallError::UnknownCall),
        },
        [name, kind, _, common, entity] => match call {
            "resolve" => qualified_resolved(alloc, args, common, entity),
            "eqcond1" => equals_alone(alloc, name, kind, args),
            _ => Err(CallError::UnknownCall),
        },
        [parser, _, _, _, common, entity] => match call {
            "refusal" => refusal(alloc, parser, args, common, entity),
            "eqcond" => equals(alloc, args),
            _ => Err(CallError::UnknownCall),
        },
        _ => Err(CallError::UnknownCall),
    }
}

// The raw name where it stands in the namespace: the first three arguments from here on.
fn conditional(alloc: Global, from_here: &[Sexpr]) -> Result<ConditionalName, CallError> {
    let [raw, ns, kind, ..] = from_here else {
        return Err(CallError::BadArguments);
    };
    let kind = reference(kind)?;
    let ns = namespace(alloc, ns)?;
    conditional_in(alloc, raw, ns.as_ref(), kind)
}

fn conditional_in(
    alloc: Global,
    raw: &Sexpr,
    ns: Option<&InternalName>,
    kind: ReferenceType,
) -> Result<ConditionalName, CallError> {
    let raw = parsed(RawName::from_normalized_str(alloc, raw.word()?))?;
    Ok(raw.conditionally_qualify_with(alloc, ns, kind)?)
}

// The reference to this name alone.
fn alone(alloc: Global, name: &Sexpr, kind: &Sexpr) -> Result<ConditionalName, CallError> {
    let kind = reference(kind)?;
    let name = internal_name(alloc, name)?;
    Ok(ConditionalName::unconditional(alloc, name, kind)?)
}

fn reference(kind: &Sexpr) -> Result<ReferenceType, CallError> {
    match kind.word()? {
        "Common" => Ok(ReferenceType::Common),
        "Entity" => Ok(ReferenceType::Entity),
        "CommonOrEntity" => Ok(ReferenceType::CommonOrEntity),
        _ => Err(CallError::BadArguments),
    }
}

fn all_defs(alloc: Global, common: &Sexpr, entity: &Sexpr) -> Result<AllDefs, CallError> {
    let common = declared(alloc, common)?;
    Ok(AllDefs::new(common, declared(alloc, entity)?))
}

fn declared(alloc: Global, sexpr: &Sexpr) -> Result<BTreeSet<InternalName>, CallError> {
    let mut names = BTreeSet::new(alloc);
    for name in sexpr.list()? {
        names.insert(internal_name(alloc, name)?)?;
    }
    Ok(names)
}

fn declared_as(
    alloc: Global,
    name: &Sexpr,
    common: &Sexpr,
    entity: &Sexpr,
) -> Result<String, CallError> {
    let all_defs = all_defs(alloc, common, entity)?;
    let name = internal_name(alloc, name)?;
    Answer::new(alloc)
        .labelled("common=", &all_defs.is_defined_as_common(&name))
        .labelled("entity=", &all_defs.is_defined_as_entity(&name))
        .end()
}

fn placed(alloc: Global, args: &[Sexpr]) -> Result<String, CallError> {
    let name = conditional(alloc, args)?;
    Answer::new(alloc)
        .word(name.raw())
        .labelled_made("loc=", place_in_text(alloc, name.loc()))
        .labelled_made("raw=", place_in_text(alloc, name.raw().loc()))
        .end()
}

fn qualified_resolved(
    alloc: Global,
    args: &[Sexpr],
    common: &Sexpr,
    entity: &Sexpr,
) -> Result<String, CallError> {
    let all_defs = all_defs(alloc, common, entity)?;
    resolved(alloc, conditional(alloc, args), &all_defs)
}

fn alone_resolved(
    alloc: Global,
    name: &Sexpr,
    kind: &Sexpr,
    common: &Sexpr,
    entity: &Sexpr,
) -> Result<String, CallError> {
    let all_defs = all_defs(alloc, common, entity)?;
    resolved(alloc, alone(alloc, name, kind), &all_defs)
}

// Where it is refused, the error holds the reference.
fn resolved(
    alloc: Global,
    name: Result<ConditionalName, CallError>,
    all_defs: &AllDefs,
) -> Result<String, CallError> {
    let name = name?;
    let copy = name.clone(alloc)?;
    told(alloc, name.resolve(all_defs), &copy)
}

fn told(
    alloc: Global,
    resolved: Result<InternalName, TypeNotDefinedError>,
    asked: &ConditionalName,
) -> Result<String, CallError> {
    match resolved {
        Ok(name) => ok(alloc, &name),
        Err(e) => not_defined(alloc, &e.undefined_types, asked),
    }
}

fn not_defined(
    alloc: Global,
    undefined: &ConditionalName,
    asked: &ConditionalName,
) -> Result<String, CallError> {
    same(undefined, asked)?;
    Answer::new(alloc)
        .labelled("not-defined ", undefined.raw())
        .end()
}

// What the reference behind the parser's name is answered with, or the text of the error.
fn refusal(
    alloc: Global,
    parser: &Sexpr,
    args: &[Sexpr],
    common: &Sexpr,
    entity: &Sexpr,
) -> Result<String, CallError> {
    let "resolve" = parser.word()? else {
        return Err(CallError::UnknownCall);
    };
    let [_, reference @ ..] = args else {
        return Err(CallError::BadArguments);
    };
    let all_defs = all_defs(alloc, common, entity)?;
    let name = conditional(alloc, reference)?;
    ok_or_text(alloc, name.resolve(&all_defs))
}

fn ok_or_text<T: Display + Drop, E: Display + Drop>(
    alloc: Global,
    made: Result<T, E>,
) -> Result<String, CallError> {
    match made {
        Ok(value) => ok(alloc, &value),
        Err(e) => Answer::new(alloc).word(&e).end(),
    }
}

fn equals(alloc: Global, args: &[Sexpr]) -> Result<String, CallError> {
    let [_, _, _, other @ ..] = args else {
        return Err(CallError::BadArguments);
    };
    equal(alloc, conditional(alloc, args), conditional(alloc, other))
}

fn equals_alone(
    alloc: Global,
    name: &Sexpr,
    kind: &Sexpr,
    args: &[Sexpr],
) -> Result<String, CallError> {
    let [_, _, other @ ..] = args else {
        return Err(CallError::BadArguments);
    };
    equal(alloc, alone(alloc, name, kind), conditional(alloc, other))
}
