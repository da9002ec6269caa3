//! Types, unknowns, operators and variables.
use crate::placed::placed_type;
use calls_syntax::{Answer, CallError, Sexpr, boolean, compare, copy_of, equal, name, shared_text};
use cedar_terms::{BinaryOp, EntityType, SchemaType, Type, UnaryOp, Unknown, Var};
use std::alloc::Global;
use std::boxed::Box;
use std::collections::BTreeMap;
use std::fmt::Display;
use std::rc::RcStr;

/// The answer to a call on types, unknowns, operators or variables.
pub fn answer(alloc: Global, call: &str, args: &[Sexpr]) -> Result<String, CallError> {
    match args {
        [] => match call {
            "ops" => operators(alloc),
            "vars" => variables(alloc),
            _ => Err(CallError::UnknownCall),
        },
        [ty] => match call {
            "type" => given(alloc, ty),
            "schema" => told_schema(alloc, ty),
            _ => Err(CallError::UnknownCall),
        },
        [a, b] => match call {
            "cmptype" => compared_types(alloc, a, b),
            "eqschema" => equal_schema_types(alloc, a, b),
            _ => Err(CallError::UnknownCall),
        },
        [x, s, y, t] => match call {
            "equnknown" => equal_unknowns(alloc, x, s, y, t),
            _ => Err(CallError::UnknownCall),
        },
        _ => Err(CallError::UnknownCall),
    }
}

// The text of a copy.
fn given(alloc: Global, sexpr: &Sexpr) -> Result<String, CallError> {
    Answer::new(alloc)
        .made(copy_of(alloc, placed_type(alloc, sexpr)))
        .end()
}

fn compared_types(alloc: Global, a: &Sexpr, b: &Sexpr) -> Result<String, CallError> {
    compare(alloc, placed_type(alloc, a), placed_type(alloc, b))
}

fn unknown(alloc: Global, name: &Sexpr, ty: &Sexpr) -> Result<Unknown, CallError> {
    match ty {
        Sexpr::Word("-") => Ok(Unknown::new_untyped(shared_text(alloc, name)?)),
        _ => typed_unknown(alloc, name, ty),
    }
}

fn typed_unknown(alloc: Global, name: &Sexpr, ty: &Sexpr) -> Result<Unknown, CallError> {
    let ty = placed_type(alloc, ty)?;
    Ok(Unknown::new_with_type(shared_text(alloc, name)?, ty))
}

// By a copy of the first.
fn equal_unknowns(
    alloc: Global,
    x: &Sexpr,
    s: &Sexpr,
    y: &Sexpr,
    t: &Sexpr,
) -> Result<String, CallError> {
    equal(
        alloc,
        copy_of(alloc, unknown(alloc, x, s)),
        unknown(alloc, y, t),
    )
}

// The type as a schema has it: a word, `(set S)`, `(record ("k" S) ..)`, `(entity N)`,
// `(extension N)`.
#[cycle(schema)]
fn schema_type(alloc: Global, sexpr: &Sexpr) -> Result<SchemaType, CallError> {
    match sexpr {
        Sexpr::Word(word) => plain(word),
        Sexpr::List(sexprs) => match sexprs.as_slice() {
            [head, inner @ ..] => compound(alloc, head.word()?, inner),
            [] => Err(CallError::BadArguments),
        },
        _ => Err(CallError::BadArguments),
    }
}

fn plain(word: &str) -> Result<SchemaType, CallError> {
    match word {
        "bool" => Ok(SchemaType::Bool),
        "long" => Ok(SchemaType::Long),
        "string" => Ok(SchemaType::String),
        "emptyset" => Ok(SchemaType::EmptySet),
        _ => Err(CallError::BadArguments),
    }
}

#[cycle(schema)]
fn compound(alloc: Global, head: &str, inner: &[Sexpr]) -> Result<SchemaType, CallError> {
    if head == "record" {
        return record(alloc, inner);
    }
    match inner {
        [inner] => match head {
            "set" => set_of(alloc, schema_type(alloc, inner)?),
            _ => named(alloc, head, inner.word()?),
        },
        _ => Err(CallError::BadArguments),
    }
}

fn set_of(alloc: Global, element_ty: SchemaType) -> Result<SchemaType, CallError> {
    Ok(SchemaType::Set {
        element_ty: Box::new(alloc, element_ty)?,
    })
}

fn named(alloc: Global, head: &str, word: &str) -> Result<SchemaType, CallError> {
    let name = name(alloc, word)?;
    match head {
        "entity" => Ok(SchemaType::Entity {
            ty: EntityType::from(name),
        }),
        "extension" => Ok(SchemaType::Extension { name }),
        _ => Err(CallError::BadArguments),
    }
}

#[cycle(schema)]
fn record(alloc: Global, sexprs: &[Sexpr]) -> Result<SchemaType, CallError> {
    let mut attrs = BTreeMap::new(alloc);
    for sexpr in sexprs {
        let Sexpr::List(pair) = sexpr else {
            return Err(CallError::BadArguments);
        };
        let [key, ty] = pair.as_slice() else {
            return Err(CallError::BadArguments);
        };
        insert(alloc, &mut attrs, key, schema_type(alloc, ty)?)?;
    }
    Ok(SchemaType::Record { attrs })
}

fn insert(
    alloc: Global,
    attrs: &mut BTreeMap<RcStr, SchemaType>,
    key: &Sexpr,
    ty: SchemaType,
) -> Result<(), CallError> {
    drop(attrs.insert(shared_text(alloc, key)?, ty)?);
    Ok(())
}

// The type of the values of a copy, and the extension types inside it.
fn told_schema(alloc: Global, sexpr: &Sexpr) -> Result<String, CallError> {
    let copy = copy_of(alloc, schema_type(alloc, sexpr))?;
    let told = Answer::new(alloc).allocated(copy.to_type(alloc));
    with_extensions(alloc, told, &copy)
}

fn with_extensions(alloc: Global, told: Answer, ty: &SchemaType) -> Result<String, CallError> {
    let names = ty.contained_ext_types(alloc)?;
    let mut told = told;
    for name in names.iter() {
        told = told.word(name);
    }
    told.end()
}

// By a copy of the first.
fn equal_schema_types(alloc: Global, a: &Sexpr, b: &Sexpr) -> Result<String, CallError> {
    let copy = copy_of(alloc, schema_type(alloc, a));
    boolean(alloc, are_equal(copy, schema_type(alloc, b))?)
}

// Whether two values are equal, where both were made.
fn are_equal<T: PartialEq + Drop>(
    a: Result<T, CallError>,
    b: Result<T, CallError>,
) -> Result<bool, CallError> {
    Ok(a? == b?)
}

fn operators(alloc: Global) -> Result<String, CallError> {
    let unary = [UnaryOp::Not, UnaryOp::Neg, UnaryOp::IsEmpty];
    let binary = [
        BinaryOp::Eq,
        BinaryOp::Less,
        BinaryOp::LessEq,
        BinaryOp::Add,
        BinaryOp::Sub,
        BinaryOp::Mul,
        BinaryOp::In,
        BinaryOp::Contains,
        BinaryOp::ContainsAll,
        BinaryOp::ContainsAny,
        BinaryOp::GetTag,
        BinaryOp::HasTag,
    ];
    Answer::new(alloc)
        .labelled_made("unary ", ascending(alloc, &unary))
        .labelled_made("binary ", ascending(alloc, &binary))
        .end()
}

// The texts of items, each of which has to be above the one before.
fn ascending<T: Ord + Display>(alloc: Global, items: &[T]) -> Result<String, CallError> {
    ascend(items)?;
    let mut texts = Answer::new(alloc);
    for item in items {
        texts = texts.word(item);
    }
    texts.end()
}

fn ascend<T: Ord>(items: &[T]) -> Result<(), CallError> {
    let mut before: Option<&T> = None;
    for item in items {
        if let Some(before) = before {
            if *before >= *item {
                return Err(CallError::Mismatch("the order"));
            }
        }
        before = Some(item);
    }
    Ok(())
}

fn variables(alloc: Global) -> Result<String, CallError> {
    let vars = [Var::Principal, Var::Action, Var::Resource, Var::Context];
    Answer::new(alloc)
        .labelled_made("texts ", ascending(alloc, &vars))
        .labelled_made("identifiers ", identifiers(alloc, &vars))
        .end()
}

fn identifiers(alloc: Global, vars: &[Var]) -> Result<String, CallError> {
    let mut ids = Answer::new(alloc);
    for var in vars {
        ids = ids
            .allocated(var.to_id(alloc))
            .allocated(var.to_unreserved_id(alloc));
    }
    ids.end()
}
