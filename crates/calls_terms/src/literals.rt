//! Literals and entities.
use crate::placed::placed_literal;
use calls_syntax::{
    Answer, CallError, Sexpr, compare, copy_of, count, place_in_text, placed_name, plain, quoted,
    text,
};
use cedar_terms::{EntityType, EntityUID, Escaped, Literal, Pattern, PatternElem, StaticallyTyped};
use std::alloc::Global;
use std::rc::{Rc, RcStr};

/// The answer to a call on literals or entities.
pub fn answer(alloc: Global, call: &str, args: &[Sexpr]) -> Result<String, CallError> {
    match args {
        [sexpr] => match call {
            "literal" => given_literal(alloc, sexpr),
            "sources" => sources(alloc, sexpr),
            "entity" => given_entity(alloc, sexpr),
            "with-eid" => with_eid(alloc, sexpr),
            _ => Err(CallError::UnknownCall),
        },
        [a, b] => match call {
            "cmplit" => compared_literals(alloc, a, b),
            "cmpentity" => compared_entities(alloc, a, b),
            "cmptypename" => compared_entity_types(alloc, a, b),
            "escapes" => escapes(alloc, a, b),
            _ => Err(CallError::UnknownCall),
        },
        _ => Err(CallError::UnknownCall),
    }
}

fn entity(alloc: Global, sexpr: &Sexpr) -> Result<Rc<EntityUID>, CallError> {
    match placed_literal(alloc, sexpr)? {
        Literal::EntityUID(uid) => Ok(uid),
        _ => Err(CallError::BadArguments),
    }
}

fn entity_type(alloc: Global, sexpr: &Sexpr) -> Result<EntityType, CallError> {
    Ok(EntityType::from(plain(placed_name(alloc, sexpr)?)?))
}

fn compared_literals(alloc: Global, a: &Sexpr, b: &Sexpr) -> Result<String, CallError> {
    compare(alloc, placed_literal(alloc, a), placed_literal(alloc, b))
}

fn compared_entities(alloc: Global, a: &Sexpr, b: &Sexpr) -> Result<String, CallError> {
    compare(alloc, entity(alloc, a), entity(alloc, b))
}

fn compared_entity_types(alloc: Global, a: &Sexpr, b: &Sexpr) -> Result<String, CallError> {
    compare(alloc, entity_type(alloc, a), entity_type(alloc, b))
}

// What a copy of the literal says of itself.
fn given_literal(alloc: Global, sexpr: &Sexpr) -> Result<String, CallError> {
    let copy = copy_of(alloc, placed_literal(alloc, sexpr))?;
    Answer::new(alloc)
        .word(&copy)
        .labelled("ref=", &copy.is_ref())
        .labelled_allocated("type=", copy.type_of(alloc))
        .end()
}

fn given_entity(alloc: Global, sexpr: &Sexpr) -> Result<String, CallError> {
    let uid = entity(alloc, sexpr)?;
    told_copy(alloc, &uid)
}

fn with_eid(alloc: Global, sexpr: &Sexpr) -> Result<String, CallError> {
    let uid = entity_with_eid(alloc, sexpr)?;
    told_copy(alloc, &uid)
}

fn entity_with_eid(alloc: Global, sexpr: &Sexpr) -> Result<EntityUID, CallError> {
    let eid = text(alloc, sexpr)?;
    Ok(EntityUID::with_eid(alloc, eid.as_str())?)
}

// What a copy of the entity and one of its type say of themselves.
fn told_copy(alloc: Global, uid: &EntityUID) -> Result<String, CallError> {
    let copy = uid.clone(alloc)?;
    told(alloc, &copy)
}

fn told(alloc: Global, uid: &EntityUID) -> Result<String, CallError> {
    let ty = uid.entity_type().clone(alloc)?;
    Answer::new(alloc)
        .word(uid)
        .word(&ty)
        .made(quoted(alloc, uid.eid()))
        .labelled_made("loc=", place_in_text(alloc, ty.name().loc()))
        .labelled_allocated("type=", uid.type_of(alloc))
        .end()
}

// What a literal holds, made a literal by each call that does so: a text by three, an entity owned
// and shared.
fn sources(alloc: Global, sexpr: &Sexpr) -> Result<String, CallError> {
    match placed_literal(alloc, sexpr)? {
        Literal::Bool(truth) => Answer::new(alloc).word(&Literal::from(truth)).end(),
        Literal::Long(number) => Answer::new(alloc).word(&Literal::from(number)).end(),
        Literal::String(text) => text_sources(alloc, text),
        Literal::EntityUID(uid) => entity_sources(alloc, uid),
    }
}

fn entity_sources(alloc: Global, uid: Rc<EntityUID>) -> Result<String, CallError> {
    Answer::new(alloc)
        .made(owned_entity(alloc, &uid))
        .word(&Literal::from(uid))
        .end()
}

fn owned_entity(alloc: Global, uid: &EntityUID) -> Result<Literal, CallError> {
    let copy = uid.clone(alloc)?;
    Ok(Literal::from_uid(alloc, copy)?)
}

fn text_sources(alloc: Global, text: RcStr) -> Result<String, CallError> {
    Answer::new(alloc)
        .allocated(Literal::from_text(alloc, text.as_str()))
        .made(owned_text(alloc, text.as_str()))
        .word(&Literal::from(text))
        .end()
}

fn owned_text(alloc: Global, text: &str) -> Result<Literal, CallError> {
    let copy = String::from_str(alloc, text)?;
    Ok(Literal::from_string(alloc, copy)?)
}

// The escapes of the characters from a code to a code, then the texts of the patterns of each
// alone.
fn escapes(alloc: Global, from: &Sexpr, to: &Sexpr) -> Result<String, CallError> {
    let (from, to) = (count(from)?, count(to)?);
    Answer::new(alloc)
        .labelled_made("texts", escaped(alloc, from, to))
        .labelled_made("patterns", patterns(alloc, from, to))
        .end()
}

fn escaped(alloc: Global, from: usize, to: usize) -> Result<String, CallError> {
    let mut texts = String::new(alloc);
    for code in from..=to {
        push_escaped(alloc, &mut texts, character(code)?)?;
    }
    Ok(texts)
}

fn patterns(alloc: Global, from: usize, to: usize) -> Result<String, CallError> {
    let mut texts = String::new(alloc);
    for code in from..=to {
        push_pattern(alloc, &mut texts, character(code)?)?;
    }
    Ok(texts)
}

fn character(code: usize) -> Result<char, CallError> {
    let Ok(code) = u32::try_from(code) else {
        return Err(CallError::BadArguments);
    };
    match char::from_u32(code) {
        Some(c) => Ok(c),
        None => Err(CallError::BadArguments),
    }
}

fn push_escaped(alloc: Global, texts: &mut String, c: char) -> Result<(), CallError> {
    let mut text = String::new(alloc);
    text.push(c)?;
    write!(texts, " {}", Escaped(text.as_str()))?;
    Ok(())
}

fn push_pattern(alloc: Global, texts: &mut String, c: char) -> Result<(), CallError> {
    let pattern = pattern_of(alloc, c)?;
    write!(texts, " {pattern}")?;
    Ok(())
}

fn pattern_of(alloc: Global, c: char) -> Result<Pattern, CallError> {
    let elems = vec![in alloc; PatternElem::Char(c)]?;
    Ok(Pattern::from_vec(alloc, elems)?)
}
