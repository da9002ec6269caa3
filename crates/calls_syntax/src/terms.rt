//! The terms that arguments stand for.
use crate::call_error::CallError;
use crate::escapes::unescaped;
use crate::sexpr::Sexpr;
use cedar_names::{FromNormalizedStr, InternalName, Name, ParseErrors};
use cedar_terms::{EntityType, EntityUID, Literal, Type};
use std::alloc::Global;
use std::convert::TryFrom;
use std::rc::RcStr;

/// The name that a word spells.
pub fn name(alloc: Global, word: &str) -> Result<Name, CallError> {
    parsed(Name::from_normalized_str(alloc, word))
}

/// The internal name that a word spells.
pub fn internal_name(alloc: Global, sexpr: &Sexpr) -> Result<InternalName, CallError> {
    parsed(InternalName::from_normalized_str(alloc, sexpr.word()?))
}

/// The internal name that a word spells; none for `-`.
pub fn namespace(alloc: Global, sexpr: &Sexpr) -> Result<Option<InternalName>, CallError> {
    match sexpr.word()? {
        "-" => Ok(None),
        _ => Ok(Some(internal_name(alloc, sexpr)?)),
    }
}

/// The plain name of an internal one.
pub fn plain(name: InternalName) -> Result<Name, CallError> {
    match Name::try_from(name) {
        Ok(name) => Ok(name),
        Err(_) => Err(CallError::BadArguments),
    }
}

/// What was read from a text, where it could be.
pub fn parsed<T: Drop>(read: Result<T, ParseErrors>) -> Result<T, CallError> {
    match read {
        Ok(name) => Ok(name),
        Err(ParseErrors::Memory) => Err(CallError::Memory),
        Err(_) => Err(CallError::BadArguments),
    }
}

/// The literal that an argument stands for, if it does.
pub fn literal(alloc: Global, sexpr: &Sexpr) -> Result<Option<Literal>, CallError> {
    match sexpr {
        Sexpr::Word(word) => Ok(word_literal(word)),
        Sexpr::Text(escaped) => Ok(Some(Literal::from_string(alloc, unescaped(alloc, escaped)?)?)),
        Sexpr::Entity(ty, escaped) => {
            let ty = EntityType::from(name(alloc, ty)?);
            let uid = EntityUID::new(ty, RcStr::from_string(unescaped(alloc, escaped)?)?);
            Ok(Some(Literal::from_uid(alloc, uid)?))
        }
        Sexpr::List(_) => Ok(None),
    }
}

/// The Boolean or the number that a word spells, if it does.
pub fn word_literal(word: &str) -> Option<Literal> {
    match word {
        "true" => Some(Literal::Bool(true)),
        "false" => Some(Literal::Bool(false)),
        _ => {
            if word.starts_with('+') {
                return None;
            }
            match word.parse() {
                Ok(number) => Some(Literal::Long(number)),
                Err(_) => None,
            }
        }
    }
}

/// The text that a quoted argument stands for, shared.
pub fn shared_text(alloc: Global, sexpr: &Sexpr) -> Result<RcStr, CallError> {
    Ok(RcStr::from_string(unescaped(alloc, sexpr.escaped_text()?)?)?)
}

/// The type that an argument stands for: a word, `(entity N)` or `(extension N)`.
pub fn term_type(alloc: Global, sexpr: &Sexpr) -> Result<Type, CallError> {
    match sexpr {
        Sexpr::Word(word) => Type::from_text(word).ok_or(CallError::BadArguments),
        Sexpr::List(sexprs) => match sexprs.as_slice() {
            [head, ty] => named_type(head.word()?, name(alloc, ty.word()?)?),
            _ => Err(CallError::BadArguments),
        },
        _ => Err(CallError::BadArguments),
    }
}

fn named_type(head: &str, name: Name) -> Result<Type, CallError> {
    match head {
        "entity" => Ok(Type::entity_type(name)),
        "extension" => Ok(Type::Extension { name }),
        _ => Err(CallError::BadArguments),
    }
}
