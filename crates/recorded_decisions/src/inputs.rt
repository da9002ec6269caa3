//! What lines hold: stores of entities and requests.
use anyhow::{Error, Result, anyhow};
use cedar_functions::BuiltinExtension;
use cedar_inputs::{
    InputError, RequestParts, Store, context_from_json, entities_from_json, entity_from_text,
};
use cedar_request::{Context, Request};
use cedar_terms::EntityUID;
use std::alloc::{AllocError, Global};
use std::rc::Rc;

/// The store of these entities.
pub fn store(alloc: Global, json: &str) -> Result<Store> {
    match entities_from_json(alloc, json) {
        Ok(entities) => Ok(entities),
        Err(error) => Err(of_input(&error)),
    }
}

/// The request of this JSON.
pub fn request(alloc: Global, json: &str) -> Result<Request<BuiltinExtension>> {
    match RequestParts::from_json(alloc, json) {
        Ok(parts) => Ok(parts.into_request()),
        Err(error) => Err(of_input(&error)),
    }
}

/// The request of these words: `PRINCIPAL ACTION TYPE ID CONTEXT`.
pub fn request_of_words(alloc: Global, words: &str) -> Result<Request<BuiltinExtension>> {
    let (principal, words) = first_word(words);
    let (action, words) = first_word(words);
    let (ty, words) = first_word(words);
    let (id, context) = first_word(words);
    let parts = RequestParts {
        principal: entity(alloc, "principal", "User", principal)?,
        action: entity(alloc, "action", "Action", action)?,
        resource: entity(alloc, "resource", ty, id)?,
        context: context_of(alloc, context)?,
    };
    Ok(parts.into_request())
}

fn first_word(words: &str) -> (&str, &str) {
    words.split_once(' ').unwrap_or((words, ""))
}

// The entity of a variable: of this type, unless the word says more than its identifier; or `?`,
// which is not known.
fn entity(alloc: Global, name: &str, ty: &str, word: &str) -> Result<Option<Rc<EntityUID>>> {
    if word == "?" {
        Ok(None)
    } else if word.contains("::") {
        uid(alloc, name, word)
    } else {
        uid(alloc, name, &format!(in alloc; "{ty}::\"{word}\"")?)
    }
}

fn uid(alloc: Global, name: &str, text: &str) -> Result<Option<Rc<EntityUID>>> {
    match entity_from_text(alloc, name, text) {
        Ok(uid) => Ok(Some(uid)),
        Err(error) => Err(of_input(&error)),
    }
}

fn context_of(alloc: Global, word: &str) -> Result<Option<Context<BuiltinExtension>>> {
    if word == "?" {
        return Ok(None);
    }
    match context_from_json(alloc, word) {
        Ok(context) => Ok(Some(context)),
        Err(error) => Err(of_input(&error)),
    }
}

fn of_input(error: &InputError) -> Error {
    match error {
        InputError::Memory => Error::from(AllocError),
        _ => anyhow!("{error}"),
    }
}
