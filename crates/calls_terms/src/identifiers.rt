//! Identifiers.
use calls_syntax::{Answer, CallError, Sexpr, compare, parsed, text};
use cedar_names::{AnyId, FromNormalizedStr, Id, InternalName, Name, UnreservedId};
use std::alloc::Global;
use std::convert::{AsRef, AsStr};
use std::hash::Hash;
use std::rc::RcStr;

/// The answer to a call on identifiers.
pub fn answer(alloc: Global, call: &str, args: &[Sexpr]) -> Result<String, CallError> {
    let [a, b] = args else {
        return Err(CallError::UnknownCall);
    };
    match call {
        "ways" => ways_by_kind(alloc, a.word()?, b),
        "cmpid" => compared_texts::<Id>(alloc, a, b),
        "cmpuid" => compared_texts::<UnreservedId>(alloc, a, b),
        "cmpanyid" => compared_texts::<AnyId>(alloc, a, b),
        _ => Err(CallError::UnknownCall),
    }
}

fn ways_by_kind(alloc: Global, kind: &str, word: &Sexpr) -> Result<String, CallError> {
    match kind {
        "id" => each_way::<Id>(alloc, word),
        "uid" => each_way::<UnreservedId>(alloc, word),
        "anyid" => each_way::<AnyId>(alloc, word),
        _ => Err(CallError::BadArguments),
    }
}

// What a text is read as.
fn read<T: FromNormalizedStr + Drop>(alloc: Global, sexpr: &Sexpr) -> Result<T, CallError> {
    let text = text(alloc, sexpr)?;
    parsed(T::from_normalized_str(alloc, text.as_str()))
}

fn compared_texts<T: FromNormalizedStr + Ord + Hash + Drop>(
    alloc: Global,
    a: &Sexpr,
    b: &Sexpr,
) -> Result<String, CallError> {
    compare::<T>(alloc, read(alloc, a), read(alloc, b))
}

// An identifier that is handed on in several ways.
trait Ways: FromNormalizedStr + Drop {
    fn ways(&self, alloc: Global) -> Result<String, CallError>;
}

fn each_way<T: Ways>(alloc: Global, word: &Sexpr) -> Result<String, CallError> {
    let id: T = read(alloc, word)?;
    id.ways(alloc)
}

// Borrowed, owned, and as a name of one identifier.
impl Ways for Id {
    fn ways(&self, alloc: Global) -> Result<String, CallError> {
        Answer::new(alloc)
            .word(&self.as_str())
            .labelled_made("| ", owned_text(alloc, self))
            .labelled_made("| ", unqualified_name(alloc, self))
            .labelled_made("| ", name_from(alloc, self))
            .end()
    }
}

fn owned_text(alloc: Global, id: &Id) -> Result<RcStr, CallError> {
    Ok(id.clone(alloc)?.into_smolstr())
}

fn unqualified_name(alloc: Global, id: &Id) -> Result<InternalName, CallError> {
    Ok(InternalName::unqualified_name(id.clone(alloc)?, None))
}

fn name_from(alloc: Global, id: &Id) -> Result<InternalName, CallError> {
    Ok(InternalName::from(id.clone(alloc)?))
}

// Borrowed as a text and as an identifier, owned as either, and as a plain name.
impl Ways for UnreservedId {
    fn ways(&self, alloc: Global) -> Result<String, CallError> {
        let borrowed: &Id = self.as_ref();
        Answer::new(alloc)
            .word(&self.as_str())
            .labelled("| ", borrowed)
            .labelled_made("| ", owned_id(alloc, self))
            .labelled_made("| ", unreserved_text(alloc, self))
            .labelled_made("| ", unqualified_plain_name(alloc, self))
            .labelled_made("| ", plain_name_from(alloc, self))
            .end()
    }
}

fn owned_id(alloc: Global, id: &UnreservedId) -> Result<Id, CallError> {
    Ok(Id::from(id.clone(alloc)?))
}

fn unreserved_text(alloc: Global, id: &UnreservedId) -> Result<RcStr, CallError> {
    Ok(id.clone(alloc)?.into_smolstr())
}

fn unqualified_plain_name(alloc: Global, id: &UnreservedId) -> Result<Name, CallError> {
    Ok(Name::unqualified_name(id.clone(alloc)?))
}

fn plain_name_from(alloc: Global, id: &UnreservedId) -> Result<Name, CallError> {
    Ok(Name::from(id.clone(alloc)?))
}

// Borrowed, and owned.
impl Ways for AnyId {
    fn ways(&self, alloc: Global) -> Result<String, CallError> {
        Answer::new(alloc)
            .word(&self.as_str())
            .labelled_made("| ", any_text(alloc, self))
            .end()
    }
}

fn any_text(alloc: Global, id: &AnyId) -> Result<RcStr, CallError> {
    Ok(id.clone(alloc)?.into_smolstr())
}
