//! Places, slots and lists of one item or more.
use calls_syntax::{
    Answer, CallError, Sexpr, compare, copy_of, count, equal, join, maybe_place, place_in_text,
    quoted, same, shared_text,
};
use cedar_names::{Loc, NonEmpty, PrincipalOrResource, Slot, SlotId};
use cedar_terms::Var;
use std::alloc::Global;
use std::rc::RcStr;

/// The answer to a call on places, slots or lists.
pub fn answer(alloc: Global, call: &str, args: &[Sexpr]) -> Result<String, CallError> {
    match args {
        [items] => match call {
            "items" => items_of(alloc, items),
            _ => Err(CallError::UnknownCall),
        },
        [a, b] => match call {
            "cmploc" => compared_places(alloc, a, b),
            "slot" => told(alloc, a, b),
            "cmplist" => compared_lists(alloc, a, b),
            _ => Err(CallError::UnknownCall),
        },
        [a, at, b, beside] => match call {
            "cmpslot" => compared_slots(alloc, a, at, b, beside),
            _ => Err(CallError::UnknownCall),
        },
        _ => Err(CallError::UnknownCall),
    }
}

// `(START STOP "TEXT")`
fn place_in(alloc: Global, sexpr: &Sexpr) -> Result<Loc, CallError> {
    match sexpr.list()? {
        [start, stop, text] => {
            Ok(Loc::new(count(start)?, count(stop)?, shared_text(alloc, text)?))
        }
        _ => Err(CallError::BadArguments),
    }
}

// By a copy of the first.
fn compared_places(alloc: Global, a: &Sexpr, b: &Sexpr) -> Result<String, CallError> {
    compare(
        alloc,
        copy_of(alloc, place_in(alloc, a)),
        place_in(alloc, b),
    )
}

fn principal_or_resource(sexpr: &Sexpr) -> Result<PrincipalOrResource, CallError> {
    match sexpr.word()? {
        "principal" => Ok(PrincipalOrResource::Principal),
        "resource" => Ok(PrincipalOrResource::Resource),
        _ => Err(CallError::BadArguments),
    }
}

fn slot_id(sexpr: &Sexpr) -> Result<SlotId, CallError> {
    match principal_or_resource(sexpr)? {
        PrincipalOrResource::Principal => Ok(SlotId::principal()),
        PrincipalOrResource::Resource => Ok(SlotId::resource()),
    }
}

fn slot_at(alloc: Global, id: &Sexpr, at: &Sexpr) -> Result<Slot, CallError> {
    let id = slot_id(id)?;
    Ok(Slot {
        id,
        loc: maybe_place(alloc, at)?,
    })
}

// What a copy of the slot says of itself.
fn told(alloc: Global, id: &Sexpr, at: &Sexpr) -> Result<String, CallError> {
    let copy = copy_of(alloc, slot_at(alloc, id, at))?;
    told_slot(alloc, &copy, principal_or_resource(id)?)
}

fn told_slot(alloc: Global, slot: &Slot, which: PrincipalOrResource) -> Result<String, CallError> {
    same(&slot.id, &SlotId::from(which))?;
    Answer::new(alloc)
        .word(&slot.id)
        .labelled("principal=", &slot.id.is_principal())
        .labelled("resource=", &slot.id.is_resource())
        .labelled("var=", &Var::from(which))
        .labelled_made("loc=", place_in_text(alloc, slot.loc.as_ref()))
        .end()
}

fn compared_slots(
    alloc: Global,
    a: &Sexpr,
    at: &Sexpr,
    b: &Sexpr,
    beside: &Sexpr,
) -> Result<String, CallError> {
    Answer::new(alloc)
        .made(equal(alloc, slot_at(alloc, a, at), slot_at(alloc, b, beside)))
        .made(compare(alloc, slot_id(a), slot_id(b)))
        .end()
}

fn list(alloc: Global, sexpr: &Sexpr) -> Result<NonEmpty<RcStr>, CallError> {
    let [head, rest @ ..] = sexpr.list()? else {
        return Err(CallError::BadArguments);
    };
    let head = shared_text(alloc, head)?;
    Ok(NonEmpty::new(head, texts(alloc, rest)?))
}

fn texts(alloc: Global, sexprs: &[Sexpr]) -> Result<Vec<RcStr>, CallError> {
    let mut texts = Vec::new(alloc);
    for sexpr in sexprs {
        texts.push(shared_text(alloc, sexpr)?)?;
    }
    Ok(texts)
}

// By a copy of the first.
fn compared_lists(alloc: Global, a: &Sexpr, b: &Sexpr) -> Result<String, CallError> {
    compare(alloc, copy_of(alloc, list(alloc, a)), list(alloc, b))
}

fn items_of(alloc: Global, sexpr: &Sexpr) -> Result<String, CallError> {
    let list = list(alloc, sexpr)?;
    told_items(alloc, &list)
}

fn told_items(alloc: Global, list: &NonEmpty<RcStr>) -> Result<String, CallError> {
    let mut items = String::new(alloc);
    for text in list.iter() {
        join(&mut items, " | ", &quoted(alloc, text.as_str())?)?;
    }
    Ok(items)
}
