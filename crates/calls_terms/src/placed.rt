//! What stands at a place.
use calls_syntax::{CallError, Sexpr, at_place, literal, name_at, plain, term_type};
use cedar_names::{Loc, Name};
use cedar_terms::{EntityType, EntityUID, Literal, Type};
use std::alloc::Global;
use std::convert::AsRef;
use std::rc::{Rc, RcStr};

/// The literal that an argument stands for; `(@ 3 7 T::"id")` is an entity whose type is at this
/// place.
pub fn placed_literal(alloc: Global, sexpr: &Sexpr) -> Result<Literal, CallError> {
    match at_place(alloc, sexpr)? {
        None => given(literal(alloc, sexpr)?),
        Some((loc, inner)) => Ok(Literal::EntityUID(entity_at(alloc, inner, loc)?)),
    }
}

fn given(literal: Option<Literal>) -> Result<Literal, CallError> {
    match literal {
        Some(literal) => Ok(literal),
        None => Err(CallError::BadArguments),
    }
}

fn entity_at(alloc: Global, sexpr: &Sexpr, loc: Loc) -> Result<Rc<EntityUID>, CallError> {
    match literal(alloc, sexpr)? {
        Some(Literal::EntityUID(uid)) => moved_entity(alloc, &uid, loc),
        _ => Err(CallError::BadArguments),
    }
}

/// The type that an argument stands for; `(@ 3 7 (entity N))` has its name at this place.
pub fn placed_type(alloc: Global, sexpr: &Sexpr) -> Result<Type, CallError> {
    match at_place(alloc, sexpr)? {
        None => term_type(alloc, sexpr),
        Some((loc, inner)) => moved_type(alloc, &term_type(alloc, inner)?, loc),
    }
}

fn moved_type(alloc: Global, ty: &Type, loc: Loc) -> Result<Type, CallError> {
    match ty {
        Type::Entity { ty } => Ok(Type::entity_type(moved_plain(alloc, ty.name(), loc)?)),
        Type::Extension { name } => Ok(Type::Extension {
            name: moved_plain(alloc, name, loc)?,
        }),
        _ => Err(CallError::BadArguments),
    }
}

fn moved_plain(alloc: Global, name: &Name, loc: Loc) -> Result<Name, CallError> {
    plain(name_at(alloc, name.as_ref(), loc)?)
}

fn moved_entity(alloc: Global, uid: &EntityUID, loc: Loc) -> Result<Rc<EntityUID>, CallError> {
    let ty = EntityType::from(moved_plain(alloc, uid.entity_type().name(), loc)?);
    let uid = EntityUID::new(ty, RcStr::from_str(alloc, uid.eid())?);
    Ok(Rc::new(alloc, uid)?)
}
