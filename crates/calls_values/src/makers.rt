//! The constructors of values and of kinds, which have to make the same.
use crate::copies::{is_same, placed_value};
use calls_decode_values::{Keyed, KeyedValue, literals, value_pairs, values};
use calls_syntax::{CallError, Sexpr, holds, maybe_place};
use cedar_names::Loc;
use cedar_terms::Literal;
use cedar_values::{Set, Value, ValueKind};
use std::alloc::{AllocError, Global};
use std::collections::BTreeMap;
use std::rc::{Rc, RcStr};

type Kind = ValueKind<Keyed>;

/// The answer to a call of a constructor of values.
pub fn answer(alloc: Global, args: &[Sexpr]) -> Result<String, CallError> {
    match args {
        [place, f, args @ ..] => {
            let f = f.word()?;
            made(alloc, f, args, maybe_place(alloc, place)?)
        }
        _ => Err(CallError::UnknownCall),
    }
}

fn made(alloc: Global, f: &str, args: &[Sexpr], loc: Option<Loc>) -> Result<String, CallError> {
    match f {
        "from" => from(alloc, &literal(alloc, args)?),
        _ => same(
            alloc,
            &new_value(alloc, f, args, loc)?,
            &new_kind(alloc, f, args)?,
        ),
    }
}

// A value by the constructor of this name.
fn new_value(
    alloc: Global,
    f: &str,
    args: &[Sexpr],
    loc: Option<Loc>,
) -> Result<KeyedValue, CallError> {
    match f {
        "empty_set" => Ok(Value::empty_set(alloc, loc)?),
        "empty_record" => Ok(Value::empty_record(alloc, loc)?),
        "set" => Ok(Value::set(alloc, values(alloc, args)?, loc)?),
        "from_vec" => Ok(Value::from_vec(alloc, values(alloc, args)?)?),
        "set_of_lits" => Ok(Value::set_of_lits(alloc, literals(alloc, args)?, loc)?),
        "record" => Ok(Value::record(alloc, value_pairs(alloc, args)?, loc)?),
        "record_arc" => Ok(Value::record_arc(shared_pairs(alloc, args)?, loc)),
        _ => Err(CallError::BadArguments),
    }
}

// A kind by the constructor of this name.
fn new_kind(alloc: Global, f: &str, args: &[Sexpr]) -> Result<Kind, CallError> {
    match f {
        "empty_set" => empty_set(alloc),
        "empty_record" => Ok(ValueKind::empty_record(alloc)?),
        "set" => Ok(ValueKind::set(alloc, values(alloc, args)?)?),
        "from_vec" => Ok(ValueKind::from_vec(alloc, values(alloc, args)?)?),
        "set_of_lits" => set_of_lits(alloc, args),
        "record" => record(alloc, args),
        "record_arc" => Ok(ValueKind::record_arc(shared_pairs(alloc, args)?)),
        _ => Err(CallError::BadArguments),
    }
}

fn empty_set(alloc: Global) -> Result<Kind, CallError> {
    let kind = ValueKind::empty_set(alloc)?;
    is_same(kind_of_none(alloc), &kind, "the empty sets")?;
    Ok(kind)
}

fn kind_of_none(alloc: Global) -> Result<Kind, AllocError> {
    Ok(ValueKind::Set(Set::empty(alloc)?))
}

fn set_of_lits(alloc: Global, args: &[Sexpr]) -> Result<Kind, CallError> {
    let kind = ValueKind::set_of_lits(alloc, literals(alloc, args)?)?;
    is_same(
        kind_of_set(alloc, literals(alloc, args)?),
        &kind,
        "sets and kinds",
    )?;
    Ok(kind)
}

fn kind_of_set(alloc: Global, literals: Vec<Literal>) -> Result<Kind, AllocError> {
    Ok(ValueKind::Set(Set::from_lits(alloc, literals)?))
}

fn record(alloc: Global, args: &[Sexpr]) -> Result<Kind, CallError> {
    Ok(ValueKind::record(alloc, value_pairs(alloc, args)?)?)
}

fn shared_pairs(
    alloc: Global,
    args: &[Sexpr],
) -> Result<Rc<BTreeMap<RcStr, KeyedValue>>, CallError> {
    match record(alloc, args)? {
        ValueKind::Record(pairs) => Ok(pairs),
        _ => Err(CallError::Mismatch("a record and its kind")),
    }
}

// The text of the value with its places, where the kind is the same.
fn same(alloc: Global, v: &KeyedValue, kind: &Kind) -> Result<String, CallError> {
    holds(*v.value_kind() == *kind, "values and kinds")?;
    holds(are_well_formed(v, kind), "well formed values and kinds")?;
    placed_value(alloc, v)
}

fn are_well_formed(v: &KeyedValue, kind: &Kind) -> bool {
    v.is_well_formed() && kind.is_well_formed()
}

fn literal(alloc: Global, args: &[Sexpr]) -> Result<Literal, CallError> {
    literals(alloc, args)?.pop().ok_or(CallError::BadArguments)
}

// By what the literal holds, and by the literal itself.
fn from(alloc: Global, literal: &Literal) -> Result<String, CallError> {
    let v = value_held(literal)?;
    is_same(value_of(alloc, literal), &v, "a literal and what it holds")?;
    is_same(
        kind_of(alloc, literal),
        v.value_kind(),
        "the kinds of a literal and of what it holds",
    )?;
    same(alloc, &v, &kind_held(literal)?)
}

fn value_of(alloc: Global, literal: &Literal) -> Result<KeyedValue, AllocError> {
    Ok(Value::from(literal.clone(alloc)?))
}

fn kind_of(alloc: Global, literal: &Literal) -> Result<Kind, AllocError> {
    Ok(ValueKind::from(literal.clone(alloc)?))
}

fn value_held(literal: &Literal) -> Result<KeyedValue, CallError> {
    match literal {
        Literal::Bool(b) => Ok(Value::from(*b)),
        Literal::Long(n) => Ok(Value::from(*n)),
        Literal::String(s) => Ok(Value::from(s.clone()?)),
        Literal::EntityUID(uid) => Ok(Value::from(uid.clone()?)),
    }
}

fn kind_held(literal: &Literal) -> Result<Kind, CallError> {
    match literal {
        Literal::Bool(b) => Ok(ValueKind::from(*b)),
        Literal::Long(n) => Ok(ValueKind::from(*n)),
        Literal::String(s) => Ok(ValueKind::from(s.clone()?)),
        Literal::EntityUID(uid) => Ok(ValueKind::from(uid.clone()?)),
    }
}
