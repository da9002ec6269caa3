//! Sets of very many equal values, and records of very many keys.
use calls_decode_values::{Keyed, KeyedValue, number, value};
use calls_exprs::rebuilt;
use calls_syntax::{Answer, CallError, Sexpr, count, holds};
use cedar_builders::ExpressionConstructionError;
use cedar_exprs::Expr;
use cedar_values::{NotValue, Set, Value, ValueKind};
use std::alloc::{AllocError, Global};
use std::collections::{BTreeMap, HashMap};
use std::rc::RcStr;

/// The answer to a call on what is large.
pub fn answer(alloc: Global, call: &str, args: &[Sexpr]) -> Result<String, CallError> {
    match (call, args) {
        ("many", [times, v]) => many(alloc, count(times)?, &value(alloc, v)?),
        ("falling", [before, first, last, after]) => {
            let span = Span {
                first: number(alloc, first)?,
                last: number(alloc, last)?,
            };
            falling(alloc, before.list()?, span, after.list()?)
        }
        _ => Err(CallError::UnknownCall),
    }
}

fn many(alloc: Global, times: usize, v: &KeyedValue) -> Result<String, CallError> {
    Answer::new(alloc)
        .labelled_made("new=", made(alloc, times, v))
        .labelled_made("from_values=", gathered(alloc, times, v))
        .labelled_made("read=", read(alloc, times, v))
        .end()
}

fn made(alloc: Global, times: usize, v: &KeyedValue) -> Result<usize, CallError> {
    length(&Set::new(alloc, copies(alloc, times, v)?)?, v)
}

fn gathered(alloc: Global, times: usize, v: &KeyedValue) -> Result<usize, CallError> {
    length(&Set::from_values(alloc, copies(alloc, times, v)?)?, v)
}

fn copies(alloc: Global, times: usize, v: &KeyedValue) -> Result<Vec<KeyedValue>, CallError> {
    let mut copies = Vec::new(alloc);
    for _ in 0..times {
        copies.push(v.clone(alloc)?)?;
    }
    Ok(copies)
}

// How many members a set has, of which one has to be this one.
fn length(set: &Set<Keyed>, v: &KeyedValue) -> Result<usize, CallError> {
    holds(
        set.is_well_formed() && set.contains(v),
        "a set and its member",
    )?;
    Ok(set.authoritative().len())
}

// How many members the value of the set expression has.
fn read(alloc: Global, times: usize, v: &KeyedValue) -> Result<String, CallError> {
    match KeyedValue::try_from_expr(alloc, set_expr(alloc, times, v)?) {
        Ok(read) => members_text(alloc, &read, v),
        Err(NotValue::NotValue { .. }) => Ok(format!(in alloc; "not-a-value")?),
        Err(NotValue::Memory) => Err(CallError::Memory),
    }
}

fn set_expr(alloc: Global, times: usize, v: &KeyedValue) -> Result<Expr, CallError> {
    let mut members = Vec::new(alloc);
    for _ in 0..times {
        members.push(v.to_expr(alloc)?)?;
    }
    Ok(Expr::set(alloc, members)?)
}

fn members_text(alloc: Global, read: &KeyedValue, v: &KeyedValue) -> Result<String, CallError> {
    match read.value_kind() {
        ValueKind::Set(set) => Ok(format!(in alloc; "{}", length(set, v)?)?),
        _ => Err(CallError::Mismatch("a set and its expression")),
    }
}

// The numbers from the last one down to the first.
#[derive(Clone, Copy)]
struct Span {
    first: i64,
    last: i64,
}

fn falling(
    alloc: Global,
    before: &[Sexpr],
    span: Span,
    after: &[Sexpr],
) -> Result<String, CallError> {
    let v = Value::record(alloc, pairs(alloc, before, span, after)?, None)?;
    let text = about(alloc, &v)?;
    let pairs = pairs(alloc, before, span, after)?;
    written(alloc, &v, text, pairs.as_slice())
}

// The text where the record expression is the value's; behind it what the error says, if there is
// none.
fn written(
    alloc: Global,
    v: &KeyedValue,
    text: String,
    pairs: &[(RcStr, KeyedValue)],
) -> Result<String, CallError> {
    match Expr::record(alloc, exprs(alloc, pairs)?) {
        Ok(record) => {
            same(alloc, v, record)?;
            Ok(text)
        }
        Err(ExpressionConstructionError::Memory) => Err(CallError::Memory),
        Err(e) => Ok(format!(in alloc; "{text} | duplicate-key {e}")?),
    }
}

// Zero at each key before, the numbers by their keys, and zero at each key after.
fn pairs(
    alloc: Global,
    before: &[Sexpr],
    span: Span,
    after: &[Sexpr],
) -> Result<Vec<(RcStr, KeyedValue)>, CallError> {
    let mut pairs = Vec::new(alloc);
    for key in before {
        pairs.push(pair(alloc, number(alloc, key)?, 0)?)?;
    }
    for step in 0..span.last.saturating_sub(span.first).saturating_add(1) {
        let number = span.last.saturating_sub(step);
        pairs.push(pair(alloc, number, number)?)?;
    }
    for key in after {
        pairs.push(pair(alloc, number(alloc, key)?, 0)?)?;
    }
    Ok(pairs)
}

fn pair(alloc: Global, key: i64, number: i64) -> Result<(RcStr, KeyedValue), CallError> {
    let key = RcStr::from_string(format!(in alloc; "{key}")?)?;
    Ok((key, Value::from(number)))
}

fn exprs(alloc: Global, pairs: &[(RcStr, KeyedValue)]) -> Result<Vec<(RcStr, Expr)>, CallError> {
    let mut exprs = Vec::new(alloc);
    for (key, v) in pairs {
        exprs.push(pair_expr(alloc, key, v)?)?;
    }
    Ok(exprs)
}

fn pair_expr(alloc: Global, key: &RcStr, v: &KeyedValue) -> Result<(RcStr, Expr), CallError> {
    let e = v.to_expr(alloc)?;
    Ok((key.clone()?, e))
}

// How many keys there are, whether they ascend, and at how many of them their number stands.
fn about(alloc: Global, v: &KeyedValue) -> Result<String, CallError> {
    match v.value_kind() {
        ValueKind::Record(pairs) => counted(alloc, pairs),
        _ => Err(CallError::Mismatch("a record and its kind")),
    }
}

fn counted(alloc: Global, pairs: &BTreeMap<RcStr, KeyedValue>) -> Result<String, CallError> {
    Answer::new(alloc)
        .labelled("keys=", &pairs.len())
        .labelled("ascending=", &ascends(pairs))
        .labelled("numbered=", &numbered(pairs))
        .end()
}

// Whether each key comes before the next.
fn ascends(pairs: &BTreeMap<RcStr, KeyedValue>) -> bool {
    let mut ascends = true;
    let mut before: Option<&str> = None;
    for key in pairs.keys() {
        ascends = ascends && is_after(key.as_str(), before);
        before = Some(key.as_str());
    }
    ascends
}

fn is_after(key: &str, before: Option<&str>) -> bool {
    match before {
        Some(before) => before < key,
        None => true,
    }
}

// How many keys have their number.
fn numbered(pairs: &BTreeMap<RcStr, KeyedValue>) -> usize {
    let mut numbered: usize = 0;
    for (key, v) in pairs.iter() {
        if is_numbered(key.as_str(), v) {
            numbered = numbered.saturating_add(1);
        }
    }
    numbered
}

fn is_numbered(key: &str, v: &KeyedValue) -> bool {
    match key.parse::<i64>() {
        Ok(number) => *v == Value::from(number),
        Err(_) => false,
    }
}

// The record expression stays what it is when it is copied, substituted in or built, and is the
// value's.
fn same(alloc: Global, v: &KeyedValue, record: Expr) -> Result<(), CallError> {
    stays(alloc, &record)?;
    is_record(v.to_expr(alloc), &record, "a value and its expression")?;
    holds(is_read(alloc, record, v)?, "an expression and its value")
}

fn stays(alloc: Global, record: &Expr) -> Result<(), CallError> {
    is_record(record.clone(alloc), record, "a record and its copy")?;
    is_record(
        substituted(alloc, record),
        record,
        "a record and substitution",
    )?;
    is_record(rebuilt(alloc, record), record, "a record and what is built")
}

// Refuses what was made, where there was memory for it, and is not the record.
fn is_record(
    made: Result<Expr, AllocError>,
    record: &Expr,
    what: &'static str,
) -> Result<(), CallError> {
    holds(made? == *record, what)
}

fn substituted(alloc: Global, e: &Expr) -> Result<Expr, AllocError> {
    let nothing: HashMap<RcStr, KeyedValue> = HashMap::new(alloc);
    e.substitute(alloc, &nothing)
}

fn is_read(alloc: Global, e: Expr, v: &KeyedValue) -> Result<bool, CallError> {
    match KeyedValue::try_from_expr(alloc, e) {
        Ok(read) => Ok(read == *v),
        Err(NotValue::NotValue { .. }) => Ok(false),
        Err(NotValue::Memory) => Err(CallError::Memory),
    }
}
