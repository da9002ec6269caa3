//! What builders make of an expression, before substitution and after.
use crate::chosen::{Chosen, bit};
use crate::substitution::{clash_text, refusal_of};
use calls_decode::{expr, sketch};
use calls_decode_values::{KeyedValue, bindings};
use calls_syntax::{CallError, Sexpr, holds, ok};
use cedar_exprs::{Expr, TypedBuildFault};
use std::alloc::Global;
use std::collections::HashMap;
use std::rc::RcStr;
use test_support::{AsTheyStand, Refused, Refusing};

type Values = HashMap<RcStr, KeyedValue>;

/// The answer to a call of a builder, by itself or after substitution.
pub fn answer(alloc: Global, call: &str, args: &[Sexpr]) -> Result<String, CallError> {
    match args {
        [names, e] => match call {
            "build" => build(alloc, names.list()?, &expr(alloc, e)?),
            _ => Err(CallError::UnknownCall),
        },
        [names, e, env] => after_substitution(
            alloc,
            call,
            names.list()?,
            &expr(alloc, e)?,
            &bindings(alloc, env)?,
        ),
        _ => Err(CallError::UnknownCall),
    }
}

fn after_substitution(
    alloc: Global,
    call: &str,
    names: &[Sexpr],
    e: &Expr,
    values: &Values,
) -> Result<String, CallError> {
    match call {
        "substbuild" => subst_build(alloc, names, e, values),
        "typedbuild" => typed_build(alloc, names, e, values),
        _ => Err(CallError::UnknownCall),
    }
}

// What a builder makes that refuses these functions, and makes each node as it stands.
fn build(alloc: Global, names: &[Sexpr], e: &Expr) -> Result<String, CallError> {
    ask_builder(alloc, names, &Asked::Built(e))
}

// What a lawful one makes after substitution: of the one call and of the two in turn. No `and` and
// no `or` of two Booleans stays then, so the other makes the same.
fn subst_build(
    alloc: Global,
    names: &[Sexpr],
    e: &Expr,
    values: &Values,
) -> Result<String, CallError> {
    let at_once = ask_builder(alloc, names, &Asked::Substituted(e, values))?;
    let in_turn = build(alloc, names, &e.substitute(alloc, values)?)?;
    agreed(at_once, in_turn.as_str())
}

// What a lawful one makes after typed substitution: of the one call and of the two in turn.
fn typed_build(
    alloc: Global,
    names: &[Sexpr],
    e: &Expr,
    values: &Values,
) -> Result<String, CallError> {
    let at_once = ask_builder(alloc, names, &Asked::Typed(e, values))?;
    let in_turn = typed_in_turn(alloc, names, e, values)?;
    agreed(at_once, in_turn.as_str())
}

fn typed_in_turn(
    alloc: Global,
    names: &[Sexpr],
    e: &Expr,
    values: &Values,
) -> Result<String, CallError> {
    match e.substitute_typed(alloc, values) {
        Ok(e) => build(alloc, names, &e),
        Err(error) => refusal_of(alloc, &error),
    }
}

fn agreed(at_once: String, in_turn: &str) -> Result<String, CallError> {
    holds(at_once.as_str() == in_turn, "at once and in turn")?;
    Ok(at_once)
}

// What is asked of a builder.
#[derive(Drop)]
enum Asked<'a> {
    Built(&'a Expr),
    Substituted(&'a Expr, &'a Values),
    Typed(&'a Expr, &'a Values),
}

// A type stands here for each choice of functions that recorded calls make.
fn ask_builder(alloc: Global, names: &[Sexpr], asked: &Asked<'_>) -> Result<String, CallError> {
    match bits(names)? {
        0 => answered::<0>(alloc, asked),
        1 => answered::<1>(alloc, asked),
        2 => answered::<2>(alloc, asked),
        4 => answered::<4>(alloc, asked),
        5 => answered::<5>(alloc, asked),
        8 => answered::<8>(alloc, asked),
        16 => answered::<16>(alloc, asked),
        24 => answered::<24>(alloc, asked),
        63 => answered::<63>(alloc, asked),
        _ => Err(CallError::BadArguments),
    }
}

fn answered<const BITS: u8>(alloc: Global, asked: &Asked<'_>) -> Result<String, CallError> {
    match asked {
        Asked::Built(e) => outcome(alloc, built::<BITS>(alloc, e)),
        Asked::Substituted(e, values) => outcome(alloc, substituted_by::<BITS>(alloc, e, values)),
        Asked::Typed(e, values) => outcome(alloc, typed_by::<BITS>(alloc, e, values)),
    }
}

fn built<const BITS: u8>(alloc: Global, e: &Expr) -> Result<Expr, TypedBuildFault<Refused>> {
    Ok(e.try_into_expr::<Refusing<Chosen<BITS>, AsTheyStand>>(alloc)?)
}

fn substituted_by<const BITS: u8>(
    alloc: Global,
    e: &Expr,
    values: &Values,
) -> Result<Expr, TypedBuildFault<Refused>> {
    Ok(e.substitute_into_expr::<Refusing<Chosen<BITS>>, KeyedValue>(alloc, values)?)
}

fn typed_by<const BITS: u8>(
    alloc: Global,
    e: &Expr,
    values: &Values,
) -> Result<Expr, TypedBuildFault<Refused>> {
    e.substitute_typed_into_expr::<Refusing<Chosen<BITS>>, KeyedValue>(alloc, values)
}

fn outcome(
    alloc: Global,
    made: Result<Expr, TypedBuildFault<Refused>>,
) -> Result<String, CallError> {
    match made {
        Ok(made) => ok(alloc, &sketch(alloc, &made)?),
        Err(fault) => fault_text(alloc, &fault),
    }
}

fn fault_text(alloc: Global, fault: &TypedBuildFault<Refused>) -> Result<String, CallError> {
    match fault {
        TypedBuildFault::TypeError { expected, actual } => clash_text(alloc, expected, actual),
        TypedBuildFault::Build(refused) => Ok(format!(in alloc; "refused {}", refused.name)?),
        TypedBuildFault::Memory => Err(CallError::Memory),
    }
}

fn bits(names: &[Sexpr]) -> Result<u8, CallError> {
    let mut bits = 0u8;
    for name in names {
        bits |= bit(name.word()?);
    }
    Ok(bits)
}
