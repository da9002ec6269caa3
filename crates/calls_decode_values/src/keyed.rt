//! Extension values that compare by a key, and the functions that are stored for them.
ghost use Rattle.std.specs.Prelude.{◌≡◌, IfOk, Some, None, codes, false, if◌then◌else◌, true};
ghost use Rattle.std.specs.String.{string_bytes};
ghost use Rattle.cedar_names.specs.Names.{unqualified};
ghost use Rattle.cedar_names.specs.PlainNames.{bare_name};
ghost use Rattle.cedar_terms.specs.Literals.{LongLit};
ghost use Rattle.cedar_terms.specs.Types.{LongType, RecordType};
ghost use Rattle.cedar_builders.specs.BareExpr.{Lit, tree, no_trees};
ghost use Rattle.cedar_calls.specs.Types.{Keeps};

use cedar_calls::{
    BinaryFunction, EvaluationError, ExtensionFunctions, ExtensionOutputValue, NullaryFunction,
    TernaryFunction, UnaryFunction, VariadicFunction,
};
use cedar_exprs::{RestrictedExpr, SubstituteValue};
use cedar_names::Name;
use cedar_terms::{Literal, Unknown};
use cedar_values::{BoundedToString as _, ExtensionValue, Value, ValueKind};
use std::alloc::{AllocError, Global};
use std::rc::RcStr;

/// An extension value: it compares by its key alone, and shows a text of its own.
#[derive(Debug, Drop)]
#[derive_where(PartialEq, Eq, PartialOrd, Ord)]
pub struct Keyed {
    key: i64,
    #[derive_where(skip(EqHashOrd))]
    text: String,
}

impl Keyed {
    /// The value of this key, which shows this text.
    pub fn new(key: i64, text: String) -> Keyed {
        Keyed { key, text }
    }
}

// The name `keyed` of the type.
fn type_name(alloc: Global) -> Result<Name, AllocError>
    ensures { IfOk result (λ n. bare_name n ≡ unqualified (codes "keyed")) }
{
    match Name::parse_unqualified_name(alloc, "keyed") {
        Ok(name) => Ok(name),
        Err(_) => Err(AllocError),
    }
}

// The name `canon` of the function that makes a value of its key.
fn canonical_name(alloc: Global) -> Result<Name, AllocError>
    ensures { IfOk result (λ n. bare_name n ≡ unqualified (codes "canon")) }
{
    match Name::parse_unqualified_name(alloc, "canon") {
        Ok(name) => Ok(name),
        Err(_) => Err(AllocError),
    }
}

impl ExtensionValue for Keyed {
    ghost type_name = { λ _. unqualified (codes "keyed") };

    ghost canonical = { λ k. record {
      func = unqualified (codes "canon");
      args = tree (Lit (LongLit k.key)) no_trees;
    } };

    ghost text_of = { λ k. string_bytes k.text };

    ghost is_overloadable = { λ _. false };

    fn typename(&self, alloc: Global) -> Result<Name, AllocError> {
        type_name(alloc)
    }

    fn supports_operator_overloading(&self) -> bool {
        false
    }

    fn canonical_repr(&self, alloc: Global) -> Result<(Name, Vec<RestrictedExpr>), AllocError> {
        let key = Literal::Long(self.key).value_expr(alloc)?;
        let mut args = Vec::new(alloc);
        args.push(key)?;
        Ok((canonical_name(alloc)?, args))
    }

    fn text(&self) -> &str {
        self.text.as_str()
    }
}

type Answer = Result<ExtensionOutputValue<Keyed>, EvaluationError>;

// The record of these arguments, by `a0`, `a1` and so on.
fn record_of(alloc: Global, args: &[&Value<Keyed>]) -> Answer
    ensures { Keeps (λ _. unqualified (codes "keyed")) (Some RecordType) result }
{
    let record = Value::record(alloc, pairs_of(alloc, args)?, None)?;
    Ok(ExtensionOutputValue::from(record))
}

fn pairs_of(
    alloc: Global,
    args: &[&Value<Keyed>],
) -> Result<Vec<(RcStr, Value<Keyed>)>, AllocError> {
    let mut pairs = Vec::new(alloc);
    for (index, arg) in args.iter().enumerate() {
        pairs.push(pair_of(alloc, index, arg)?)?;
    }
    Ok(pairs)
}

fn pair_of(
    alloc: Global,
    index: usize,
    arg: &Value<Keyed>,
) -> Result<(RcStr, Value<Keyed>), AllocError> {
    let key = RcStr::from_string(format!(in alloc; "a{index}")?)?;
    Ok((key, arg.clone(alloc)?))
}

// The unknown whose name is the argument's text.
fn unknown_of(alloc: Global, arg: &Value<Keyed>) -> Answer
    ensures { Keeps (λ _. unqualified (codes "keyed")) None result }
{
    let name = RcStr::from_string(arg.to_string_unbounded(alloc)?)?;
    Ok(ExtensionOutputValue::Unknown(Unknown::new_untyped(name)))
}

// The number itself where the argument is one, else a fault.
fn number_of(alloc: Global, arg: &Value<Keyed>) -> Answer
    ensures { Keeps (λ _. unqualified (codes "keyed")) (Some LongType) result }
{
    match arg.value_kind() {
        ValueKind::Lit(Literal::Long(n)) => Ok(ExtensionOutputValue::Known(Value::from(*n))),
        _ => Err(fault(alloc, "no number")),
    }
}

// The fault of a function `inner`, which is none of those that are called.
fn fault(alloc: Global, message: &str) -> EvaluationError {
    match Name::parse_unqualified_name(alloc, "inner") {
        Ok(name) => match RcStr::from_str(alloc, message) {
            Ok(message) => EvaluationError::Function { name, message },
            Err(_) => EvaluationError::Memory,
        },
        Err(_) => EvaluationError::Memory,
    }
}

/// Answers the record of its arguments.
#[derive(Drop)]
pub struct Echo;

/// What a function of one argument answers in place of a value.
#[derive(Clone, Copy)]
pub enum NoValue {
    /// The unknown that its argument names.
    Unknown,
    /// A fault of its own.
    Fault,
    /// That there is no memory.
    Memory,
}

/// Answers the record of its argument, or no value.
#[derive(Drop)]
pub struct OneArgument {
    /// Whether it answers the record.
    pub is_echo: bool,
    /// What it answers else.
    pub no_value: NoValue,
}

// What is answered in place of a value.
fn no_value_of(alloc: Global, arg: &Value<Keyed>, no_value: NoValue) -> Answer
    ensures { Keeps (λ _. unqualified (codes "keyed")) None result }
{
    match no_value {
        NoValue::Unknown => unknown_of(alloc, arg),
        NoValue::Fault => Err(fault(alloc, "out of range")),
        NoValue::Memory => Err(EvaluationError::Memory),
    }
}

/// Answers the record of its arguments, or the first one where that is a number, else a fault.
#[derive(Drop)]
pub struct TwoArguments {
    /// Whether it answers the record.
    pub is_echo: bool,
}

impl NullaryFunction<Keyed> for Echo {
    ghost gives = { λ f r. Keeps (λ _. unqualified (codes "keyed")) (Some RecordType) r };

    fn call(&self, alloc: Global) -> Result<ExtensionOutputValue<Keyed>, EvaluationError> {
        record_of(alloc, &[])
    }
}

impl UnaryFunction<Keyed> for OneArgument {
    ghost gives = { λ f x r. Keeps (λ _. unqualified (codes "keyed"))
        (if f.is_echo then Some RecordType else None) r };

    fn call(
        &self,
        alloc: Global,
        arg: &Value<Keyed>,
    ) -> Result<ExtensionOutputValue<Keyed>, EvaluationError> {
        if self.is_echo {
            record_of(alloc, &[arg])
        } else {
            no_value_of(alloc, arg, self.no_value)
        }
    }
}

impl BinaryFunction<Keyed> for TwoArguments {
    ghost gives = { λ f x y r. Keeps (λ _. unqualified (codes "keyed"))
        (if f.is_echo then Some RecordType else Some LongType) r };

    fn call(
        &self,
        alloc: Global,
        first: &Value<Keyed>,
        second: &Value<Keyed>,
    ) -> Result<ExtensionOutputValue<Keyed>, EvaluationError> {
        if self.is_echo {
            record_of(alloc, &[first, second])
        } else {
            number_of(alloc, first)
        }
    }
}

impl TernaryFunction<Keyed> for Echo {
    ghost gives = { λ f x y z r. Keeps (λ _. unqualified (codes "keyed")) (Some RecordType) r };

    fn call(
        &self,
        alloc: Global,
        first: &Value<Keyed>,
        second: &Value<Keyed>,
        third: &Value<Keyed>,
    ) -> Result<ExtensionOutputValue<Keyed>, EvaluationError> {
        record_of(alloc, &[first, second, third])
    }
}

impl VariadicFunction<Keyed> for Echo {
    ghost gives = { λ f x xs r. Keeps (λ _. unqualified (codes "keyed")) (Some RecordType) r };

    fn call(
        &self,
        alloc: Global,
        first: &Value<Keyed>,
        rest: &[Value<Keyed>],
    ) -> Result<ExtensionOutputValue<Keyed>, EvaluationError> {
        let mut args = Vec::new(alloc);
        args.push(first)?;
        for arg in rest {
            args.push(arg)?;
        }
        record_of(alloc, args.as_slice())
    }
}

impl ExtensionFunctions for Keyed {
    type Nullary = Echo;

    type Unary = OneArgument;

    type Binary = TwoArguments;

    type Ternary = Echo;

    type Variadic = Echo;
}
