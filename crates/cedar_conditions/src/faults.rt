//! Faults in words: which type was found and which is wanted, what is missing.
use crate::call_faults::call_words;
use crate::problem::Words;
use cedar_builders::BuildFault;
use cedar_evaluator::{EvalFault, EvaluationFault};
use cedar_exprs::{Expr, ExprKind};
use cedar_json::did_you_mean;
use cedar_names::{Loc, NonEmpty};
use cedar_request::{CallableFunctions, EntityStore};
use cedar_request_evaluator::RequestEvaluator;
use cedar_terms::{BinaryOp, Literal, UnaryOp};
use cedar_values::{ExtensionValue, Value, ValueKind};
use std::alloc::{AllocError, Global};
use std::collections::BTreeMap;
use std::rc::RcStr;

// What an operator is called, and what it wants.
#[derive(Clone, Copy, Debug)]
struct Wish {
    operator: &'static str,
    wanted: Type,
}

// The types of values, as a message names them.
#[derive(Clone, Copy, Debug, PartialEq, Eq)]
pub(crate) enum Type {
    Boolean,
    Integer,
    Text,
    Set,
    Record,
    Entity,
    Extension,
    // What has attributes.
    Holder,
    // What an entity may be in.
    Entities,
}

impl Type {
    pub(crate) fn words(self) -> &'static str {
        match self {
            Type::Boolean => "a Boolean",
            Type::Integer => "an integer",
            Type::Text => "a string",
            Type::Set => "a set",
            Type::Record => "a record",
            Type::Entity => "an entity",
            Type::Extension => "a value of an extension",
            Type::Holder => "a record or an entity",
            Type::Entities => "an entity or a set of entities",
        }
    }

    // Whether a value of this type may stand where another is wanted.
    fn is_a(self, wanted: Type) -> bool {
        match wanted {
            Type::Holder => matches!(self, Type::Record | Type::Entity),
            wanted => self == wanted,
        }
    }

    pub(crate) fn of<X: Ord>(value: &Value<X>) -> Type {
        match value.value_kind() {
            ValueKind::Lit(Literal::Bool(_)) => Type::Boolean,
            ValueKind::Lit(Literal::Long(_)) => Type::Integer,
            ValueKind::Lit(Literal::String(_)) => Type::Text,
            ValueKind::Lit(Literal::EntityUID(_)) => Type::Entity,
            ValueKind::Set(_) => Type::Set,
            ValueKind::Record(_) => Type::Record,
            ValueKind::ExtensionValue(_) => Type::Extension,
        }
    }
}

/// A fault in words, which no more knowledge takes away. It came up in an expression, or, without a
/// place, in what a name stands for.
pub(crate) fn fault_words<X: ExtensionValue + Ord, S: EntityStore<X>, T: CallableFunctions<X>>(
    alloc: Global,
    expr: &Expr,
    fault: &EvaluationFault,
    evaluator: &RequestEvaluator<'_, X, S, T>,
) -> Result<Words, AllocError> {
    let Some(place) = fault.source_loc() else {
        return Ok(Words::message(String::from_str(alloc, "a name stands for what has no value")?));
    };
    for node in expr.subexpressions(alloc)? {
        if stands_at(node, place) {
            let told = node_words(alloc, node, fault.fault(), evaluator)?;
            if let Some(words) = told {
                return Ok(words);
            }
        }
    }
    Ok(Words::message(String::from_str(alloc, general_words(fault.fault()))?))
}

// What is told of a fault, wherever it comes up.
fn general_words(fault: EvalFault) -> &'static str {
    match fault {
        EvalFault::WrongType => "a value has the wrong type",
        EvalFault::Overflow => "an integer is outside 64 bits",
        EvalFault::Missing => "there is no such attribute or tag",
        EvalFault::Store => "the entity is not in the store",
        EvalFault::Open => "a part is not known",
    }
}

fn stands_at(node: &Expr, place: &Loc) -> bool {
    match node.source_loc() {
        Some(loc) => loc.start == place.start && loc.stop == place.stop,
        None => false,
    }
}

// What is wrong at a node, if this fault may come up there.
fn node_words<X: ExtensionValue + Ord, S: EntityStore<X>, T: CallableFunctions<X>>(
    alloc: Global,
    node: &Expr,
    fault: EvalFault,
    evaluator: &RequestEvaluator<'_, X, S, T>,
) -> Result<Option<Words>, AllocError> {
    let operand = match first_operand(node.expr_kind()) {
        Some(operand) => value_of(alloc, operand, evaluator)?,
        None => None,
    };
    match (fault, operand) {
        (EvalFault::WrongType, Some(first)) => {
            let second = match second_operand(node.expr_kind()) {
                Some(operand) => value_of(alloc, operand, evaluator)?,
                None => None,
            };
            type_words(alloc, node.expr_kind(), &first, second.as_ref())
        }
        (EvalFault::Missing, Some(holder)) => missing_words(alloc, node.expr_kind(), &holder),
        (EvalFault::Store, Some(holder)) => no_entity_words(alloc, &holder),
        _ => Ok(None),
    }
}

// The operand that is evaluated first.
fn first_operand(kind: &ExprKind) -> Option<&Expr> {
    match kind {
        ExprKind::If { test_expr, .. } => Some(test_expr),
        ExprKind::And { left, .. } | ExprKind::Or { left, .. } => Some(left),
        ExprKind::UnaryApp { arg, .. } => Some(arg),
        ExprKind::BinaryApp { arg1, .. } => Some(arg1),
        ExprKind::GetAttr { expr, .. }
        | ExprKind::HasAttr { expr, .. }
        | ExprKind::Like { expr, .. }
        | ExprKind::Is { expr, .. } => Some(expr),
        ExprKind::ExtensionFunctionApp { args, .. } => args.first(),
        _ => None,
    }
}

// The operand that is evaluated next.
fn second_operand(kind: &ExprKind) -> Option<&Expr> {
    match kind {
        ExprKind::And { right, .. } | ExprKind::Or { right, .. } => Some(right),
        ExprKind::BinaryApp { arg2, .. } => Some(arg2),
        ExprKind::ExtensionFunctionApp { args, .. } => args.get(1),
        _ => None,
    }
}

// Which operand has the wrong type, or which text a function does not take.
fn type_words<X: ExtensionValue + Ord>(
    alloc: Global,
    kind: &ExprKind,
    first: &Value<X>,
    second: Option<&Value<X>>,
) -> Result<Option<Words>, AllocError> {
    match kind {
        ExprKind::GetAttr { attr, .. } => attribute_words(alloc, attr, Type::of(first)),
        ExprKind::HasAttr { attrs, .. } => has_words(alloc, first, attrs),
        ExprKind::ExtensionFunctionApp { fn_name, .. } => {
            call_words(alloc, fn_name, first, second)
        }
        ExprKind::BinaryApp { op, .. } => binary_words(alloc, *op, first, second),
        _ => match wish_of(kind) {
            Some(wish) => operand_words(alloc, wish, [Some(first), second]),
            None => Ok(None),
        },
    }
}

fn attribute_words(alloc: Global, attr: &str, found: Type) -> Result<Option<Words>, AllocError> {
    let wanted = Type::Holder;
    if found.is_a(wanted) {
        return Ok(None);
    }
    let (wanted, found) = (wanted.words(), found.words());
    let message = format!(in alloc; "attribute {attr:?} wants {wanted}, not {found}")?;
    Ok(Some(Words::message(message)))
}

// Which operand of an operator has the wrong type.
fn binary_words<X: ExtensionValue + Ord>(
    alloc: Global,
    op: BinaryOp,
    first: &Value<X>,
    second: Option<&Value<X>>,
) -> Result<Option<Words>, AllocError> {
    match op {
        BinaryOp::Less | BinaryOp::LessEq
            if is_extension(first) || second.is_some_and(is_extension) => {
            let message = "a comparison wants two integers, two datetimes or two durations";
            Ok(Some(Words::message(String::from_str(alloc, message)?)))
        }
        BinaryOp::In => in_words(alloc, first, second),
        BinaryOp::GetTag => tag_words(alloc, "`getTag`", first, second),
        BinaryOp::HasTag => tag_words(alloc, "`hasTag`", first, second),
        BinaryOp::Contains => match binary_wish(op) {
            Some(wish) => operand_words(alloc, wish, [Some(first), None]),
            None => Ok(None),
        },
        _ => match binary_wish(op) {
            Some(wish) => operand_words(alloc, wish, [Some(first), second]),
            None => Ok(None),
        },
    }
}

fn is_extension<X: Ord>(value: &Value<X>) -> bool {
    Type::of(value) == Type::Extension
}

fn in_words<X: ExtensionValue + Ord>(
    alloc: Global,
    first: &Value<X>,
    second: Option<&Value<X>>,
) -> Result<Option<Words>, AllocError> {
    let operator = "`in`";
    let wanted = Type::Entity;
    match (Type::of(first), second.map(first_no_entity)) {
        (Type::Entity, Some(Some(found))) => {
            let wanted = Type::Entities;
            Ok(Some(wrong_type(alloc, Wish { operator, wanted }, found)?))
        }
        (Type::Entity, _) => Ok(None),
        (found, _) => Ok(Some(wrong_type(alloc, Wish { operator, wanted }, found)?)),
    }
}

fn tag_words<X: ExtensionValue + Ord>(
    alloc: Global,
    operator: &'static str,
    first: &Value<X>,
    second: Option<&Value<X>>,
) -> Result<Option<Words>, AllocError> {
    let entity = Wish {
        operator,
        wanted: Type::Entity,
    };
    match operand_words(alloc, entity, [Some(first), None])? {
        Some(words) => Ok(Some(words)),
        None => {
            let wanted = Type::Text;
            operand_words(alloc, Wish { operator, wanted }, [second, None])
        }
    }
}

// The type of what is neither an entity nor a set of entities, or that of the first other member.
fn first_no_entity<X: Ord>(value: &Value<X>) -> Option<Type> {
    match value.value_kind() {
        ValueKind::Set(set) => set
            .iter()
            .map(Type::of)
            .find(|found| *found != Type::Entity),
        _ => match Type::of(value) {
            Type::Entity => None,
            found => Some(found),
        },
    }
}

// Which of these operands is not of the type that an operator wants.
fn operand_words<X: ExtensionValue + Ord>(
    alloc: Global,
    wish: Wish,
    operands: [Option<&Value<X>>; 2],
) -> Result<Option<Words>, AllocError> {
    for operand in operands {
        match operand.map(Type::of) {
            Some(found) if !found.is_a(wish.wanted) => {
                return Ok(Some(wrong_type(alloc, wish, found)?));
            }
            _ => {}
        }
    }
    Ok(None)
}

fn wrong_type(alloc: Global, wish: Wish, found: Type) -> Result<Words, AllocError> {
    let (operator, wanted, found) = (wish.operator, wish.wanted.words(), found.words());
    Ok(Words::message(format!(in alloc; "{operator} wants {wanted}, not {found}")?))
}

// What an operator is called, and what it wants.
fn wish_of(kind: &ExprKind) -> Option<Wish> {
    let (operator, wanted) = match kind {
        ExprKind::If { .. } => ("`if`", Type::Boolean),
        ExprKind::And { .. } => ("`&&`", Type::Boolean),
        ExprKind::Or { .. } => ("`||`", Type::Boolean),
        ExprKind::UnaryApp { op, .. } => match op {
            UnaryOp::Not => ("`!`", Type::Boolean),
            UnaryOp::Neg => ("`-`", Type::Integer),
            UnaryOp::IsEmpty => ("`isEmpty`", Type::Set),
        },
        ExprKind::Like { .. } => ("`like`", Type::Text),
        ExprKind::Is { .. } => ("`is`", Type::Entity),
        _ => return None,
    };
    Some(Wish { operator, wanted })
}

// The same of an operator on two arguments. `>` and `>=` are made of the other two comparisons.
fn binary_wish(op: BinaryOp) -> Option<Wish> {
    let (operator, wanted) = match op {
        BinaryOp::Less | BinaryOp::LessEq => ("a comparison", Type::Integer),
        BinaryOp::Add => ("`+`", Type::Integer),
        BinaryOp::Sub => ("`-`", Type::Integer),
        BinaryOp::Mul => ("`*`", Type::Integer),
        BinaryOp::Contains => ("`contains`", Type::Set),
        BinaryOp::ContainsAll => ("`containsAll`", Type::Set),
        BinaryOp::ContainsAny => ("`containsAny`", Type::Set),
        BinaryOp::Eq | BinaryOp::In | BinaryOp::GetTag | BinaryOp::HasTag => return None,
    };
    Some(Wish { operator, wanted })
}

// What of a path has no attributes.
fn has_words<X: ExtensionValue + Ord>(
    alloc: Global,
    value: &Value<X>,
    attrs: &NonEmpty<RcStr>,
) -> Result<Option<Words>, AllocError> {
    let mut held = value;
    for attr in attrs {
        match held.value_kind() {
            ValueKind::Record(pairs) => match pairs.get(attr.as_str()) {
                Some(member) => held = member,
                None => return Ok(None),
            },
            _ => {
                let found = Type::of(held);
                let wish = Wish {
                    operator: "`has`",
                    wanted: Type::Holder,
                };
                return Ok(Some(wrong_type(alloc, wish, found)?));
            }
        }
    }
    Ok(None)
}

// Which attribute or tag is missing, and the nearest attribute that a record has.
fn missing_words<X: ExtensionValue + Ord>(
    alloc: Global,
    kind: &ExprKind,
    holder: &Value<X>,
) -> Result<Option<Words>, AllocError> {
    match (kind, holder.value_kind()) {
        (ExprKind::GetAttr { attr, .. }, ValueKind::Record(pairs)) => {
            let message = format!(in alloc; "the record has no attribute {attr:?}")?;
            let hint = nearest_key(alloc, attr, pairs)?;
            Ok(Some(Words { message, hint }))
        }
        (ExprKind::GetAttr { attr, .. }, ValueKind::Lit(Literal::EntityUID(uid))) => {
            let message = format!(in alloc; "`{uid}` has no attribute {attr:?}")?;
            Ok(Some(Words::message(message)))
        }
        (_, ValueKind::Lit(Literal::EntityUID(uid))) => {
            let message = format!(in alloc; "`{uid}` has no such tag")?;
            Ok(Some(Words::message(message)))
        }
        _ => Ok(None),
    }
}

fn nearest_key<X: ExtensionValue + Ord>(
    alloc: Global,
    attr: &str,
    pairs: &BTreeMap<RcStr, Value<X>>,
) -> Result<Option<String>, AllocError> {
    if pairs.is_empty() {
        return Ok(Some(String::from_str(alloc, "the record is empty")?));
    }
    let mut keys = Vec::with_capacity(alloc, pairs.len())?;
    for key in pairs.keys() {
        keys.push(key.as_str())?;
    }
    did_you_mean(alloc, attr, &keys)
}

// That an entity is not in the store.
fn no_entity_words<X: ExtensionValue + Ord>(
    alloc: Global,
    holder: &Value<X>,
) -> Result<Option<Words>, AllocError> {
    match holder.value_kind() {
        ValueKind::Lit(Literal::EntityUID(uid)) => {
            let message = format!(in alloc; "`{uid}` is not in the store of entities")?;
            Ok(Some(Words::message(message)))
        }
        _ => Ok(None),
    }
}

// The value of an expression, if it has one.
fn value_of<X: ExtensionValue + Ord, S: EntityStore<X>, T: CallableFunctions<X>>(
    alloc: Global,
    expr: &Expr,
    evaluator: &RequestEvaluator<'_, X, S, T>,
) -> Result<Option<Value<X>>, AllocError> {
    match evaluator.evaluate(alloc, expr) {
        Ok(outcome) => Ok(outcome.into_result().ok()),
        Err(BuildFault::Build(_)) => Ok(None),
        Err(BuildFault::Memory) => Err(AllocError),
    }
}
