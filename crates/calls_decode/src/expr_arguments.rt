//! The expressions that arguments stand for, each node as it is written and never simplified.
use calls_syntax::{
    CallError, Sexpr, literal, loc, name, pattern, shared_text, term_type, word_literal,
};
use cedar_builders::{ExprBuilder as _, ExpressionConstructionError};
use cedar_exprs::{Expr, ExprBuilder, ExprKind, RestrictedExpr, RestrictedExprError};
use cedar_names::{Loc, Name, NonEmpty, SlotId};
use cedar_terms::{BinaryOp, EntityType, Pattern, UnaryOp, Unknown, Var};
use std::alloc::Global;
use std::rc::{Rc, RcStr};

/// The expression that an argument stands for: as the sketch writes it, beside it
/// `(exthas E "a" ..)` and `(@ 3 7 E)`, E at the place 3..7; and of shared nodes `(thrice E)`, an
/// `if` of E three times, and `(thirds E)`, an `if` of a set of E twice and of another set with the
/// same children.
#[cycle(trees)]
pub fn expr(alloc: Global, sexpr: &Sexpr) -> Result<Expr, CallError> {
    match sexpr {
        Sexpr::List(sexprs) => match sexprs.as_slice() {
            [head, args @ ..] => compound(alloc, head.word()?, args),
            [] => Err(CallError::BadArguments),
        },
        Sexpr::Word(word) => word_expr(word),
        _ => text_expr(alloc, sexpr),
    }
}

// The literal of a text or an entity.
fn text_expr(alloc: Global, sexpr: &Sexpr) -> Result<Expr, CallError> {
    match literal(alloc, sexpr)? {
        Some(literal) => Ok(Expr::val(literal)),
        None => Err(CallError::BadArguments),
    }
}

fn word_expr(word: &str) -> Result<Expr, CallError> {
    if let Some(literal) = word_literal(word) {
        return Ok(Expr::val(literal));
    }
    if let Some(var) = Var::from_text(word) {
        return Ok(Expr::var(var));
    }
    match word {
        "?principal" => Ok(Expr::slot(SlotId::principal())),
        "?resource" => Ok(Expr::slot(SlotId::resource())),
        _ => Err(CallError::BadArguments),
    }
}

// What a list stands for, by its word and what follows.
#[cycle(trees)]
fn compound(alloc: Global, head: &str, args: &[Sexpr]) -> Result<Expr, CallError> {
    match head {
        "set" => set(alloc, exprs(alloc, args)?),
        "record" => record(alloc, pairs(alloc, args)?),
        "call" => match args {
            [f, args @ ..] => call(alloc, f, exprs(alloc, args)?),
            [] => Err(CallError::BadArguments),
        },
        "has" | "exthas" => match args {
            [e, first, further @ ..] => has(alloc, child(alloc, e)?, first, further),
            _ => Err(CallError::BadArguments),
        },
        _ => of_few(alloc, head, args),
    }
}

// The lists with one, two or three behind the word.
#[cycle(trees)]
fn of_few(alloc: Global, head: &str, args: &[Sexpr]) -> Result<Expr, CallError> {
    match args {
        [a] => match head {
            "unknown" => untyped(alloc, a.word()?),
            _ => of_child(alloc, head, expr(alloc, a)?),
        },
        [a, b] => match head {
            "unknown" => typed(alloc, a.word()?, b),
            "get" | "like" | "is" => of_text(alloc, head, child(alloc, a)?, b),
            _ => of_children(head, child(alloc, a)?, child(alloc, b)?),
        },
        [a, b, c] => match head {
            "@" => at_place(loc(alloc, a, b)?, expr(alloc, c)?),
            "if" => Ok(choice(child(alloc, a)?, child(alloc, b)?, child(alloc, c)?)),
            _ => Err(CallError::BadArguments),
        },
        _ => Err(CallError::BadArguments),
    }
}

// The shared expression that an argument stands for.
#[cycle(trees)]
fn child(alloc: Global, sexpr: &Sexpr) -> Result<Rc<Expr>, CallError> {
    Ok(Rc::new(alloc, expr(alloc, sexpr)?)?)
}

fn of_child(alloc: Global, head: &str, child: Expr) -> Result<Expr, CallError> {
    match head {
        "thrice" => thrice(alloc, child),
        "thirds" => thirds(alloc, child),
        _ => applied_to_one(alloc, unary(head)?, child),
    }
}

fn applied_to_one(alloc: Global, op: UnaryOp, arg: Expr) -> Result<Expr, CallError> {
    let arg = Rc::new(alloc, arg)?;
    Ok(made(ExprKind::UnaryApp { op, arg }))
}

// An `if` of one shared node three times.
fn thrice(alloc: Global, child: Expr) -> Result<Expr, CallError> {
    let child = Rc::new(alloc, child)?;
    Ok(Expr::ite_arc(child.clone()?, child.clone()?, child))
}

// An `if` of one shared set twice, and of a set that shares its children.
fn thirds(alloc: Global, member: Expr) -> Result<Expr, CallError> {
    let members = Rc::new(alloc, vec![in alloc; member]?)?;
    let twice = shared_set(alloc, members.clone()?)?;
    let last = shared_set(alloc, members)?;
    Ok(Expr::ite_arc(twice.clone()?, twice, last))
}

fn shared_set(alloc: Global, members: Rc<Vec<Expr>>) -> Result<Rc<Expr>, CallError> {
    Ok(Rc::new(alloc, made(ExprKind::Set(members)))?)
}

fn at_place(place: Loc, inner: Expr) -> Result<Expr, CallError> {
    Ok(inner.with_maybe_source_loc(Some(place)))
}

fn choice(test_expr: Rc<Expr>, then_expr: Rc<Expr>, else_expr: Rc<Expr>) -> Expr {
    made(ExprKind::If {
        test_expr,
        then_expr,
        else_expr,
    })
}

fn untyped(alloc: Global, name: &str) -> Result<Expr, CallError> {
    let name = RcStr::from_str(alloc, name)?;
    Ok(Expr::unknown(Unknown::new_untyped(name)))
}

fn typed(alloc: Global, name: &str, ty: &Sexpr) -> Result<Expr, CallError> {
    let ty = term_type(alloc, ty)?;
    let name = RcStr::from_str(alloc, name)?;
    Ok(Expr::unknown(Unknown::new_with_type(name, ty)))
}

fn of_children(op: &str, left: Rc<Expr>, right: Rc<Expr>) -> Result<Expr, CallError> {
    match op {
        "and" => Ok(made(ExprKind::And { left, right })),
        "or" => Ok(made(ExprKind::Or { left, right })),
        _ => Ok(applied(binary(op)?, left, right)),
    }
}

fn applied(op: BinaryOp, arg1: Rc<Expr>, arg2: Rc<Expr>) -> Expr {
    made(ExprKind::BinaryApp { op, arg1, arg2 })
}

fn of_text(alloc: Global, op: &str, expr: Rc<Expr>, b: &Sexpr) -> Result<Expr, CallError> {
    match op {
        "get" => Ok(get(expr, shared_text(alloc, b)?)),
        "like" => Ok(like(expr, pattern(alloc, b)?)),
        _ => Ok(is(expr, name(alloc, b.word()?)?)),
    }
}

fn get(expr: Rc<Expr>, attr: RcStr) -> Expr {
    made(ExprKind::GetAttr { expr, attr })
}

fn like(expr: Rc<Expr>, pattern: Pattern) -> Expr {
    made(ExprKind::Like { expr, pattern })
}

fn is(expr: Rc<Expr>, ty: Name) -> Expr {
    let entity_type = EntityType::from(ty);
    made(ExprKind::Is { expr, entity_type })
}

fn set(alloc: Global, members: Vec<Expr>) -> Result<Expr, CallError> {
    Ok(made(ExprKind::Set(Rc::new(alloc, members)?)))
}

/// The record of these pairs, where no key repeats.
pub fn record(alloc: Global, pairs: Vec<(RcStr, Expr)>) -> Result<Expr, CallError> {
    match Expr::record(alloc, pairs) {
        Ok(record) => Ok(record),
        Err(ExpressionConstructionError::DuplicateKey(_)) => Err(CallError::BadArguments),
        Err(ExpressionConstructionError::Memory) => Err(CallError::Memory),
    }
}

fn call(alloc: Global, f: &Sexpr, args: Vec<Expr>) -> Result<Expr, CallError> {
    let fn_name = name(alloc, f.word()?)?;
    let args = Rc::new(alloc, args)?;
    Ok(made(ExprKind::ExtensionFunctionApp { fn_name, args }))
}

fn has(alloc: Global, expr: Rc<Expr>, first: &Sexpr, further: &[Sexpr]) -> Result<Expr, CallError> {
    let attrs = attributes(alloc, first, further)?;
    Ok(made(ExprKind::HasAttr { expr, attrs }))
}

/// The attributes that texts in quotes stand for.
pub fn attributes(
    alloc: Global,
    first: &Sexpr,
    further: &[Sexpr],
) -> Result<NonEmpty<RcStr>, CallError> {
    let first = shared_text(alloc, first)?;
    Ok(NonEmpty::new(first, texts(alloc, further)?))
}

// The node of this kind, as it stands.
fn made(kind: ExprKind) -> Expr {
    ExprBuilder::new().with_expr_kind(kind)
}

/// The expressions that arguments stand for.
#[cycle(trees)]
pub fn exprs(alloc: Global, sexprs: &[Sexpr]) -> Result<Vec<Expr>, CallError> {
    let mut exprs = Vec::new(alloc);
    for sexpr in sexprs {
        exprs.push(expr(alloc, sexpr)?)?;
    }
    Ok(exprs)
}

/// The restricted expression, where it is one.
pub fn restricted_expr(alloc: Global, e: Expr) -> Result<RestrictedExpr, CallError> {
    match RestrictedExpr::new(alloc, e) {
        Ok(e) => Ok(e),
        Err(RestrictedExprError::NotRestricted { .. }) => Err(CallError::BadArguments),
        Err(RestrictedExprError::Memory) => Err(CallError::Memory),
    }
}

// The pairs `("key" E)` that arguments stand for.
#[cycle(trees)]
fn pairs(alloc: Global, sexprs: &[Sexpr]) -> Result<Vec<(RcStr, Expr)>, CallError> {
    let mut pairs = Vec::new(alloc);
    for sexpr in sexprs {
        pairs.push(pair(alloc, sexpr)?)?;
    }
    Ok(pairs)
}

#[cycle(trees)]
fn pair(alloc: Global, sexpr: &Sexpr) -> Result<(RcStr, Expr), CallError> {
    match sexpr {
        Sexpr::List(sexprs) => match sexprs.as_slice() {
            [key, value] => {
                let key = shared_text(alloc, key)?;
                Ok((key, expr(alloc, value)?))
            }
            _ => Err(CallError::BadArguments),
        },
        _ => Err(CallError::BadArguments),
    }
}

// The texts that quoted arguments stand for.
fn texts(alloc: Global, sexprs: &[Sexpr]) -> Result<Vec<RcStr>, CallError> {
    let mut texts = Vec::new(alloc);
    for sexpr in sexprs {
        texts.push(shared_text(alloc, sexpr)?)?;
    }
    Ok(texts)
}

/// The operator on one argument that a word spells.
pub fn unary(op: &str) -> Result<UnaryOp, CallError> {
    UnaryOp::from_text(op).ok_or(CallError::BadArguments)
}

/// The operator on two arguments that a word spells.
pub fn binary(op: &str) -> Result<BinaryOp, CallError> {
    BinaryOp::from_text(op).ok_or(CallError::BadArguments)
}
