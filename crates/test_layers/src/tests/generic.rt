//! Callers of any builder.
use cedar_builders::{
    BuildFault, ExprBuilder, ExprBuilderInfallibleBuild, ExpressionConstructionError,
};
use cedar_names::Name;
use cedar_terms::{BinaryOp, UnaryOp};
use std::alloc::{AllocError, Global};
use std::rc::RcStr;

// The record of one pair, which no builder refuses.
pub fn pair_of<B: ExprBuilder>(
    alloc: Global,
    key: RcStr,
    value: B::Expr,
) -> Result<B::Expr, AllocError> {
    let mut pairs = Vec::new(alloc);
    pairs.push((key, value))?;
    match B::new().record(alloc, pairs) {
        Ok(made) => Ok(made),
        Err(ExpressionConstructionError::Memory) => Err(AllocError),
        Err(ExpressionConstructionError::DuplicateKey(_)) => unreachable!(),
    }
}

// The call of a function.
pub fn call_of<B: ExprBuilder>(
    alloc: Global,
    fn_name: Name,
    args: Vec<B::Expr>,
) -> Result<B::Expr, BuildFault<B::BuildError>> {
    B::new()
        .with_maybe_source_loc(None)
        .call_extension_fn(alloc, fn_name, args)
}

// The call of a function on one argument.
pub fn call_of_one<B: ExprBuilder>(
    alloc: Global,
    fn_name: Name,
    arg: B::Expr,
) -> Result<B::Expr, BuildFault<B::BuildError>> {
    let mut args = Vec::new(alloc);
    args.push(arg)?;
    call_of::<B>(alloc, fn_name, args)
}

// The call of a function, which is refused for want of memory alone.
pub fn call_in_memory<B: ExprBuilderInfallibleBuild>(
    alloc: Global,
    fn_name: Name,
    args: Vec<B::Expr>,
) -> Result<B::Expr, AllocError> {
    match call_of::<B>(alloc, fn_name, args) {
        Ok(made) => Ok(made),
        Err(BuildFault::Build(never)) => match never {},
        Err(BuildFault::Memory) => Err(AllocError),
    }
}

// The call of the operator on one argument.
pub fn unary_call<B: ExprBuilder>(
    builder: B,
    alloc: Global,
    op: UnaryOp,
    arg: B::Expr,
) -> Result<B::Expr, AllocError> {
    match op {
        UnaryOp::Not => builder.not(alloc, arg),
        UnaryOp::Neg => builder.neg(alloc, arg),
        UnaryOp::IsEmpty => builder.is_empty(alloc, arg),
    }
}

// The call of the operator on two arguments.
pub fn binary_call<B: ExprBuilder>(
    builder: B,
    alloc: Global,
    op: BinaryOp,
    arg1: B::Expr,
    arg2: B::Expr,
) -> Result<B::Expr, AllocError> {
    match op {
        BinaryOp::Eq => builder.is_eq(alloc, arg1, arg2),
        BinaryOp::Less => builder.less(alloc, arg1, arg2),
        BinaryOp::LessEq => builder.lesseq(alloc, arg1, arg2),
        BinaryOp::Add => builder.add(alloc, arg1, arg2),
        BinaryOp::Sub => builder.sub(alloc, arg1, arg2),
        BinaryOp::Mul => builder.mul(alloc, arg1, arg2),
        BinaryOp::In => builder.is_in(alloc, arg1, arg2),
        BinaryOp::Contains => builder.contains(alloc, arg1, arg2),
        BinaryOp::ContainsAll => builder.contains_all(alloc, arg1, arg2),
        BinaryOp::ContainsAny => builder.contains_any(alloc, arg1, arg2),
        BinaryOp::GetTag => builder.get_tag(alloc, arg1, arg2),
        BinaryOp::HasTag => builder.has_tag(alloc, arg1, arg2),
    }
}

// The call of the negation of a comparison.
pub fn negated_call<B: ExprBuilder>(
    builder: B,
    alloc: Global,
    comparison: BinaryOp,
    arg1: B::Expr,
    arg2: B::Expr,
) -> Result<B::Expr, AllocError> {
    match comparison {
        BinaryOp::Eq => builder.noteq(alloc, arg1, arg2),
        BinaryOp::LessEq => builder.greater(alloc, arg1, arg2),
        _ => builder.greatereq(alloc, arg1, arg2),
    }
}
