//! The types of what operators and calls give, as far as they are known without evaluation.
ghost use Rattle.std.specs.Prelude.{◌≡◌, IfOk};
ghost use Rattle.std.specs.Option.{option_map};
ghost use Rattle.cedar_names.specs.PlainNames.{bare_name};
ghost use Rattle.cedar_terms.specs.Types.{bare_type};
ghost use Rattle.cedar_validation.specs.TypeOfTree.{call_type, common, unary_type, binary_type};

use crate::function_table::FunctionTable;
use cedar_names::Name;
use cedar_terms::{BinaryOp, Type, UnaryOp};
use std::alloc::{AllocError, Global};

/// The type of what an operator on one argument gives.
pub fn unary_type(op: UnaryOp) -> Type
    ensures { bare_type result ≡ unary_type op }
{
    match op {
        UnaryOp::Neg => Type::Long,
        UnaryOp::Not | UnaryOp::IsEmpty => Type::Bool,
    }
}

/// The type of what an operator on two arguments gives; that of a tag is not known.
pub fn binary_type(op: BinaryOp) -> Option<Type>
    ensures { option_map bare_type result ≡ binary_type op }
{
    match op {
        BinaryOp::Add | BinaryOp::Sub | BinaryOp::Mul => Some(Type::Long),
        BinaryOp::GetTag => None,
        _ => Some(Type::Bool),
    }
}

/// The type of what a call gives: that of the values of the function's return type, if the function
/// is known and has one.
pub fn type_of_call<F: FunctionTable>(
    alloc: Global,
    table: &F,
    fn_name: &Name,
) -> Result<Option<Type>, AllocError>
    ensures { IfOk result (λ ty.
        option_map bare_type ty ≡ call_type (F.return_type_at table.now) (bare_name fn_name.now)) }
{
    match table.return_type(fn_name) {
        Some(ty) => Ok(Some(ty.to_type(alloc)?)),
        None => Ok(None),
    }
}

/// The type of both, if both have one and it is the same.
pub fn common_type(first: Option<Type>, second: Option<Type>) -> Option<Type>
    ensures { option_map bare_type result
        ≡ common (option_map bare_type first) (option_map bare_type second) }
{
    let first = first?;
    let second = second?;
    if first == second { Some(first) } else { None }
}
