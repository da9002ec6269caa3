//! Whether a chain is restricted, and whether it is valid where no function is known.
ghost use Rattle.std.specs.Prelude.{None, refl};

use cedar_exprs::{
    CallStyle, Expr, ExprValidationError, FunctionTable, RestrictedExpr, RestrictedExprError,
};
use cedar_names::Name;
use cedar_terms::SchemaType;
use std::alloc::{AllocError, Global};

// The table of no functions.
struct NoFunctions;

impl FunctionTable for NoFunctions {
    ghost style_at = { λ _ _. None };

    ghost return_type_at = { λ _ _. None };

    fn style(&self, _name: &Name) -> Option<CallStyle> {
        None
    }

    fn return_type(&self, _name: &Name) -> Option<&SchemaType> {
        None
    }

    ghost types_of_known = { λ _ _ _. refl };
}

/// Whether each node is a literal, an unknown, a set, a record or a call.
pub fn is_restricted(alloc: Global, expr: Expr) -> Result<bool, AllocError> {
    match RestrictedExpr::new(alloc, expr) {
        Ok(_) => Ok(true),
        Err(RestrictedExprError::NotRestricted { .. }) => Ok(false),
        Err(RestrictedExprError::Memory) => Err(AllocError),
    }
}

/// Whether there is no call, as no function is known, and each path of attributes is one.
pub fn is_valid(alloc: Global, expr: Expr) -> Result<bool, AllocError> {
    match expr.try_validate(alloc, &NoFunctions) {
        Ok(_) => Ok(true),
        Err(ExprValidationError::Memory) => Err(AllocError),
        Err(_) => Ok(false),
    }
}
