//! Building of the expression that typed substitution gives.
ghost use Rattle.std.specs.Prelude.{◌≡◌};
ghost use Rattle.cedar_builders.specs.Environment.{fold};
ghost use Rattle.cedar_builders.specs.TypeClash.{clash};
ghost use Rattle.cedar_exprs.specs.BareExpr.{bare_expr};
ghost use Rattle.cedar_exprs.specs.RestrictedExprs.{env_of};

use crate::expr::Expr;
use crate::restricted_expr::SubstituteValue;
use cedar_builders::laws::built_after;
use cedar_builders::{BuildFault, LawfulExprBuilder, SubstitutionError};
use cedar_terms::Type;
use std::alloc::Global;
use std::collections::HashMap;
use std::fmt;
use std::rc::RcStr;
use thiserror::Error;

/// Why the substituted expression was not built: the types of a clash, the builder's own error, or
/// memory ran out.
///
/// Its text is that of the clash, of the builder's own error, or `no memory`.
#[derive(Debug, Clone, PartialEq, Eq, Drop, Error)]
pub enum TypedBuildFault<E> {
    /// The value of an unknown has another type than the unknown's annotation says.
    TypeError { expected: Type, actual: Type },
    /// The builder's own error.
    Build(E),
    /// Memory was refused.
    Memory,
}

impl<E> From<SubstitutionError> for TypedBuildFault<E> {
    ghost use Rattle.cedar_exprs.specs.TypedAnswers.{of_substitution};

    ghost from_gives = { λ error fault. fault ≡ of_substitution error };

    fn from(error: SubstitutionError) -> TypedBuildFault<E> {
        match error {
            SubstitutionError::TypeError { expected, actual } => {
                TypedBuildFault::TypeError { expected, actual }
            }
            SubstitutionError::Memory => TypedBuildFault::Memory,
        }
    }
}

impl<E> From<BuildFault<E>> for TypedBuildFault<E> {
    ghost use Rattle.cedar_exprs.specs.TypedAnswers.{of_building};

    ghost from_gives = { λ error fault. fault ≡ of_building error };

    fn from(error: BuildFault<E>) -> TypedBuildFault<E> {
        match error {
            BuildFault::Build(error) => TypedBuildFault::Build(error),
            BuildFault::Memory => TypedBuildFault::Memory,
        }
    }
}

impl<E: fmt::Display> fmt::Display for TypedBuildFault<E> {
    ghost use Rattle.cedar_exprs.specs.TypedFaults.{typed_fault_text};

    ghost output = { typed_fault_text E.output };

    fn fmt<W: fmt::Write>(&self, f: &mut fmt::Formatter<W>) -> fmt::Result {
        match self {
            TypedBuildFault::TypeError { expected, actual } => {
                write!(
                    f,
                    "expected a value of type {expected}, got a value of type {actual}"
                )
            }
            TypedBuildFault::Build(error) => fmt::Display::fmt(error, f),
            TypedBuildFault::Memory => f.write_str("no memory"),
        }
    }
}

impl Expr {
    ghost use Rattle.cedar_exprs.specs.TypedAnswers.{GivesTyped};

    /// What `substitute_into_expr` makes, where each value has the type that the unknown which it
    /// replaces is annotated with, if it is.
    ///
    /// Else `TypeError` has the annotation and the type of the value of the leftmost unknown at
    /// which they differ, whatever the builder would have refused: nothing is built then.
    pub fn substitute_typed_into_expr<B: LawfulExprBuilder, V: SubstituteValue>(
        &self,
        alloc: Global,
        values: &HashMap<RcStr, V>,
    ) -> Result<B::Expr, TypedBuildFault<B::BuildError>>
        ensures { GivesTyped B.meaning_of B.fault_of
            (clash (env_of V.bare_type_of V.bare_expr_of values.now) (bare_expr self.now))
            (fold B.ops (env_of V.bare_type_of V.bare_expr_of values.now) (bare_expr self.now))
            result }
    {
        built_after::<B>();
        let substituted = self.substitute_typed(alloc, values)?;
        Ok(substituted.try_into_expr::<B>(alloc)?)
    }
}
