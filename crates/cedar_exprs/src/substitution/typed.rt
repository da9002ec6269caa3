//! Substitution that compares the type of each value with the annotation of the unknown that it
//! replaces.
ghost use Rattle.std.specs.Prelude.{◌≡◌, None, Ok, IfOk, IfErr, OnOk};
ghost use Rattle.cedar_builders.specs.SubstitutionErrors.{IsClashError};
ghost use Rattle.cedar_builders.specs.TypeClash.{clash};
ghost use Rattle.cedar_builders.specs.Environment.{fold};
ghost use Rattle.cedar_builders.specs.Trees.{tree_ops};
ghost use Rattle.cedar_exprs.specs.BareExpr.{bare_expr};
ghost use Rattle.cedar_exprs.specs.RestrictedExprs.{env_of};

use crate::expr::Expr;
use crate::restricted_expr::SubstituteValue;
use crate::substitution::function::{Clash, TypedSubstitution};
use crate::substitution::substitute::substitute_general;
use crate::walks::post_order::PostOrderFault;
use cedar_builders::SubstitutionError;
use cedar_builders::laws::{clash_by_children, substituted_by_fold};
use std::alloc::Global;
use std::collections::HashMap;
use std::rc::RcStr;

impl Expr {
    /// As `substitute`, but each value has to have the type that its unknown is annotated with;
    /// without an annotation any does. An unknown that `values` does not bind is never tested.
    ///
    /// Else `TypeError` has the annotation and the type of the value of the leftmost unknown at
    /// which they differ, where the values of a record come in the order of their keys.
    pub fn substitute_typed<V: SubstituteValue>(
        &self,
        alloc: Global,
        values: &HashMap<RcStr, V>,
    ) -> Result<Expr, SubstitutionError>
        ensures substituted { IfOk result (λ e.
            fold tree_ops (env_of V.bare_type_of V.bare_expr_of values.now) (bare_expr self.now)
            ≡ Ok (bare_expr e)) }
        ensures passed { OnOk result
            (clash (env_of V.bare_type_of V.bare_expr_of values.now) (bare_expr self.now) ≡ None) }
        ensures refused { IfErr result
            (IsClashError
            (clash (env_of V.bare_type_of V.bare_expr_of values.now) (bare_expr self.now))) }
    {
        clash_by_children();
        substituted_by_fold();
        match substitute_general::<TypedSubstitution, V>(alloc, self, values) {
            Ok(expr) => Ok(expr),
            Err(PostOrderFault::Refused(clash)) => {
                let Clash { expected, actual } = Box::into_inner(clash);
                Err(SubstitutionError::TypeError { expected, actual })
            }
            Err(PostOrderFault::Memory) => Err(SubstitutionError::Memory),
        }
    }
}
