//! The laws of conditions of policies.
//!
//! Each function here does nothing: its contract is the law, over the definitions alone.
ghost use Rattle.semantics_policies.specs.Laws.{
  ActionsWorked,
  ClausesWorked,
  LastClause,
  ScopeWorked,
  TakesAll,
  TemplateWorked,
};

/// A policy without constraints and clauses has the condition `true`.
pub fn all_requests()
    ensures { TakesAll }
{}

/// `when` is its expression, and `unless` the negation.
pub fn clauses_worked()
    ensures { ClausesWorked }
{}

/// The clauses are conjoined from the left: the last one stands alone on the right.
pub fn last_clause()
    ensures { LastClause }
{}

/// A scope with entities, an empty set of actions and a type says what it reads as.
pub fn scope_worked()
    ensures { ScopeWorked }
{}

/// A template's scope has the slots where a policy's has entities.
pub fn template_worked()
    ensures { TemplateWorked }
{}

/// Entities of a type `Action` are actions, in any namespace, and no others are.
pub fn actions_worked()
    ensures { ActionsWorked }
{}
