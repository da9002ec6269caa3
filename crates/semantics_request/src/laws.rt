//! The laws of evaluation over what is known of a request, of entities and of unknowns.
//!
//! Each function here does nothing: its contract is the law, over the definitions alone, for each
//! ordered type of extension values.
ghost use Rattle.cedar_builders.specs.Lawful.{Lawful};
ghost use Rattle.semantics_values.specs.BareValue.{BareCall};
ghost use Rattle.semantics_request.specs.Entities.{Entities};
ghost use Rattle.semantics_request.specs.Evaluator.{request_ops};
ghost use Rattle.semantics_request.specs.Laws.{
  ClosedStays,
  DecidedStays,
  NeverOpen,
  NeverRefused,
  PutFirst,
  RequestPutFirst,
  ResidualAsksNoMore,
  ResidualFirst,
  SimplifiedFirst,
  StoreInParts,
};
ghost use Rattle.semantics_request.specs.Requests.{Functions, Request};
ghost use Rattle.semantics_request.specs.Worked.{AreWorkedOutcomes, AreWorkedResiduals};

use cedar_builders::laws::substituted_by_fold;
use semantics_eval::laws::{ascending_lists, value_kept};
use semantics_simplify::laws::{asks_by_children, values_ask_nothing};

/// The evaluator over a request, a store and a table of functions keeps the simplifications of the
/// builder of trees, so substitution can be moved past it.
pub fn request_evaluator_is_lawful<X: Ord>()
    ensures { (T : Functions X) (q : Request X) (s : Entities X) →
        Lawful (request_ops X.cmp X.eq T q s) }
{}

/// What the closed evaluator decides, no request, no store and no table of functions changes: a
/// value, or a mistake that is not one of the store.
pub fn closed_stays<X: Ord>()
    ensures { ClosedStays X.cmp X.eq }
{
    asks_by_children();
}

/// What is decided stays: a value, a mistake or a refused call is the same where more is known of
/// the request, of the entities and of the unknowns.
pub fn decided_stays<X: Ord>()
    ensures { DecidedStays X.cmp X.eq }
{
    asks_by_children();
    values_ask_nothing::<X>();
}

/// Where all that a tree asks for is known, its outcome is not open.
pub fn never_open<X: Ord>()
    ensures { NeverOpen X.cmp X.eq }
{
    asks_by_children();
    values_ask_nothing::<X>();
}

/// Where each function that a tree calls is in the table, no call is refused.
pub fn never_refused<X: Ord>()
    ensures { NeverRefused X.cmp X.eq }
{
    asks_by_children();
    values_ask_nothing::<X>();
}

/// To put the values of unknowns first and then to evaluate is to evaluate with them.
pub fn put_first<X: Ord>()
    ensures { PutFirst X.cmp X.eq }
{
    substituted_by_fold();
}

/// To put a request and the values of unknowns into conditions first is to evaluate with them, if
/// the request's values are well formed and hold no extension values.
pub fn request_put_first<X: Ord>()
    ensures { RequestPutFirst X.cmp X.eq }
{
    value_kept::<X>();
    ascending_lists::<X>();
}

/// To simplify a condition first changes no outcome over a request, a store and a table.
pub fn simplified_first<X: Ord>()
    ensures { SimplifiedFirst X.cmp X.eq }
{
    value_kept::<X>();
    ascending_lists::<X>();
    asks_by_children();
    values_ask_nothing::<X>();
}

/// The residual of a condition, made where something is known of the request, of the entities and
/// of the unknowns, has the outcome of the condition wherever more is known.
pub fn residual_first<X: Ord>()
    ensures { ResidualFirst X.cmp X.eq }
{
    value_kept::<X>();
    ascending_lists::<X>();
    asks_by_children();
    values_ask_nothing::<X>();
}

/// A residual asks for no more than the condition, and for nothing that is answered: no variable
/// whose value may be written into a tree, and no unknown that is bound.
pub fn residual_asks_no_more<X: Ord>()
    ensures { ResidualAsksNoMore X.cmp X.eq }
{
    value_kept::<X>();
    ascending_lists::<X>();
    asks_by_children();
    values_ask_nothing::<X>();
}

/// A store may be given in parts: what is decided by the first part stays where another is added.
pub fn store_in_parts<X: Ord>()
    ensures { StoreInParts X.cmp X.eq }
{
    decided_stays::<X>();
}

/// Some outcomes, worked out by hand.
pub fn worked_outcomes<X: Ord>()
    ensures { AreWorkedOutcomes X.cmp X.eq }
{}

/// Some residuals, worked out by hand.
pub fn worked_residuals<X: Ord>()
    ensures { (C : X → BareCall) → AreWorkedResiduals X.cmp X.eq C }
{}
