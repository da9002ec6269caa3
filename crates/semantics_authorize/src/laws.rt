//! The laws of decisions, and of the response to a request.
//!
//! Each function here does nothing: its contract is the law, over the definitions alone.
ghost use Rattle.semantics_authorize.specs.DecisionLaws.{
  DenyByDefault,
  FailedOnlyFails,
  ForbidOverrides,
  FurtherKeeps,
  IsExact,
  KnownDecisionStays,
  OrderIsFree,
  SettledIsKnown,
  UnknownMayBeEither,
};
ghost use Rattle.semantics_authorize.specs.Laws.{
  DecisionStays,
  KnownIsDecided,
  PolicyOrderIsFree,
  PutFirst,
  RequestPutFirst,
  ResidualFirst,
  ResidualPoliciesFirst,
  SimplifiedFirst,
  StoreInParts,
};
ghost use Rattle.semantics_authorize.specs.Worked.{AreWorkedResponses};

use semantics_request::laws as outcomes;

/// Allow and Deny are said just where the tests of the definition pass: never both.
pub fn decision_is_exact()
    ensures { IsExact }
{}

/// Where it is known of each policy whether it applies, the decision is Allow if some permit
/// applies and no forbid does, else Deny.
pub fn settled_is_known()
    ensures { SettledIsKnown }
{}

/// Where no permit may apply, the decision is Deny.
pub fn deny_by_default()
    ensures { DenyByDefault }
{}

/// Where some forbid applies, the decision is Deny, whatever permits apply.
pub fn forbid_overrides()
    ensures { ForbidOverrides }
{}

/// The order of the policies does not count.
pub fn order_is_free()
    ensures { OrderIsFree }
{}

/// A further forbid never turns Deny into something else, nor a further permit Allow.
pub fn further_keeps()
    ensures { FurtherKeeps }
{}

/// A policy that has an error changes nothing but the list of errors.
pub fn failed_only_fails()
    ensures { FailedOnlyFails }
{}

/// A decision that is known stays, whatever the undecided policies come to.
pub fn known_decision_stays()
    ensures { KnownDecisionStays }
{}

/// A decision is not known yet only if the undecided policies may still make it either.
pub fn unknown_may_be_either()
    ensures { UnknownMayBeEither }
{}

/// To put the values of unknowns into the policies first changes no response.
pub fn put_first<X: Ord>()
    ensures { PutFirst X.cmp X.eq }
{
    outcomes::put_first::<X>();
}

/// To put a request and the values of unknowns into the policies first changes no response, if the
/// request's values are well formed and hold no extension values.
pub fn request_put_first<X: Ord>()
    ensures { RequestPutFirst X.cmp X.eq }
{
    outcomes::request_put_first::<X>();
}

/// To simplify the policies first changes no response.
pub fn simplified_first<X: Ord>()
    ensures { SimplifiedFirst X.cmp X.eq }
{
    outcomes::simplified_first::<X>();
}

/// Policies with residual conditions, made where something is known of the request, of the entities
/// and of the unknowns, have the response of the policies wherever more is known.
pub fn residual_first<X: Ord>()
    ensures { ResidualFirst X.cmp X.eq }
{
    outcomes::residual_first::<X>();
}

/// The residual policies, without those that are known not to apply, have the response of all the
/// policies wherever more is known.
pub fn residual_policies_first<X: Ord>()
    ensures { ResidualPoliciesFirst X.cmp X.eq }
{
    outcomes::decided_stays::<X>();
}

/// A decision that is known stays where more is known of the request, of the entities and of the
/// unknowns.
pub fn decision_stays<X: Ord>()
    ensures { DecisionStays X.cmp X.eq }
{
    outcomes::decided_stays::<X>();
}

/// A store may be given in parts: a decision that is known by the first part stays where another is
/// added.
pub fn store_in_parts<X: Ord>()
    ensures { StoreInParts X.cmp X.eq }
{
    outcomes::store_in_parts::<X>();
}

/// Where each entity is known, and all that the conditions ask for, the decision is Allow if some
/// permit applies and no forbid does, else Deny.
pub fn known_is_decided<X: Ord>()
    ensures { KnownIsDecided X.cmp X.eq }
{
    outcomes::never_open::<X>();
}

/// The order of the policies of a request does not count.
pub fn policy_order_is_free<X: Ord>()
    ensures { PolicyOrderIsFree X.cmp X.eq }
{}

/// Some responses, worked out by hand.
pub fn worked_responses<X: Ord>()
    ensures { AreWorkedResponses X.cmp X.eq }
{}
