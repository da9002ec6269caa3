//! Requests (Cedar's `Request`).
ghost use Rattle.std.specs.Prelude.{◌≡◌, IfOk, option_map};
ghost use Rattle.cedar_terms.specs.Entities.{bare_entity_uid};
ghost use Rattle.semantics_values.specs.BareValue.{RecordValue};
ghost use Rattle.semantics_request.specs.Requests as meant;
ghost use Rattle.cedar_request.specs.Requests.{bare_request, pairs_if_known, uid_if_known};
ghost use Rattle.cedar_request.specs.Values.{tree_of};

use crate::context::Context;
use cedar_evaluator::operations::literal_value;
use cedar_terms::{EntityUID, Literal, Var};
use cedar_values::{NoExtension, WellFormedValue};
use std::alloc::{AllocError, Global};
use std::rc::Rc;

/// A request: who asks to do what with which resource, in which context. What is not known yet is
/// `None`: what depends on it is then open.
///
/// ```rust
/// let request = Request::new(Some(alice), Some(view), None, Some(Context::empty(alloc)?));
/// ```
#[derive(Debug, Drop)]
pub struct Request<X: Ord = NoExtension> {
    principal: Option<Rc<EntityUID>>,
    action: Option<Rc<EntityUID>>,
    resource: Option<Rc<EntityUID>>,
    context: Option<Context<X>>,
}

impl<X: Ord + Drop> Request<X> {
    /// The request of these parts.
    pub fn new(
        principal: Option<Rc<EntityUID>>,
        action: Option<Rc<EntityUID>>,
        resource: Option<Rc<EntityUID>>,
        context: Option<Context<X>>,
    ) -> Request<X>
        ensures principal { (bare_request result).principal ≡ uid_if_known principal }
        ensures action { (bare_request result).action ≡ uid_if_known action }
        ensures resource { (bare_request result).resource ≡ uid_if_known resource }
        ensures context { (bare_request result).context ≡ pairs_if_known context }
    {
        Request {
            principal,
            action,
            resource,
            context,
        }
    }

    /// The value of a variable, if it is known. It shares what the request has.
    pub fn value_of(
        &self,
        alloc: Global,
        var: Var,
    ) -> Result<Option<WellFormedValue<X>>, AllocError>
        ensures { IfOk result (λ value.
            option_map tree_of value ≡ meant.value_of (bare_request self.now) var) }
    {
        match var {
            Var::Principal => entity_value(&self.principal),
            Var::Action => entity_value(&self.action),
            Var::Resource => entity_value(&self.resource),
            Var::Context => context_value(alloc, &self.context),
        }
    }
}

// An entity as a value, if it is known.
fn entity_value<X: Ord + Drop>(
    uid: &Option<Rc<EntityUID>>,
) -> Result<Option<WellFormedValue<X>>, AllocError>
    ensures { IfOk result (λ value.
        option_map tree_of value ≡ option_map meant.entity (uid_if_known uid.now)) }
{
    match uid {
        Some(uid) => {
            let value = literal_value(Literal::EntityUID(uid.clone()?));
            Ok(Some(WellFormedValue::new_unchecked(value)))
        }
        None => Ok(None),
    }
}

// A context as a value, if it is known.
fn context_value<X: Ord + Drop>(
    alloc: Global,
    context: &Option<Context<X>>,
) -> Result<Option<WellFormedValue<X>>, AllocError>
    ensures { IfOk result (λ value.
        option_map tree_of value ≡ option_map RecordValue (pairs_if_known context.now)) }
{
    match context {
        Some(context) => Ok(Some(context.as_value().clone(alloc)?)),
        None => Ok(None),
    }
}
