//! Requests.
ghost use Rattle.std.specs.Prelude.{◌≡◌, IfOk, IfNone, IfSome, IsSome, option_map};
ghost use Rattle.serde_json.specs.Data.{Data, string};
ghost use Rattle.serde_json.specs.Read.{read};
ghost use Rattle.serde_json.specs.View.{view};
ghost use Rattle.cedar_terms.specs.Entities.{bare_entity_uid};
ghost use Rattle.cedar_terms.specs.Literals.{EntityLit};
ghost use Rattle.cedar_builders.specs.BareExpr.{Lit};
ghost use Rattle.cedar_exprs.specs.BareExpr.{bare_expr};
ghost use Rattle.cedar_request.specs.Requests.{bare_request, pairs_if_known, uid_if_known};
ghost use Rattle.cedar_inputs.specs.Requests.{ArePartsOf, IsContextOf, IsEntityMember, MayStand};

use crate::input_error::InputError;
use crate::values::value_of;
use cedar_bindings::member;
use cedar_exprs::{Expr, ExprKind};
use cedar_functions::BuiltinExtension;
use cedar_json::{JsonError, NoValue, nearest, parse_json};
use cedar_request::{Context, Request};
use cedar_terms::{EntityUID, Literal};
use serde_json::Value;
use std::alloc::{AllocError, Global};
use std::rc::Rc;

/// What is known of a request; what is `None` is not known.
#[derive(Debug, Drop)]
pub struct RequestParts {
    /// Who asks.
    pub principal: Option<Rc<EntityUID>>,
    /// To do what.
    pub action: Option<Rc<EntityUID>>,
    /// With which resource.
    pub resource: Option<Rc<EntityUID>>,
    /// What else the request says.
    pub context: Option<Context<BuiltinExtension>>,
}

impl RequestParts {
    /// Those of a JSON text: an object of `principal`, `action`, `resource`, each an entity as a
    /// text (`"User::\"alice\""`) or an object (`{"type": "User", "id": "alice"}`), and `context`,
    /// an object. Each may be left out.
    ///
    /// The error names the path to what has the wrong form, or the member that a request does not
    /// have.
    #[tactic(auto, using(crate::proofs::Requests::parts_made))]
    pub fn from_json(alloc: Global, text: &str) -> Result<RequestParts, InputError>
        ensures { IfOk result (ArePartsOf text.now) }
    {
        let json = parse_json(alloc, text)?;
        check_names(alloc, &json)?;
        Ok(RequestParts {
            principal: entity(alloc, "principal", json.get("principal"))?,
            action: entity(alloc, "action", json.get("action"))?,
            resource: entity(alloc, "resource", json.get("resource"))?,
            context: context(alloc, json.get("context"))?,
        })
    }

    /// The name of the first of principal, action and resource that is not known.
    pub fn missing(&self) -> Option<&'static str>
        ensures { IfNone result
            (IsSome self.now.principal × IsSome self.now.action × IsSome self.now.resource) }
    {
        match (&self.principal, &self.action, &self.resource) {
            (None, _, _) => Some("principal"),
            (_, None, _) => Some("action"),
            (_, _, None) => Some("resource"),
            _ => None,
        }
    }

    /// The request.
    pub fn into_request(self) -> Request<BuiltinExtension>
        ensures principal { (bare_request result).principal ≡ uid_if_known self.principal }
        ensures action { (bare_request result).action ≡ uid_if_known self.action }
        ensures resource { (bare_request result).resource ≡ uid_if_known self.resource }
        ensures context { (bare_request result).context ≡ pairs_if_known self.context }
    {
        Request::new(self.principal, self.action, self.resource, self.context)
    }
}

/// The context that a JSON text is, an object.
pub fn context_from_json(alloc: Global, text: &str) -> Result<Context<BuiltinExtension>, InputError>
    ensures { IfOk result (λ c. (d : Data) × (read text.now ≡ Some d) × IsContextOf d c) }
{
    context_of(alloc, &parse_json(alloc, text)?)
}

/// The entity that a text is in Cedar's syntax, as `User::"alice"`; `name` says of which variable.
pub fn entity_from_text(alloc: Global, name: &str, text: &str) -> Result<Rc<EntityUID>, InputError>
    ensures { IfOk result (λ u.
        IsEntityMember name.now (string text.now) (bare_entity_uid u.value)) }
{
    entity_of(alloc, name, &Value::try_from_str(alloc, text)?)
}

const NAMES: [&str; 4] = ["principal", "action", "resource", "context"];

// Refuses what is no object, and a member that no request has.
fn check_names(alloc: Global, json: &Value) -> Result<(), InputError> {
    let Some(members) = json.as_object() else {
        return Err(InputError::Json(JsonError::NoObject));
    };
    for name in members.keys() {
        if !NAMES.contains(&name.as_str()) {
            let problem = unknown_member(alloc, name)?;
            let failure = NoValue::because(alloc, &problem);
            return Err(InputError::of_part(alloc, "request", failure));
        }
    }
    Ok(())
}

fn unknown_member(alloc: Global, name: &str) -> Result<String, AllocError> {
    match nearest(alloc, name, &NAMES)? {
        Some(near) => {
            format!(in alloc; "a request has no member {name:?}: did you mean {near:?}?")
        }
        None => format!(in alloc;
            "a request has no member {name:?}, but \"principal\", \"action\", \"resource\" and \
            \"context\""
        ),
    }
}

// The entity of a variable, if it is known.
fn entity(
    alloc: Global,
    name: &str,
    json: Option<&Value>,
) -> Result<Option<Rc<EntityUID>>, InputError>
    ensures { IfOk result (λ u. MayStand (IsEntityMember name.now)
        (option_map (λ d. view d.now) json.entry) (uid_if_known u)) }
{
    match json {
        Some(json) => Ok(Some(entity_of(alloc, name, json)?)),
        None => Ok(None),
    }
}

// The entity of this variable.
pub(crate) fn entity_of(
    alloc: Global,
    name: &str,
    json: &Value,
) -> Result<Rc<EntityUID>, InputError>
    ensures { IfOk result (λ u.
        IsEntityMember name.now (view json.now) (bare_entity_uid u.value)) }
{
    let expr = member(alloc, name, json)?;
    match uid_in(&expr) {
        Some(uid) => Ok(uid.clone()?),
        None => {
            let failure = NoValue::because(alloc, "an entity is wanted");
            Err(InputError::of_part(alloc, name, failure))
        }
    }
}

// The entity that an expression is.
fn uid_in(expr: &Expr) -> Option<&Rc<EntityUID>>
    ensures { IfSome result (λ u.
        bare_expr expr.now ≡ Lit (EntityLit (bare_entity_uid u.now.value))) }
{
    match expr.expr_kind() {
        ExprKind::Lit(Literal::EntityUID(uid)) => Some(uid),
        _ => None,
    }
}

// The context, if it is known.
fn context(
    alloc: Global,
    json: Option<&Value>,
) -> Result<Option<Context<BuiltinExtension>>, InputError>
    ensures { IfOk result (MayStand IsContextOf (option_map (λ d. view d.now) json.entry)) }
{
    match json {
        Some(json) => Ok(Some(context_of(alloc, json)?)),
        None => Ok(None),
    }
}

// The context that JSON stands for.
fn context_of(alloc: Global, json: &Value) -> Result<Context<BuiltinExtension>, InputError>
    ensures { IfOk result (IsContextOf (view json.now)) }
{
    let expr = member(alloc, "context", json)?;
    match Context::new(value_of(alloc, "context", &expr)?) {
        Ok(context) => Ok(context),
        Err(_) => {
            let failure = NoValue::because(alloc, "the context is a record");
            Err(InputError::of_part(alloc, "context", failure))
        }
    }
}
