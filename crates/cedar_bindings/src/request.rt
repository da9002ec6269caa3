//! What a name stands for, by its JSON: a variable of the request as a request has it.
ghost use Rattle.std.specs.Prelude.{◌≡◌, IfOk, IfSome, true};
ghost use Rattle.serde_json.specs.View.{view};
ghost use Rattle.cedar_terms.specs.Entities.{bare_entity_uid};
ghost use Rattle.cedar_terms.specs.Literals.{EntityLit};
ghost use Rattle.cedar_builders.specs.BareExpr.{Lit};
ghost use Rattle.cedar_exprs.specs.BareExpr.{bare_expr};
ghost use Rattle.cedar_parser.specs.Meant.{IsParse};
ghost use Rattle.cedar_bindings.specs.Requests.{
  IsEntityFor,
  IsMember,
  MemberBy,
  is_entity_variable as is_entity_name,
};

use cedar_exprs::{Expr, ExprKind};
use cedar_json::{JsonError, NoValue, expr_of, uid_of};
use cedar_parser::{ParseError, parse_expr};
use cedar_terms::{EntityUID, Literal};
use serde_json::Value;
use std::alloc::{AllocError, Global};

// Whether a name is that of a variable of the request.
pub(crate) fn is_variable(name: &str) -> bool {
    is_entity_variable(name) || name == "context"
}

fn is_entity_variable(name: &str) -> bool
    ensures { result ≡ is_entity_name name.now }
{
    name == "principal" || name == "action" || name == "resource"
}

/// What a name stands for, by its JSON: a principal, an action or a resource is an entity, and a
/// context is a record.
pub fn member(alloc: Global, name: &str, json: &Value) -> Result<Expr, JsonError>
    ensures { IfOk result (λ e. IsMember name.now (view json.now) (bare_expr e)) }
{
    match named_expr(alloc, name, json) {
        Ok(expr) => Ok(expr),
        Err(failure) => Err(JsonError::of_part(alloc, name, failure)),
    }
}

fn named_expr(alloc: Global, name: &str, json: &Value) -> Result<Expr, NoValue>
    ensures { IfOk result (λ e. IsMember name.now (view json.now) (bare_expr e)) }
{
    if is_entity_variable(name) {
        entity_expr(alloc, name, json)
    } else {
        let expr = expr_of(alloc, json)?;
        check_context(alloc, name, &expr)?;
        Ok(expr)
    }
}

// Refuses a context that is no record.
fn check_context(alloc: Global, name: &str, expr: &Expr) -> Result<(), NoValue> {
    match expr.expr_kind() {
        ExprKind::Record(_) => Ok(()),
        _ if name == "context" => Err(NoValue::because(alloc, "the context is a record")),
        _ => Ok(()),
    }
}

fn entity_expr(alloc: Global, name: &str, json: &Value) -> Result<Expr, NoValue>
    ensures { IfOk result (λ e. MemberBy true (view json.now) (bare_expr e)) }
{
    let uid = entity(alloc, name, json)?;
    Ok(Expr::val(Literal::from_uid(alloc, uid)?))
}

// The entity of a variable: an object, or a text as in a request.
fn entity(alloc: Global, name: &str, json: &Value) -> Result<EntityUID, NoValue>
    ensures { IfOk result (λ u. IsEntityFor (view json.now) (bare_entity_uid u)) }
{
    match json {
        Value::String(text) => match entity_of_text(alloc, text)? {
            Some(uid) => Ok(uid),
            None => Err(no_entity(alloc, name)?),
        },
        Value::Object(_) => uid_of(alloc, json),
        Value::Null | Value::Bool(_) | Value::Number(_) | Value::Array(_) => {
            Err(no_entity(alloc, name)?)
        }
    }
}

fn no_entity(alloc: Global, name: &str) -> Result<NoValue, AllocError> {
    let problem = format!(in alloc;
        "the {name} is an entity, as \"User::\\\"alice\\\"\" or \
        {{\"type\": \"User\", \"id\": \"alice\"}}"
    )?;
    Ok(NoValue::because(alloc, &problem))
}

// The entity that a text is, in Cedar's syntax.
fn entity_of_text(alloc: Global, text: &str) -> Result<Option<EntityUID>, AllocError>
    ensures { IfOk result (λ found. IfSome found (λ u.
        IsParse text.now (Lit (EntityLit (bare_entity_uid u))))) }
{
    match parse_expr(alloc, text) {
        Ok(expr) => match expr.expr_kind() {
            ExprKind::Lit(Literal::EntityUID(uid)) => Ok(Some(uid.as_ref().clone(alloc)?)),
            _ => Ok(None),
        },
        Err(ParseError::Syntax(_)) => Ok(None),
        Err(ParseError::Memory) => Err(AllocError),
    }
}
