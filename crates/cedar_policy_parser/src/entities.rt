//! Entities and slots that expressions are.
ghost use Rattle.std.specs.Prelude.{◌≡◌, IfOk, IfSome, IsSome, List, MatchOption, map, ⊤};
ghost use Rattle.std.specs.List.{list_all};
ghost use Rattle.std.specs.Option.{option_map};
ghost use Rattle.cedar_terms.specs.Entities.{BareEntityUID, bare_entity_uid};
ghost use Rattle.cedar_terms.specs.Literals.{bare_literal};
ghost use Rattle.cedar_builders.specs.BareExpr.{BareExprs, Set};
ghost use Rattle.cedar_exprs.specs.BareExpr.{bare_expr, bare_exprs};
ghost use Rattle.semantics_policies.specs.Conditions.{entity_tree};
ghost use Rattle.semantics_policies.specs.Grammar.{is_action};
ghost use Rattle.cedar_policy_parser.specs.Scopes.{entity_of, literal_entity, slot_of};

use cedar_exprs::{Expr, ExprKind};
use cedar_names::SlotId;
use cedar_terms::{EntityUID, Literal};
use std::alloc::{AllocError, Global};
use std::convert::AsStr as _;
use std::rc::Rc;

/// The entity that an expression is the literal of.
pub(crate) fn entity_in(expr: &Expr) -> Result<Option<Rc<EntityUID>>, AllocError>
    ensures { IfOk result (λ found.
        option_map (λ u. bare_entity_uid u.value) found ≡ entity_of (bare_expr expr.now)) }
{
    match expr.expr_kind() {
        ExprKind::Lit(literal) => entity_in_literal(literal),
        _ => Ok(None),
    }
}

// The entity that a literal is.
fn entity_in_literal(literal: &Literal) -> Result<Option<Rc<EntityUID>>, AllocError>
    ensures { IfOk result (λ found. option_map (λ u. bare_entity_uid u.value) found
        ≡ literal_entity (bare_literal literal.now)) }
{
    match literal {
        Literal::EntityUID(uid) => Ok(Some(uid.clone()?)),
        _ => Ok(None),
    }
}

/// The slot that an expression is.
pub(crate) fn slot_in(expr: &Expr) -> Option<SlotId>
    ensures { result ≡ slot_of (bare_expr expr.now) }
{
    match expr.expr_kind() {
        ExprKind::Slot(slot) => Some(*slot),
        _ => None,
    }
}

/// The members of the set that an expression is.
pub(crate) fn members_in(expr: &Expr) -> Option<&[Expr]>
    ensures members { MatchOption result ⊤ (λ members.
        bare_expr expr.now ≡ Set (bare_exprs members.now)) }
    ensures present { (es : BareExprs) → bare_expr expr.now ≡ Set es → IsSome result }
{
    match expr.expr_kind() {
        ExprKind::Set(members) => Some(members),
        _ => None,
    }
}

/// The entities that these expressions are the literals of, if each is one.
pub(crate) fn entities_in(
    alloc: Global,
    exprs: &[Expr],
) -> Result<Option<Vec<Rc<EntityUID>>>, AllocError>
    ensures entities { IfOk result (λ found. IfSome found (λ uids.
        map bare_expr exprs.now ≡ map (λ u. entity_tree (bare_entity_uid u.value)) uids.items)) }
    ensures present { IfOk result (λ found. (us : List BareEntityUID) →
        map bare_expr exprs.now ≡ map entity_tree us → IsSome found) }
{
    let mut uids = Vec::with_capacity(alloc, exprs.len())?;
    for expr in exprs {
        match entity_in(expr)? {
            Some(uid) => uids.push(uid)?,
            None => return Ok(None),
        }
    }
    Ok(Some(uids))
}

/// Whether an entity is an action: the last name of its type is `Action`.
pub(crate) fn is_action(uid: &EntityUID) -> bool
    ensures { result ≡ is_action (bare_entity_uid uid.now) }
{
    uid.entity_type().name().basename_as_ref().as_str() == "Action"
}

/// Whether each of these entities is an action.
pub(crate) fn are_actions(uids: &[Rc<EntityUID>]) -> bool
    ensures { result ≡ list_all (λ u. is_action (bare_entity_uid u.value)) uids.now }
{
    uids.iter().all(|uid| is_action(uid))
}
