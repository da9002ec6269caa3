//! Policies as texts in Cedar's syntax.
ghost use Rattle.std.specs.Prelude.{◌≡◌, IfOk, string_bytes};
ghost use Rattle.cedar_policies.specs.Policies.{bare_policy};

use crate::policy::{
    ActionConstraint, Annotation, Clause, Effect, EntityOrSlot, ScopeConstraint, Template,
};
use cedar_exprs::Expr;
use cedar_names::SlotId;
use cedar_printer::policy_text;
use cedar_terms::{EntityUID, Escaped, Var};
use std::alloc::{AllocError, Global};
use std::rc::Rc;

impl Template {
    /// The text of the policy: each annotation, each part of the scope and each clause in a line of
    /// its own.
    ///
    /// ```text
    /// @id("owners")
    /// permit(
    ///   principal,
    ///   action in [Action::"read", Action::"write"],
    ///   resource is Photo
    /// )
    /// when { resource.owner == principal }
    /// unless { resource.locked };
    /// ```
    pub fn to_text(&self, alloc: Global) -> Result<String, AllocError> {
        let mut text = String::new(alloc);
        for annotation in &self.annotations {
            push_annotation(alloc, &mut text, annotation)?;
        }
        text.push_str(effect_text(self.effect))?;
        text.push_str("(\n  ")?;
        push_scope(alloc, &mut text, Var::Principal, &self.principal)?;
        text.push_str(",\n  ")?;
        push_action(alloc, &mut text, &self.action)?;
        text.push_str(",\n  ")?;
        push_scope(alloc, &mut text, Var::Resource, &self.resource)?;
        text.push_str("\n)")?;
        for clause in &self.clauses {
            push_clause(alloc, &mut text, clause)?;
        }
        text.push_str(";\n")?;
        Ok(text)
    }
}

// `permit` or `forbid`.
fn effect_text(effect: Effect) -> &'static str {
    match effect {
        Effect::Permit => "permit",
        Effect::Forbid => "forbid",
    }
}

// An annotation, and the end of its line.
fn push_annotation(
    alloc: Global,
    text: &mut String,
    annotation: &Annotation,
) -> Result<(), AllocError> {
    let Annotation { key, value } = annotation;
    text.push_str(&format!(in alloc; "@{key}(\"{}\")\n", Escaped(value))?)
}

// What a scope says of the principal or the resource.
fn push_scope(
    alloc: Global,
    text: &mut String,
    var: Var,
    scope: &ScopeConstraint,
) -> Result<(), AllocError> {
    text.push_str(&format!(in alloc; "{var}")?)?;
    match scope {
        ScopeConstraint::Any => Ok(()),
        ScopeConstraint::Eq(operand) => push_operand(alloc, text, " == ", var, operand),
        ScopeConstraint::In(operand) => push_operand(alloc, text, " in ", var, operand),
        ScopeConstraint::Is(ty) => text.push_str(&format!(in alloc; " is {ty}")?),
        ScopeConstraint::IsIn(ty, operand) => {
            text.push_str(&format!(in alloc; " is {ty}")?)?;
            push_operand(alloc, text, " in ", var, operand)
        }
    }
}

// A sign, and the entity or the slot of a variable behind it.
fn push_operand(
    alloc: Global,
    text: &mut String,
    sign: &str,
    var: Var,
    operand: &EntityOrSlot,
) -> Result<(), AllocError> {
    text.push_str(sign)?;
    match operand {
        EntityOrSlot::Entity(uid) => push_entity(alloc, text, uid),
        EntityOrSlot::Slot => text.push_str(&format!(in alloc; "?{var}")?),
    }
}

// An entity.
fn push_entity(alloc: Global, text: &mut String, uid: &EntityUID) -> Result<(), AllocError> {
    text.push_str(&format!(in alloc; "{uid}")?)
}

// What a scope says of the action.
fn push_action(
    alloc: Global,
    text: &mut String,
    action: &ActionConstraint,
) -> Result<(), AllocError> {
    text.push_str("action")?;
    match action {
        ActionConstraint::Any => Ok(()),
        ActionConstraint::Eq(uid) => {
            text.push_str(" == ")?;
            push_entity(alloc, text, uid)
        }
        ActionConstraint::In(uid) => {
            text.push_str(" in ")?;
            push_entity(alloc, text, uid)
        }
        ActionConstraint::InSet(uids) => push_entities(alloc, text, uids),
    }
}

// ` in ` and a set of entities.
fn push_entities(
    alloc: Global,
    text: &mut String,
    uids: &[Rc<EntityUID>],
) -> Result<(), AllocError> {
    text.push_str(" in [")?;
    let mut comma = "";
    for uid in uids {
        text.push_str(comma)?;
        push_entity(alloc, text, uid)?;
        comma = ", ";
    }
    text.push_str("]")
}

// A clause in a line of its own.
fn push_clause(alloc: Global, text: &mut String, clause: &Clause) -> Result<(), AllocError> {
    match clause {
        Clause::When(expr) => push_body(alloc, text, "\nwhen { ", expr),
        Clause::Unless(expr) => push_body(alloc, text, "\nunless { ", expr),
    }
}

// A word, an expression, and the bracket behind it.
fn push_body(alloc: Global, text: &mut String, word: &str, expr: &Expr) -> Result<(), AllocError> {
    text.push_str(word)?;
    text.push_str(&policy_text(alloc, expr)?.text)?;
    text.push_str(" }")
}
