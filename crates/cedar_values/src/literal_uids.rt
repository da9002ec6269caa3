//! The entities inside a value (`value.rs`).
ghost use Rattle.std.specs.Prelude.{◌∷◌, [], IfOk, OnOk};
ghost use Rattle.cedar_terms.specs.Entities.{bare_entity_uid};
ghost use Rattle.cedar_terms.specs.Literals.{bare_literal};
ghost use Rattle.cedar_values.specs.BareValues.{bare_value, bare_value_kind};
ghost use Rattle.cedar_values.specs.LiteralUids.{Gains, HasJust, literal_uid, literal_uids};

use crate::value::{Value, ValueKind};
use crate::waiting::{push_members, push_values};
use cedar_terms::{EntityUID, Literal};
use std::alloc::{AllocError, Global};
use std::collections::HashSet;

impl<X> Value<X> {
    /// The entities that are literals of the value, at any depth. What an extension value holds
    /// does not count.
    pub fn all_literal_uids(&self, alloc: Global) -> Result<HashSet<EntityUID>, AllocError>
        ensures { IfOk result (HasJust (literal_uids (bare_value self.now))) }
    {
        self.value_kind().all_literal_uids(alloc)
    }
}

impl<X> ValueKind<X> {
    /// The entities that are literals of the value, at any depth. What an extension value holds
    /// does not count.
    pub fn all_literal_uids(&self, alloc: Global) -> Result<HashSet<EntityUID>, AllocError>
        ensures { IfOk result (HasJust (literal_uids (bare_value_kind self.now))) }
    {
        // The values that are still to be looked at wait on the heap, so that no depth ends the
        // walk.
        let mut uids = HashSet::new(alloc);
        let mut waiting = Vec::new(alloc);
        waiting.push(self)?;
        'walk: while let Some(kind) = waiting.pop() {
            match kind {
                ValueKind::Lit(literal) => add_literal(alloc, literal, &mut uids)?,
                ValueKind::Set(set) => push_members(&mut waiting, set)?,
                ValueKind::Record(pairs) => push_values(&mut waiting, pairs)?,
                ValueKind::ExtensionValue(_) => {}
            }
        }
        Ok(uids)
    }
}

// Adds a literal, if it is an entity.
fn add_literal(
    alloc: Global,
    literal: &Literal,
    uids: &mut HashSet<EntityUID>,
) -> Result<(), AllocError>
    ensures { OnOk result (Gains (literal_uid (bare_literal literal.now)) uids.old uids.new) }
{
    match literal {
        Literal::EntityUID(uid) => add_uid(uids, EntityUID::clone(uid, alloc)?),
        _ => Ok(()),
    }
}

// Adds an entity.
fn add_uid(uids: &mut HashSet<EntityUID>, uid: EntityUID) -> Result<(), AllocError>
    ensures { OnOk result (Gains (bare_entity_uid uid ∷ []) uids.old uids.new) }
{
    uids.insert(uid)?;
    Ok(())
}
