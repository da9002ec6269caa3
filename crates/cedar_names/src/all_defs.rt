//! Declared types.
ghost use Rattle.std.specs.Prelude.{◌≡◌};
ghost use Rattle.cedar_names.specs.Names.{BareName};
ghost use Rattle.cedar_names.specs.InternalNames.{bare_internal_name};
ghost use Rattle.cedar_names.specs.Resolution.{has_name, is_common, is_entity};

use crate::internal_name::InternalName;
use std::collections::BTreeSet;

/// The names that are declared as common types and as entity types (Cedar's file
/// `validator/schema.rs`).
#[derive(Debug, Drop)]
pub struct AllDefs {
    common: BTreeSet<InternalName>,
    entity: BTreeSet<InternalName>,
}

impl AllDefs {
    /// The declarations of these names.
    pub fn new(common: BTreeSet<InternalName>, entity: BTreeSet<InternalName>) -> AllDefs
        ensures common { (n : BareName) → is_common result n ≡ has_name common.keys n }
        ensures entity { (n : BareName) → is_entity result n ≡ has_name entity.keys n }
    {
        AllDefs { common, entity }
    }

    /// Whether the name is declared as a common type.
    pub fn is_defined_as_common(&self, name: &InternalName) -> bool
        ensures { result ≡ is_common self.now (bare_internal_name name.now) }
    {
        self.common.contains(name)
    }

    /// Whether the name is declared as an entity type.
    pub fn is_defined_as_entity(&self, name: &InternalName) -> bool
        ensures { result ≡ is_entity self.now (bare_internal_name name.now) }
    {
        self.entity.contains(name)
    }
}
