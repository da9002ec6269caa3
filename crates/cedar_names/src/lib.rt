//! Identifiers and names, by their texts.
#![tactic(auto)]

mod all_defs;
mod err;
mod from_normalized_str;
mod id;
mod internal_name;
pub mod laws;
mod loc;
mod name;
mod non_empty;
mod path_and_place;
mod raw_name;
mod slot;

pub use all_defs::AllDefs;
pub use err::{ParseErrors, ReservedNameError};
pub use from_normalized_str::FromNormalizedStr;
pub use id::{AnyId, Id, UnreservedId, is_normalized_ident};
pub use internal_name::InternalName;
pub use loc::Loc;
pub use name::Name;
pub use non_empty::{NonEmpty, NonEmptyIntoIter, NonEmptyIter};
pub use raw_name::{ConditionalName, RawName, ReferenceType, TypeNotDefinedError};
pub use slot::{PrincipalOrResource, Slot, SlotId};
