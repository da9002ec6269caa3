//! Identifiers that this crate spells itself.
ghost use Rattle.std.specs.Prelude.{◌≡◌, IfOk, IsTrue};
ghost use Rattle.cedar_names.specs.Grammar.{is_id, is_unreserved_id};

use cedar_names::{FromNormalizedStr, Id, ParseErrors, UnreservedId};
use std::alloc::{AllocError, Global};
use std::convert::TryFrom;

// The identifier with this text, which is one.
pub(crate) fn known_id(alloc: Global, text: &str) -> Result<Id, AllocError>
    requires { IsTrue (is_id text.now) }
    ensures { IfOk result (λ id. id ≡ text.now) }
{
    match Id::from_normalized_str(alloc, text) {
        Ok(id) => Ok(id),
        Err(ParseErrors::Memory) => Err(AllocError),
        Err(_) => unreachable!(),
    }
}

// The identifier with this text, which is one and not reserved.
pub(crate) fn known_unreserved_id(alloc: Global, text: &str) -> Result<UnreservedId, AllocError>
    requires { IsTrue (is_unreserved_id text.now) }
    ensures { IfOk result (λ id. id ≡ text.now) }
{
    let id = known_id(alloc, text)?;
    match UnreservedId::try_from(id) {
        Ok(id) => Ok(id),
        Err(_) => unreachable!(),
    }
}
