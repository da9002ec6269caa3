//! A store of one's own: it has alice and her photo of the beach.
use cedar_request::{Dereference, EntityData, EntityStore};
use cedar_terms::EntityUID;
use cedar_values::{NoExtension, WellFormedValue};
use std::alloc::{AllocError, Global};

/// alice, with a tag, a descendant of friends; or the photo, with an attribute.
#[derive(Drop)]
pub enum Entry {
    /// alice, of this team.
    Alice(WellFormedValue),
    /// The photo, of this owner.
    Beach(WellFormedValue),
}

/// Both. Nothing is known of bob, and nobody else is there.
#[derive(Drop)]
pub struct Photos {
    /// alice.
    pub alice: Entry,
    /// The photo.
    pub beach: Entry,
}

impl EntityData<NoExtension> for Entry {
    ghost use Rattle.example_requests.specs.Photos.{attributes_of, tags_of};

    ghost bare_attributes = { attributes_of };

    ghost bare_tags = { tags_of };

    fn attribute(&self, key: &str) -> Option<&WellFormedValue> {
        match self {
            Entry::Beach(owner) => { if key == "owner" { Some(owner) } else { None } }
            Entry::Alice(_) => None,
        }
    }

    fn tag(&self, key: &str) -> Option<&WellFormedValue> {
        match self {
            Entry::Alice(team) => { if key == "team" { Some(team) } else { None } }
            Entry::Beach(_) => None,
        }
    }
}

impl EntityStore<NoExtension> for Photos {
    ghost use Rattle.example_requests.specs.Photos.{bare_photos};

    type Entity = Entry;

    ghost bare_entities = { bare_photos };

    fn entity(&self, uid: &EntityUID) -> Dereference<'_, Entry> {
        match uid.eid() {
            "alice" => Dereference::Data(&self.alice),
            "beach" => Dereference::Data(&self.beach),
            "bob" => Dereference::NotKnown,
            _ => Dereference::NoSuchEntity,
        }
    }

    fn is_descendant_of(
        &self,
        _alloc: Global,
        uid: &EntityUID,
        ancestor: &EntityUID,
    ) -> Result<bool, AllocError> {
        Ok(uid.eid() == "alice" && ancestor.eid() == "friends")
    }
}
