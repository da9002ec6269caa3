//! The path and the place of a name.
ghost use Rattle.std.specs.Prelude.{◌≡◌, [], IfOk};
ghost use Rattle.std.specs.Option.{option_copied};
ghost use Rattle.cedar_names.specs.PathsAndPlaces.{path_in, place_in};

use crate::id::Id;
use crate::internal_name::clone_path;
use crate::loc::Loc;
use std::alloc::{AllocError, Global};

// The path and the place of a name, as far as it has them.
//
// Two options would take eight bytes more. An expression, which may hold a name, would then have
// more than 128 bytes, and the compiler copies up to so many in line.
#[derive(Drop)]
pub(crate) enum PathAndPlace {
    Neither,
    Path(Vec<Id>),
    Place(Loc),
    Both(Vec<Id>, Loc),
}

impl PathAndPlace {
    // An empty path is kept as none, so that a name of one identifier needs no memory.
    pub(crate) fn new(path: Vec<Id>, loc: Option<Loc>) -> PathAndPlace
        ensures path { path_in result ≡ path.items }
        ensures place { place_in result ≡ loc }
    {
        if path.is_empty() {
            return PathAndPlace::without_path(loc);
        }
        match loc {
            None => PathAndPlace::Path(path),
            Some(loc) => PathAndPlace::Both(path, loc),
        }
    }

    pub(crate) fn without_path(loc: Option<Loc>) -> PathAndPlace
        ensures path { path_in result ≡ [] }
        ensures place { place_in result ≡ loc }
    {
        match loc {
            None => PathAndPlace::Neither,
            Some(loc) => PathAndPlace::Place(loc),
        }
    }

    pub(crate) fn path(&self) -> &[Id]
        ensures { result.now ≡ path_in self.now }
    {
        match self {
            PathAndPlace::Neither | PathAndPlace::Place(_) => &[],
            PathAndPlace::Path(path) | PathAndPlace::Both(path, _) => path.as_slice(),
        }
    }

    pub(crate) fn into_path(self, alloc: Global) -> Vec<Id>
        ensures { result.items ≡ path_in self }
    {
        match self {
            PathAndPlace::Neither => Vec::new(alloc),
            PathAndPlace::Path(path) => path,
            PathAndPlace::Place(_loc) => Vec::new(alloc),
            PathAndPlace::Both(path, _loc) => path,
        }
    }

    pub(crate) fn loc(&self) -> Option<&Loc>
        ensures { option_copied result ≡ place_in self.now }
    {
        match self {
            PathAndPlace::Neither | PathAndPlace::Path(_) => None,
            PathAndPlace::Place(loc) | PathAndPlace::Both(_, loc) => Some(loc),
        }
    }
}

impl Clone for PathAndPlace {
    ghost is_clone = { λ p copy. (path_in copy ≡ path_in p) × (place_in copy ≡ place_in p) };

    fn clone(&self) -> Result<PathAndPlace, AllocError> {
        match self {
            PathAndPlace::Neither => Ok(PathAndPlace::Neither),
            PathAndPlace::Path(path) => Ok(PathAndPlace::Path(copy_path(path)?)),
            PathAndPlace::Place(loc) => Ok(PathAndPlace::Place(Clone::clone(loc)?)),
            PathAndPlace::Both(path, loc) => {
                let path = copy_path(path)?;
                Ok(PathAndPlace::Both(path, Clone::clone(loc)?))
            }
        }
    }
}

fn copy_path(path: &Vec<Id>) -> Result<Vec<Id>, AllocError>
    ensures { IfOk result (λ copy. copy.items ≡ path.now.items) }
{
    clone_path(*path.allocator(), path, 0)
}
