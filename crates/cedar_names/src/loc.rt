//! Places in a source text.
ghost use Rattle.std.specs.Prelude.{◌≡◌, refl, IfOk, IfErr, IsSome};
ghost use Rattle.std.specs.Option.{option_copied};
ghost use Rattle.std.specs.Rc.{rc_str_bytes};
ghost use Rattle.std.specs.Ordering.{as_partial_cmp};
ghost use Rattle.std.specs.Cmp.{partial_equiv_from_equiv};
ghost use Rattle.cedar_names.specs.Place.{
  place_eq,
  place_eq_equiv,
  place_cmp,
  place_cmp_total,
  place_ties,
  place_po,
  place_fed,
  place_fed-alike,
};

use std::alloc::{AllocError, Global};
use std::cmp::Ordering;
use std::hash::{Hash, Hasher};
use std::marker::Model;
use std::rc::RcStr;

/// A place: the bytes `start..stop` of the text `src` (Cedar's file `parser/loc.rs`).
///
/// Places compare by `start`, then `stop`, then `src`. Nothing that holds a place compares it.
#[derive(Debug, Drop)]
pub struct Loc {
    pub start: usize,
    pub stop: usize,
    pub src: RcStr,
}

impl Model for Loc {
    ghost use Rattle.std.specs.Rc.{rc_str_bytes};
    ghost use Rattle.cedar_names.specs.Place.{Place};

    ghost Value = { Place };

    ghost view = { λ l. record { start = l.start; stop = l.stop; src = rc_str_bytes l.src } };
}

impl Loc {
    /// The place `start..stop` of `src`, both in bytes. Nothing checks that it lies within `src`.
    pub fn new(start: usize, stop: usize, src: RcStr) -> Loc
        ensures { result ≡ record { start = start; stop = stop; src = rc_str_bytes src } }
    {
        Loc { start, stop, src }
    }

    /// A copy, which shares the text and takes no memory.
    pub fn clone(&self, _alloc: Global) -> Result<Loc, AllocError>
        ensures { IfOk result (λ l. l ≡ self.now) }
    {
        Clone::clone(self)
    }

    /// A copy of the place, if there is one. It takes no memory.
    pub fn clone_option(alloc: Global, loc: Option<&Loc>) -> Result<Option<Loc>, AllocError>
        ensures copy { IfOk result (λ copy. copy ≡ option_copied loc.entry) }
        ensures takes { IfErr result (λ _. IsSome loc.entry) }
    {
        match loc {
            None => Ok(None),
            Some(loc) => Ok(Some(loc.clone(alloc)?)),
        }
    }
}

impl Clone for Loc {
    ghost is_clone = { λ l copy. copy ≡ l };

    fn clone(&self) -> Result<Loc, AllocError> {
        let src = self.src.clone()?;
        Ok(Loc {
            start: self.start,
            stop: self.stop,
            src,
        })
    }
}

impl PartialEq for Loc {
    ghost eq = { place_eq };

    ghost laws = { partial_equiv_from_equiv place_eq_equiv };

    fn eq(&self, other: &Loc) -> bool {
        self.start == other.start && self.stop == other.stop && self.src == other.src
    }
}

impl Eq for Loc {
    ghost laws = { place_eq_equiv };
}

impl PartialOrd for Loc {
    ghost partial_cmp = { as_partial_cmp place_cmp };

    ghost laws = { place_po };

    fn partial_cmp(&self, other: &Loc) -> Option<Ordering> {
        Some(self.cmp(other))
    }
}

impl Ord for Loc {
    ghost cmp = { place_cmp };

    ghost total = { place_cmp_total };

    ghost matches_partial_cmp = { λ _ _. refl };

    ghost matches_eq = { place_ties };

    fn cmp(&self, other: &Loc) -> Ordering {
        self.start
            .cmp(&other.start)
            .then(self.stop.cmp(&other.stop))
            .then_with(|| self.src.cmp(&other.src))
    }
}

impl Hash for Loc {
    ghost hash_input = { place_fed };

    ghost respects_eq = { place_fed-alike };

    fn hash<H: Hasher>(&self, state: &mut H) {
        self.start.hash(state);
        self.stop.hash(state);
        self.src.hash(state);
    }
}
