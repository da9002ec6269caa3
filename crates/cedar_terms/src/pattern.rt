//! Patterns of `like` (Cedar's file `pattern.rs`).
ghost use Rattle.std.specs.Prelude.{◌≡◌, ◌↔◌, [], IfOk, IsTrue, List, Some, length, refl};
ghost use Rattle.std.specs.Fmt.{WritesOnOk};
ghost use Rattle.std.specs.Iterator.{IsFinite};
ghost use Rattle.std.specs.Iterator.Runs.{WholeRun};
ghost use Rattle.std.specs.Ordering.{as_partial_cmp};
ghost use Rattle.std.specs.Cmp.{partial_equiv_from_equiv};
ghost use Rattle.std.specs.Slice.Iter.{iter_rest};
ghost use Rattle.std.specs.Str.{encode_utf8_all};
ghost use Rattle.cedar_terms.specs.Patterns.{elem_text, pattern_text};
ghost use Rattle.cedar_terms.specs.PatternOrder.{
  pattern_eq,
  pattern_eq_equiv,
  pattern_cmp,
  pattern_cmp_total,
  pattern_ties,
  pattern_po,
  pattern_fed,
  pattern_fed-alike,
};
ghost use Rattle.cedar_terms.specs.declared.pattern.PatternElem.{PatternElem};

use crate::escape::EscapedChar;
use std::alloc::{AllocError, Global};
use std::cmp::Ordering;
use std::hash::{Hash, Hasher};
use std::marker::Model;
use std::rc::Rc;
use std::{fmt, slice};

/// An element of a pattern. Characters order by code, before the wildcard.
#[derive(Clone, Copy, Debug, PartialEq, Eq, PartialOrd, Ord, Hash)]
pub enum PatternElem {
    /// A character, which stands for itself.
    Char(char),
    /// The wildcard `*`, which stands for any text.
    Wildcard,
}

/// A pattern of `like`, which clauses see as the list of its elements.
#[derive(Debug, Drop)]
pub struct Pattern {
    elems: Rc<Vec<PatternElem>>,
}

impl Model for Pattern {
    ghost Value = { List PatternElem };

    ghost view = { λ p. p.elems.value.items };
}

impl From<Rc<Vec<PatternElem>>> for Pattern {
    ghost from_gives = { λ elems p. p ≡ elems.value.items };

    fn from(elems: Rc<Vec<PatternElem>>) -> Pattern {
        Pattern { elems }
    }
}

impl Pattern {
    /// The pattern of these elements.
    pub fn from_vec(alloc: Global, elems: Vec<PatternElem>) -> Result<Pattern, AllocError>
        ensures { IfOk result (λ p. p ≡ elems.items) }
    {
        let elems = Rc::new(alloc, elems)?;
        Ok(Pattern { elems })
    }

    /// The pattern of the elements that the iterator gives, in their order.
    pub fn from_items<I: Iterator<Item = PatternElem>>(
        alloc: Global,
        items: I,
    ) -> Result<Pattern, AllocError>
        requires can { I.can_next items }
        requires finite { IsFinite (I.remaining items) }
        ensures { IfOk result (λ p. WholeRun I.next_gives items (λ run. p ≡ run.items)) }
    {
        let elems: Vec<PatternElem> = items.collect(alloc)?;
        Pattern::from_vec(alloc, elems)
    }

    /// A second handle on the same elements. It takes no memory.
    pub fn clone(&self, _alloc: Global) -> Result<Pattern, AllocError>
        ensures { IfOk result (λ p. p ≡ self.now) }
    {
        Clone::clone(self)
    }

    /// The elements, in their order.
    pub fn get_elems(&self) -> &[PatternElem]
        ensures { result.now ≡ self.now }
    {
        self.elems.as_slice()
    }

    /// An iterator over the elements, in their order.
    pub fn iter(&self) -> slice::Iter<'_, PatternElem>
        ensures { iter_rest result ≡ self.now }
    {
        self.get_elems().iter()
    }

    /// How many elements there are.
    pub fn len(&self) -> usize
        ensures { result ≡ length self.now }
    {
        self.elems.len()
    }

    /// Whether there is no element.
    pub fn is_empty(&self) -> bool
        ensures { IsTrue result ↔ (self.now ≡ []) }
    {
        self.elems.is_empty()
    }
}

impl Clone for Pattern {
    ghost is_clone = { λ p copy. copy ≡ p };

    fn clone(&self) -> Result<Pattern, AllocError> {
        let elems = self.elems.clone()?;
        Ok(Pattern { elems })
    }
}

impl PartialEq for Pattern {
    ghost eq = { pattern_eq };

    ghost laws = { partial_equiv_from_equiv pattern_eq_equiv };

    fn eq(&self, other: &Pattern) -> bool {
        self.get_elems() == other.get_elems()
    }
}

impl Eq for Pattern {
    ghost laws = { pattern_eq_equiv };
}

impl PartialOrd for Pattern {
    ghost partial_cmp = { as_partial_cmp pattern_cmp };

    ghost laws = { pattern_po };

    fn partial_cmp(&self, other: &Pattern) -> Option<Ordering> {
        Some(self.cmp(other))
    }
}

impl Ord for Pattern {
    ghost cmp = { pattern_cmp };

    ghost total = { pattern_cmp_total };

    ghost matches_partial_cmp = { λ _ _. refl };

    ghost matches_eq = { pattern_ties };

    fn cmp(&self, other: &Pattern) -> Ordering {
        self.get_elems().cmp(other.get_elems())
    }
}

impl Hash for Pattern {
    ghost hash_input = { pattern_fed };

    ghost respects_eq = { pattern_fed-alike };

    fn hash<H: Hasher>(&self, state: &mut H) {
        self.get_elems().hash(state);
    }
}

impl fmt::Display for Pattern {
    ghost output = { λ p. Some (encode_utf8_all (pattern_text p)) };

    fn fmt<W: fmt::Write>(&self, f: &mut fmt::Formatter<W>) -> fmt::Result {
        for elem in self.get_elems() {
            write_elem(f, *elem)?;
        }
        Ok(())
    }
}

// Writes the text of the element.
fn write_elem<W: fmt::Write>(f: &mut fmt::Formatter<W>, elem: PatternElem) -> fmt::Result
    ensures { WritesOnOk W.write_str_gives f.old result (encode_utf8_all (elem_text elem)) f.new }
{
    match elem {
        PatternElem::Char('*') => write!(f, "\\*"),
        PatternElem::Char(c) => write!(f, "{}", EscapedChar(c)),
        PatternElem::Wildcard => write!(f, "*"),
    }
}
