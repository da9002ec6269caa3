//! Texts in pieces.
ghost use Rattle.std.specs.Prelude.{◌≡◌, ◌++◌, [], IfOk, IsTrue, OnOk, string_bytes};
ghost use Rattle.std.specs.Char.{encode_utf8};
ghost use Rattle.std.specs.Fmt.{AppendsText};
ghost use Rattle.cedar_builders.specs.Ropes.{text_of};

use std::alloc::{AllocError, Global};
use std::collections::LinkedList;
use std::{fmt, mem};

/// A text in pieces, which are joined once, when it is written.
///
/// A long one is put behind another without a copy of either, and a short one is copied. So the
/// text of a tree of any shape and depth is made in time proportional to its length, and is dropped
/// piece by piece. `write!` puts what it formats behind the text.
#[derive(Debug, Drop)]
pub struct Rope {
    // What stands before the last piece.
    before: LinkedList<String>,
    last: String,
}

// What a piece has room for at first; what is no longer is copied into another.
const SHORT: usize = 128;

impl Rope {
    /// A text of one piece.
    pub fn new(alloc: Global, text: String) -> Rope
        ensures { text_of result ≡ string_bytes text }
    {
        Rope {
            before: LinkedList::new(alloc),
            last: text,
        }
    }

    /// A copy of a text, with room for a short text behind it.
    #[inline(always)]
    pub fn from_str(alloc: Global, text: &str) -> Result<Rope, AllocError>
        ensures { IfOk result (λ r. text_of r ≡ text.now) }
    {
        let mut last = String::with_capacity(alloc, SHORT)?;
        last.push_str(text)?;
        Ok(Rope::new(alloc, last))
    }

    /// Puts a character behind it.
    #[inline(always)]
    pub fn push(&mut self, c: char) -> Result<(), AllocError>
        ensures { OnOk result (text_of self.new ≡ text_of self.old ++ encode_utf8 c) }
    {
        self.last.push(c)
    }

    /// Puts a short text behind it.
    #[inline(always)]
    pub fn push_str(&mut self, text: &str) -> Result<(), AllocError>
        ensures { OnOk result (text_of self.new ≡ text_of self.old ++ text.now) }
    {
        self.last.push_str(text)
    }

    /// Puts the text of a value behind it, as `write!` asks for.
    #[inline(always)]
    pub fn write_fmt<D: fmt::Display + Drop>(&mut self, value: D) -> Result<(), AllocError>
        ensures { OnOk result (AppendsText (text_of self.old) (text_of self.new) (D.output value)) }
    {
        self.last.write_fmt(value)
    }

    // Whether the text is one piece, and short.
    fn is_short(&self) -> bool
        ensures { IsTrue result → self.now.before ≡ [] }
    {
        self.before.is_empty() && self.last.len() <= SHORT
    }

    /// Puts a text before all pieces.
    #[inline(always)]
    pub fn put_before(&mut self, alloc: Global, text: &str) -> Result<(), AllocError>
        ensures { OnOk result (text_of self.new ≡ text.now ++ text_of self.old) }
    {
        if self.is_short() {
            return self.last.insert_str(0, text);
        }
        self.before.push_front(String::from_str(alloc, text)?)?;
        Ok(())
    }

    /// Puts another behind it.
    #[inline(always)]
    pub fn append(&mut self, other: Rope) -> Result<(), AllocError>
        ensures { OnOk result (text_of self.new ≡ text_of self.old ++ text_of other) }
    {
        if other.is_short() {
            return self.last.push_str(&other.last);
        }
        let Rope { mut before, last } = other;
        self.before.push_back(mem::replace(&mut self.last, last))?;
        self.before.append(&mut before)
    }

    /// The text between two short ones.
    pub fn between(mut self, alloc: Global, first: &str, last: &str) -> Result<Rope, AllocError>
        ensures { IfOk result (λ r. text_of r ≡ first.now ++ (text_of self ++ last.now)) }
    {
        self.put_before(alloc, first)?;
        self.push_str(last)?;
        Ok(self)
    }

    /// The text.
    pub fn to_text(&self, alloc: Global) -> Result<String, AllocError>
        ensures { IfOk result (λ s. string_bytes s ≡ text_of self.now) }
    {
        let mut text = String::with_capacity(alloc, SHORT)?;
        for piece in &self.before {
            text.push_str(piece)?;
        }
        text.push_str(&self.last)?;
        Ok(text)
    }
}
