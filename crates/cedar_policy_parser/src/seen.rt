//! Texts that may stand once.
ghost use Rattle.std.specs.Prelude.{[], IfOk};
ghost use Rattle.std.specs.Rc.{rc_str_bytes};
ghost use Rattle.cedar_policy_parser.specs.Seen.{HasSeen, IsNoted};

use std::alloc::{AllocError, Global};
use std::collections::BTreeSet;
use std::rc::RcStr;

/// Texts that were seen.
#[derive(Drop)]
pub(crate) struct SeenTexts {
    texts: BTreeSet<RcStr>,
}

impl SeenTexts {
    /// None.
    pub(crate) fn new(alloc: Global) -> SeenTexts
        ensures { HasSeen [] result }
    {
        SeenTexts {
            texts: BTreeSet::new(alloc),
        }
    }

    /// Notes a text, and says whether it is a new one.
    pub(crate) fn note(&mut self, text: &RcStr) -> Result<bool, AllocError>
        ensures { IfOk result (λ is_new.
            IsNoted self.old (rc_str_bytes text.now) is_new self.new) }
    {
        Ok(self.texts.insert(text.clone()?)?)
    }
}
