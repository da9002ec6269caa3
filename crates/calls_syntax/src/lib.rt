//! What recorded calls are written in: S-expressions, which are words, texts, entities and lists,
//! and the names, literals, types, patterns and places that they stand for. `docs/CALLS.md`
//! describes the language.
#![tactic(auto)]

mod answer;
mod answers;
mod call_error;
mod comparisons;
mod copied;
mod escapes;
mod places;
mod sexpr;
mod terms;

pub use crate::answer::{Answer, ok};
pub use crate::answers::{boolean, join, place, place_in_text, quoted, shown, sign};
pub use crate::call_error::CallError;
pub use crate::comparisons::{agreed, compare, equal, hash, holds, same};
pub use crate::copied::{Copied, copy_of};
pub use crate::escapes::{pattern, text};
pub use crate::places::{at_place, count, loc, maybe_place, name_at, placed_name};
pub use crate::sexpr::{Sexpr, sexprs};
pub use crate::terms::{
    internal_name, literal, name, namespace, parsed, plain, shared_text, term_type, word_literal,
};
