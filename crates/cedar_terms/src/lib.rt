//! The terms of Cedar: literals, types, operators, variables, unknowns and patterns as plain
//! values.
#![tactic(auto)]

mod entity;
mod escape;
mod integer;
mod known;
pub mod laws;
mod literal;
mod matching;
mod ops;
mod pattern;
mod precedence;
mod schema_type;
mod splits;
mod text;
mod types;
mod unknown;
mod var;

pub use entity::{EntityType, EntityUID};
pub use escape::Escaped;
pub use integer::{InputInteger, Integer};
pub use literal::Literal;
pub use matching::Turns;
pub use ops::{BinaryOp, UnaryOp};
pub use pattern::{Pattern, PatternElem};
pub use precedence::Precedence;
pub use schema_type::SchemaType;
pub use splits::try_splits;
pub use text::first_char;
pub use types::{StaticallyTyped, Type};
pub use unknown::Unknown;
pub use var::Var;
