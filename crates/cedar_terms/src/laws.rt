//! Laws of terms: what their comparisons mean, and that texts of patterns differ.
ghost use Rattle.std.specs.Prelude.{◌≡◌, ◌↔◌, IsTrue, List};
ghost use Rattle.std.specs.Ordering.{nat_cmp};
ghost use Rattle.std.specs.Str.{encode_utf8_all};
ghost use Rattle.cedar_terms.specs.Ops.{unary_op_number, binary_op_number, var_number};
ghost use Rattle.cedar_terms.specs.Patterns.{pattern_text};
ghost use Rattle.cedar_terms.specs.PatternOrder.{elem_cmp};
ghost use Rattle.cedar_names.specs.NameOrder.{name_cmp, name_fed};
ghost use Rattle.cedar_terms.specs.Entities.{bare_entity_type, bare_entity_uid};
ghost use Rattle.cedar_terms.specs.EntityOrder.{entity_uid_cmp, entity_uid_fed};
ghost use Rattle.cedar_terms.specs.LiteralOrder.{literal_fed};
ghost use Rattle.cedar_terms.specs.Literals.{bare_literal};
ghost use Rattle.cedar_terms.specs.Types.{bare_type};
ghost use Rattle.cedar_terms.specs.Unknowns.{bare_unknown};
ghost use Rattle.cedar_terms.specs.SchemaTypes.{bare_schema_type};

use crate::entity::{EntityType, EntityUID};
use crate::literal::Literal;
use crate::ops::{BinaryOp, UnaryOp};
use crate::pattern::{Pattern, PatternElem};
use crate::schema_type::SchemaType;
use crate::types::Type;
use crate::unknown::Unknown;
use crate::var::Var;
use std::hash::Hash;

/// Terms are equal exactly where they are the same up to the places in their names.
pub fn equal_terms()
    ensures entity_types { (s t : EntityType) →
        IsTrue (⟦<EntityType as PartialEq>⟧.eq s t) ↔ (bare_entity_type s ≡ bare_entity_type t) }
    ensures entities { (u v : EntityUID) →
        IsTrue (⟦<EntityUID as PartialEq>⟧.eq u v) ↔ (bare_entity_uid u ≡ bare_entity_uid v) }
    ensures literals { (x y : Literal) →
        IsTrue (⟦<Literal as PartialEq>⟧.eq x y) ↔ (bare_literal x ≡ bare_literal y) }
    ensures types { (s t : «Type») →
        IsTrue (⟦<Type as PartialEq>⟧.eq s t) ↔ (bare_type s ≡ bare_type t) }
    ensures unknowns { (u v : Unknown) →
        IsTrue (⟦<Unknown as PartialEq>⟧.eq u v) ↔ (bare_unknown u ≡ bare_unknown v) }
    ensures patterns { (p q : Pattern) →
        IsTrue (⟦<Pattern as PartialEq>⟧.eq p q) ↔ (p ≡ q) }
    ensures schema_types { (s t : SchemaType) →
        IsTrue (⟦<SchemaType as PartialEq>⟧.eq s t) ↔ (bare_schema_type s ≡ bare_schema_type t) }
{}

/// Entity types order by their names, entities by type and then by identifier, both without places.
pub fn ordered_entities()
    ensures entity_types { (s t : EntityType) →
        ⟦<EntityType as Ord>⟧.cmp s t ≡ name_cmp (bare_entity_type s) (bare_entity_type t) }
    ensures entities { (u v : EntityUID) →
        ⟦<EntityUID as Ord>⟧.cmp u v ≡ entity_uid_cmp (bare_entity_uid u) (bare_entity_uid v) }
{}

/// The hash of an entity type feeds its name, that of an entity its type and then its identifier.
pub fn hashed_entities()
    ensures entity_types { (ty : EntityType) →
        ⟦<EntityType as Hash>⟧.hash_input ty ≡ name_fed (bare_entity_type ty) }
    ensures entities { (uid : EntityUID) →
        ⟦<EntityUID as Hash>⟧.hash_input uid ≡ entity_uid_fed (bare_entity_uid uid) }
{}

/// Equal literals feed a hasher the same, as a set by hash needs: the number of the kind, and then
/// the content without places.
pub fn hashed_literals()
    ensures fed { (x : Literal) →
        ⟦<Literal as Hash>⟧.hash_input x ≡ literal_fed (bare_literal x) }
    ensures alike { (x y : Literal) → IsTrue (⟦<Literal as PartialEq>⟧.eq x y) →
        ⟦<Literal as Hash>⟧.hash_input x ≡ ⟦<Literal as Hash>⟧.hash_input y }
{}

/// Operators, variables and elements of patterns are equal exactly where they are the same.
pub fn equal_operators()
    ensures unary { (a b : UnaryOp) → IsTrue (⟦<UnaryOp as PartialEq>⟧.eq a b) ↔ (a ≡ b) }
    ensures binary { (a b : BinaryOp) → IsTrue (⟦<BinaryOp as PartialEq>⟧.eq a b) ↔ (a ≡ b) }
    ensures variables { (a b : Var) → IsTrue (⟦<Var as PartialEq>⟧.eq a b) ↔ (a ≡ b) }
    ensures elems { (a b : PatternElem) → IsTrue (⟦<PatternElem as PartialEq>⟧.eq a b) ↔ (a ≡ b) }
{}

/// Operators and variables order by their numbers, elements of patterns by code, the wildcard last.
pub fn ordered_operators()
    ensures unary { (a b : UnaryOp) →
        ⟦<UnaryOp as Ord>⟧.cmp a b ≡ nat_cmp (unary_op_number a) (unary_op_number b) }
    ensures binary { (a b : BinaryOp) →
        ⟦<BinaryOp as Ord>⟧.cmp a b ≡ nat_cmp (binary_op_number a) (binary_op_number b) }
    ensures variables { (a b : Var) →
        ⟦<Var as Ord>⟧.cmp a b ≡ nat_cmp (var_number a) (var_number b) }
    ensures elems { (a b : PatternElem) → ⟦<PatternElem as Ord>⟧.cmp a b ≡ elem_cmp a b }
{}

/// No two patterns have one text, neither as characters nor as the bytes that `Display` writes. Of
/// codes that are no characters this holds too.
pub fn pattern_texts_differ()
    ensures characters { (p q : List PatternElem) → pattern_text p ≡ pattern_text q → p ≡ q }
    ensures bytes { (p q : List PatternElem) →
        encode_utf8_all (pattern_text p) ≡ encode_utf8_all (pattern_text q) → p ≡ q }
{}
