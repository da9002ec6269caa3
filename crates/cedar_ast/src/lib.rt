//! What the module `ast` of the crate `cedar-policy-core` has, under its names there.
//!
//! Its `specs` pass on the words that contracts of users need.
#![tactic(auto)]

pub mod evaluator;
pub mod expr_builder;
pub mod expression_construction_errors;
pub mod laws;
pub mod simplifier;

pub use cedar_builders::{
    BuildFault, ExprBuilderInfallibleBuild, ExpressionConstructionError, LawfulExprBuilder,
    SubstitutionError,
};
pub use cedar_calls::{
    BinaryFunction, BoxedFunction, EvaluationError, Extension, ExtensionFunction,
    ExtensionFunctionObject, ExtensionFunctions, ExtensionOutputValue, Extensions, FunctionBox,
    NoFunction, NullaryFunction, TernaryFunction, UnaryFunction, VariadicFunction,
};
pub use cedar_exprs::{
    CallStyle, Expr, ExprBuilder, ExprIterator, ExprKind, ExprShapeOnly, ExprValidationError,
    FunctionTable, KindOf, RestrictedExpr, RestrictedExprError, SlotRef, Slots, SubstituteValue,
    ThroughExpr, TypedBuildFault, Unknowns, ValueBuilder,
};
pub use cedar_names::{
    AllDefs, AnyId, ConditionalName, FromNormalizedStr, Id, InternalName, Loc, Name, NonEmpty,
    NonEmptyIter, ParseErrors, PrincipalOrResource, RawName, ReferenceType, ReservedNameError,
    Slot, SlotId, TypeNotDefinedError, UnreservedId, is_normalized_ident,
};
pub use cedar_terms::{
    BinaryOp, EntityType, EntityUID, Escaped, InputInteger, Integer, Literal, Pattern, PatternElem,
    SchemaType, StaticallyTyped, Turns, Type, UnaryOp, Unknown, Var,
};
pub use cedar_values::{
    BoundedDisplay, BoundedToString, ContainsUnknown, ExtensionValue, NoExtension, NotValue,
    PartialValue, PartialValueToValueError, RepresentableExtensionValue, Set, Value, ValueKind,
    WellFormedValue, split, substitute_typed_values_into_expr, substitute_values_into_expr,
    try_into_expr_with_values,
};
pub use either;
