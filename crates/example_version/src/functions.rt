//! The functions of the extension, and what each of them answers.
ghost use Rattle.std.specs.Prelude.{◌≡◌, ◌↔◌, codes, IfOk, IsTrue, option_map, Some};
ghost use Rattle.cedar_values.specs.BareValues.{bare_value};
ghost use Rattle.cedar_names.specs.Names.{unqualified};
ghost use Rattle.cedar_terms.specs.Types.{BoolType, ExtensionType};
ghost use Rattle.semantics_values.specs.ValueTypes.{value_type};
ghost use Rattle.cedar_calls.specs.Types.{Keeps, declared};
ghost use Rattle.cedar_terms.specs.SchemaTypes.{SchemaExtension, bare_schema_type};
ghost use Rattle.example_version.specs.Versions.{Compares, Holds, version_in, version_name};

use crate::version::{Version, name, read};
use cedar_calls::{
    BinaryFunction, EvaluationError, Extension, ExtensionFunction, ExtensionFunctions,
    ExtensionOutputValue, NoFunction, UnaryFunction,
};
use cedar_exprs::CallStyle;
use cedar_terms::{Literal, SchemaType};
use cedar_values::{RepresentableExtensionValue, Value, ValueKind};
use std::alloc::{AllocError, Global};
use std::rc::{Rc, RcStr};

/// The value of these numbers.
pub fn version_value(alloc: Global, major: u32, minor: u32) -> Result<Value<Version>, AllocError>
    ensures { IfOk result (λ v.
        value_type version_name (bare_value v) ≡ ExtensionType (unqualified (codes "version"))) }
{
    let version = RepresentableExtensionValue::new_lazy(Version::new(alloc, major, minor)?);
    Ok(Value::new(ValueKind::ExtensionValue(Rc::new(alloc, version)?), None))
}

// The version that a value is, if it is one.
fn as_version(value: &Value<Version>) -> Option<&Version>
    ensures { option_map (λ d. d.now) result ≡ version_in (bare_value value.now) }
{
    match value.value_kind() {
        ValueKind::ExtensionValue(extension) => Some(extension.value()),
        _ => None,
    }
}

// The refusal of a call, with what it says.
fn refusal(alloc: Global, message: &str) -> EvaluationError {
    match (name(alloc, "version"), RcStr::from_str(alloc, message)) {
        (Ok(name), Ok(message)) => EvaluationError::Function { name, message },
        _ => EvaluationError::Memory,
    }
}

/// Makes a version of its text.
#[derive(Drop)]
pub struct FromText;

impl UnaryFunction<Version> for FromText {
    // A value that it answers is a version.
    ghost gives = { λ f x r.
        Keeps version_name (Some (ExtensionType (unqualified (codes "version")))) r };

    fn call(
        &self,
        alloc: Global,
        arg: &Value<Version>,
    ) -> Result<ExtensionOutputValue<Version>, EvaluationError> {
        match arg.value_kind() {
            ValueKind::Lit(Literal::String(text)) => match read(text) {
                Some((major, minor)) => {
                    Ok(ExtensionOutputValue::Known(version_value(alloc, major, minor)?))
                }
                None => Err(refusal(alloc, "no version, as \"2.10\"")),
            },
            _ => Err(refusal(alloc, "no text")),
        }
    }
}

/// How the first of two versions compares with the second.
#[derive(Clone, Copy, Debug)]
pub enum Comparison {
    /// It came before.
    IsOlder,
    /// It serves where the second is wanted: the same major, and no older.
    IsCompatible,
}

// Whether a comparison holds of two versions.
fn holds(comparison: Comparison, first: &Version, second: &Version) -> bool
    ensures { IsTrue result ↔ Holds comparison first.now second.now }
{
    match comparison {
        Comparison::IsOlder => {
            first.major < second.major
                || (first.major == second.major && first.minor < second.minor)
        }
        Comparison::IsCompatible => first.major == second.major && second.minor <= first.minor,
    }
}

impl BinaryFunction<Version> for Comparison {
    // A value that it answers says whether the comparison holds.
    ghost gives = { λ f x y r. Keeps version_name (Some BoolType) r
        × Compares f (version_in (bare_value x)) (version_in (bare_value y)) r };

    fn call(
        &self,
        alloc: Global,
        first: &Value<Version>,
        second: &Value<Version>,
    ) -> Result<ExtensionOutputValue<Version>, EvaluationError> {
        match (as_version(first), as_version(second)) {
            (Some(a), Some(b)) => {
                let is_so = holds(*self, a, b);
                Ok(ExtensionOutputValue::Known(Value::from(is_so)))
            }
            _ => Err(refusal(alloc, "no version")),
        }
    }
}

// Of each count of arguments the type of the functions that an extension of versions may store.
impl ExtensionFunctions for Version {
    type Nullary = NoFunction;

    type Unary = FromText;

    type Binary = Comparison;

    type Ternary = NoFunction;

    type Variadic = NoFunction;
}

/// The extension: `version` makes a version, the others are methods that compare two.
pub fn extension(alloc: Global) -> Result<Extension<Version>, AllocError> {
    Extension::new(
        alloc,
        name(alloc, "version")?,
        functions(alloc)?,
        Vec::new(alloc),
    )
}

// Its functions.
fn functions(alloc: Global) -> Result<Vec<ExtensionFunction<Version>>, AllocError> {
    let mut functions = Vec::new(alloc);
    functions.push(make_constructor(alloc)?)?;
    for (function, comparison) in [
        ("isOlder", Comparison::IsOlder),
        ("isCompatible", Comparison::IsCompatible),
    ] {
        functions.push(make_comparison(alloc, function, comparison)?)?;
    }
    Ok(functions)
}

// The function that makes a version of its text.
fn make_constructor(alloc: Global) -> Result<ExtensionFunction<Version>, AllocError> {
    let name = name(alloc, "version")?;
    let style = CallStyle::FunctionStyle;
    ExtensionFunction::unary(alloc, name, style, FromText, ty(alloc)?, SchemaType::String)
}

// A method that compares two versions.
fn make_comparison(
    alloc: Global,
    function: &str,
    comparison: Comparison,
) -> Result<ExtensionFunction<Version>, AllocError> {
    let (name, style) = (name(alloc, function)?, CallStyle::MethodStyle);
    let types = (ty(alloc)?, ty(alloc)?);
    ExtensionFunction::binary(alloc, name, style, comparison, SchemaType::Bool, types)
}

// The type of versions, as a schema has it.
fn ty(alloc: Global) -> Result<SchemaType, AllocError>
    ensures { IfOk result
        (λ t. bare_schema_type t ≡ SchemaExtension (unqualified (codes "version"))) }
{
    let name = name(alloc, "version")?;
    Ok(SchemaType::Extension { name })
}
