//! The extension functions that recorded calls name, and the table that validation and types go
//! by.
use calls_decode_values::{Echo, Keyed, NoValue, OneArgument, TwoArguments};
use calls_syntax::{CallError, name};
use cedar_calls::{Extension, ExtensionFunction, Extensions};
use cedar_exprs::CallStyle;
use cedar_names::Name;
use cedar_terms::SchemaType;
use std::alloc::Global;
use std::collections::BTreeMap;
use std::rc::RcStr;

/// The function of this name that a word describes.
///
/// `nullary`, `unary`, `binary`, `ternary` and `variadic` answer the record of their arguments,
/// `first` the first of two where that is a number, else a fault. `unknown` answers an unknown and
/// has no return type. `faulty`, `wanting`, `method`, `maker` and `nested` take one argument and
/// answer no value: a fault, that there is no memory, or an unknown. `method` is called as a
/// method; `maker` is declared to make keyed values of texts, `nested` to make records of extension
/// values.
pub fn function(alloc: Global, f: &str, word: &str) -> Result<ExtensionFunction<Keyed>, CallError> {
    let f = name(alloc, f)?;
    match word {
        "nullary" => Ok(nullary(alloc, f)),
        "unary" => unary(alloc, f),
        "binary" => binary(alloc, f),
        "first" => first(alloc, f),
        "ternary" => ternary(alloc, f),
        "variadic" => variadic(alloc, f),
        "unknown" => unknown(alloc, f),
        _ => without_value(alloc, f, word),
    }
}

fn without_value(
    alloc: Global,
    f: Name,
    word: &str,
) -> Result<ExtensionFunction<Keyed>, CallError> {
    match word {
        "faulty" => of_text(alloc, f, NoValue::Fault, SchemaType::Long),
        "wanting" => of_text(alloc, f, NoValue::Memory, SchemaType::Long),
        "method" => method(alloc, f, SchemaType::Long, SchemaType::String),
        "maker" => of_text(alloc, f, NoValue::Unknown, extension(alloc, "keyed")?),
        "nested" => of_text(alloc, f, NoValue::Unknown, nested(alloc)?),
        _ => Err(CallError::BadArguments),
    }
}

fn nullary(alloc: Global, f: Name) -> ExtensionFunction<Keyed> {
    let attrs = BTreeMap::new(alloc);
    ExtensionFunction::nullary(
        f,
        CallStyle::FunctionStyle,
        Echo,
        SchemaType::Record { attrs },
    )
}

fn unary(alloc: Global, f: Name) -> Result<ExtensionFunction<Keyed>, CallError> {
    let attrs = BTreeMap::new(alloc);
    Ok(ExtensionFunction::unary(
        alloc,
        f,
        CallStyle::FunctionStyle,
        OneArgument {
            is_echo: true,
            no_value: NoValue::Unknown,
        },
        SchemaType::Record { attrs },
        SchemaType::String,
    )?)
}

fn binary(alloc: Global, f: Name) -> Result<ExtensionFunction<Keyed>, CallError> {
    let attrs = BTreeMap::new(alloc);
    Ok(ExtensionFunction::binary(
        alloc,
        f,
        CallStyle::FunctionStyle,
        TwoArguments { is_echo: true },
        SchemaType::Record { attrs },
        (SchemaType::Long, SchemaType::String),
    )?)
}

fn first(alloc: Global, f: Name) -> Result<ExtensionFunction<Keyed>, CallError> {
    Ok(ExtensionFunction::binary(
        alloc,
        f,
        CallStyle::FunctionStyle,
        TwoArguments { is_echo: false },
        SchemaType::Long,
        (SchemaType::Long, SchemaType::String),
    )?)
}

fn ternary(alloc: Global, f: Name) -> Result<ExtensionFunction<Keyed>, CallError> {
    let attrs = BTreeMap::new(alloc);
    Ok(ExtensionFunction::ternary(
        alloc,
        f,
        CallStyle::FunctionStyle,
        Echo,
        SchemaType::Record { attrs },
        (SchemaType::String, SchemaType::Bool, SchemaType::Long),
    )?)
}

fn variadic(alloc: Global, f: Name) -> Result<ExtensionFunction<Keyed>, CallError> {
    let attrs = BTreeMap::new(alloc);
    Ok(ExtensionFunction::variadic(
        alloc,
        f,
        CallStyle::FunctionStyle,
        Echo,
        SchemaType::Record { attrs },
        (SchemaType::String, SchemaType::Bool),
    )?)
}

fn unknown(alloc: Global, f: Name) -> Result<ExtensionFunction<Keyed>, CallError> {
    Ok(ExtensionFunction::partial_eval_unknown(
        alloc,
        f,
        CallStyle::FunctionStyle,
        OneArgument {
            is_echo: false,
            no_value: NoValue::Unknown,
        },
        SchemaType::String,
    )?)
}

// A function of a text that answers no value.
fn of_text(
    alloc: Global,
    f: Name,
    no_value: NoValue,
    returns: SchemaType,
) -> Result<ExtensionFunction<Keyed>, CallError> {
    let style = CallStyle::FunctionStyle;
    declared(alloc, f, style, no_value, returns, SchemaType::String)
}

// A method that answers an unknown.
fn method(
    alloc: Global,
    f: Name,
    returns: SchemaType,
    takes: SchemaType,
) -> Result<ExtensionFunction<Keyed>, CallError> {
    let style = CallStyle::MethodStyle;
    declared(alloc, f, style, NoValue::Unknown, returns, takes)
}

// A function that answers no value, whatever it is declared to return.
#[tactic(auto, using(cedar_calls::specs::Types::no_value_keeps))]
fn declared(
    alloc: Global,
    f: Name,
    style: CallStyle,
    no_value: NoValue,
    returns: SchemaType,
    takes: SchemaType,
) -> Result<ExtensionFunction<Keyed>, CallError> {
    Ok(ExtensionFunction::unary(
        alloc,
        f,
        style,
        OneArgument {
            is_echo: false,
            no_value,
        },
        returns,
        takes,
    )?)
}

fn extension(alloc: Global, ty: &str) -> Result<SchemaType, CallError> {
    Ok(SchemaType::Extension {
        name: name(alloc, ty)?,
    })
}

// Records of a keyed value at `b` and a set of addresses at `a`.
fn nested(alloc: Global) -> Result<SchemaType, CallError> {
    let mut attrs = BTreeMap::new(alloc);
    insert_value(alloc, &mut attrs, "b", extension(alloc, "keyed")?)?;
    insert_value(alloc, &mut attrs, "a", addresses(alloc)?)?;
    Ok(SchemaType::Record { attrs })
}

fn insert_value(
    alloc: Global,
    attrs: &mut BTreeMap<RcStr, SchemaType>,
    key: &str,
    ty: SchemaType,
) -> Result<(), CallError> {
    let key = RcStr::from_str(alloc, key)?;
    drop(attrs.insert(key, ty)?);
    Ok(())
}

fn addresses(alloc: Global) -> Result<SchemaType, CallError> {
    let element_ty = Box::new(alloc, extension(alloc, "ipaddr")?)?;
    Ok(SchemaType::Set { element_ty })
}

/// A table of functions: `ip` makes an address, `isIpv4` is a method, `lng` answers a number,
/// `noret` has no return type.
pub fn table(alloc: Global) -> Result<Extensions<Keyed>, CallError> {
    let mut extensions = Vec::new(alloc);
    extensions.push(all(alloc)?)?;
    Ok(Extensions::new(extensions))
}

fn all(alloc: Global) -> Result<Extension<Keyed>, CallError> {
    let functions = functions(alloc)?;
    Ok(Extension::new(alloc, name(alloc, "all")?, functions, Vec::new(alloc))?)
}

fn functions(alloc: Global) -> Result<Vec<ExtensionFunction<Keyed>>, CallError> {
    let mut functions = Vec::new(alloc);
    functions.push(ip(alloc)?)?;
    functions.push(is_ipv4(alloc)?)?;
    functions.push(lng(alloc)?)?;
    functions.push(unknown(alloc, name(alloc, "noret")?)?)?;
    Ok(functions)
}

fn ip(alloc: Global) -> Result<ExtensionFunction<Keyed>, CallError> {
    let f = name(alloc, "ip")?;
    of_text(alloc, f, NoValue::Unknown, extension(alloc, "ipaddr")?)
}

fn is_ipv4(alloc: Global) -> Result<ExtensionFunction<Keyed>, CallError> {
    let f = name(alloc, "isIpv4")?;
    method(alloc, f, SchemaType::Bool, extension(alloc, "ipaddr")?)
}

fn lng(alloc: Global) -> Result<ExtensionFunction<Keyed>, CallError> {
    let f = name(alloc, "lng")?;
    of_text(alloc, f, NoValue::Unknown, SchemaType::Long)
}
