//! Functions of extensions: what they are, calls of them, extensions and tables of them.
#![tactic(auto)]

mod boxed;
mod err;
mod extension;
mod extension_function;
mod extensions;
mod no_function;
mod object;
mod output_value;

pub use boxed::{BoxedFunction, FunctionBox};
pub use cedar_validation::{CallStyle, FunctionTable};
pub use err::EvaluationError;
pub use extension::Extension;
pub use extension_function::ExtensionFunction;
pub use extensions::Extensions;
pub use no_function::NoFunction;
pub use object::{
    BinaryFunction, ExtensionFunctionObject, ExtensionFunctions, NullaryFunction, TernaryFunction,
    UnaryFunction, VariadicFunction,
};
pub use output_value::ExtensionOutputValue;
