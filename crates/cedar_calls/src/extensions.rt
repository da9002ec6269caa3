//! Extensions together, as a table of functions.
ghost use Rattle.std.specs.Prelude.{◌≡◌, IfSome};
ghost use Rattle.std.specs.Option.{option_copied};
ghost use Rattle.cedar_names.specs.PlainNames.{bare_name};
ghost use Rattle.cedar_calls.specs.Extensions.{extensions_of, first_named};
ghost use Rattle.cedar_calls.specs.Functions.{bare_name_of};

use crate::extension::Extension;
use crate::extension_function::ExtensionFunction;
use crate::object::ExtensionFunctions;
use cedar_names::Name;
use cedar_terms::SchemaType;
use cedar_validation::{CallStyle, FunctionTable};
use cedar_values::NoExtension;
use std::fmt;

/// A table of extensions. Where several have a function of one name, the first extension's counts.
#[derive(Drop)]
pub struct Extensions<X: ExtensionFunctions = NoExtension> {
    extensions: Vec<Extension<X>>,
}

impl<X: ExtensionFunctions> Extensions<X> {
    /// These extensions, in this order.
    pub fn new(extensions: Vec<Extension<X>>) -> Extensions<X>
        ensures { extensions_of result ≡ extensions.items }
    {
        Extensions { extensions }
    }

    /// The function of a name, from the first extension that has the name.
    pub fn func(&self, name: &Name) -> Option<&ExtensionFunction<X>>
        ensures found { option_copied result
            ≡ first_named (bare_name name.now) (extensions_of self.now) }
        ensures name { IfSome result (λ f. bare_name_of f.now ≡ bare_name name.now) }
    {
        let mut rest = self.extensions.as_slice();
        while let Some((first, others)) = rest.split_first() {
            if let Some(func) = first.get_func(name) {
                return Some(func);
            }
            rest = others;
        }
        None
    }
}

impl<X: ExtensionFunctions> fmt::Debug for Extensions<X> {
    fn fmt<W: fmt::Write>(&self, f: &mut fmt::Formatter<W>) -> fmt::Result {
        write!(f, "{:?}", self.extensions)
    }
}

impl<X: ExtensionFunctions> FunctionTable for Extensions<X> {
    ghost use Rattle.std.specs.Prelude.{option_and_then, option_map};
    ghost use Rattle.cedar_terms.specs.SchemaTypes.{bare_schema_type};
    ghost use Rattle.cedar_calls.specs.Functions.{return_type_of, style_of};
    ghost use Rattle.cedar_calls.specs.Found.{none_of_none};

    ghost style_at = { λ s name. option_map style_of (first_named name (extensions_of s)) };

    ghost return_type_at = { λ s name. option_map bare_schema_type
        (option_and_then return_type_of (first_named name (extensions_of s))) };

    fn style(&self, name: &Name) -> Option<CallStyle> {
        match self.func(name) {
            Some(func) => Some(func.style()),
            None => None,
        }
    }

    fn return_type(&self, name: &Name) -> Option<&SchemaType> {
        match self.func(name) {
            Some(func) => func.return_type(),
            None => None,
        }
    }

    ghost types_of_known = { λ s name. none_of_none style_of return_type_of bare_schema_type
        (first_named name (extensions_of s)) };
}
