//! Tables of extension functions (what Cedar's file `expr.rs` asks of `Extensions`).
ghost use Rattle.std.specs.Prelude.{◌≡◌};
ghost use Rattle.std.specs.Option.{option_copied, option_map};
ghost use Rattle.cedar_names.specs.PlainNames.{bare_name};
ghost use Rattle.cedar_terms.specs.SchemaTypes.{bare_schema_type};

use crate::call_style::CallStyle;
use cedar_names::Name;
use cedar_terms::SchemaType;

/// A finite map from names to extension functions.
///
/// A name has a style exactly where its function is known, and only a function that is known has a
/// return type.
pub trait FunctionTable {
    ghost use Rattle.cedar_validation.specs.Tables.{AreTypesOfKnown, ReturnTypes, Styles};

    // How the function of each name is called.
    ghost style_at: { Self → Styles };

    // The return type of the function of each name.
    ghost return_type_at: { Self → ReturnTypes };

    /// How the function of the name is called; none where there is no such function.
    fn style(&self, name: &Name) -> Option<CallStyle>
        ensures { result ≡ style_at self.now (bare_name name.now) };

    /// Its return type; none where there is no such function, or where it has none.
    fn return_type(&self, name: &Name) -> Option<&SchemaType>
        ensures { option_map bare_schema_type (option_copied result)
            ≡ return_type_at self.now (bare_name name.now) };

    // A name without a style has no return type.
    ghost types_of_known: { (table : Self) →
        AreTypesOfKnown (style_at table) (return_type_at table) };
}
