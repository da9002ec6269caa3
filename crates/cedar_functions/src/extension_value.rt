//! What the layers ask of extension values.
ghost use Rattle.std.specs.Prelude.{◌≡◌, IfOk};
ghost use Rattle.cedar_names.specs.Names.{unqualified};
ghost use Rattle.cedar_names.specs.PlainNames.{bare_name};
ghost use Rattle.cedar_exprs.specs.RestrictedExprs.{bare_restricted_expr};
ghost use Rattle.cedar_values.specs.BareCalls.{bare_call};
ghost use Rattle.cedar_functions.specs.Extensions as meant;

use crate::extension::BuiltinExtension;
use cedar_exprs::{RestrictedExpr, SubstituteValue};
use cedar_extensions::Datetime;
use cedar_names::Name;
use cedar_terms::Literal;
use cedar_values::ExtensionValue;
use std::alloc::{AllocError, Global};

// The name that is no more than one identifier, as each text is that is handed on here. Any other
// would be refused as if memory had run out.
fn name(alloc: Global, text: &str) -> Result<Name, AllocError>
    ensures { IfOk result (λ n. bare_name n ≡ unqualified text.now) }
{
    match Name::parse_unqualified_name(alloc, text) {
        Ok(name) => Ok(name),
        Err(_) => Err(AllocError),
    }
}

// The call of a function on a text.
fn call_on(
    alloc: Global,
    function: &str,
    text: &str,
) -> Result<(Name, Vec<RestrictedExpr>), AllocError>
    ensures { IfOk result (λ c. bare_call c ≡ meant.call_on function.now text.now) }
{
    let text = Literal::from_text(alloc, text)?.value_expr(alloc)?;
    Ok((name(alloc, function)?, vec![in alloc; text]?))
}

// The same as an expression.
fn made_of(alloc: Global, function: &str, text: &str) -> Result<RestrictedExpr, AllocError>
    ensures { IfOk result (λ r. bare_restricted_expr r ≡ meant.made_of function.now text.now) }
{
    let (name, args) = call_on(alloc, function, text)?;
    RestrictedExpr::call_extension_fn(alloc, name, args)
}

// The call that makes a moment.
fn offset_of_epoch(
    alloc: Global,
    moment: Datetime,
) -> Result<(Name, Vec<RestrictedExpr>), AllocError>
    ensures { IfOk result (λ c.
        bare_call c ≡ meant.canonical_call (BuiltinExtension.Datetime moment)) }
{
    let milliseconds = moment.milliseconds;
    let span = format!(in alloc; "{milliseconds}ms")?;
    let epoch = made_of(alloc, "datetime", "1970-01-01")?;
    let span = made_of(alloc, "duration", &span)?;
    Ok((name(alloc, "offset")?, vec![in alloc; epoch, span]?))
}

impl ExtensionValue for BuiltinExtension {
    ghost use Rattle.cedar_functions.specs.Extensions.{
      canonical_call,
      is_compared,
      short_text,
      type_name_of,
    };

    ghost type_name = { type_name_of };

    ghost canonical = { canonical_call };

    ghost text_of = { short_text };

    ghost is_overloadable = { is_compared };

    /// `decimal`, `ipaddr`, `datetime` or `duration`.
    fn typename(&self, alloc: Global) -> Result<Name, AllocError> {
        name(alloc, self.type_name())
    }

    fn supports_operator_overloading(&self) -> bool {
        match self {
            BuiltinExtension::Decimal(_) => false,
            BuiltinExtension::IpAddr(_) => false,
            BuiltinExtension::Datetime(_) => true,
            BuiltinExtension::Duration(_) => true,
        }
    }

    /// The call that makes it, as `decimal("-0.5000")`; of a moment the one that `Display` shows.
    fn canonical_repr(&self, alloc: Global) -> Result<(Name, Vec<RestrictedExpr>), AllocError> {
        match self {
            BuiltinExtension::Decimal(decimal) => {
                let text = format!(in alloc; "{decimal}")?;
                call_on(alloc, "decimal", &text)
            }
            BuiltinExtension::IpAddr(range) => {
                let text = format!(in alloc; "{range}")?;
                call_on(alloc, "ip", &text)
            }
            BuiltinExtension::Datetime(moment) => offset_of_epoch(alloc, *moment),
            BuiltinExtension::Duration(duration) => {
                let text = format!(in alloc; "{duration}")?;
                call_on(alloc, "duration", &text)
            }
        }
    }

    /// The name of the call that makes it, with its argument left out, as `decimal(..)`: no text is
    /// kept beside the value. `Display` and `canonical_repr` say all.
    fn text(&self) -> &str {
        match self {
            BuiltinExtension::Decimal(_) => "decimal(..)",
            BuiltinExtension::IpAddr(_) => "ip(..)",
            BuiltinExtension::Datetime(_) => "datetime(..)",
            BuiltinExtension::Duration(_) => "duration(..)",
        }
    }
}
