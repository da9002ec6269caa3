//! Versions as the values of an extension.
ghost use Rattle.std.specs.Prelude.{◌≡◌, codes, false, IfOk, string_bytes};
ghost use Rattle.cedar_builders.specs.BareExpr.{Lit, no_trees, tree};
ghost use Rattle.cedar_terms.specs.Literals.{StringLit};
ghost use Rattle.cedar_names.specs.Names.{unqualified};
ghost use Rattle.cedar_names.specs.PlainNames.{bare_name};

use cedar_exprs::{RestrictedExpr, SubstituteValue};
use cedar_names::Name;
use cedar_terms::Literal;
use cedar_values::ExtensionValue;
use std::alloc::{AllocError, Global};

/// A version, as `2.10`: numbers, so it is behind `2.9`. Compares by the two, shows its text.
#[derive(Debug, Drop)]
#[derive_where(PartialEq, Eq, PartialOrd, Ord)]
pub struct Version {
    /// It changes where what worked before may work no longer.
    pub major: u32,
    /// It changes where something is new.
    pub minor: u32,
    #[derive_where(skip(EqHashOrd))]
    text: String,
}

impl Version {
    /// The version of these numbers: of 2 and 10 it is `2.10`.
    pub fn new(alloc: Global, major: u32, minor: u32) -> Result<Version, AllocError>
        ensures major { IfOk result (λ v. v.major ≡ major) }
        ensures minor { IfOk result (λ v. v.minor ≡ minor) }
    {
        let text = format!(in alloc; "{major}.{minor}")?;
        Ok(Version { major, minor, text })
    }
}

/// The numbers of the version that a text is: digits, a point and digits. None of any other text,
/// and if a number is too large.
pub fn read(text: &str) -> Option<(u32, u32)> {
    let (major, minor) = text.split_once(".")?;
    Some((number(major)?, number(minor)?))
}

// The number of a text of digits.
fn number(text: &str) -> Option<u32> {
    if text.bytes().all(|byte| byte.is_ascii_digit()) {
        text.parse::<u32>().ok()
    } else {
        None
    }
}

/// The name that is no more than one identifier, as each text is that is handed on here. Any other
/// would be refused as if memory had run out.
pub fn name(alloc: Global, text: &str) -> Result<Name, AllocError>
    ensures { IfOk result (λ n. bare_name n ≡ unqualified text.now) }
{
    match Name::parse_unqualified_name(alloc, text) {
        Ok(name) => Ok(name),
        Err(_) => Err(AllocError),
    }
}

// What the layer asks of an extension value: its type's name, the call that makes it, its text, and
// whether operators may be overloaded at it.
impl ExtensionValue for Version {
    ghost type_name = { λ _. unqualified (codes "version") };

    ghost canonical = { λ v. record {
      func = unqualified (codes "version");
      args = tree (Lit (StringLit (string_bytes v.text))) no_trees;
    } };

    ghost text_of = { λ v. string_bytes v.text };

    ghost is_overloadable = { λ _. false };

    fn typename(&self, alloc: Global) -> Result<Name, AllocError> {
        name(alloc, "version")
    }

    fn supports_operator_overloading(&self) -> bool {
        false
    }

    fn canonical_repr(&self, alloc: Global) -> Result<(Name, Vec<RestrictedExpr>), AllocError> {
        let text = Literal::from_text(alloc, &self.text)?.value_expr(alloc)?;
        Ok((name(alloc, "version")?, vec![in alloc; text]?))
    }

    fn text(&self) -> &str {
        &self.text
    }
}
