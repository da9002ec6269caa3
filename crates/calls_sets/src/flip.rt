//! An extension whose values are ordered in reverse.
ghost use Rattle.std.specs.Prelude.{◌≡◌, IfOk, codes};
ghost use Rattle.cedar_names.specs.Names.{unqualified};
ghost use Rattle.cedar_names.specs.PlainNames.{bare_name};
ghost use Rattle.cedar_terms.specs.Literals.{LongLit};
ghost use Rattle.cedar_builders.specs.BareExpr.{Lit, tree, no_trees};

use cedar_exprs::{RestrictedExpr, SubstituteValue};
use cedar_names::Name;
use cedar_terms::Literal;
use cedar_values::ExtensionValue;
use std::alloc::{AllocError, Global};
use std::cmp::Reverse;

/// A number, of which the greater comes first. Its type and its canonical function are `flip`.
#[derive(Debug, PartialEq, Eq, PartialOrd, Ord, Drop)]
pub struct Flip {
    number: Reverse<i64>,
}

impl Flip {
    /// The value of this number.
    pub fn new(number: i64) -> Flip {
        Flip {
            number: Reverse(number),
        }
    }

    /// Its number.
    pub fn number(&self) -> i64 {
        self.number.0
    }
}

// The name `flip`.
fn flip_name(alloc: Global) -> Result<Name, AllocError>
    ensures { IfOk result (λ n. bare_name n ≡ unqualified (codes "flip")) }
{
    match Name::parse_unqualified_name(alloc, "flip") {
        Ok(name) => Ok(name),
        Err(_) => Err(AllocError),
    }
}

impl ExtensionValue for Flip {
    ghost use Rattle.std.specs.Prelude.{false};

    ghost type_name = { λ _. unqualified (codes "flip") };

    ghost canonical = { λ f. record {
      func = unqualified (codes "flip");
      args = tree (Lit (LongLit f.number.0)) no_trees;
    } };

    ghost text_of = { λ _. codes "flip" };

    ghost is_overloadable = { λ _. false };

    fn typename(&self, alloc: Global) -> Result<Name, AllocError> {
        flip_name(alloc)
    }

    fn supports_operator_overloading(&self) -> bool {
        false
    }

    fn canonical_repr(&self, alloc: Global) -> Result<(Name, Vec<RestrictedExpr>), AllocError> {
        let number = Literal::Long(self.number.0).value_expr(alloc)?;
        let mut args = Vec::new(alloc);
        args.push(number)?;
        Ok((flip_name(alloc)?, args))
    }

    fn text(&self) -> &str {
        "flip"
    }
}
