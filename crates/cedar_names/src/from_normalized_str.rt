//! Reading of texts in their normalized form.
ghost use Rattle.std.specs.Prelude.{◌≡◌, ℕ, List, IfOk, IfErr};
ghost use Rattle.cedar_names.specs.declared.err.ReservedNameError.{ReservedNameError};
ghost use Rattle.cedar_names.specs.Readers.{OnReadError};

use crate::err::ParseErrors;
use std::alloc::Global;

/// What can be read from a text in its normalized form: with no spaces and no comments
/// (Cedar's file `from_normalized_str.rs`). `Id`, `UnreservedId`, `AnyId`, `InternalName` and
/// `Name` have it; the trait has to be in scope.
///
/// ```rust
/// let name = Name::from_normalized_str(alloc, "A::b")?;
/// ```
///
/// An implementation says in its ghost members what it reads: `reads` what a value read from a
/// text is, `outside` where a text is outside the grammar, `forbids` what the error
/// holds where a name of the grammar is refused, and `kind` the word for what was asked.
pub trait FromNormalizedStr: Sized {
    ghost kind: { List ℕ };

    ghost outside: { List ℕ → Type 0 };

    ghost forbids: { List ℕ → ReservedNameError → Type 0 };

    ghost reads: { List ℕ → Self → Type 0 };

    /// The word for this type in `ParseErrors::NotNormalized`, as `internal name`.
    fn describe_self() -> &'static str
        ensures { result.now ≡ kind };

    /// The value with this text. A name has the place of the whole text.
    ///
    /// A text outside the grammar is `NotNormalized`. A name or an identifier that may not be
    /// reserved is refused as `Reserved` if it has the component `__cedar`.
    fn from_normalized_str(alloc: Global, s: &str) -> Result<Self, ParseErrors>
        ensures ok { IfOk result (λ x. reads s.now x) }
        ensures refused { IfErr result (λ e. OnReadError e kind (outside s.now) (forbids s.now)) };
}
