//! A law of what evaluators bind.
ghost use Rattle.semantics_values.specs.Laws.{BindsPlainValues};
ghost use Rattle.cedar_values.specs.Holders as held;
ghost use Rattle.cedar_values.specs.WellFormedValues.{WellFormedMap, well_formed_env};

use cedar_values::ExtensionValue;
use cedar_values::laws::well_formed_maps_bind_plain_values;

/// The values that an evaluator binds unknowns to are values without extension values, whatever the
/// type of these: so what `simplify` promises holds over each evaluator that knows more.
pub fn maps_bind_plain_values<X: ExtensionValue>()
    ensures { (R : _) (E : _) (P : _) (m : WellFormedMap held.NoExtension R E P) →
        BindsPlainValues X.canonical (well_formed_env m) }
{
    well_formed_maps_bind_plain_values();
}
