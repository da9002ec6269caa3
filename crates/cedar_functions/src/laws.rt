//! The law of the calls that make extension values.
ghost use Rattle.cedar_functions.specs.Laws.{CallsMakeValues};

use crate::extension::BuiltinExtension;
use semantics_extensions::laws::written_texts_are_read;

/// The call that makes an extension value evaluates to the value, whatever else is known: so the
/// expression of a value, printed and read again, is the value.
pub fn calls_make_values()
    ensures { CallsMakeValues
        ⟦<BuiltinExtension as Ord>⟧.cmp ⟦<BuiltinExtension as PartialEq>⟧.eq }
{
    written_texts_are_read();
}
