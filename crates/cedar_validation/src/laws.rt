//! What holds of each table of functions.
//!
//! The function here does nothing: its contract is the law, for each type of tables.
ghost use Rattle.cedar_validation.specs.Tables.{AreTypesOfKnown};

use crate::function_table::FunctionTable;

/// A name without a style stands for no function, so it has no return type.
pub fn types_of_known<F: FunctionTable>()
    ensures { (table : F) → AreTypesOfKnown (F.style_at table) (F.return_type_at table) }
{}
