//! Tables of extension functions, and what they say of calls: which faults they have, and which
//! types.
#![tactic(auto)]

mod call_style;
mod checks;
mod declared_types;
mod expr_validation_error;
mod function_table;
pub mod laws;

pub use call_style::CallStyle;
pub use checks::{check_call, check_path};
pub use declared_types::{binary_type, common_type, type_of_call, unary_type};
pub use expr_validation_error::ExprValidationError;
pub use function_table::FunctionTable;
