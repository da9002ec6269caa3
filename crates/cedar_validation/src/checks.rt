//! What validation asks of a node.
ghost use Rattle.std.specs.Prelude.{◌≡◌, None, IfErr, OnOk, map};
ghost use Rattle.std.specs.Rc.{rc_str_bytes};
ghost use Rattle.cedar_names.specs.NonEmpty.{list_of};
ghost use Rattle.cedar_names.specs.PlainNames.{bare_name};
ghost use Rattle.cedar_validation.specs.Faults.{attribute_fault, call_fault, path_fault};
ghost use Rattle.cedar_validation.specs.ValidationErrors.{IsErrorOf};

use crate::call_style::CallStyle;
use crate::expr_validation_error::ExprValidationError;
use crate::function_table::FunctionTable;
use cedar_names::{Name, NonEmpty, is_normalized_ident};
use std::alloc::Global;
use std::rc::RcStr;

/// A call with so many arguments: its function is known, and one that is called as a method has a
/// receiver.
pub fn check_call<F: FunctionTable>(
    alloc: Global,
    table: &F,
    fn_name: &Name,
    arguments: usize,
) -> Result<(), ExprValidationError>
    ensures passed { OnOk result
        (call_fault (bare_name fn_name.now) (F.style_at table.now (bare_name fn_name.now)) arguments
        ≡ None) }
    ensures refused { IfErr result (IsErrorOf
        (call_fault (bare_name fn_name.now) (F.style_at table.now (bare_name fn_name.now))
        arguments)) }
{
    match table.style(fn_name) {
        None => Err(ExprValidationError::UnknownFunction {
            name: fn_name.clone(alloc)?,
        }),
        Some(CallStyle::MethodStyle) => {
            if arguments == 0 {
                return Err(ExprValidationError::MissingReceiver {
                    name: fn_name.clone(alloc)?,
                });
            }
            Ok(())
        }
        Some(CallStyle::FunctionStyle) => Ok(()),
    }
}

/// A path of attributes: where there are two or more, each is an identifier that a user may define,
/// as `is_normalized_ident` has it. Else the error names the first that is none.
pub fn check_path(attrs: &NonEmpty<RcStr>) -> Result<(), ExprValidationError>
    ensures passed { OnOk result
        (path_fault (rc_str_bytes attrs.now.head) (map rc_str_bytes attrs.now.tail.items) ≡ None) }
    ensures refused { IfErr result
        (IsErrorOf
        (path_fault (rc_str_bytes attrs.now.head) (map rc_str_bytes attrs.now.tail.items))) }
{
    match attrs.tail.as_slice() {
        [] => Ok(()),
        [_, ..] => check_attributes(attrs),
    }
}

// The first attribute that no user may define is refused.
fn check_attributes(attrs: &NonEmpty<RcStr>) -> Result<(), ExprValidationError>
    ensures passed { OnOk result
        (attribute_fault (map rc_str_bytes (list_of attrs.now)) ≡ None) }
    ensures refused { IfErr result
        (IsErrorOf (attribute_fault (map rc_str_bytes (list_of attrs.now)))) }
{
    for attr in attrs.iter() {
        if !is_normalized_ident(attr.as_str()) {
            return Err(ExprValidationError::InvalidAttribute {
                attr: attr.clone()?,
            });
        }
    }
    Ok(())
}
