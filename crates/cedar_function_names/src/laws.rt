//! The law of names.
ghost use Rattle.std.specs.Prelude.{◌≡◌, Some};
ghost use Rattle.cedar_function_names.specs.Names.{function_name, function_named};
ghost use Rattle.cedar_function_names.specs.declared.function.ExtensionFunction.{
  ExtensionFunction,
};

/// Each function has a name of its own.
pub fn names_are_distinct()
    ensures { (f : ExtensionFunction) → function_named (function_name f) ≡ Some f }
{}
