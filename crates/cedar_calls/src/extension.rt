//! Extensions (`extension.rs`).
ghost use Rattle.std.specs.Prelude.{◌≡◌, IfOk, IfSome, IsTrue, OnOk, Some, if◌then◌else◌};
ghost use Rattle.std.specs.BTreeMap.{insert_entry};
ghost use Rattle.std.specs.Option.{option_copied};
ghost use Rattle.std.specs.Ordering.{on};
ghost use Rattle.cedar_names.specs.NameOrder.{name_cmp, name_eq};
ghost use Rattle.cedar_names.specs.PlainNames.{bare_name};
ghost use Rattle.cedar_calls.specs.Functions.{bare_name_of};
ghost use Rattle.cedar_calls.specs.NameMaps.{stand_by_name, value_at};
ghost use Rattle.cedar_calls.specs.NamedFunctions.{HasLastOfEach};

use crate::extension_function::ExtensionFunction;
use crate::object::ExtensionFunctions;
use cedar_names::Name;
use cedar_values::NoExtension;
use std::alloc::{AllocError, Global};
use std::collections::BTreeMap;
use std::collections::btree_map::Values;
use std::{fmt, slice};

/// An extension: a finite map from names to functions, and the types whose values take part in the
/// overloading of operators.
#[derive(Drop)]
pub struct Extension<X: ExtensionFunctions = NoExtension> {
    name: Name,
    functions: BTreeMap<Name, ExtensionFunction<X>>,
    types_with_operator_overloading: Vec<Name>,
    ghost by_name: { IsTrue (stand_by_name bare_name_of functions.entries) },
}

impl<X: ExtensionFunctions> Extension<X> {
    ghost use Rattle.std.specs.List.{flat_map};
    ghost use Rattle.std.specs.List.Sorted.{IsStrictlySortedBy};
    ghost use Rattle.std.specs.Slice.Iter.{iter_rest};
    ghost use Rattle.cedar_sorted_slices.specs.Classes.{IsClassesOf};
    ghost use Rattle.cedar_terms.specs.SchemaTypes.{bare_names};
    ghost use Rattle.cedar_calls.specs.Functions.{ext_types_of};
    ghost use Rattle.cedar_calls.specs.Extensions.{
      extension_name,
      functions_by_name,
      functions_of,
      named,
      operator_types,
    };

    /// The extension of these functions. A later function of a name takes the place of an earlier.
    pub fn new(
        alloc: Global,
        name: Name,
        functions: Vec<ExtensionFunction<X>>,
        types_with_operator_overloading: Vec<Name>,
    ) -> Result<Extension<X>, AllocError>
        ensures name { IfOk result (λ e. extension_name e ≡ name) }
        ensures functions { IfOk result (λ e. HasLastOfEach (functions_by_name e) functions.items) }
        ensures types { IfOk result (λ e. IsClassesOf (on bare_name name_cmp)
            (operator_types e) types_with_operator_overloading.items) }
    {
        let functions = by_name(alloc, functions)?;
        let overloading = cedar_sorted_slices::into_ascending(types_with_operator_overloading);
        Ok(Extension {
            name,
            functions,
            types_with_operator_overloading: overloading,
        })
    }

    /// Its name.
    pub fn name(&self) -> &Name
        ensures { result.now ≡ extension_name self.now }
    {
        &self.name
    }

    /// The function of a name, if there is one.
    pub fn get_func(&self, name: &Name) -> Option<&ExtensionFunction<X>>
        ensures found { option_copied result ≡ named (bare_name name.now) self.now }
        ensures name { IfSome result (λ f. bare_name_of f.now ≡ bare_name name.now) }
    {
        find(&self.functions, name)
    }

    /// The functions, in the order of their names.
    pub fn funcs(&self) -> Values<'_, Name, ExtensionFunction<X>>
        ensures functions { result ≡ functions_of self.now }
        ensures ascending { IsStrictlySortedBy (on bare_name_of name_cmp) (functions_of self.now) }
    {
        self.functions.values()
    }

    /// The names of the extension types in the return types of its functions, in the order of
    /// `funcs`. Repeats are kept.
    pub fn ext_types(&self, alloc: Global) -> Result<Vec<Name>, AllocError>
        ensures { IfOk result (λ names.
            bare_names names.items ≡ flat_map ext_types_of (functions_of self.now)) }
    {
        let mut names = Vec::new(alloc);
        for function in self.functions.values() {
            let mut more = function.ext_types(alloc)?;
            names.append(&mut more)?;
        }
        Ok(names)
    }

    /// The types whose values take part in the overloading of operators, in the order of their
    /// names, each once.
    pub fn types_with_operator_overloading(&self) -> slice::Iter<'_, Name>
        ensures { iter_rest result ≡ operator_types self.now }
    {
        self.types_with_operator_overloading.iter()
    }
}

impl<X: ExtensionFunctions> fmt::Debug for Extension<X> {
    ghost use Rattle.std.specs.Prelude.{codes, ◌++◌};
    ghost use Rattle.cedar_names.specs.Names.{name_text};

    ghost debug_output = { λ e.
        Some (codes "<extension " ++ name_text (bare_name e.name) ++ codes ">") };

    fn fmt<W: fmt::Write>(&self, f: &mut fmt::Formatter<W>) -> fmt::Result {
        write!(f, "<extension {}>", self.name)
    }
}

// The functions by name, the last of each.
fn by_name<X: ExtensionFunctions>(
    alloc: Global,
    functions: Vec<ExtensionFunction<X>>,
) -> Result<BTreeMap<Name, ExtensionFunction<X>>, AllocError>
    ensures last { IfOk result (λ m. HasLastOfEach m functions.items) }
    ensures by_name { IfOk result (λ m. IsTrue (stand_by_name bare_name_of m.entries)) }
{
    let mut map = BTreeMap::new(alloc);
    for function in functions {
        insert_new(alloc, &mut map, function)?;
    }
    Ok(map)
}

// Puts a function at its name, in the place of an earlier one.
fn insert_new<X: ExtensionFunctions>(
    alloc: Global,
    map: &mut BTreeMap<Name, ExtensionFunction<X>>,
    function: ExtensionFunction<X>,
) -> Result<(), AllocError>
    ensures by_name { OnOk result (IsTrue (stand_by_name bare_name_of map.old.entries)
        → IsTrue (stand_by_name bare_name_of map.new.entries)) }
    ensures values { OnOk result ((name : Name) →
        value_at (bare_name name) map.new
        ≡ (if name_eq (bare_name_of function) (bare_name name)
        then Some function else value_at (bare_name name) map.old)) }
{
    let key = function.name().clone(alloc)?;
    insert(map, key, function)?;
    Ok(())
}

// Puts a value at a name, in the place of an earlier one.
fn insert<V: Drop>(map: &mut BTreeMap<Name, V>, key: Name, value: V) -> Result<(), AllocError>
    ensures entries { OnOk result
        (map.new.entries ≡ insert_entry (on bare_name name_cmp) map.old.entries key value) }
    ensures values { OnOk result ((name : Name) →
        value_at (bare_name name) map.new
        ≡ (if name_eq (bare_name key) (bare_name name)
        then Some value else value_at (bare_name name) map.old)) }
{
    map.insert(key, value)?;
    Ok(())
}

// The value at a name.
fn find<'a, V>(map: &'a BTreeMap<Name, V>, name: &Name) -> Option<&'a V>
    ensures { option_copied result ≡ value_at (bare_name name.now) map.now }
{
    map.get(name)
}
