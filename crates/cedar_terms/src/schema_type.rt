//! Types as a schema has them (what Cedar's file `extension.rs` asks of them).
ghost use Rattle.std.specs.Prelude.{◌≡◌, ◌++◌, IfOk, OnOk};
ghost use Rattle.cedar_terms.specs.Types.{bare_type};
ghost use Rattle.cedar_terms.specs.SchemaTypes.{
  bare_attributes,
  bare_names,
  bare_schema_type,
  attribute_extension_names,
  attribute_places,
  extension_names,
  schema_type_places,
  value_type,
};

use crate::entity::EntityType;
use crate::types::Type;
use cedar_names::Name;
use std::alloc::{AllocError, Global};
use std::boxed::Box;
use std::collections::BTreeMap;
use std::default::Emptied;
use std::rc::RcStr;

/// A type as a schema has it: a set knows the type of its members, a record those of its
/// attributes.
#[derive(Debug, PartialEq, Eq, Drop)]
pub enum SchemaType {
    /// Booleans.
    Bool,
    /// Integers.
    Long,
    /// Texts.
    String,
    /// Sets.
    Set {
        /// The type of the members.
        element_ty: Box<SchemaType>,
    },
    /// The empty set alone.
    EmptySet,
    /// Records.
    Record {
        /// The type of each attribute.
        attrs: BTreeMap<RcStr, SchemaType>,
    },
    /// Entities.
    Entity {
        /// The type of the entities.
        ty: EntityType,
    },
    /// Extension values.
    Extension {
        /// The name of the extension type.
        name: Name,
    },
}

impl SchemaType {
    /// The type that its values have at run time. `Set` and `EmptySet` both give `Type::Set`.
    pub fn to_type(&self, alloc: Global) -> Result<Type, AllocError>
        ensures { IfOk result (λ ty. bare_type ty ≡ value_type (bare_schema_type self.now)) }
    {
        match self {
            SchemaType::Bool => Ok(Type::Bool),
            SchemaType::Long => Ok(Type::Long),
            SchemaType::String => Ok(Type::String),
            SchemaType::Set { .. } | SchemaType::EmptySet => Ok(Type::Set),
            SchemaType::Record { .. } => Ok(Type::Record),
            SchemaType::Entity { ty } => Ok(Type::Entity {
                ty: ty.clone(alloc)?,
            }),
            SchemaType::Extension { name } => Ok(Type::Extension {
                name: name.clone(alloc)?,
            }),
        }
    }

    /// A copy, with the places of its names.
    pub fn clone(&self, _alloc: Global) -> Result<SchemaType, AllocError>
        ensures bare { IfOk result (λ ty. bare_schema_type ty ≡ bare_schema_type self.now) }
        ensures places { IfOk result (λ ty. schema_type_places ty ≡ schema_type_places self.now) }
    {
        Clone::clone(self)
    }

    /// The names of the extension types inside, from the outermost inwards, attributes by key.
    /// Repeats are kept.
    pub fn contained_ext_types(&self, alloc: Global) -> Result<Vec<Name>, AllocError>
        ensures { IfOk result (λ names.
            bare_names names.items ≡ extension_names (bare_schema_type self.now)) }
    {
        let mut names = Vec::new(alloc);
        push_ext_types(alloc, self, &mut names)?;
        Ok(names)
    }
}

impl Clone for SchemaType {
    ghost is_clone = { λ ty copy.
        (bare_schema_type copy ≡ bare_schema_type ty)
        × (schema_type_places copy ≡ schema_type_places ty) };

    fn clone(&self) -> Result<SchemaType, AllocError> {
        clone_schema_type(self)
    }
}

// A copy of the type.
#[cycle(copy)]
fn clone_schema_type(ty: &SchemaType) -> Result<SchemaType, AllocError>
    ensures bare { IfOk result (λ copy. bare_schema_type copy ≡ bare_schema_type ty.now) }
    ensures places { IfOk result (λ copy. schema_type_places copy ≡ schema_type_places ty.now) }
{
    match ty {
        SchemaType::Bool => Ok(SchemaType::Bool),
        SchemaType::Long => Ok(SchemaType::Long),
        SchemaType::String => Ok(SchemaType::String),
        SchemaType::EmptySet => Ok(SchemaType::EmptySet),
        SchemaType::Set { element_ty } => {
            let alloc = *Box::allocator(element_ty);
            let element_ty = clone_schema_type(element_ty)?;
            let element_ty = Box::new(alloc, element_ty)?;
            Ok(SchemaType::Set { element_ty })
        }
        SchemaType::Record { attrs } => {
            let attrs = clone_attributes(attrs)?;
            Ok(SchemaType::Record { attrs })
        }
        SchemaType::Entity { ty } => Ok(SchemaType::Entity {
            ty: Clone::clone(ty)?,
        }),
        SchemaType::Extension { name } => Ok(SchemaType::Extension {
            name: Clone::clone(name)?,
        }),
    }
}

// A copy of the attributes, which come and go by ascending keys.
#[cycle(copy)]
fn clone_attributes(
    attrs: &BTreeMap<RcStr, SchemaType>,
) -> Result<BTreeMap<RcStr, SchemaType>, AllocError>
    ensures bare { IfOk result (λ copy.
        bare_attributes copy.entries ≡ bare_attributes attrs.now.entries) }
    ensures places { IfOk result (λ copy.
        attribute_places copy.entries ≡ attribute_places attrs.now.entries) }
{
    let mut copy = BTreeMap::emptied(attrs)?;
    for (key, ty) in attrs.iter() {
        let name = key.clone()?;
        drop(copy.insert(name, clone_schema_type(ty)?)?);
    }
    Ok(copy)
}

// Adds the names of the extension types inside.
#[cycle(ext_types)]
fn push_ext_types(alloc: Global, ty: &SchemaType, names: &mut Vec<Name>) -> Result<(), AllocError>
    ensures { OnOk result (
        bare_names names.new.items ≡
        bare_names names.old.items ++ extension_names (bare_schema_type ty.now)) }
{
    match ty {
        SchemaType::Set { element_ty } => push_ext_types(alloc, element_ty, names),
        SchemaType::Record { attrs } => push_attribute_ext_types(alloc, attrs, names),
        SchemaType::Extension { name } => {
            names.push(name.clone(alloc)?)?;
            Ok(())
        }
        _ => Ok(()),
    }
}

#[cycle(ext_types)]
fn push_attribute_ext_types(
    alloc: Global,
    attrs: &BTreeMap<RcStr, SchemaType>,
    names: &mut Vec<Name>,
) -> Result<(), AllocError>
    ensures { OnOk result (
        bare_names names.new.items ≡
        bare_names names.old.items ++
        attribute_extension_names (bare_attributes attrs.now.entries)) }
{
    for (_key, ty) in attrs.iter() {
        push_ext_types(alloc, ty, names)?;
    }
    Ok(())
}
