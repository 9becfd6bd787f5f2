// Fields of structs: names and types side by side, where a name without a type is no field.
ghost use Rattle.std.specs.Prelude.{◌≡◌, ℕ, ◌≤◌, length, option_map, IfOk, take};
ghost use Rattle.vx_dtype.specs.Returns.{ReturnsOrOom, projected, projected_without};
ghost use Rattle.vx_dtype.specs.Fields.{field_count, field_names, field_type, first_unknown, is_among, names_without};
ghost use Rattle.vx_dtype.specs.Views.{type_of, fields_of, fields_view, names_of};

use crate::dtype::struct_of;
use crate::names::names_without;
use crate::{DType, FieldName, FieldNames, StructFields, VortexError, VortexResult};
use std::alloc::Global;

impl StructFields {
    /// How many fields there are.
    pub fn nfields(&self) -> usize
        ensures { result ≡ field_count (fields_of self.now) }
    {
        field_count(self.names.as_slice(), self.types.as_slice())
    }

    /// The names, of which one without a type is no field's.
    pub fn names(&self) -> &FieldNames
        ensures names { result.now ≡ names_of self.now }
        ensures fields { field_names (fields_of self.now) ≡ take (field_count (fields_of self.now)) result.now }
        ensures count { field_count (fields_of self.now) ≤ length result.now }
    {
        &self.names
    }

    /// The types, each beside its name, and of which one without a name is no field's.
    pub fn types(&self) -> &[DType]
        ensures fields { fields_view (names_of self.now) result.now ≡ fields_of self.now }
        ensures count { field_count (fields_of self.now) ≤ length result.now }
    {
        &self.types
    }

    /// The type of the first field of that name, if there is one.
    pub fn field(&self, name: &FieldName) -> Option<&DType>
        ensures { option_map (λ t. type_of t.now) result ≡ field_type name.now (fields_of self.now) }
    {
        field_of(&self.names, &self.types, name)
    }

    /// The fields but those of the given names, each the first of its name. Refuses with `OutOfMemory` (1),
    /// and with `NoSuchField` (5) and the first given name that no field has.
    pub fn without(&self, alloc: Global, names: &FieldNames) -> VortexResult<StructFields>
        ensures fields { ReturnsOrOom fields_of result (projected_without names.now (fields_of self.now)) }
        ensures names { IfOk result (λ s. names_of s ≡ names_without names.now (field_names (fields_of self.now))) }
    {
        match first_unknown(&self.names, &self.types, names) {
            Some(name) => Err(VortexError::NoSuchField(name.clone()?)),
            None => {
                let own = own_names(self.names.as_slice(), self.types.as_slice());
                let kept = names_without(alloc, own, names)?;
                self.project(alloc, &FieldNames::new(alloc, kept)?)
            }
        }
    }

    /// For each name the first field of that name. Refuses with `OutOfMemory` (1), and with `NoSuchField` (5)
    /// and the first name that no field has.
    pub fn project(&self, alloc: Global, names: &FieldNames) -> VortexResult<StructFields>
        ensures fields { ReturnsOrOom fields_of result (projected names.now (fields_of self.now)) }
        ensures names { IfOk result (λ s. names_of s ≡ names.now) }
    {
        let types = types_of(alloc, &self.names, &self.types, names.as_slice())?;
        Ok(struct_of(alloc, names.clone()?, types)?)
    }
}

// How many names have a type beside them.
pub(crate) fn field_count(names: &[FieldName], types: &[DType]) -> usize
    ensures count { result ≡ field_count (fields_view names.now types.now) }
    ensures names { result ≤ length names.now }
    ensures types { result ≤ length types.now }
{
    names.len().min(types.len())
}

// The names that have a type beside them.
fn own_names<'a>(names: &'a [FieldName], types: &[DType]) -> &'a [FieldName]
    ensures { result.now ≡ field_names (fields_view names.now types.now) }
{
    &names[..field_count(names, types)]
}

// The type of the first field of that name.
fn field_of<'a>(names: &FieldNames, types: &'a [DType], name: &FieldName) -> Option<&'a DType>
    ensures { option_map (λ t. type_of t.now) result ≡ field_type name.now (fields_view names.now types.now) }
{
    types.get(names.find(name)?)
}

// For each name the type of the first field of that name.
fn types_of(
    alloc: Global,
    names: &FieldNames,
    types: &[DType],
    wanted: &[FieldName],
) -> VortexResult<Vec<DType>>
    ensures { ReturnsOrOom (λ found. fields_view wanted.now found.items) result (projected wanted.now (fields_view names.now types.now)) }
{
    let mut found = Vec::new(alloc);
    for i in 0..wanted.len() {
        let name = &wanted[i];
        match field_of(names, types, name) {
            Some(t) => found.push(t.clone()?)?,
            None => return Err(VortexError::NoSuchField(name.clone()?)),
        }
    }
    Ok(found)
}

// The first of the names that no field has.
fn first_unknown<'a>(
    names: &FieldNames,
    types: &[DType],
    wanted: &'a FieldNames,
) -> Option<&'a FieldName>
    ensures { option_map (λ a. a.now) result ≡ first_unknown wanted.now (fields_view names.now types.now) }
{
    wanted.iter().find(|name| !is_field(names, types, name))
}

// Whether a field has that name.
fn is_field(names: &FieldNames, types: &[DType], name: &FieldName) -> bool
    ensures { result ≡ is_among (field_names (fields_view names.now types.now)) name.now }
{
    field_of(names, types, name).is_some()
}
