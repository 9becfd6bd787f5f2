// Fields of arrays of structs.
ghost use Rattle.std.specs.Prelude.{◌≡◌, ◌||◌, IfOk, IfSome, option_map};
ghost use Rattle.vx_value.specs.Fields.{field_type, field_value};
ghost use Rattle.vx_value.specs.Items.{datum_at};
ghost use Rattle.vx_value.specs.Returns.{ReturnsOrOom};
ghost use Rattle.vx_value.specs.Types.{Data, is_nullable, with_nullability};
ghost use Rattle.vx_value.specs.Views.{admits_null, fields_of, type_of};
ghost use Rattle.vx_array.specs.Items.{field_of};

use crate::Array;
use std::alloc::{AllocError, Global};
use vx_dtype::{DType, FieldName, Nullability, StructFields, VortexError, VortexResult};

impl Array {
    /// The first field of that name of each struct, null where the struct is. It shares the buffers of structs
    /// that have them, and copies items of boxed values. Refuses with `NotAStruct` (4) rows of
    /// another type, with `NoSuchField` (5) a name that no field has, and with `OutOfMemory` (1).
    pub fn field(&self, alloc: Global, name: &FieldName) -> VortexResult<Array>
        ensures { ReturnsOrOom (λ a. a) result (field_of name.now self.now.type self.now.rows) }
    {
        let DType::Struct(fields, nullability) = self.dtype() else {
            return Err(VortexError::NotAStruct);
        };
        let Some((place, inside)) = find(fields, name) else {
            return Err(VortexError::NoSuchField(name.clone()?));
        };
        let dtype = in_struct(inside, *nullability)?;
        let items = self.lanes().each_item(alloc, place)?;
        Ok(Array::new(dtype, items))
    }
}

// The first field of that name: where its values stand in a struct, and their type.
fn find<'a>(fields: &'a StructFields, name: &FieldName) -> Option<(usize, &'a DType)>
    ensures field { option_map (λ found. type_of found.1.now) result ≡ field_type name.now (fields_of fields.now) }
    ensures place { IfSome result (λ found. (vs : Data) → field_value name.now (fields_of fields.now) vs ≡ datum_at found.0 vs) }
{
    let place = fields.names().find(name)?;
    let inside = fields.types().get(place)?;
    Some((place, inside))
}

// A field's type, nullable also where its struct is.
fn in_struct(inside: &DType, nullability: Nullability) -> Result<DType, AllocError>
    ensures { IfOk result (λ t. type_of t ≡ with_nullability (is_nullable (type_of inside.now) || admits_null nullability) (type_of inside.now)) }
{
    let nullable = inside.is_nullable() || nullability.admits_null();
    Ok(inside.clone()?.with_nullability(Nullability::of(nullable)))
}
