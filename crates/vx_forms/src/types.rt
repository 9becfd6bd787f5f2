// Types of structs.
ghost use Rattle.std.specs.Prelude.{Ok, map};
ghost use Rattle.vx_dtype.specs.Returns.{ReturnsOrOom};
ghost use Rattle.vx_value.specs.Fields.{fields_named};
ghost use Rattle.vx_value.specs.Types.{struct, ty};
ghost use Rattle.vx_value.specs.Views.{admits_null, type_of};
ghost use Rattle.vx_forms.specs.Named.{beside, named};

use crate::names::{IntoFieldName, unzip_named};
use std::alloc::Global;
use vx_dtype::{DType, FieldNames, Nullability, StructFields, VortexResult};

/// The struct type of these fields, as `[("x", I32.into()), ("y", DType::Bool(Nullable))]`, in their
/// order. A name may be repeated. Refuses with `OutOfMemory` (1) alone.
pub fn struct_type<N: IntoFieldName, const K: usize>(
    alloc: Global,
    fields: [(N, DType); K],
    nullability: Nullability,
) -> VortexResult<DType>
    ensures { ReturnsOrOom type_of result (Ok (ty (struct (fields_named (named N.name fields) (map type_of (beside fields)))) (admits_null nullability))) }
{
    let (names, types) = unzip_named(alloc, Vec::from_array(alloc, fields)?)?;
    let names = FieldNames::new(alloc, names)?;
    let fields = StructFields::new(alloc, names, types)?;
    Ok(DType::Struct(fields, nullability))
}
