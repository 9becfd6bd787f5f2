// What tests of expressions share.
ghost use Rattle.std.specs.Prelude.{Ok};
ghost use Rattle.vx_value.specs.Returns.{ReturnsOrOom};
ghost use Rattle.vx_value.specs.Views.{type_of};
ghost use Rattle.vx_tree.specs.Harness.{harness_type};

use std::alloc::Global;
use vx_dtype::{DType, FieldName, FieldNames, Nullability, PType, StructFields, VortexResult};

/// The struct type `{a=i32, col1=u16?, col2=u16?, bool1=bool, bool2=bool}`.
pub fn struct_dtype(alloc: Global) -> VortexResult<DType>
    ensures { ReturnsOrOom type_of result (Ok harness_type) }
{
    let names = vec![in alloc;
        FieldName::new(alloc, "a")?,
        FieldName::new(alloc, "col1")?,
        FieldName::new(alloc, "col2")?,
        FieldName::new(alloc, "bool1")?,
        FieldName::new(alloc, "bool2")?,
    ]?;
    let types = vec![in alloc;
        DType::Primitive(PType::I32, Nullability::NonNullable),
        DType::Primitive(PType::U16, Nullability::Nullable),
        DType::Primitive(PType::U16, Nullability::Nullable),
        DType::Bool(Nullability::NonNullable),
        DType::Bool(Nullability::NonNullable),
    ]?;
    let fields = StructFields::new(alloc, FieldNames::new(alloc, names)?, types)?;
    Ok(DType::Struct(fields, Nullability::NonNullable))
}
