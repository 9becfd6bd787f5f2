// A clone stands for the same type, and shares what its source points to.
ghost use Rattle.std.specs.Prelude.{◌≡◌};
ghost use Rattle.vx_dtype.specs.Views.{type_of, SameFields};

use crate::{DType, StructFields};
use std::alloc::AllocError;

impl Clone for DType {
    ghost is_clone = { λ a copy. type_of copy ≡ type_of a };

    fn clone(&self) -> Result<DType, AllocError> {
        match self {
            DType::Bool(n) => Ok(DType::Bool(*n)),
            DType::Primitive(p, n) => Ok(DType::Primitive(*p, *n)),
            DType::Float(p, n) => Ok(DType::Float(*p, *n)),
            DType::Decimal(decimal, n) => Ok(DType::Decimal(*decimal, *n)),
            DType::Date(n) => Ok(DType::Date(*n)),
            DType::Timestamp(timestamp, n) => Ok(DType::Timestamp(timestamp.clone()?, *n)),
            DType::Utf8(n) => Ok(DType::Utf8(*n)),
            DType::Binary(n) => Ok(DType::Binary(*n)),
            DType::List(t, n) => Ok(DType::List(t.clone()?, *n)),
            DType::FixedSizeList(t, size, n) => Ok(DType::FixedSizeList(t.clone()?, *size, *n)),
            DType::Struct(fields, n) => Ok(DType::Struct(fields.clone()?, *n)),
        }
    }
}

impl Clone for StructFields {
    ghost is_clone = { SameFields };

    fn clone(&self) -> Result<StructFields, AllocError> {
        Ok(StructFields {
            names: self.names.clone()?,
            types: self.types.clone()?,
        })
    }
}
