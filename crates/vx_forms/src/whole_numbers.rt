// Whole numbers of Rust's types.
ghost use Rattle.std.specs.Prelude.{pos, false};
ghost use Rattle.vx_dtype.specs.declared.dtype.PType.TheVariants.{U8, U16, U32, U64, I8, I16, I32, I64};
ghost use Rattle.vx_value.specs.Types.{ty, atomic, number, int};

use crate::native::Native;
use std::alloc::Global;
use vx_dtype::{DType, Nullability, PType, VortexResult};
use vx_value::Value;

impl Native for u8 {
    ghost logical_type = { ty (atomic (number U8)) false };

    ghost datum = { λ n. int (pos n) };

    fn dtype() -> DType {
        DType::Primitive(PType::U8, Nullability::NonNullable)
    }

    fn into_value(self, _alloc: Global) -> VortexResult<Value> {
        Ok(Value::Int(i128::from(self)))
    }
}

impl Native for u16 {
    ghost logical_type = { ty (atomic (number U16)) false };

    ghost datum = { λ n. int (pos n) };

    fn dtype() -> DType {
        DType::Primitive(PType::U16, Nullability::NonNullable)
    }

    fn into_value(self, _alloc: Global) -> VortexResult<Value> {
        Ok(Value::Int(i128::from(self)))
    }
}

impl Native for u32 {
    ghost logical_type = { ty (atomic (number U32)) false };

    ghost datum = { λ n. int (pos n) };

    fn dtype() -> DType {
        DType::Primitive(PType::U32, Nullability::NonNullable)
    }

    fn into_value(self, _alloc: Global) -> VortexResult<Value> {
        Ok(Value::Int(i128::from(self)))
    }
}

impl Native for u64 {
    ghost logical_type = { ty (atomic (number U64)) false };

    ghost datum = { λ n. int (pos n) };

    fn dtype() -> DType {
        DType::Primitive(PType::U64, Nullability::NonNullable)
    }

    fn into_value(self, _alloc: Global) -> VortexResult<Value> {
        Ok(Value::Int(i128::from(self)))
    }
}

impl Native for i8 {
    ghost logical_type = { ty (atomic (number I8)) false };

    ghost datum = { λ n. int n };

    fn dtype() -> DType {
        DType::Primitive(PType::I8, Nullability::NonNullable)
    }

    fn into_value(self, _alloc: Global) -> VortexResult<Value> {
        Ok(Value::Int(i128::from(self)))
    }
}

impl Native for i16 {
    ghost logical_type = { ty (atomic (number I16)) false };

    ghost datum = { λ n. int n };

    fn dtype() -> DType {
        DType::Primitive(PType::I16, Nullability::NonNullable)
    }

    fn into_value(self, _alloc: Global) -> VortexResult<Value> {
        Ok(Value::Int(i128::from(self)))
    }
}

impl Native for i32 {
    ghost logical_type = { ty (atomic (number I32)) false };

    ghost datum = { λ n. int n };

    fn dtype() -> DType {
        DType::Primitive(PType::I32, Nullability::NonNullable)
    }

    fn into_value(self, _alloc: Global) -> VortexResult<Value> {
        Ok(Value::Int(i128::from(self)))
    }
}

impl Native for i64 {
    ghost logical_type = { ty (atomic (number I64)) false };

    ghost datum = { λ n. int n };

    fn dtype() -> DType {
        DType::Primitive(PType::I64, Nullability::NonNullable)
    }

    fn into_value(self, _alloc: Global) -> VortexResult<Value> {
        Ok(Value::Int(i128::from(self)))
    }
}
