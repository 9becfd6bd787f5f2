// Floating-point numbers of Rust's types.
ghost use Rattle.std.specs.Prelude.{false, to_bits};
ghost use Rattle.std.specs.Float.{binary32, binary64};
ghost use Rattle.vx_dtype.specs.declared.float_type.FloatType.TheVariants as FloatType;
ghost use Rattle.vx_floats.specs.declared.float.Float.TheVariants as Float;
ghost use Rattle.vx_floats.specs.Floats.{canonical};
ghost use Rattle.vx_value.specs.Types.{ty, atomic, floating, float};

use crate::native::Native;
use std::alloc::Global;
use std::num::{f32_to_bits_with_nan, f64_to_bits_with_nan};
use vx_dtype::{DType, FloatType, Nullability, VortexResult};
use vx_floats::Float;
use vx_value::Value;

impl Native for f32 {
    ghost logical_type = { ty (atomic (floating FloatType.F32)) false };

    ghost datum = { λ x. float (canonical (Float.F32 (to_bits binary32 x))) };

    fn dtype() -> DType {
        DType::Float(FloatType::F32, Nullability::NonNullable)
    }

    fn into_value(self, _alloc: Global) -> VortexResult<Value> {
        let bits = f32_to_bits_with_nan(self);
        Ok(Value::Float(Float::from_f32_bits(bits)))
    }
}

impl Native for f64 {
    ghost logical_type = { ty (atomic (floating FloatType.F64)) false };

    ghost datum = { λ x. float (canonical (Float.F64 (to_bits binary64 x))) };

    fn dtype() -> DType {
        DType::Float(FloatType::F64, Nullability::NonNullable)
    }

    fn into_value(self, _alloc: Global) -> VortexResult<Value> {
        let bits = f64_to_bits_with_nan(self);
        Ok(Value::Float(Float::from_f64_bits(bits)))
    }
}
