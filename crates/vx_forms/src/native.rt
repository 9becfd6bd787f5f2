// Rust values that stand for values of a type.
ghost use Rattle.std.specs.Prelude.{◌≡◌, Ok, true, false};
ghost use Rattle.std.specs.Option.{option_map_or};
ghost use Rattle.vx_dtype.specs.Returns.{ReturnsOrOom};
ghost use Rattle.vx_value.specs.Fits.{Fits};
ghost use Rattle.vx_value.specs.Types.{LogicalType, ty, atomic, truth, text, octets, with_nullability, Datum, null, bool, utf8, bytes};
ghost use Rattle.vx_value.specs.Views.{type_of, value_of};

use std::alloc::Global;
use vx_dtype::{DType, Nullability, VortexResult};
use vx_value::Value;

/// A Rust value that stands for a value of one type: a truth value, a whole number, a floating-point
/// number, whose NaNs are one, a text, bytes, or an `Option` of one of them, whose None is null.
pub trait Native: Drop + Sized {
    /// The type of the values that these stand for.
    ghost logical_type: { LogicalType };

    /// The value that this stands for.
    ghost datum: { Self → Datum };

    /// The type of the values that these stand for.
    fn dtype() -> DType
        ensures { type_of result ≡ logical_type };

    /// The value that this stands for, which is one of that type. Refuses with `OutOfMemory` (1)
    /// alone.
    fn into_value(self, alloc: Global) -> VortexResult<Value>
        ensures value { ReturnsOrOom value_of result (Ok (datum self)) }
        ensures fits { Fits (datum self) logical_type };
}

impl Native for bool {
    ghost logical_type = { ty (atomic truth) false };

    ghost datum = { bool };

    fn dtype() -> DType {
        DType::Bool(Nullability::NonNullable)
    }

    fn into_value(self, _alloc: Global) -> VortexResult<Value> {
        Ok(Value::Bool(self))
    }
}

impl Native for &str {
    ghost logical_type = { ty (atomic text) false };

    ghost datum = { λ s. utf8 s.now };

    fn dtype() -> DType
        ensures { type_of result ≡ ty (atomic text) false }
    {
        DType::Utf8(Nullability::NonNullable)
    }

    fn into_value(self, alloc: Global) -> VortexResult<Value> {
        Ok(Value::Utf8(String::from_str(alloc, self)?))
    }
}

impl Native for &[u8] {
    ghost logical_type = { ty (atomic octets) false };

    ghost datum = { λ s. bytes s.now };

    fn dtype() -> DType
        ensures { type_of result ≡ ty (atomic octets) false }
    {
        DType::Binary(Nullability::NonNullable)
    }

    fn into_value(self, alloc: Global) -> VortexResult<Value> {
        Ok(Value::Binary(self.to_vec(alloc)?))
    }
}

impl<T: Native> Native for Option<T> {
    ghost logical_type = { with_nullability true T.logical_type };

    ghost datum = { λ o. option_map_or T.datum o null };

    fn dtype() -> DType {
        T::dtype().as_nullable()
    }

    fn into_value(self, alloc: Global) -> VortexResult<Value> {
        match self {
            Some(value) => value.into_value(alloc),
            None => Ok(Value::Null),
        }
    }
}
