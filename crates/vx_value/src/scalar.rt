// A value with its type.
ghost use Rattle.std.specs.Prelude.{◌≡◌, Ok, IfOk, map, IsTrue, pos};
ghost use Rattle.std.specs.Cmp.{partial_equiv_from_equiv};
ghost use Rattle.vx_value.specs.Returns.{ReturnsOrOom, Returns};
ghost use Rattle.vx_value.specs.Columns.{Constant, struct_value, constant, constant_or_misfit, truth_constant, number_constant, float_constant, text_constant, octets_constant};
ghost use Rattle.vx_value.specs.Columns.{equal_constant, constant_fed};
ghost use Rattle.vx_value.specs.Deciding.{equal_constant_equiv, constant_alike};
ghost use Rattle.vx_value.specs.Types.{is_nullable, null, is_null_datum};
ghost use Rattle.vx_value.specs.Fits.{fits_ptype, Fits};
ghost use Rattle.vx_value.specs.Views.{type_of, value_of};
ghost use Rattle.vx_floats.specs.Floats.{canonical};
ghost use Rattle.vx_dtype.specs.declared.dtype.PType.TheVariants.{U8, U16, U32, U64, I8, I16, I32, I64};

use crate::Value;
use std::alloc::{AllocError, Global};
use std::hash::{Hash, Hasher};
use std::marker::Model;
use vx_dtype::{DType, Nullability, PType, VortexError, VortexResult};
use vx_floats::Float;

/// A value beside its type, of which it is one; clones share what the type points to.
#[derive(Debug)]
pub struct Scalar {
    dtype: DType,
    value: Value,
}

impl Drop for Scalar {
    fn drop(self) {
        let Scalar { dtype, value } = self;
        drop(dtype);
        drop(value);
    }
}

impl Model for Scalar {
    ghost use Rattle.vx_value.specs.Columns.{Constant, constant_code, constant};
    ghost use Rattle.vx_value.specs.Fits.{Fits};
    ghost use Rattle.vx_value.specs.Views.{type_of, value_of};

    ghost Value = { Constant };

    ghost coded = { constant_code };

    ghost view = { λ s. constant (type_of s.dtype) (value_of s.value) };

    ghost invariant = { λ s. Fits (value_of s.value) (type_of s.dtype) };
}

impl Scalar {
    /// The value of that type. Refuses with `RowMisfit` (18) and row 0 where it is none of the type.
    pub fn try_new(dtype: DType, value: Value) -> VortexResult<Scalar>
        ensures { Returns (λ s. s) result (constant_or_misfit (type_of dtype) (value_of value)) }
    {
        if value.fits(&dtype) {
            Ok(Scalar { dtype, value })
        } else {
            Err(VortexError::RowMisfit { row: 0 })
        }
    }

    /// The null of that type. Asks a nullable type.
    pub fn null(dtype: DType) -> Scalar
        requires { IsTrue (is_nullable (type_of dtype)) }
        ensures { result ≡ constant (type_of dtype) null }
    {
        Scalar {
            dtype,
            value: Value::Null,
        }
    }

    /// The truth value, of a type without null.
    pub fn from_bool(b: bool) -> Scalar
        ensures { result ≡ truth_constant b }
    {
        Scalar {
            dtype: DType::Bool(Nullability::NonNullable),
            value: Value::Bool(b),
        }
    }

    /// The number, of the type `U8` without null.
    pub fn from_u8(n: u8) -> Scalar
        ensures { result ≡ number_constant U8 (pos n) }
    {
        number(PType::U8, i128::from(n))
    }

    /// The number, of the type `U16` without null.
    pub fn from_u16(n: u16) -> Scalar
        ensures { result ≡ number_constant U16 (pos n) }
    {
        number(PType::U16, i128::from(n))
    }

    /// The number, of the type `U32` without null.
    pub fn from_u32(n: u32) -> Scalar
        ensures { result ≡ number_constant U32 (pos n) }
    {
        number(PType::U32, i128::from(n))
    }

    /// The number, of the type `U64` without null.
    pub fn from_u64(n: u64) -> Scalar
        ensures { result ≡ number_constant U64 (pos n) }
    {
        number(PType::U64, i128::from(n))
    }

    /// The number, of the type `I8` without null.
    pub fn from_i8(n: i8) -> Scalar
        ensures { result ≡ number_constant I8 n }
    {
        number(PType::I8, i128::from(n))
    }

    /// The number, of the type `I16` without null.
    pub fn from_i16(n: i16) -> Scalar
        ensures { result ≡ number_constant I16 n }
    {
        number(PType::I16, i128::from(n))
    }

    /// The number, of the type `I32` without null.
    pub fn from_i32(n: i32) -> Scalar
        ensures { result ≡ number_constant I32 n }
    {
        number(PType::I32, i128::from(n))
    }

    /// The number, of the type `I64` without null.
    pub fn from_i64(n: i64) -> Scalar
        ensures { result ≡ number_constant I64 n }
    {
        number(PType::I64, i128::from(n))
    }

    /// The floating-point number, each NaN as the quiet one, of its format's type without null.
    pub fn from_float(x: Float) -> Scalar
        ensures { result ≡ float_constant (canonical x) }
    {
        let x = x.canonical();
        Scalar {
            dtype: DType::Float(x.float_type(), Nullability::NonNullable),
            value: Value::Float(x),
        }
    }

    /// The text, of a type without null. Refuses with `OutOfMemory` (1) alone.
    pub fn utf8(alloc: Global, text: &str) -> VortexResult<Scalar>
        ensures { ReturnsOrOom (λ s. s) result (Ok (text_constant text.now)) }
    {
        Ok(Scalar {
            dtype: DType::Utf8(Nullability::NonNullable),
            value: Value::Utf8(String::from_str(alloc, text)?),
        })
    }

    /// The bytes, of a type without null. Refuses with `OutOfMemory` (1) alone.
    pub fn binary(alloc: Global, bytes: &[u8]) -> VortexResult<Scalar>
        ensures { ReturnsOrOom (λ s. s) result (Ok (octets_constant bytes.now)) }
    {
        Ok(Scalar {
            dtype: DType::Binary(Nullability::NonNullable),
            value: Value::Binary(bytes.to_vec(alloc)?),
        })
    }

    /// The struct of these values, one for each field. Asks a struct type and, for each of its
    /// fields in order, a scalar whose value is of the field's type. Refuses with `OutOfMemory` (1)
    /// alone.
    pub fn struct_(alloc: Global, dtype: DType, fields: Vec<Scalar>) -> VortexResult<Scalar>
        requires { Fits (struct_value fields.items) (type_of dtype) }
        ensures { ReturnsOrOom (λ s. s) result (Ok (constant (type_of dtype) (struct_value fields.items))) }
    {
        let values = values_of(alloc, fields)?;
        Ok(Scalar {
            dtype,
            value: Value::Struct(values),
        })
    }

    // The value alone.
    fn into_value(self) -> Value
        ensures { value_of result ≡ self.value }
    {
        let Scalar { dtype: _, value } = self;
        value
    }

    /// The type.
    pub fn dtype(&self) -> &DType
        ensures { type_of result.now ≡ self.now.type }
    {
        &self.dtype
    }

    /// The value, which is one of the type.
    pub fn value(&self) -> &Value
        ensures value { value_of result.now ≡ self.now.value }
        ensures fits { Fits self.now.value self.now.type }
    {
        &self.value
    }

    /// Whether the value is null.
    pub fn is_null(&self) -> bool
        ensures { result ≡ is_null_datum self.now.value }
    {
        self.value.is_null()
    }
}

// The number of that type, without null.
fn number(p: PType, n: i128) -> Scalar
    requires { IsTrue (fits_ptype n p) }
    ensures { result ≡ number_constant p n }
{
    Scalar {
        dtype: DType::Primitive(p, Nullability::NonNullable),
        value: Value::Int(n),
    }
}

// The values of the scalars, moved out of them.
fn values_of(alloc: Global, scalars: Vec<Scalar>) -> Result<Vec<Value>, AllocError>
    ensures { IfOk result (λ values. map value_of values.items ≡ map (λ (c : Constant). c.value) scalars.items) }
{
    let mut values = Vec::with_capacity(alloc, scalars.len())?;
    for scalar in scalars {
        values.push(scalar.into_value())?;
    }
    Ok(values)
}

impl Clone for Scalar {
    ghost is_clone = { λ s copy. copy ≡ s };

    fn clone(&self) -> Result<Scalar, AllocError> {
        Ok(Scalar {
            dtype: self.dtype.clone()?,
            value: self.value.clone()?,
        })
    }
}

impl PartialEq for Scalar {
    ghost eq = { equal_constant };

    ghost laws = { partial_equiv_from_equiv equal_constant_equiv };

    fn eq(&self, other: &Scalar) -> bool {
        self.dtype == other.dtype && self.value == other.value
    }
}

impl Eq for Scalar {
    ghost laws = { equal_constant_equiv };
}

impl Hash for Scalar {
    ghost hash_input = { constant_fed };

    ghost respects_eq = { constant_alike.fed };

    fn hash<H: Hasher>(&self, state: &mut H) {
        self.dtype.hash(state);
        self.value.hash(state);
    }
}
