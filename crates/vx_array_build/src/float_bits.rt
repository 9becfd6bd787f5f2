// Floating-point numbers as whole numbers that have their bits.
ghost use Rattle.std.specs.Prelude.{◌≡◌, IfOk, IfSome, map, pos};
ghost use Rattle.vx_dtype.specs.declared.float_type.FloatType.{FloatType as Format};
ghost use Rattle.vx_dtype.specs.declared.float_type.FloatType.TheVariants as formats;
ghost use Rattle.vx_value.specs.Views.{value_of};
ghost use Rattle.vx_array.specs.Kinds.{bits_in, float_of, format_in};
ghost use Rattle.vx_array.specs.Rows.{lanes_rows};
ghost use Rattle.vx_array_build.specs.FloatBits.{float_row};

use crate::native::Native;
use std::alloc::{AllocError, Global};
use std::sync::Arc;
use vx_array::{Floats, Lanes, Part};
use vx_array_loops::Number;
use vx_dtype::FloatType;
use vx_floats::Float;
use vx_value::Value;

/// A whole number of Rust's that has the bits of floating-point numbers of one format.
pub trait FloatBits: Native {
    /// The format.
    ghost format: { Format };

    /// The format.
    fn float_type() -> FloatType
        ensures { result ≡ format };

    /// The floating-point numbers of these bits.
    fn floats(bits: Part<Self>) -> Floats
        ensures format { format_in result ≡ format }
        ensures bits { map (λ b. pos b) (bits_in result) ≡ map Self.number bits };
}

impl FloatBits for u32 {
    ghost format = { formats.F32 };

    fn float_type() -> FloatType {
        FloatType::F32
    }

    fn floats(bits: Part<u32>) -> Floats
        ensures format { format_in result ≡ formats.F32 }
        ensures bits { map (λ b. pos b) (bits_in result) ≡ map (λ n. pos n) bits }
    {
        Floats::F32(bits)
    }
}

impl FloatBits for u64 {
    ghost format = { formats.F64 };

    fn float_type() -> FloatType {
        FloatType::F64
    }

    fn floats(bits: Part<u64>) -> Floats
        ensures format { format_in result ≡ formats.F64 }
        ensures bits { map (λ b. pos b) (bits_in result) ≡ map (λ n. pos n) bits }
    {
        Floats::F64(bits)
    }
}

/// The lanes of the numbers that have the bits of these rows, in the same buffer. There is an answer for
/// floating-point numbers of the format in a buffer, and for one of them or null in all rows.
pub fn bits_of(
    alloc: Global,
    float_type: FloatType,
    lanes: &Lanes,
) -> Result<Option<Lanes>, AllocError>
    ensures { IfOk result (λ found. IfSome found (λ bits. map (float_row float_type) (lanes_rows bits) ≡ lanes_rows lanes.now)) }
{
    match lanes {
        Lanes::Floats(floats, validity) => match floats.to_bits(float_type)? {
            Some(bits) => Ok(Some(Lanes::Numbers(bits, validity.clone()?))),
            None => Ok(None),
        },
        Lanes::Same(value, count) => match bits_value(float_type, value.as_ref()) {
            Some(bits) => Ok(Some(Lanes::Same(Arc::new(alloc, bits)?, *count))),
            None => Ok(None),
        },
        _ => Ok(None),
    }
}

/// The lanes of the floating-point numbers of the format with these bits, in the same buffer. There is an
/// answer where the bits are numbers in a buffer of the format's width.
pub fn floats_of(float_type: FloatType, bits: &Lanes) -> Result<Option<Lanes>, AllocError>
    ensures { IfOk result (λ found. IfSome found (λ lanes. lanes_rows lanes ≡ map (float_row float_type) (lanes_rows bits.now))) }
{
    match bits {
        Lanes::Numbers(bits, validity) => match Floats::from_bits(float_type, bits)? {
            Some(floats) => Ok(Some(Lanes::Floats(floats, validity.clone()?))),
            None => Ok(None),
        },
        _ => Ok(None),
    }
}

// The number that has the bits of the value, or null, if the value is null or one of the format.
fn bits_value(float_type: FloatType, value: &Value) -> Option<Value>
    ensures { IfSome result (λ bits. float_row float_type (value_of bits) ≡ value_of value.now) }
{
    match value {
        Value::Null => Some(Value::Null),
        Value::Float(float) => match float_bits(float_type, *float) {
            Some(bits) => Some(Value::Int(bits as i128)),
            None => None,
        },
        _ => None,
    }
}

/// The bits of a floating-point number, if it is one of the format, and no NaN but the quiet one.
pub(crate) fn float_bits(float_type: FloatType, float: Float) -> Option<u64>
    ensures { IfSome result (λ bits. float_of float_type bits ≡ float) }
{
    if !float.is_canonical() {
        return None;
    }
    match (float_type, float) {
        (FloatType::F32, Float::F32(bits)) => Some(bits as u64),
        (FloatType::F64, Float::F64(bits)) => Some(bits),
        _ => None,
    }
}
