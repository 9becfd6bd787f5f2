// Floating-point numbers as the places that they have in their order.
ghost use Rattle.std.specs.Prelude.{◌≡◌, ◌<◌, IfOk, IfSome, get_or, length, map, pos};
ghost use Rattle.vx_dtype.specs.declared.float_type.FloatType.TheVariants as formats;
ghost use Rattle.vx_floats.specs.Floats.{total_key};
ghost use Rattle.vx_value.specs.Views.{value_of};
ghost use Rattle.vx_array.specs.Kinds.{float_of, floats_in, format_in, numbers_in};
ghost use Rattle.vx_array.specs.Rows.{lanes_rows};
ghost use Rattle.vx_array_kernels.specs.Keys.{AreKeys, IsReal, float_key, key_row};

use std::alloc::{AllocError, Global};
use std::num::{
    f32_from_bits_with_nan, f32_to_bits_with_nan, f64_from_bits_with_nan, f64_to_bits_with_nan,
};
use std::sync::Arc;
use vx_array::{Floats, Lanes, Numbers, Part};
use vx_array_loops::tabulated;
use vx_dtype::FloatType;
use vx_floats::Float;
use vx_value::Value;

/// The places of the rows in the total order of floating-point numbers of the format, as numbers without a
/// sign. There is an answer for floating-point numbers of the format in a buffer, and for one of them or null
/// in all rows.
pub fn keys_of(
    alloc: Global,
    float_type: FloatType,
    lanes: &Lanes,
) -> Result<Option<Lanes>, AllocError>
    ensures { IfOk result (λ found. IfSome found (λ keys. AreKeys float_type (lanes_rows lanes.now) (lanes_rows keys))) }
{
    match lanes {
        Lanes::Floats(floats, validity) => match float_keys(alloc, float_type, floats)? {
            Some(keys) => Ok(Some(Lanes::Numbers(keys, validity.clone()?))),
            None => Ok(None),
        },
        Lanes::Same(value, count) => match value_key(float_type, value.as_ref()) {
            Some(key) => Ok(Some(Lanes::Same(Arc::new(alloc, key)?, *count))),
            None => Ok(None),
        },
        _ => Ok(None),
    }
}

// The places of floating-point numbers, if they are of the format.
fn float_keys(
    alloc: Global,
    float_type: FloatType,
    floats: &Floats,
) -> Result<Option<Numbers>, AllocError>
    ensures format { IfOk result (λ found. IfSome found (λ _. format_in floats.now ≡ float_type)) }
    ensures keys { IfOk result (λ found. IfSome found (λ keys. numbers_in keys ≡ map (λ x. pos (float_key x)) (floats_in floats.now))) }
{
    match (float_type, floats) {
        (FloatType::F32, Floats::F32(bits)) => {
            let keys = keys_in_32(alloc, bits.as_slice())?;
            Ok(Some(Numbers::U32(Part::new(alloc, keys)?)))
        }
        (FloatType::F64, Floats::F64(bits)) => {
            let keys = keys_in_64(alloc, bits.as_slice())?;
            Ok(Some(Numbers::U64(Part::new(alloc, keys)?)))
        }
        _ => Ok(None),
    }
}

// The places of the numbers with these bits.
fn keys_in_32(alloc: Global, bits: &[u32]) -> Result<Vec<u32>, AllocError>
    ensures { IfOk result (λ keys. keys.items ≡ map (λ b. float_key (float_of formats.F32 b)) bits.now) }
{
    tabulated(alloc, bits.len(), 0, |k| key_at_32(bits, k))
}

// The places of the numbers with these bits.
fn keys_in_64(alloc: Global, bits: &[u64]) -> Result<Vec<u64>, AllocError>
    ensures { IfOk result (λ keys. keys.items ≡ map (λ b. float_key (float_of formats.F64 b)) bits.now) }
{
    tabulated(alloc, bits.len(), 0, |k| key_at_64(bits, k))
}

// The place of the number with the bits at that index.
#[inline(always)]
fn key_at_32(bits: &[u32], k: usize) -> u32
    requires { k < length bits.now }
    ensures { result ≡ get_or (map (λ b. float_key (float_of formats.F32 b)) bits.now) k 0 }
{
    key_of_32(f32_to_bits_with_nan(f32_from_bits_with_nan(bits[k])))
}

// The place of the number with the bits at that index.
#[inline(always)]
fn key_at_64(bits: &[u64], k: usize) -> u64
    requires { k < length bits.now }
    ensures { result ≡ get_or (map (λ b. float_key (float_of formats.F64 b)) bits.now) k 0 }
{
    key_of_64(f64_to_bits_with_nan(f64_from_bits_with_nan(bits[k])))
}

// The place of the bits in the total order.
#[inline(always)]
fn key_of_32(bits: u32) -> u32
    ensures { result ≡ total_key 0x8000_0000 bits }
{
    if bits < 0x8000_0000 {
        bits + 0x8000_0000
    } else {
        0xffff_ffff - bits
    }
}

// The place of the bits in the total order.
#[inline(always)]
fn key_of_64(bits: u64) -> u64
    ensures { result ≡ total_key 0x8000_0000_0000_0000 bits }
{
    if bits < 0x8000_0000_0000_0000 {
        bits + 0x8000_0000_0000_0000
    } else {
        0xffff_ffff_ffff_ffff - bits
    }
}

// The place of a value, or null, if the value is null or a floating-point number of the format.
fn value_key(float_type: FloatType, value: &Value) -> Option<Value>
    ensures real { IfSome result (λ _. IsReal float_type (value_of value.now)) }
    ensures key { IfSome result (λ key. value_of key ≡ key_row (value_of value.now)) }
{
    match value {
        Value::Null => Some(Value::Null),
        Value::Float(float) => match (float_type, *float) {
            (FloatType::F32, Float::F32(bits)) => Some(Value::Int(key_of_32(bits) as i128)),
            (FloatType::F64, Float::F64(bits)) => Some(Value::Int(key_of_64(bits) as i128)),
            _ => None,
        },
        _ => None,
    }
}
