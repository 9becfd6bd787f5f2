// Floating-point numbers of a buffer's bytes, all at once.
ghost use Rattle.std.specs.Prelude.{◌≡◌, IfOk, IfSome};
ghost use Rattle.vx_data_buffers.specs.Arrays.{HasFloats};
ghost use Rattle.vx_data_buffers.specs.Bytes.{bits_type};

use crate::numbers::read;
use std::alloc::Global;
use vx_array::{Array, Validity};
use vx_array_build::{FloatBits, Native, floats_by_bits};
use vx_dtype::{FloatType, PType, VortexResult};

// The array of so many floating-point numbers of the format. None where the bytes have fewer.
pub(crate) fn floats_in(
    alloc: Global,
    bytes: &[u8],
    float_type: FloatType,
    rows: usize,
    validity: Option<Validity>,
) -> VortexResult<Option<Array>>
    ensures { IfOk result (λ found. IfSome found (HasFloats bytes.now float_type (bits_type float_type) rows validity)) }
{
    match float_type {
        FloatType::F32 => floats_of::<u32>(alloc, bytes, rows, validity),
        FloatType::F64 => floats_of::<u64>(alloc, bytes, rows, validity),
    }
}

// The same of bits of one width.
fn floats_of<T: FloatBits>(
    alloc: Global,
    bytes: &[u8],
    rows: usize,
    validity: Option<Validity>,
) -> VortexResult<Option<Array>>
    ensures { IfOk result (λ found. IfSome found (HasFloats bytes.now T.format T.kind rows validity)) }
{
    match read::<T>(alloc, bytes, rows)? {
        Some(bits) => Ok(Some(floats_by_bits(alloc, bits, validity)?)),
        None => Ok(None),
    }
}

// The type of the numbers that have the bits of the format's.
pub(crate) fn bits_type(float_type: FloatType) -> PType
    ensures { result ≡ bits_type float_type }
{
    match float_type {
        FloatType::F32 => PType::U32,
        FloatType::F64 => PType::U64,
    }
}
