// Bits and numbers of a buffer's bytes, where the buffer has them.
ghost use Rattle.std.specs.Prelude.{◌≡◌, ◌*◌, option_map};
ghost use Rattle.vx_data_buffers.specs.Bytes.{bit_of, float_at, number_at, part, units_at};
ghost use Rattle.vx_dtype.specs.declared.dtype.PType.TheVariants.{I32};

use vx_dtype::{FloatType, PType};
use vx_floats::Float;

// Bit i, the least significant of a byte first.
pub(crate) fn bit_of(bytes: &[u8], i: usize) -> Option<bool>
    ensures { result ≡ bit_of bytes.now i }
{
    let byte = bytes.get(i / 8)?;
    Some((*byte >> (i % 8)) % 2 == 1)
}

// So many bytes from there on.
pub(crate) fn part(bytes: &[u8], from: usize, size: usize) -> Option<&[u8]>
    ensures { option_map (λ b. b.now) result ≡ part bytes.now from size }
{
    let end = from.checked_add(size)?;
    bytes.get(from..end)
}

// Number i of so many bytes each, as these.
fn chunk_at<const N: usize>(bytes: &[u8], i: usize) -> Option<[u8; N]>
    ensures { result ≡ part bytes.now (i * N) N }
{
    let start = i.checked_mul(N)?;
    let chunk = bytes.get(start..)?.first_chunk::<N>()?;
    Some(*chunk)
}

// Offset i.
pub(crate) fn offset_at(bytes: &[u8], i: usize) -> Option<i32>
    ensures { result ≡ number_at I32 bytes.now i }
{
    Some(i32::from_le_bytes(chunk_at(bytes, i)?))
}

// Number i of the type.
pub(crate) fn number_at(bytes: &[u8], ptype: PType, i: usize) -> Option<i128>
    ensures { result ≡ number_at ptype bytes.now i }
{
    Some(match ptype {
        PType::U8 => u8::from_le_bytes(chunk_at(bytes, i)?) as i128,
        PType::U16 => u16::from_le_bytes(chunk_at(bytes, i)?) as i128,
        PType::U32 => u32::from_le_bytes(chunk_at(bytes, i)?) as i128,
        PType::U64 => u64::from_le_bytes(chunk_at(bytes, i)?) as i128,
        PType::I8 => i8::from_le_bytes(chunk_at(bytes, i)?) as i128,
        PType::I16 => i16::from_le_bytes(chunk_at(bytes, i)?) as i128,
        PType::I32 => offset_at(bytes, i)? as i128,
        PType::I64 => i64::from_le_bytes(chunk_at(bytes, i)?) as i128,
    })
}

// Floating-point number i of the format, each NaN as the quiet one.
pub(crate) fn float_at(bytes: &[u8], format: FloatType, i: usize) -> Option<Float>
    ensures { result ≡ float_at format bytes.now i }
{
    Some(match format {
        FloatType::F32 => Float::from_f32_bits(u32::from_le_bytes(chunk_at(bytes, i)?)),
        FloatType::F64 => Float::from_f64_bits(u64::from_le_bytes(chunk_at(bytes, i)?)),
    })
}

// The units of decimal i.
pub(crate) fn units_at(bytes: &[u8], i: usize) -> Option<i128>
    ensures { result ≡ units_at bytes.now i }
{
    Some(i128::from_le_bytes(chunk_at(bytes, i)?))
}
