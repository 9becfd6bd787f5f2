// Columns into buffers.
ghost use Rattle.std.specs.Prelude.{◌≡◌, ◌∷◌, IfOk, IfSome, [], length, true};
ghost use Rattle.vx_array.specs.Kinds.{floats_in, numbers_in};
ghost use Rattle.vx_array.specs.Shown.{shown_count};
ghost use Rattle.vx_value.specs.Types.{shape_of};
ghost use Rattle.vx_value.specs.Views.{type_of};
ghost use Rattle.vx_data_buffers.specs.Laid.{AreBuffersOf, HaveFloats, HaveTruths, HaveValues, lists_in};

use crate::LayoutError;
use crate::floats::bits_type;
use crate::packed::{packed, validity_bytes};
use crate::read_back::rows_laid;
use crate::spelled::number_bytes;
use std::alloc::{AllocError, Global};
use vx_array::{Array, BitPart, Floats, Lanes, Numbers, Validity};
use vx_array_build::lane_type;
use vx_dtype::DType;

/// Buffers of the array's rows, laid out and in the order in which [`array_of`](crate::array_of) reads them:
/// what this reads of them is the array. Truth values, whole and floating-point numbers, days and instants are
/// written at once, from where they lie. Of other types rows are written one by one.
///
/// Refuses with `OutOfMemory`, and with `TooLong` where texts, bytes or items take more than offsets of 32
/// bits can say.
pub fn buffers_of(alloc: Global, array: &Array) -> Result<Vec<Vec<u8>>, LayoutError>
    ensures { IfOk result (λ buffers. AreBuffersOf array.now (lists_in buffers.items)) }
{
    match laid_at_once(alloc, array)? {
        Some(buffers) => Ok(buffers),
        None => rows_laid(alloc, array),
    }
}

// The same, where all is written at once.
fn laid_at_once(alloc: Global, array: &Array) -> Result<Option<Vec<Vec<u8>>>, AllocError>
    ensures { IfOk result (λ found. IfSome found (λ buffers. AreBuffersOf array.now (lists_in buffers.items))) }
{
    match array.lanes() {
        Lanes::Bools(bits, validity) if is_whole(validity, bits.len()) => match array.dtype() {
            DType::Bool(_) => Ok(Some(truths_laid(alloc, bits, validity)?)),
            _ => Ok(None),
        },
        Lanes::Numbers(numbers, validity) if is_whole(validity, numbers.len()) => {
            numbers_laid(alloc, array.dtype(), numbers, validity)
        }
        Lanes::Floats(floats, validity) if is_whole(validity, floats.len()) => {
            floats_laid(alloc, array.dtype(), floats, validity)
        }
        _ => Ok(None),
    }
}

// Whether the validity says of all of so many values whether they are valid.
fn is_whole(validity: &Validity, values: usize) -> bool
    ensures { result ≡ true → shown_count validity.now values ≡ values }
{
    validity.count(values) == values
}

// The two buffers of truth values.
fn truths_laid(
    alloc: Global,
    bits: &BitPart,
    validity: &Validity,
) -> Result<Vec<Vec<u8>>, AllocError>
    requires { shown_count validity.now (length bits.now) ≡ length bits.now }
    ensures { IfOk result (λ buffers. HaveTruths bits.now validity.now (lists_in buffers.items)) }
{
    let valid = validity_bytes(alloc, validity, bits.len())?;
    let values = packed(alloc, &bits.to_bits(alloc)?)?;
    two(alloc, valid, values)
}

// The two buffers of values of the type, which lie there as numbers. None where they are held in the width of
// another type.
fn numbers_laid(
    alloc: Global,
    dtype: &DType,
    numbers: &Numbers,
    validity: &Validity,
) -> Result<Option<Vec<Vec<u8>>>, AllocError>
    requires { shown_count validity.now (length (numbers_in numbers.now)) ≡ length (numbers_in numbers.now) }
    ensures { IfOk result (λ found. IfSome found (λ buffers. HaveValues (shape_of (type_of dtype.now)) (numbers_in numbers.now) validity.now (lists_in buffers.items))) }
{
    let Some(ptype) = lane_type(dtype) else {
        return Ok(None);
    };
    let Some(values) = number_bytes(alloc, ptype, numbers)? else {
        return Ok(None);
    };
    let valid = validity_bytes(alloc, validity, numbers.len())?;
    Ok(Some(two(alloc, valid, values)?))
}

// The two buffers of floating-point numbers of the type, with the bits that they have. None where they are of
// another format.
fn floats_laid(
    alloc: Global,
    dtype: &DType,
    floats: &Floats,
    validity: &Validity,
) -> Result<Option<Vec<Vec<u8>>>, AllocError>
    requires { shown_count validity.now (length (floats_in floats.now)) ≡ length (floats_in floats.now) }
    ensures { IfOk result (λ found. IfSome found (λ buffers. HaveFloats (shape_of (type_of dtype.now)) floats.now validity.now (lists_in buffers.items))) }
{
    let DType::Float(float_type, _) = dtype else {
        return Ok(None);
    };
    let Some(bits) = floats.to_bits(*float_type)? else {
        return Ok(None);
    };
    let Some(spelled) = number_bytes(alloc, bits_type(*float_type), &bits)? else {
        return Ok(None);
    };
    let valid = validity_bytes(alloc, validity, floats.len())?;
    Ok(Some(two(alloc, valid, spelled)?))
}

// A list of the two.
fn two(alloc: Global, first: Vec<u8>, second: Vec<u8>) -> Result<Vec<Vec<u8>>, AllocError>
    ensures { IfOk result (λ buffers. lists_in buffers.items ≡ first.items ∷ second.items ∷ []) }
{
    let mut buffers = Vec::with_capacity(alloc, 2)?;
    buffers.push(first)?;
    buffers.push(second)?;
    Ok(buffers)
}
