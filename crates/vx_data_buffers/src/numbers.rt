// Numbers of a buffer's bytes, all at once.
ghost use Rattle.std.specs.Prelude.{◌≡◌, IfOk, IfSome, Some, map};
ghost use Rattle.vx_value.specs.Types.{shape_of};
ghost use Rattle.vx_value.specs.Views.{type_of};
ghost use Rattle.vx_array_build.specs.Lanes.{lane_of};
ghost use Rattle.vx_data_buffers.specs.Arrays.{AreNumbers, HasNumbers};
ghost use Rattle.vx_data_buffers.specs.Bytes.{number_at};

use crate::bytes::number_at;
use std::alloc::{AllocError, Global};
use vx_array::{Array, Validity};
use vx_array_build::{Native, in_lanes, lane_type};
use vx_dtype::{DType, PType, VortexResult};

// The array of so many values of the type, which lie in the bytes as numbers. None where there are fewer, or
// the type's values don't.
pub(crate) fn numbers_in(
    alloc: Global,
    bytes: &[u8],
    dtype: &DType,
    rows: usize,
    validity: Option<Validity>,
) -> VortexResult<Option<Array>>
    ensures { IfOk result (λ found. IfSome found (HasNumbers bytes.now (shape_of (type_of dtype.now)) rows validity)) }
{
    match lane_type(dtype) {
        Some(PType::U8) => natives::<u8>(alloc, bytes, dtype, rows, validity),
        Some(PType::U16) => natives::<u16>(alloc, bytes, dtype, rows, validity),
        Some(PType::U32) => natives::<u32>(alloc, bytes, dtype, rows, validity),
        Some(PType::U64) => natives::<u64>(alloc, bytes, dtype, rows, validity),
        Some(PType::I8) => natives::<i8>(alloc, bytes, dtype, rows, validity),
        Some(PType::I16) => natives::<i16>(alloc, bytes, dtype, rows, validity),
        Some(PType::I32) => natives::<i32>(alloc, bytes, dtype, rows, validity),
        Some(PType::I64) => natives::<i64>(alloc, bytes, dtype, rows, validity),
        None => Ok(None),
    }
}

// The same of numbers of Rust's.
fn natives<T: Native>(
    alloc: Global,
    bytes: &[u8],
    dtype: &DType,
    rows: usize,
    validity: Option<Validity>,
) -> VortexResult<Option<Array>>
    requires { lane_of (shape_of (type_of dtype.now)) ≡ Some T.kind }
    ensures { IfOk result (λ found. IfSome found (HasNumbers bytes.now (shape_of (type_of dtype.now)) rows validity)) }
{
    match read::<T>(alloc, bytes, rows)? {
        Some(numbers) => Ok(Some(in_lanes(alloc, dtype.clone()?, numbers, validity)?)),
        None => Ok(None),
    }
}

// So many numbers, where they are there.
pub(crate) fn read<T: Native>(
    alloc: Global,
    bytes: &[u8],
    rows: usize,
) -> Result<Option<Vec<T>>, AllocError>
    ensures { IfOk result (λ found. IfSome found (λ ns. AreNumbers T.kind bytes.now rows (map T.number ns.items))) }
{
    // (no memory is asked for where the buffer ends early)
    if rows > 0 && number_at(bytes, T::ptype(), rows - 1).is_none() {
        return Ok(None);
    }
    let mut numbers = Vec::with_capacity(alloc, rows)?;
    for i in 0..rows {
        match native_at::<T>(bytes, i) {
            Some(number) => numbers.push(number)?,
            None => return Ok(None),
        }
    }
    Ok(Some(numbers))
}

// Number i, if it is there.
#[inline]
fn native_at<T: Native>(bytes: &[u8], i: usize) -> Option<T>
    ensures { IfSome result (λ x. number_at T.kind bytes.now i ≡ Some (T.number x)) }
{
    T::narrowed(number_at(bytes, T::ptype(), i)?)
}
