// Arrays one after another.
ghost use Rattle.std.specs.Prelude.{◌≡◌, ◌++◌, IfOk, IfSome, IsErrOf, false, map};
ghost use Rattle.vx_dtype.specs.Returns.{ReturnsOrOom};
ghost use Rattle.vx_dtype.specs.declared.error.VortexError.TheVariants.{ScopeMismatch};
ghost use Rattle.vx_value.specs.StructColumns.{EachFit};
ghost use Rattle.vx_value.specs.Views.{type_of, value_of};
ghost use Rattle.vx_array.specs.Rows.{lanes_rows};
ghost use Rattle.vx_array_build.specs.Parts.{all_of_type, parts_joined, rows_of_parts};

use crate::columns::typed_lanes;
use crate::floats_builder::FloatsBuilder;
use crate::lane_types::lane_type;
use crate::numbers_builder::NumbersBuilder;
use crate::rows_builder::RowsBuilder;
use crate::same::same_rows;
use crate::truths_builder::TruthsBuilder;
use std::alloc::{AllocError, Global};
use vx_array::{Array, Lanes, value_at};
use vx_dtype::{DType, FloatType, PType, VortexError, VortexResult};
use vx_value::Value;

/// The rows of the parts, one part after another, in buffers for the type's kind; constants of one value
/// stay a constant. Refuses with `ScopeMismatch` (12) where some part has another type, before it takes any
/// memory, and with `OutOfMemory` (1). Reads each row once.
pub fn concat(alloc: Global, dtype: &DType, parts: &[Array]) -> VortexResult<Array>
    ensures rows { ReturnsOrOom (λ a. a) result (parts_joined (type_of dtype.now) parts.now) }
    ensures mismatch { all_of_type (type_of dtype.now) parts.now ≡ false → IsErrOf result ScopeMismatch }
{
    if !all_of_type(dtype, parts) {
        return Err(VortexError::ScopeMismatch);
    }
    let lanes = joined_lanes(alloc, dtype, parts)?;
    let dtype = dtype.clone()?;
    Ok(Array::new(dtype, lanes))
}

// The rows of the parts: a constant where each part is one of the same value, the parts' buffers one after
// another where they are truth values or numbers, and else values in buffers for the type's kind.
fn joined_lanes(alloc: Global, dtype: &DType, parts: &[Array]) -> Result<Lanes, AllocError>
    ensures rows { IfOk result (λ lanes. lanes_rows lanes ≡ rows_of_parts parts.now) }
    ensures fit { IfOk result (λ _. EachFit parts.now) }
{
    if let Some(lanes) = same_rows(parts)? {
        return Ok(lanes);
    }
    if let Some(lanes) = buffers_joined(alloc, dtype, parts)? {
        return Ok(lanes);
    }
    let values = values_of(alloc, parts)?;
    let lanes = typed_lanes(alloc, dtype, values.as_slice())?;
    Ok(lanes)
}

// Whether each part is of that type.
fn all_of_type(dtype: &DType, parts: &[Array]) -> bool
    ensures { result ≡ all_of_type (type_of dtype.now) parts.now }
{
    parts.iter().all(|part| *part.dtype() == *dtype)
}

// The rows of the parts, where each has them in a buffer of the type's kind: truth values, floating-point
// numbers, or numbers of the type's own width, as which days and instants lie there, too.
fn buffers_joined(
    alloc: Global,
    dtype: &DType,
    parts: &[Array],
) -> Result<Option<Lanes>, AllocError>
    ensures rows { IfOk result (λ found. IfSome found (λ lanes. lanes_rows lanes ≡ rows_of_parts parts.now)) }
    ensures fit { IfOk result (λ found. IfSome found (λ _. EachFit parts.now)) }
{
    match dtype {
        DType::Bool(_) => joined_in::<TruthsBuilder>(alloc, parts),
        DType::Float(FloatType::F32, _) => joined_in::<FloatsBuilder<u32>>(alloc, parts),
        DType::Float(FloatType::F64, _) => joined_in::<FloatsBuilder<u64>>(alloc, parts),
        _ => match lane_type(dtype) {
            Some(PType::U8) => joined_in::<NumbersBuilder<u8>>(alloc, parts),
            Some(PType::U16) => joined_in::<NumbersBuilder<u16>>(alloc, parts),
            Some(PType::U32) => joined_in::<NumbersBuilder<u32>>(alloc, parts),
            Some(PType::U64) => joined_in::<NumbersBuilder<u64>>(alloc, parts),
            Some(PType::I8) => joined_in::<NumbersBuilder<i8>>(alloc, parts),
            Some(PType::I16) => joined_in::<NumbersBuilder<i16>>(alloc, parts),
            Some(PType::I32) => joined_in::<NumbersBuilder<i32>>(alloc, parts),
            Some(PType::I64) => joined_in::<NumbersBuilder<i64>>(alloc, parts),
            None => Ok(None),
        },
    }
}

// The same of rows of one kind.
fn joined_in<B: RowsBuilder>(alloc: Global, parts: &[Array]) -> Result<Option<Lanes>, AllocError>
    ensures rows { IfOk result (λ found. IfSome found (λ lanes. lanes_rows lanes ≡ rows_of_parts parts.now)) }
    ensures fit { IfOk result (λ found. IfSome found (λ _. EachFit parts.now)) }
{
    let mut rows = B::with_capacity(alloc, 0)?;
    for i in 0..parts.len() {
        let Some(more) = rows.push(alloc, parts[i].lanes())? else {
            return Ok(None);
        };
        rows = more;
    }
    Ok(Some(rows.finish(alloc)?))
}

// The values of the parts' rows.
fn values_of(alloc: Global, parts: &[Array]) -> Result<Vec<Value>, AllocError>
    ensures rows { IfOk result (λ values. map value_of values.items ≡ rows_of_parts parts.now) }
    ensures fit { IfOk result (λ _. EachFit parts.now) }
{
    let mut values = Vec::new(alloc);
    for i in 0..parts.len() {
        values = with_rows(alloc, values, parts[i].lanes())?;
    }
    Ok(values)
}

// The values, and those of the rows behind them.
fn with_rows(alloc: Global, mut values: Vec<Value>, lanes: &Lanes) -> Result<Vec<Value>, AllocError>
    ensures { IfOk result (λ more. map value_of more.items ≡ map value_of values.items ++ lanes_rows lanes.now) }
{
    for i in 0..lanes.len() {
        values.push(value_at(alloc, lanes, i)?)?;
    }
    Ok(values)
}
