// Columns, row by row.
ghost use Rattle.std.specs.Prelude.{◌≡◌, ◌<◌, ◌≤◌, IfOk, None, length, map};
ghost use Rattle.vx_data_buffers.specs.Results.{BufferReturnsOrOom, each_from};
ghost use Rattle.vx_data_buffers.specs.Bytes.{bytes_in};
ghost use Rattle.vx_data_buffers.specs.Layout.{buffer_count};
ghost use Rattle.vx_data_buffers.specs.Rows.{column_said, row_of};
ghost use Rattle.vx_value.specs.Columns.{first_misfit};
ghost use Rattle.vx_value.specs.Fits.{Fits};
ghost use Rattle.vx_value.specs.Views.{type_of, value_of};

use crate::counts::buffer_count;
use crate::values::value_at;
use crate::{Buffer, BufferError};
use std::alloc::Global;
use vx_dtype::DType;
use vx_value::{Column, Value};

/// The column of that type whose rows these buffers have, so many of them.
///
/// The buffers of a type's column stand one after another, depth first. The first says by bits which rows aren't null,
/// and that all aren't where it has no bytes. Behind it come the values as bits of a truth type, the least
/// significant of a byte first; those of a type of numbers, little endian, as are days in 32 bits, instants in 64, the
/// units of decimals in 128, and floating-point numbers by their 32 or 64 bits; of texts and bytes the offsets, numbers
/// of 32 bits of which row i has those at i and i + 1, and the bytes; of lists the offsets and the items' column; of
/// lists of k items each the items' column, of which row i has the items from i * k on; of structs each field's column.
/// Of a null nothing else is read, each NaN is read as the quiet one, and buffers may be longer than their rows need.
///
/// Refuses with `OutOfMemory`, and with `BufferCount` where the type asks for another number of buffers. Then rows are
/// read in their order, each depth first from left to right, and the first refusal stands: `EndsEarly`, `Unordered` and
/// `NotUtf8` with the buffer that it is about, or, once the row is read, `RowMisfit` where it isn't a value of the
/// type, as a null of a type without null that lies in no other null.
///
/// Takes time in the number of the values, and for each struct in that of the buffers inside it.
pub fn column_of(
    alloc: Global,
    dtype: DType,
    rows: usize,
    buffers: &[Buffer<'_>],
) -> Result<Column, BufferError>
    ensures { BufferReturnsOrOom (λ c. c) result (column_said (bytes_in buffers.now) (type_of dtype) rows) }
{
    let expected = buffer_count(&dtype).ok_or(BufferError::OutOfMemory)?;
    let given = buffers.len();
    if given != expected {
        return Err(BufferError::BufferCount { expected, given });
    }
    let values = rows_of(alloc, buffers, &dtype, rows)?;
    Ok(Column::try_new(dtype, values).unwrap())
}

// The values of so many rows.
fn rows_of(
    alloc: Global,
    buffers: &[Buffer<'_>],
    t: &DType,
    rows: usize,
) -> Result<Vec<Value>, BufferError>
    requires { buffer_count (type_of t.now) ≤ length buffers.now }
    ensures rows { BufferReturnsOrOom (λ vs. map value_of vs.items) result (each_from (row_of (bytes_in buffers.now) (type_of t.now)) 0 rows) }
    ensures fit { IfOk result (λ vs. first_misfit (type_of t.now) (map value_of vs.items) ≡ None) }
{
    let mut values = Vec::new(alloc);
    for row in 0..rows {
        values.push(row_of(alloc, buffers, t, row)?)?;
    }
    Ok(values)
}

// The value of that row.
fn row_of(
    alloc: Global,
    buffers: &[Buffer<'_>],
    t: &DType,
    row: usize,
) -> Result<Value, BufferError>
    requires buffers { buffer_count (type_of t.now) ≤ length buffers.now }
    requires row { row < usize.MAX }
    ensures value { BufferReturnsOrOom value_of result (row_of (bytes_in buffers.now) (type_of t.now) row) }
    ensures fits { IfOk result (λ v. Fits (value_of v) (type_of t.now)) }
{
    match value_at(alloc, buffers, t, 0, row) {
        Ok(value) if value.fits(t) => Ok(value),
        Ok(_) => Err(BufferError::RowMisfit { row }),
        Err(fault) => Err(fault.in_row(row)),
    }
}
