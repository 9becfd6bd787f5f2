// Buffers that are written row by row, and read again.
ghost use Rattle.std.specs.Prelude.{◌≡◌, IfOk, map, true};
ghost use Rattle.vx_data_buffers.specs.Bytes.{bytes_in};
ghost use Rattle.vx_data_buffers.specs.Laid.{AreBuffersOf, lists_in};

use crate::rows::write_column;
use crate::{Buffer, BufferError, LayoutError, column_of};
use std::alloc::{AllocError, Global};
use vx_array::Array;
use vx_value::{Column, Value};

// The buffers of the array's rows. That they have them is known by reading them again.
pub(crate) fn rows_laid(alloc: Global, array: &Array) -> Result<Vec<Vec<u8>>, LayoutError>
    ensures { IfOk result (λ buffers. AreBuffersOf array.now (lists_in buffers.items)) }
{
    let Ok(column) = array.to_column(alloc) else {
        return Err(LayoutError::OutOfMemory);
    };
    let buffers = written(alloc, &column)?;
    if !reads_back(alloc, &column, buffers.as_slice())? {
        return Err(LayoutError::TooLong);
    }
    Ok(buffers)
}

// The buffers of the column's rows.
fn written(alloc: Global, column: &Column) -> Result<Vec<Vec<u8>>, LayoutError> {
    let null = Value::Null;
    let mut rows = Vec::with_capacity(alloc, column.len())?;
    for row in column.rows() {
        rows.push(row)?;
    }
    let mut buffers = Vec::new(alloc);
    write_column(alloc, column.dtype(), rows.as_slice(), &null, &mut buffers)?;
    Ok(buffers)
}

// Whether what is read of the buffers is the column.
fn reads_back(alloc: Global, column: &Column, buffers: &[Vec<u8>]) -> Result<bool, LayoutError>
    ensures { IfOk result (λ is. is ≡ true → AreBuffersOf column.now (lists_in buffers.now)) }
{
    let lent = lent(alloc, buffers)?;
    let Ok(dtype) = column.dtype().clone() else {
        return Err(LayoutError::OutOfMemory);
    };
    match column_of(alloc, dtype, column.len(), lent.as_slice()) {
        Ok(read) => Ok(read == *column),
        Err(BufferError::OutOfMemory) => Err(LayoutError::OutOfMemory),
        Err(_) => Ok(false),
    }
}

// The buffers, lent.
fn lent<'a>(alloc: Global, buffers: &'a [Vec<u8>]) -> Result<Vec<Buffer<'a>>, AllocError>
    ensures { IfOk result (λ lent. bytes_in lent.items ≡ lists_in buffers.now) }
{
    let mut lent = Vec::with_capacity(alloc, buffers.len())?;
    for i in 0..buffers.len() {
        lent.push(Buffer {
            bytes: buffers[i].as_slice(),
        })?;
    }
    Ok(lent)
}
