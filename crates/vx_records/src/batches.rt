// Records that are read together, and their rows as a column.
ghost use Rattle.std.specs.Prelude.{◌≡◌, IfOk, map};
ghost use Rattle.vx_value.specs.Columns.{batch};
ghost use Rattle.vx_value.specs.Fits.{IsBatch};
ghost use Rattle.vx_value.specs.Views.{type_of, value_of};
ghost use Rattle.vx_records.specs.Chunks.{IsNextBatch};

use crate::RecordReader;
use crate::read::{Chunk, Parts, parts_of, read_chunk};
use std::alloc::{AllocError, Global};
use std::sync::Arc;
use vx_data::DataError;
use vx_dtype::DType;
use vx_value::{Column, Value};

/// Records that were read together, their rows as a column, and what stopped reading, if something
/// did.
#[derive(Drop)]
pub(crate) struct RecordBatch {
    pub(crate) texts: Vec<Vec<u8>>,
    pub(crate) rows: Box<Column>,
    pub(crate) lines: Vec<u64>,
    pub(crate) stop: Option<DataError>,
}

/// Reads up to so many records.
pub(crate) fn next_batch<R: RecordReader>(
    alloc: Global,
    count: usize,
    records: &mut R,
) -> Result<RecordBatch, AllocError>
    ensures read { IfOk result (λ b. IsNextBatch R.leaves count (R.scope records.old) records.old records.new b) }
    ensures scope { R.scope records.new ≡ R.scope records.old }
{
    let Chunk {
        records: read,
        stop,
    } = read_chunk(alloc, count, records)?;
    let Parts { texts, rows, lines } = parts_of(alloc, read)?;
    let rows = batch_of(alloc, records.dtype(), rows)?;
    Ok(RecordBatch {
        texts,
        rows,
        lines,
        stop,
    })
}

// The rows as a column. Asks rows of the type.
fn batch_of(alloc: Global, dtype: &DType, rows: Vec<Value>) -> Result<Box<Column>, AllocError>
    requires { IsBatch (type_of dtype.now) (map value_of rows.items) }
    ensures { IfOk result (λ c. c.value ≡ batch (type_of dtype.now) (map value_of rows.items)) }
{
    let rows = Arc::new(alloc, rows)?;
    Ok(Box::new(alloc, Column::from_shared(dtype.clone()?, rows))?)
}
