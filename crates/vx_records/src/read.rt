// Records that are read together.
ghost use Rattle.std.specs.Prelude.{◌≡◌, ◌≤◌, IfOk, length, map};
ghost use Rattle.vx_value.specs.Fits.{IsBatch};
ghost use Rattle.vx_value.specs.Views.{value_of};
ghost use Rattle.vx_records.specs.Chunks.{IsChunk, texts_in};
ghost use Rattle.vx_records.specs.Records.{record_of, texts, rows};

use crate::{Record, RecordReader};
use std::alloc::{AllocError, Global};
use vx_data::DataError;
use vx_value::Value;

/// Records that were read one after another, and what stopped reading, if something did.
#[derive(Drop)]
pub(crate) struct Chunk {
    pub(crate) records: Vec<Record>,
    pub(crate) stop: Option<DataError>,
}

/// Reads up to so many records.
pub(crate) fn read_chunk<R: RecordReader>(
    alloc: Global,
    count: usize,
    records: &mut R,
) -> Result<Chunk, AllocError>
    ensures read { IfOk result (λ c. IsChunk R.leaves count records.old records.new c) }
    ensures few { IfOk result (λ c. length c.records.items ≤ count) }
    ensures fit { IfOk result (λ c. IsBatch (R.scope records.old) (rows (map record_of c.records.items))) }
    ensures scope { R.scope records.new ≡ R.scope records.old }
{
    let mut read = Vec::new(alloc);
    while read.len() < count {
        match records.read(alloc) {
            Ok(Some(record)) => read.push(record)?,
            Ok(None) => return Ok(chunk_of(read, None)),
            Err(stop) => return Ok(chunk_of(read, Some(stop))),
        }
    }
    Ok(chunk_of(read, None))
}

fn chunk_of(records: Vec<Record>, stop: Option<DataError>) -> Chunk
    ensures records { result.records ≡ records }
    ensures stop { result.stop ≡ stop }
{
    Chunk { records, stop }
}

/// The parts of records, each in order.
#[derive(Drop)]
pub(crate) struct Parts {
    pub(crate) texts: Vec<Vec<u8>>,
    pub(crate) rows: Vec<Value>,
    pub(crate) lines: Vec<u64>,
}

/// The parts of the records.
pub(crate) fn parts_of(alloc: Global, records: Vec<Record>) -> Result<Parts, AllocError>
    ensures texts { IfOk result (λ p. texts_in p.texts.items ≡ texts (map record_of records.items)) }
    ensures rows { IfOk result (λ p. map value_of p.rows.items ≡ rows (map record_of records.items)) }
{
    let mut texts = Vec::with_capacity(alloc, records.len())?;
    let mut rows = Vec::with_capacity(alloc, records.len())?;
    let mut lines = Vec::with_capacity(alloc, records.len())?;
    for record in records {
        let Record { text, row, line } = record;
        texts.push(text)?;
        rows.push(row)?;
        lines.push(line)?;
    }
    Ok(Parts { texts, rows, lines })
}
