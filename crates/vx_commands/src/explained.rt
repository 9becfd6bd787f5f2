// What `explain` writes of chunks.
ghost use Rattle.vx_tree.specs.Trees.{WellTyped};
ghost use Rattle.vx_tree.specs.Views.{bound_of};

use crate::data::{opened, unwritten};
use crate::error::RowsError;
use crate::page::chunk_page;
use crate::statistics::read_statistics;
use crate::tasks::written;
use std::alloc::Global;
use std::io::Write;
use vx_command_pages::bind;
use vx_dtype::DType;
use vx_prune::ChunkRecords;
use vx_records::{Record, RecordReader};
use vx_source::Placed;
use vx_tree::BoundExpression;

/// An expression of which statistics of chunks tell something, and over how many chunks it goes.
#[derive(Clone, Copy)]
pub struct ChunksQuery<'a, 'c> {
    /// The expression, with the bytes that its nodes were read from.
    pub placed: &'a Placed,
    /// The type of the rows in the chunks.
    pub scope: &'a DType,
    /// What reads the statistics of such rows.
    pub chunks: &'c ChunkRecords<'a>,
    /// How many chunks are gone over at most.
    pub limit: u64,
}

/// Writes of each of the first `limit` chunks, or of all where there are fewer, what its statistics
/// tell of the expression over rows of its type. Fails at the expression's first refusal over
/// that type, and for want of memory, and then nothing is written; and at what stops reading the
/// statistics, of which those that can't be so are refused, or writing.
pub fn explain_chunks<R: RecordReader, W: Write>(
    alloc: Global,
    query: &ChunksQuery<'_, '_>,
    records: &mut R,
    out: &mut W,
) -> Result<(), RowsError> {
    let tree = match bind(alloc, query.placed, query.scope) {
        Ok(tree) => tree,
        Err(error) => return Err(RowsError::Query(error)),
    };
    for number in 0..query.limit {
        let Some(record) = opened(records.read(alloc))? else {
            return Ok(());
        };
        let number = number.saturating_add(1);
        let page = page_of(alloc, number, &tree, query.chunks, &record)?;
        unwritten(written(out, page.as_str()))?;
    }
    Ok(())
}

// The lines of the chunk that the record is of.
fn page_of(
    alloc: Global,
    number: u64,
    tree: &BoundExpression,
    chunks: &ChunkRecords<'_>,
    record: &Record,
) -> Result<String, RowsError>
    requires { WellTyped (bound_of tree.now) }
{
    let stats = opened(read_statistics(alloc, chunks, record))?;
    Ok(chunk_page(alloc, number, tree, &stats)?)
}
