// What `filter --chunk` writes.
ghost use Rattle.std.specs.Prelude.{◌≡◌, ◌≤◌, IfErr, OnOk};
ghost use Rattle.std.specs.Io.KnownBytes.{Appends};
ghost use Rattle.std.specs.NonZero.{non_zero_usize_get};
ghost use Rattle.vx_tree.specs.Views.{tree_of};
ghost use Rattle.vx_commands.specs.Chunked.{IsKeptByChunks, IsKeptByChunksUntil, tally_line};
ghost use Rattle.vx_commands.specs.Spans.{IsToldAt};

use crate::error::RowsError;
use crate::evaluated::stopped;
use crate::filtered::condition;
use std::alloc::Global;
use std::io;
use std::io::Write;
use std::num::NonZeroUsize;
use vx_data::WriteError;
use vx_records::{ChunkTally, Chunking, RecordReader, RecordsError, filter_chunks};
use vx_source::Placed;

/// An expression over records that are read in chunks, and how many of these it goes over.
#[derive(Clone, Copy)]
pub struct ChunkedQuery<'a> {
    /// The expression, with the bytes that its nodes were read from.
    pub placed: &'a Placed,
    /// How many records a chunk has, but for the last.
    pub size: NonZeroUsize,
    /// How many records are gone over at most.
    pub limit: u64,
}

/// Writes what [`filter`](crate::filtered::filter) does, going over the records in chunks of `size`, as
/// [`filter_chunks`] does: the expression isn't evaluated over those whose statistics tell which of
/// their records to keep. A line on `err` says at the end over how many chunks it was evaluated, and
/// over how many not. Fails as `filter` does, and then nothing is written on `err`; and where `err`
/// fails.
pub fn filter_by_chunks<R: RecordReader, W: Write, E: Write>(
    alloc: Global,
    query: &ChunkedQuery<'_>,
    records: &mut R,
    out: &mut W,
    err: &mut E,
) -> Result<(), RowsError>
    ensures kept { OnOk result (IsKeptByChunks R.leaves (R.scope records.old) (R.head records.old) (tree_of query.now.placed.now.expression) (non_zero_usize_get query.now.size) query.now.limit records.old records.new
        (W.contents out.old) (W.contents out.new) (E.contents err.old) (E.contents err.new)) }
    ensures error { IfErr result (λ c. IsKeptByChunksUntil R.leaves (R.scope records.old) (R.head records.old) (tree_of query.now.placed.now.expression) (non_zero_usize_get query.now.size) query.now.limit c records.old records.new
        (W.contents out.old) (W.contents out.new) (E.contents err.old) (E.contents err.new)) }
    ensures place { IfErr result (λ c. IsToldAt query.now.placed.now (R.scope records.old) c) }
{
    let tree = match condition(alloc, query.placed, records.dtype()) {
        Ok(tree) => tree,
        Err(error) => return Err(error),
    };
    let chunking = Chunking {
        size: query.size,
        limit: query.limit,
    };
    let tally = match filter_chunks(alloc, &tree, chunking, records, out) {
        Ok(tally) => tally,
        Err(error) => return Err(stopped(query.placed, error)),
    };
    match tell(tally, err) {
        Ok(()) => Ok(()),
        Err(e) => Err(stopped(query.placed, RecordsError::Write(WriteError::Write(e)))),
    }
}

// Writes the line of the tally.
fn tell<E: Write>(tally: ChunkTally, err: &mut E) -> io::Result<()>
    requires { tally.evaluated ≤ tally.chunks }
    ensures { OnOk result (Appends (E.contents err.old) (E.contents err.new) (tally_line tally)) }
{
    let ChunkTally { chunks, evaluated } = tally;
    let passed_over = chunks - evaluated;
    writeln!(
        err,
        "{evaluated} of {chunks} chunks evaluated, {passed_over} not evaluated"
    )
}
