// The records of which an expression is true, chunk by chunk, and evaluated only where the chunk's
// statistics leave that open.
ghost use Rattle.std.specs.Prelude.{◌≡◌, ◌++◌, ◌≤◌, IfOk, IfErr, IsTrue, List, length};
ghost use Rattle.std.specs.Io.KnownBytes.{Appends};
ghost use Rattle.std.specs.NonZero.{non_zero_usize_get};
ghost use Rattle.vx_value.specs.Fits.{IsBatch};
ghost use Rattle.vx_value.specs.Paths.{minimal_paths};
ghost use Rattle.vx_fn.specs.Functions.{is_truth};
ghost use Rattle.vx_tree.specs.Faults.{HasNoFault};
ghost use Rattle.vx_tree.specs.Trees.{WellTyped, Over, node_type, unbound};
ghost use Rattle.vx_tree.specs.Views.{bound_of};
ghost use Rattle.vx_rewrite_paths.specs.Asked.{referenced};
ghost use Rattle.vx_prune_tree.specs.Reading.{facts_along};
ghost use Rattle.vx_prune_tree.specs.Verdicts.{IsTrueVerdict, verdict_in};
ghost use Rattle.vx_records.specs.Chunks.{HasRecords, IsFaultOver, IsStep};
ghost use Rattle.vx_records.specs.Outcomes.{Breaks, EndsRecords, Stops, UnlessFaulting};
ghost use Rattle.vx_records.specs.Records.{Record, kept_lines, rows};
ghost use Rattle.vx_records.specs.Tallies.{chunk_tally, tally_by, tally_of};
ghost use Rattle.vx_records.specs.declared.error.RecordsError.TheVariants.{OutOfMemory};

use crate::answers::{are_last, values_of};
use crate::batches::{RecordBatch, next_batch};
use crate::lines::{all_lines_of, lines_of};
use crate::writing::write_text;
use crate::{RecordReader, RecordsError};
use std::alloc::Global;
use std::io::Write;
use std::num::NonZeroUsize;
use vx_prune_tree::{ChunkStats, Verdict, verdict};
use vx_rewrite_paths::referenced_field_paths;
use vx_tree::BoundExpression;
use vx_value::{Column, FieldPathSet};

/// How many chunks of records there were, and over how many of them an expression was evaluated.
#[derive(Clone, Copy, Debug, PartialEq, Eq)]
pub struct ChunkTally {
    /// All chunks of which there was a record.
    pub chunks: u64,
    /// Those whose statistics decided nothing.
    pub evaluated: u64,
}

/// In what chunks records are read, and how many of these in all.
#[derive(Clone, Copy, Debug, PartialEq, Eq)]
pub struct Chunking {
    /// How many records a chunk has, but for the last, which may have fewer.
    pub size: NonZeroUsize,
    /// How many records are read at most.
    pub limit: u64,
}

/// Writes the same as [`filter_records`](crate::filter_records), reading the records in chunks of
/// that size, the last of which may be smaller. Of each chunk statistics are taken along the paths that
/// the tree references. Where they tell that the tree is true of none of its records none is written,
/// and where they tell that it is true of each of them all are, without evaluating the tree; else the
/// tree is evaluated over the chunk. Asks a well-typed tree of type `bool` over the type of the rows.
///
/// Answers how many chunks the records are, and over how many of them the tree was evaluated.
///
/// A fault on records over which the tree isn't evaluated isn't met: those may be written or left out,
/// whatever the tree would mean at them. In memory is at most one chunk of records. Stops as
/// `filter_records` does.
pub fn filter_chunks<R: RecordReader, W: Write>(
    alloc: Global,
    tree: &BoundExpression,
    chunking: Chunking,
    records: &mut R,
    out: &mut W,
) -> Result<ChunkTally, RecordsError>
    requires typed { WellTyped (bound_of tree.now) }
    requires truth { IsTrue (is_truth (node_type (bound_of tree.now))) }
    requires over { Over (bound_of tree.now) (R.scope records.old) }
    ensures kept { IfOk result (λ tally. EndsRecords R.leaves chunking.limit records.old records.new (λ rs.
        (tally ≡ tally_of (non_zero_usize_get chunking.size) (bound_of tree.now) (R.scope records.old) rs)
        × UnlessFaulting (non_zero_usize_get chunking.size) (bound_of tree.now)
        (λ rs. Appends (W.contents out.old) (W.contents out.new) (R.head records.old ++ kept_lines (unbound (bound_of tree.now)) (R.scope records.old) rs)) rs)) }
    ensures stopped { IfErr result (λ e. Stops R.leaves (bound_of tree.now) records.old e
        (UnlessFaulting (non_zero_usize_get chunking.size) (bound_of tree.now)
        (λ rs. Appends (W.contents out.old) (W.contents out.new) (R.head records.old ++ kept_lines (unbound (bound_of tree.now)) (R.scope records.old) rs)))
        (UnlessFaulting (non_zero_usize_get chunking.size) (bound_of tree.now)
        (λ rs. Breaks (W.contents out.old) (W.contents out.new) (R.head records.old ++ kept_lines (unbound (bound_of tree.now)) (R.scope records.old) rs)))) }
    ensures within { IfOk result (λ tally. tally.evaluated ≤ tally.chunks) }
{
    write_text(out, records.heading())?;
    let Ok(paths) = referenced_field_paths(alloc, tree) else {
        return Err(RecordsError::OutOfMemory);
    };
    let condition = Condition {
        tree,
        paths: &paths,
    };
    let mut tally = ChunkTally {
        chunks: 0,
        evaluated: 0,
    };
    let mut left = chunking.limit;
    while left > 0 {
        let count = left.min(chunking.size.get() as u64);
        let done = filter_chunk(alloc, &condition, count as usize, records, out)?;
        tally.chunks += done.tally.chunks;
        tally.evaluated += done.tally.evaluated;
        if done.last {
            return Ok(tally);
        }
        left -= count;
    }
    Ok(tally)
}

// What became of a chunk: whether it was the last, and its own tally, of no chunk where it has no record.
#[derive(Clone, Copy)]
struct ChunkDone {
    last: bool,
    tally: ChunkTally,
}

// A tree of type bool, and the paths that it references.
#[derive(Clone, Copy)]
struct Condition<'a> {
    tree: &'a BoundExpression,
    paths: &'a FieldPathSet,
}

// The same of a chunk of so many records, and without a heading.
fn filter_chunk<R: RecordReader, W: Write>(
    alloc: Global,
    condition: &Condition<'_>,
    count: usize,
    records: &mut R,
    out: &mut W,
) -> Result<ChunkDone, RecordsError>
    requires typed { WellTyped (bound_of condition.now.tree.now) }
    requires truth { IsTrue (is_truth (node_type (bound_of condition.now.tree.now))) }
    requires over { Over (bound_of condition.now.tree.now) (R.scope records.old) }
    requires paths { condition.now.paths.now ≡ referenced (bound_of condition.now.tree.now) }
    ensures step { IfOk result (λ done. IsStep R.leaves count records.old records.new done.last (λ rs.
        (done.tally ≡ chunk_tally (bound_of condition.now.tree.now) (R.scope records.old) rs)
        × UnlessFaulting count (bound_of condition.now.tree.now)
        (λ rs. Appends (W.contents out.old) (W.contents out.new) (kept_lines (unbound (bound_of condition.now.tree.now)) (R.scope records.old) rs)) rs)) }
    ensures stopped { IfErr result (λ e. Stops R.leaves (bound_of condition.now.tree.now) records.old e
        (UnlessFaulting count (bound_of condition.now.tree.now)
        (λ rs. Appends (W.contents out.old) (W.contents out.new) (kept_lines (unbound (bound_of condition.now.tree.now)) (R.scope records.old) rs)))
        (UnlessFaulting count (bound_of condition.now.tree.now)
        (λ rs. Breaks (W.contents out.old) (W.contents out.new) (kept_lines (unbound (bound_of condition.now.tree.now)) (R.scope records.old) rs)))) }
    ensures scope { R.scope records.new ≡ R.scope records.old }
    ensures one { IfOk result (λ done. done.tally.chunks ≤ 1) }
    ensures within { IfOk result (λ done. done.tally.evaluated ≤ done.tally.chunks) }
{
    let Condition { tree, paths } = *condition;
    let batch = next_batch(alloc, count, records)?;
    let verdict = verdict_on(alloc, tree, paths, &batch.rows)?;
    let lines = kept_of(alloc, tree, verdict, &batch)?;
    write_text(out, lines.as_slice())?;
    let RecordBatch { texts, stop, .. } = batch;
    let tally = tally_by(texts.len(), verdict);
    let last = are_last(texts.len(), stop, count)?;
    Ok(ChunkDone { last, tally })
}

// What the batch's own statistics along the paths tell of the tree. Refuses with `OutOfMemory` alone.
fn verdict_on(
    alloc: Global,
    tree: &BoundExpression,
    paths: &FieldPathSet,
    batch: &Column,
) -> Result<Verdict, RecordsError>
    requires typed { WellTyped (bound_of tree.now) }
    requires truth { IsTrue (is_truth (node_type (bound_of tree.now))) }
    requires over { Over (bound_of tree.now) batch.now.type }
    requires fit { IsBatch batch.now.type batch.now.rows }
    ensures exact { IfOk result (λ verdict. verdict ≡ verdict_in (facts_along batch.now.type (minimal_paths paths.now) batch.now.rows) (bound_of tree.now)) }
    ensures holds { IfOk result (λ verdict. HasNoFault (bound_of tree.now) batch.now.rows → IsTrueVerdict (bound_of tree.now) batch.now.type batch.now.rows verdict) }
    ensures err { IfErr result (λ e. e ≡ OutOfMemory) }
{
    match ChunkStats::of(alloc, batch, paths) {
        Ok(stats) => Ok(verdict(tree, &stats)),
        Err(_) => Err(RecordsError::OutOfMemory),
    }
}

// The lines of those records of the batch of which the tree is true. Evaluates it only where the
// verdict leaves that open.
fn kept_of(
    alloc: Global,
    tree: &BoundExpression,
    verdict: Verdict,
    batch: &RecordBatch,
) -> Result<Vec<u8>, RecordsError>
    requires typed { WellTyped (bound_of tree.now) }
    requires over { Over (bound_of tree.now) batch.now.rows.value.type }
    requires as_many { length batch.now.texts.items ≡ length batch.now.rows.value.rows }
    ensures kept { (rs : List Record) → HasRecords batch.now batch.now.rows.value.type rs → IsTrueVerdict (bound_of tree.now) batch.now.rows.value.type (rows rs) verdict →
        IfOk result (λ lines. lines.items ≡ kept_lines (unbound (bound_of tree.now)) batch.now.rows.value.type rs) }
    ensures fault { IfErr result (λ e. IsFaultOver (bound_of tree.now) batch.now.rows.value.rows e) }
{
    let texts = batch.texts.as_slice();
    match verdict {
        Verdict::NoRow => Ok(Vec::new(alloc)),
        Verdict::EveryRow => Ok(all_lines_of(alloc, texts)?),
        Verdict::Unknown => {
            let values = values_of(alloc, tree, &batch.rows, batch.lines.as_slice())?;
            Ok(lines_of(alloc, texts, values.rows())?)
        }
    }
}

// The tally of a chunk of so many records.
fn tally_by(records: usize, verdict: Verdict) -> ChunkTally
    ensures { result ≡ tally_by records verdict }
{
    ChunkTally {
        chunks: u64::from(records > 0),
        evaluated: u64::from(verdict == Verdict::Unknown),
    }
}
