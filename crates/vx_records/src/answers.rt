// What an expression means at records that are read together.
ghost use Rattle.std.specs.Prelude.{◌≡◌, IfOk, IfErr, length, map};
ghost use Rattle.vx_tree.specs.Trees.{WellTyped, Over, unbound};
ghost use Rattle.vx_tree.specs.Meaning.{mean};
ghost use Rattle.vx_tree.specs.Views.{bound_of};
ghost use Rattle.vx_records.specs.Chunks.{AreAnswers, IsFaultThere, IsFaultOver, IsLast, IsStopError};

use crate::batches::{RecordBatch, next_batch};
use crate::{RecordFault, RecordReader, RecordsError};
use std::alloc::Global;
use vx_data::DataError;
use vx_eval::apply_bound;
use vx_places::first_fault_at;
use vx_tree::BoundExpression;
use vx_value::Column;

/// Records that were read together, and what an expression means at them.
#[derive(Drop)]
pub(crate) struct Answers {
    pub(crate) batch: RecordBatch,
    pub(crate) values: Column,
}

/// Reads up to so many records, and says what the tree means at them.
pub(crate) fn next_answers<R: RecordReader>(
    alloc: Global,
    tree: &BoundExpression,
    count: usize,
    records: &mut R,
) -> Result<Box<Answers>, RecordsError>
    requires typed { WellTyped (bound_of tree.now) }
    requires over { Over (bound_of tree.now) (R.scope records.old) }
    ensures read { IfOk result (λ a. AreAnswers R.leaves count (unbound (bound_of tree.now)) (R.scope records.old) records.old records.new a.value) }
    ensures scope { R.scope records.new ≡ R.scope records.old }
    ensures fault { IfErr result (λ e. IsFaultThere R.leaves (bound_of tree.now) records.old e) }
{
    let batch = next_batch(alloc, count, records)?;
    match values_of(alloc, tree, &batch.rows, batch.lines.as_slice()) {
        Ok(values) => Ok(Box::new(alloc, Answers { batch, values })?),
        Err(e) => Err(e),
    }
}

/// What the tree means at each row of the batch. Refuses its first fault, with the line of the row.
pub(crate) fn values_of(
    alloc: Global,
    tree: &BoundExpression,
    batch: &Column,
    lines: &[u64],
) -> Result<Column, RecordsError>
    requires typed { WellTyped (bound_of tree.now) }
    requires over { Over (bound_of tree.now) batch.now.type }
    ensures ok { IfOk result (λ c. c.rows ≡ map (mean (unbound (bound_of tree.now)) batch.now.type) batch.now.rows) }
    ensures err { IfErr result (λ e. IsFaultOver (bound_of tree.now) batch.now.rows e) }
{
    match apply_bound(alloc, batch, tree) {
        Ok(values) => Ok(values),
        Err(_) => Err(first_fault(alloc, tree, batch, lines)),
    }
}

// The first fault of the tree on the batch, unless memory runs out.
fn first_fault(alloc: Global, tree: &BoundExpression, batch: &Column, lines: &[u64]) -> RecordsError
    requires typed { WellTyped (bound_of tree.now) }
    ensures { IsFaultOver (bound_of tree.now) batch.now.rows result }
{
    match first_fault_at(alloc, tree, batch) {
        Ok(Some(place)) => {
            let line = place.row().and_then(|row| lines.get(row).copied());
            RecordsError::Fault(RecordFault {
                line,
                path: place.path,
                refusal: place.refusal,
            })
        }
        _ => RecordsError::OutOfMemory,
    }
}

/// Whether the records that were read are the last, where so many were asked for. Refuses with what
/// stopped reading, if something did.
pub(crate) fn ended(answers: Box<Answers>, count: usize) -> Result<bool, RecordsError>
    ensures ok { IfOk result (λ last. IsLast answers.value.batch.stop (length answers.value.batch.texts.items) count last) }
    ensures err { IfErr result (λ e. IsStopError answers.value.batch.stop e) }
{
    let Answers { batch, .. } = Box::into_inner(answers);
    let RecordBatch { texts, stop, .. } = batch;
    are_last(texts.len(), stop, count)
}

/// The same of so many records that were read.
pub(crate) fn are_last(
    read: usize,
    stop: Option<DataError>,
    count: usize,
) -> Result<bool, RecordsError>
    ensures ok { IfOk result (λ last. IsLast stop read count last) }
    ensures err { IfErr result (λ e. IsStopError stop e) }
{
    match stop {
        Some(stop) => Err(RecordsError::from(stop)),
        None => Ok(read < count),
    }
}
