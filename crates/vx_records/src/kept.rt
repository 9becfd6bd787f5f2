// The rows of those records of which an expression is true.
ghost use Rattle.std.specs.Prelude.{◌≡◌, ◌++◌, ◌≤◌, IfErr, IfOk, OnOk, length, map};
ghost use Rattle.vx_value.specs.Columns.{batch};
ghost use Rattle.vx_value.specs.Views.{value_of};
ghost use Rattle.vx_tree.specs.Trees.{WellTyped, Over, unbound};
ghost use Rattle.vx_tree.specs.Views.{bound_of};
ghost use Rattle.vx_records.specs.Chunks.{IsFaultThere, IsKeptBatch, IsKeptOf, row_if_true, true_rows, values_in};
ghost use Rattle.vx_records.specs.declared.error.RecordsError.TheVariants.{OutOfMemory};

use crate::answers::{Answers, next_answers};
use crate::batches::RecordBatch;
use crate::{RecordReader, RecordsError};
use std::alloc::{AllocError, Global};
use vx_data::DataError;
use vx_tree::BoundExpression;
use vx_value::{Column, Value};

/// Of records that were read together those of which an expression is true: their rows as a column, and their lines. And
/// how many were read, and what stopped reading, if something did.
#[derive(Drop)]
pub(crate) struct KeptBatch {
    pub(crate) rows: Box<Column>,
    pub(crate) lines: Vec<u64>,
    pub(crate) read: usize,
    pub(crate) stop: Option<DataError>,
}

/// Reads up to so many records, and keeps those of which the tree is true.
pub(crate) fn next_kept<R: RecordReader>(
    alloc: Global,
    tree: &BoundExpression,
    count: usize,
    records: &mut R,
) -> Result<Box<KeptBatch>, RecordsError>
    requires typed { WellTyped (bound_of tree.now) }
    requires over { Over (bound_of tree.now) (R.scope records.old) }
    ensures read { IfOk result (λ b. IsKeptBatch R.leaves count (unbound (bound_of tree.now)) (R.scope records.old) records.old records.new b.value) }
    ensures scope { R.scope records.new ≡ R.scope records.old }
    ensures fault { IfErr result (λ e. IsFaultThere R.leaves (bound_of tree.now) records.old e) }
{
    match next_answers(alloc, tree, count, records) {
        Ok(answers) => Ok(kept_of(alloc, answers)?),
        Err(e) => Err(e),
    }
}

// Those of the records at which true stands.
fn kept_of(alloc: Global, answers: Box<Answers>) -> Result<Box<KeptBatch>, RecordsError>
    requires { length answers.value.batch.rows.value.rows ≤ length answers.value.values.rows }
    ensures ok { IfOk result (λ kept. IsKeptOf answers.value kept.value) }
    ensures err { IfErr result (λ e. e ≡ OutOfMemory) }
{
    let Answers { batch, values } = Box::into_inner(answers);
    let RecordBatch {
        texts,
        rows,
        lines,
        stop,
    } = batch;
    let rows = Box::new(alloc, kept_rows(alloc, &rows, values.rows())?)?;
    let lines = kept_numbers(alloc, lines.as_slice(), values.rows())?;
    let kept = KeptBatch {
        rows,
        lines,
        read: texts.len(),
        stop,
    };
    Ok(Box::new(alloc, kept)?)
}

// The rows beside which stands true, as a column.
fn kept_rows(alloc: Global, rows: &Column, truths: &[Value]) -> Result<Column, RecordsError>
    requires { length rows.now.rows ≤ length truths.now }
    ensures ok { IfOk result (λ c. c ≡ batch rows.now.type (true_rows rows.now.rows (values_in truths.now) (length rows.now.rows))) }
    ensures err { IfErr result (λ e. e ≡ OutOfMemory) }
{
    let all = rows.rows();
    let mut kept = Vec::new(alloc);
    for i in 0..all.len() {
        push_if_true(&all[i], &truths[i], &mut kept)?;
    }
    match Column::try_new(rows.dtype().clone()?, kept) {
        Ok(kept) => Ok(kept),
        Err(_) => Err(RecordsError::OutOfMemory),
    }
}

// Adds the row, where the value is true.
fn push_if_true(row: &Value, truth: &Value, kept: &mut Vec<Value>) -> Result<(), AllocError>
    ensures { OnOk result (map value_of kept.new.items ≡ map value_of kept.old.items ++ row_if_true (value_of truth.now) (value_of row.now)) }
{
    if let Value::Bool(true) = truth {
        kept.push(row.clone()?)?;
    }
    Ok(())
}

// The numbers beside which stands true.
fn kept_numbers(alloc: Global, numbers: &[u64], truths: &[Value]) -> Result<Vec<u64>, AllocError> {
    let mut kept = Vec::new(alloc);
    for (number, truth) in numbers.iter().zip(truths) {
        if let Value::Bool(true) = truth {
            kept.push(*number)?;
        }
    }
    Ok(kept)
}
