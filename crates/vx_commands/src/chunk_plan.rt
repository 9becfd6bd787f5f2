// What `plan --chunks` writes.
use crate::data::{opened, unwritten};
use crate::error::RowsError;
use crate::explained::ChunksQuery;
use crate::filtered::condition;
use crate::statistics::read_statistics;
use crate::tasks::written;
use std::alloc::Global;
use std::io::Write;
use vx_command_pages::{ChunkTask, chunk_tasks, plan_of, planned_tasks_page, tasks_page};
use vx_prune::ChunkStats;
use vx_records::RecordReader;

/// In what form the chunks that have to be read are written.
#[derive(Clone, Copy, Debug, PartialEq, Eq)]
pub enum ChunksForm {
    /// A line for each, as [`tasks_page`] has them.
    Lines,
    /// The plan and the chunks as JSON on one line, as [`planned_tasks_page`] has them.
    Json,
}

/// Writes which chunks have to be read for the expression, by the statistics of the first `limit` of them, or of all where there
/// are fewer: those that [`chunk_tasks`] names. Fails at the expression's first refusal, at one of another type than bool, at
/// what stops reading the statistics, and for want of memory, and then nothing is written; and where `out` fails.
pub fn plan_chunks<R: RecordReader, W: Write>(
    alloc: Global,
    query: &ChunksQuery<'_, '_>,
    form: ChunksForm,
    records: &mut R,
    out: &mut W,
) -> Result<(), RowsError> {
    let tree = condition(alloc, query.placed, query.scope)?;
    let chunks = chunks_read(alloc, query, records)?;
    let tasks = chunk_tasks(alloc, &tree, chunks.as_slice())?;
    let page = page_of(alloc, query, form, tasks.as_slice())?;
    unwritten(written(out, page.as_str()))
}

// What the records say of the chunks.
fn chunks_read<R: RecordReader>(
    alloc: Global,
    query: &ChunksQuery<'_, '_>,
    records: &mut R,
) -> Result<Vec<ChunkStats>, RowsError> {
    let mut chunks = Vec::new(alloc);
    for _ in 0..query.limit {
        let Some(record) = opened(records.read(alloc))? else {
            return Ok(chunks);
        };
        chunks.push(opened(read_statistics(alloc, query.chunks, &record))?)?;
    }
    Ok(chunks)
}

// The chunks in that form.
fn page_of(
    alloc: Global,
    query: &ChunksQuery<'_, '_>,
    form: ChunksForm,
    tasks: &[ChunkTask],
) -> Result<String, RowsError> {
    match form {
        ChunksForm::Lines => Ok(tasks_page(alloc, tasks)?),
        ChunksForm::Json => {
            let plan = plan_of(alloc, query.placed, query.scope)?;
            Ok(planned_tasks_page(alloc, &plan, tasks)?)
        }
    }
}
