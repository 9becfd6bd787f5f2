// What is done with the records of a file.
use crate::chunked::{ChunkedQuery, filter_by_chunks};
use crate::counted::count;
use crate::data::unwritten;
use crate::error::RowsError;
use crate::evaluated::evaluate;
use crate::filtered::filter;
use crate::outputs::{Output, OutputFormat};
use crate::records_query::RecordsQuery;
use crate::rows::RecordsTask;
use crate::selected::{SelectQuery, select};
use crate::stop::Stop;
use std::alloc::Global;
use std::io::Write;
use vx_command_pages::{CommandError, Shown, explanation_of};
use vx_data::WriteError;
use vx_dtype::DType;
use vx_records::RecordReader;
use vx_source::{Placed, TypeText};

/// A command whose expressions were read.
#[derive(Clone, Copy)]
pub(crate) struct ReadCommand<'a> {
    /// What is done with the records.
    pub(crate) work: RecordsTask,
    /// The expression, and how many records are gone over at most.
    pub(crate) query: RecordsQuery<'a>,
    /// What is selected.
    pub(crate) value: &'a Placed,
}

/// Does with the records what the command says.
pub(crate) fn worked<R: RecordReader, W: Write, E: Write>(
    alloc: Global,
    command: &ReadCommand<'_>,
    records: &mut R,
    out: &mut W,
    err: &mut E,
) -> Result<(), Stop> {
    let query = &command.query;
    match command.work {
        RecordsTask::Filter => Ok(filter(alloc, query, records, out)?),
        RecordsTask::Count => Ok(counted(alloc, query, records, out)?),
        RecordsTask::Select(format) => selected(alloc, command, format, records, out),
        RecordsTask::FilterByChunks(size) => {
            let query = ChunkedQuery {
                placed: query.placed,
                size,
                limit: query.limit,
            };
            Ok(filter_by_chunks(alloc, &query, records, out, err)?)
        }
        RecordsTask::Evaluate(format) => Ok(evaluated(alloc, query, format, records, out)?),
        RecordsTask::Explain | RecordsTask::ExplainChunks | RecordsTask::PlanChunks(_) => {
            Ok(explained(alloc, query, records, out)?)
        }
    }
}

// Writes of how many records the expression is true.
fn counted<R: RecordReader, W: Write>(
    alloc: Global,
    query: &RecordsQuery<'_>,
    records: &mut R,
    out: &mut W,
) -> Result<(), RowsError> {
    let count = count(alloc, query, records)?;
    unwritten(written_count(out, count))
}

// Writes what is selected of the records of which the expression is true.
fn selected<R: RecordReader, W: Write>(
    alloc: Global,
    command: &ReadCommand<'_>,
    format: OutputFormat,
    records: &mut R,
    out: &mut W,
) -> Result<(), Stop> {
    let query = SelectQuery {
        placed: command.query.placed,
        value: command.value,
        limit: command.query.limit,
    };
    let mut output = Output::new(alloc, format, out);
    let selected = select(alloc, &query, records, &mut output);
    let finished = unwritten(output.finish(alloc));
    selected?;
    Ok(finished?)
}

// Writes what the expression means at the records.
fn evaluated<R: RecordReader, W: Write>(
    alloc: Global,
    query: &RecordsQuery<'_>,
    format: OutputFormat,
    records: &mut R,
    out: &mut W,
) -> Result<(), RowsError> {
    let mut output = Output::new(alloc, format, out);
    let meant = evaluate(alloc, query, records, &mut output);
    let finished = unwritten(output.finish(alloc));
    meant?;
    finished
}

// Writes the type of the records, what becomes of the expression, and what it means at each.
fn explained<R: RecordReader, W: Write>(
    alloc: Global,
    query: &RecordsQuery<'_>,
    records: &mut R,
    out: &mut W,
) -> Result<(), RowsError> {
    let page = explanation(alloc, query.placed, records.dtype())?;
    unwritten(written(out, page.as_str()))?;
    evaluated(alloc, query, OutputFormat::JsonLines, records, out)
}

// The type of the records, what becomes of the expression, and the line above the rows.
fn explanation(alloc: Global, placed: &Placed, dtype: &DType) -> Result<String, RowsError> {
    let page = explanation_of(alloc, placed, dtype)?;
    match format!(in alloc; "schema: {}\n{page}rows:\n", Shown(TypeText(dtype))) {
        Ok(explanation) => Ok(explanation),
        Err(_) => Err(RowsError::Query(CommandError::OutOfMemory)),
    }
}

/// Writes the text.
pub(crate) fn written<W: Write>(out: &mut W, text: &str) -> Result<(), WriteError> {
    out.write_all(text.as_bytes())?;
    Ok(())
}

fn written_count<W: Write>(out: &mut W, count: u64) -> Result<(), WriteError> {
    writeln!(out, "{count}")?;
    Ok(())
}
