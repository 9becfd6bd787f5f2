// The call of `prune`.
ghost use Rattle.std.specs.Prelude.{◌≡◌, IfErr, IfOk, IsTrue, OnOk, string_bytes};
ghost use Rattle.vx_fn.specs.Functions.{is_truth};
ghost use Rattle.vx_tree.specs.Trees.{WellTyped, node_type};
ghost use Rattle.vx_tree.specs.Views.{bound_of};
ghost use Rattle.vx_ffi_calls.specs.Endings.{EndsCall};
ghost use Rattle.vx_ffi_calls.specs.RowStops.{IsStatisticsError, IsVerdictError, RowsStops};
ghost use Rattle.vx_ffi_calls.specs.VerdictPages.{AddsVerdictLine, AreVerdictLines, IsVerdictLine, IsVerdictPage, verdict_line, verdict_words};

use crate::answer::{Answer, Status};
use crate::ending::ended;
use crate::rows_stop::{Texts, rows_stop};
use crate::stop::CallError;
use crate::text::{Given, GivenQuery, read_text};
use std::alloc::{AllocError, Global};
use vx_command_pages::{CommandError, Span, read_query};
use vx_commands::{RowsError, condition, read_statistics};
use vx_data::DataError;
use vx_prune::{ChunkRecords, ChunkStats, Verdict, verdict};
use vx_records::{JsonRecords, Record, RecordReader, RecordsError};
use vx_tree::BoundExpression;

/// Answers for each chunk of rows of the schema's type what its statistics tell of the expression, which
/// is one of truth values, as a line of JSON each; the statistics are lines of JSON as [`ChunkRecords`]
/// reads them. Stops at what can't be read, at the first refusal, at an expression of another type, and
/// at the first line that isn't one of statistics or says what can't be so; then no line is answered.
pub fn answer_verdicts(
    alloc: Global,
    query: &GivenQuery<'_>,
    statistics: &[u8],
    buffer: &mut [u8],
    answer: &mut Answer,
) -> Status
    ensures { EndsCall (IsVerdictPage query.now.expression.now query.now.schema.now) (RowsStops (IsVerdictError query.now.expression.now query.now.schema.now) query.now.expression.now query.now.schema.now) buffer.old result buffer.new answer.new }
{
    ended(&judged(alloc, query, statistics), buffer, answer)
}

fn judged(alloc: Global, query: &GivenQuery<'_>, statistics: &[u8]) -> Result<Vec<u8>, CallError>
    ensures prints { IfOk result (λ page. IsVerdictPage query.now.expression.now query.now.schema.now page.items) }
    ensures stop { IfErr result (RowsStops (IsVerdictError query.now.expression.now query.now.schema.now) query.now.expression.now query.now.schema.now) }
{
    let expression = read_text(alloc, Given::Expression, query.expression)?;
    let schema = read_text(alloc, Given::Schema, query.schema)?;
    match verdict_page(alloc, expression, schema, statistics) {
        Ok(page) => Ok(page.into_bytes()),
        Err(error) => {
            let texts = Texts {
                expression,
                schema,
                records: statistics,
            };
            Err(rows_stop(alloc, &error, &texts))
        }
    }
}

// What the statistics tell of the expression, as lines.
#[tactic(auto, using(crate::proofs::Refusals::verdict_error))]
fn verdict_page(
    alloc: Global,
    expression: &str,
    schema: &str,
    statistics: &[u8],
) -> Result<String, RowsError>
    ensures prints { IfOk result (λ page. IsVerdictPage expression.now schema.now (string_bytes page)) }
    ensures error { IfErr result (IsVerdictError expression.now schema.now) }
{
    let query = read_query(alloc, expression, schema)?;
    let tree = condition(alloc, &query.placed, &query.scope)?;
    let Ok(chunks) = ChunkRecords::new(alloc, &query.scope) else {
        return Err(out_of_memory());
    };
    verdict_lines(alloc, &tree, &chunks, statistics)
}

// What they tell of the tree.
fn verdict_lines(
    alloc: Global,
    tree: &BoundExpression,
    chunks: &ChunkRecords<'_>,
    statistics: &[u8],
) -> Result<String, RowsError>
    requires typed { WellTyped (bound_of tree.now) }
    requires truth { IsTrue (is_truth (node_type (bound_of tree.now))) }
    ensures lines { IfOk result (λ page. AreVerdictLines (bound_of tree.now) (string_bytes page)) }
    ensures error { IfErr result IsStatisticsError }
{
    let mut records = opened_statistics(alloc, chunks, statistics)?;
    let mut page = String::new(alloc);
    for _ in 0..u64::MAX {
        match records.read(alloc) {
            Ok(Some(record)) => push_chunk(alloc, tree, chunks, &record, &mut page)?,
            Ok(None) => return Ok(page),
            Err(error) => return Err(unread(error)),
        }
    }
    Ok(page)
}

// The records of the statistics, of which none is read yet.
fn opened_statistics<'a>(
    alloc: Global,
    chunks: &ChunkRecords<'_>,
    statistics: &'a [u8],
) -> Result<JsonRecords<&'a [u8]>, RowsError>
    ensures { IfErr result IsStatisticsError }
{
    match chunks.record_type() {
        Ok(dtype) => Ok(JsonRecords::new(alloc, dtype, statistics)),
        Err(_) => Err(out_of_memory()),
    }
}

// Adds the line of the chunk that the record is of.
fn push_chunk(
    alloc: Global,
    tree: &BoundExpression,
    chunks: &ChunkRecords<'_>,
    record: &Record,
    page: &mut String,
) -> Result<(), RowsError>
    requires typed { WellTyped (bound_of tree.now) }
    requires truth { IsTrue (is_truth (node_type (bound_of tree.now))) }
    ensures line { OnOk result (AddsVerdictLine (bound_of tree.now) (string_bytes page.old) (string_bytes page.new)) }
    ensures error { IfErr result IsStatisticsError }
{
    let line = line_of(alloc, tree, chunks, record)?;
    match page.push_str(line.as_str()) {
        Ok(()) => Ok(()),
        Err(_) => Err(out_of_memory()),
    }
}

// The line of the chunk that the record is of.
fn line_of(
    alloc: Global,
    tree: &BoundExpression,
    chunks: &ChunkRecords<'_>,
    record: &Record,
) -> Result<String, RowsError>
    requires typed { WellTyped (bound_of tree.now) }
    requires truth { IsTrue (is_truth (node_type (bound_of tree.now))) }
    ensures line { IfOk result (λ line. IsVerdictLine (bound_of tree.now) (string_bytes line)) }
    ensures error { IfErr result IsStatisticsError }
{
    let stats = match read_statistics(alloc, chunks, record) {
        Ok(stats) => stats,
        Err(error) => return Err(unread(error)),
    };
    match verdict_line(alloc, tree, &stats) {
        Ok(line) => Ok(line),
        Err(_) => Err(out_of_memory()),
    }
}

// The line of a chunk of which that is known.
fn verdict_line(
    alloc: Global,
    tree: &BoundExpression,
    stats: &ChunkStats,
) -> Result<String, AllocError>
    requires typed { WellTyped (bound_of tree.now) }
    requires truth { IsTrue (is_truth (node_type (bound_of tree.now))) }
    ensures { IfOk result (λ line. string_bytes line ≡ verdict_line (bound_of tree.now) stats.now) }
{
    let rows = stats.rows();
    let words = verdict_words(verdict(tree, stats));
    format!(in alloc; "{{\"rows\":{rows},\"verdict\":\"{words}\"}}\n")
}

fn verdict_words(verdict: Verdict) -> &'static str
    ensures { result.now ≡ verdict_words verdict }
{
    match verdict {
        Verdict::NoRow => "no row",
        Verdict::EveryRow => "every row",
        Verdict::Unknown => "to be read",
    }
}

// The error of what stopped reading the statistics.
fn unread(error: DataError) -> RowsError
    ensures { IsStatisticsError result }
{
    RowsError::Records {
        error: RecordsError::from(error),
        span: Span { start: 0, end: 0 },
    }
}

fn out_of_memory() -> RowsError
    ensures { IsStatisticsError result }
{
    RowsError::Query(CommandError::OutOfMemory)
}
