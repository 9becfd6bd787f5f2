// The call of `eval`.
ghost use Rattle.std.specs.Prelude.{◌≡◌, IfErr, IfOk};
ghost use Rattle.vx_command_pages.specs.declared.report.Span.{Span};
ghost use Rattle.vx_records.specs.declared.error.RecordsError.TheVariants.{Write};
ghost use Rattle.vx_commands.specs.declared.error.RowsError.TheVariants.{Records};
ghost use Rattle.vx_ffi_calls.specs.Endings.{EndsCall};
ghost use Rattle.vx_ffi_calls.specs.RowPages.{IsRowsPage};
ghost use Rattle.vx_ffi_calls.specs.RowStops.{IsRowsError, RowsStops};

use crate::answer::{Answer, Status};
use crate::columns::Columns;
use crate::ending::ended;
use crate::rows_stop::{Texts, rows_stop};
use crate::stop::CallError;
use crate::text::{Given, GivenQuery, read_text};
use std::alloc::Global;
use vx_command_pages::{ReadQuery, Span, read_query};
use vx_commands::{RecordsQuery, RowsError, evaluate};
use vx_data::WriteError;
use vx_records::{JsonRecords, RecordsError};

/// Answers what the expression means at each record, as a line of JSON each; the records are lines of
/// JSON of the schema's type. Stops at what can't be read, at the first refusal, at the first record
/// that isn't of the type, and at the first of the expression's faults on records that are read
/// together; then no line is answered.
pub fn answer_rows(
    alloc: Global,
    query: &GivenQuery<'_>,
    records: &[u8],
    buffer: &mut [u8],
    answer: &mut Answer,
) -> Status
    ensures { EndsCall (IsRowsPage query.now.expression.now query.now.schema.now) (RowsStops (IsRowsError query.now.expression.now query.now.schema.now) query.now.expression.now query.now.schema.now) buffer.old result buffer.new answer.new }
{
    ended(&evaluated(alloc, query, records), buffer, answer)
}

fn evaluated(alloc: Global, query: &GivenQuery<'_>, records: &[u8]) -> Result<Vec<u8>, CallError>
    ensures prints { IfOk result (λ page. IsRowsPage query.now.expression.now query.now.schema.now page.items) }
    ensures stop { IfErr result (RowsStops (IsRowsError query.now.expression.now query.now.schema.now) query.now.expression.now query.now.schema.now) }
{
    let expression = read_text(alloc, Given::Expression, query.expression)?;
    let schema = read_text(alloc, Given::Schema, query.schema)?;
    match rows_of(alloc, expression, schema, records) {
        Ok(rows) => Ok(rows),
        Err(error) => {
            let texts = Texts {
                expression,
                schema,
                records,
            };
            Err(rows_stop(alloc, &error, &texts))
        }
    }
}

// What the expression means at the records, as lines.
#[tactic(auto, using(crate::proofs::Refusals::rows_error))]
fn rows_of(
    alloc: Global,
    expression: &str,
    schema: &str,
    records: &[u8],
) -> Result<Vec<u8>, RowsError>
    ensures prints { IfOk result (λ page. IsRowsPage expression.now schema.now page.items) }
    ensures error { IfErr result (IsRowsError expression.now schema.now) }
{
    let ReadQuery { placed, scope } = read_query(alloc, expression, schema)?;
    let mut records = JsonRecords::new(alloc, Box::into_inner(scope), records);
    let mut columns = Columns::new(alloc);
    let query = RecordsQuery {
        placed: &placed,
        limit: u64::MAX,
    };
    evaluate(alloc, &query, &mut records, &mut columns)?;
    match columns.lines(alloc) {
        Ok(lines) => Ok(lines),
        Err(error) => Err(unwritten(error)),
    }
}

// The error of a row that can't be written.
fn unwritten(error: WriteError) -> RowsError
    ensures { (span : Span) × (result ≡ Records (Write error) span) }
{
    RowsError::Records {
        error: RecordsError::Write(error),
        span: Span { start: 0, end: 0 },
    }
}
