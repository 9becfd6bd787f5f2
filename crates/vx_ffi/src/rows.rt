// Calls that go over records, or over statistics of chunks of them.
ghost use Rattle.vx_ffi_calls.specs.Endings.{EndsWith};
ghost use Rattle.vx_ffi_calls.specs.RowPages.{IsRowsPage};
ghost use Rattle.vx_ffi_calls.specs.RowStops.{IsRowsError, IsVerdictError, RowsStops};
ghost use Rattle.vx_ffi_calls.specs.VerdictPages.{IsVerdictPage};

use std::alloc::Global;
use vx_ffi_calls::{Answer, GivenQuery, answer_rows, answer_verdicts};

/// Answers what the expression means at each record, as a line of JSON each: [`answer_rows`].
#[unsafe(no_mangle)]
pub extern "C" fn vx_eval_json(
    alloc: Global,
    expression: &[u8],
    schema: &[u8],
    records: &[u8],
    buffer: &mut [u8],
    answer: &mut Answer,
) -> u32
    ensures { EndsWith (IsRowsPage expression.now schema.now) (RowsStops (IsRowsError expression.now schema.now) expression.now schema.now) buffer.old result buffer.new answer.new }
{
    let query = GivenQuery { expression, schema };
    answer_rows(alloc, &query, records, buffer, answer).number()
}

/// Answers for each chunk what its statistics tell of the expression, as a line of JSON each:
/// [`answer_verdicts`].
#[unsafe(no_mangle)]
pub extern "C" fn vx_prune(
    alloc: Global,
    expression: &[u8],
    schema: &[u8],
    statistics: &[u8],
    buffer: &mut [u8],
    answer: &mut Answer,
) -> u32
    ensures { EndsWith (IsVerdictPage expression.now schema.now) (RowsStops (IsVerdictError expression.now schema.now) expression.now schema.now) buffer.old result buffer.new answer.new }
{
    let query = GivenQuery { expression, schema };
    answer_verdicts(alloc, &query, statistics, buffer, answer).number()
}
