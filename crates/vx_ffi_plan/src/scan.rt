// What a plan means at each row of a batch, as lines of JSON.
ghost use Rattle.std.specs.Prelude.{◌≡◌, ◌⊎◌, IfErr, IfOk};
ghost use Rattle.vx_value.specs.Columns.{Batch};
ghost use Rattle.vx_data_buffers.specs.Bytes.{bytes_in};
ghost use Rattle.vx_data.specs.Lines.{json_lines};
ghost use Rattle.vx_ffi_calls.specs.Stops.{IsExhausted};
ghost use Rattle.vx_ffi_plan.specs.Kept.{IsScanPage};
ghost use Rattle.vx_ffi_plan.specs.ScanStops.{IsBadData, ScanStops};

use crate::batch::{GivenBatch, array_in};
use crate::kept::KeptPlan;
use crate::scan_stop::write_stop;
use crate::values::values_of;
use std::alloc::Global;
use vx_array::Array;
use vx_data::write_json_lines;
use vx_ffi_calls::CallError;
use vx_value::Column;

/// What the plan's expression means at each row of the batch in the buffers, as a line of JSON each. Stops
/// where the buffers have no batch of so many rows of the plan's type, as
/// [`array_of`](vx_data_buffers::array_of) refuses them; at the first fault of the expression on the batch;
/// and where a value can't be written, as [`write_json_lines`] refuses it.
pub(crate) fn scanned(
    alloc: Global,
    plan: &KeptPlan,
    batch: &GivenBatch<'_>,
) -> Result<Vec<u8>, CallError>
    ensures prints { IfOk result (λ page. IsScanPage plan.now batch.now.rows (bytes_in batch.now.buffers.now) page.items) }
    ensures stop { IfErr result (ScanStops plan.now batch.now.rows (bytes_in batch.now.buffers.now)) }
{
    let array = array_in(alloc, plan, batch)?;
    let values = values_of(alloc, plan, &array)?;
    page_of(alloc, &values)
}

// A line of JSON for each value, whose rows are read one by one for it.
fn page_of(alloc: Global, values: &Array) -> Result<Vec<u8>, CallError>
    ensures lines { IfOk result (λ lines. lines.items ≡ json_lines values.now.type values.now.rows) }
    ensures stop { IfErr result (λ stop. IsExhausted stop ⊎ IsBadData stop) }
{
    match values.to_column(alloc) {
        Ok(column) => lines_of(alloc, &column),
        Err(_) => Err(CallError::out_of_memory(alloc)),
    }
}

// A line of JSON for each value.
fn lines_of(alloc: Global, values: &Column) -> Result<Vec<u8>, CallError>
    ensures lines { IfOk result (λ lines. lines.items ≡ json_lines values.now.type values.now.rows) }
    ensures stop { IfErr result (λ stop. IsExhausted stop ⊎ IsBadData stop) }
{
    let mut lines = Vec::new(alloc);
    match write_json_lines(alloc, values, &mut lines) {
        Ok(()) => Ok(lines),
        Err(error) => Err(write_stop(alloc, &error)),
    }
}
