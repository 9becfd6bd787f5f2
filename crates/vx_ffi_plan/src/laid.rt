// What a plan means at each row of a batch, and the rows at which it is true, as buffers of a column.
ghost use Rattle.std.specs.Prelude.{◌≡◌, ◌⊎◌, IfErr, IfOk, Ok, false, true};
ghost use Rattle.vx_value.specs.Columns.{Batch, batch};
ghost use Rattle.vx_array_build.specs.Taken.{rows_where};
ghost use Rattle.vx_fn.specs.Functions.{is_truth};
ghost use Rattle.vx_tree.specs.Trees.{node_type};
ghost use Rattle.vx_data_buffers.specs.Bytes.{bytes_in};
ghost use Rattle.vx_ffi_calls.specs.Stops.{IsExhausted};
ghost use Rattle.vx_ffi_plan.specs.Columns.{FilterStops, IsColumnOf, IsColumnPage, IsFilteredPage};
ghost use Rattle.vx_ffi_plan.specs.Kept.{planned_tree, scope_of};
ghost use Rattle.vx_ffi_plan.specs.ScanStops.{IsBadData, IsFaultStop, ScanStops};

use crate::batch::{GivenBatch, array_in, boxed};
use crate::frames::framed;
use crate::kept::KeptPlan;
use crate::scan_stop::{layout_stop, no_condition};
use crate::select::rows_of;
use crate::values::values_of;
use std::alloc::Global;
use vx_array::Array;
use vx_array_build::filter;
use vx_data_buffers::buffers_of;
use vx_dtype::DType;
use vx_ffi_calls::CallError;

/// What the plan's expression means at each row of the batch in the buffers, as a column in buffers. Stops as
/// a scan into lines does, and where the values can't be laid out, as [`buffers_of`] refuses them.
pub(crate) fn scanned_column(
    alloc: Global,
    plan: &KeptPlan,
    batch: &GivenBatch<'_>,
) -> Result<Vec<u8>, CallError>
    ensures page { IfOk result (λ page. IsColumnPage plan.now batch.now.rows (bytes_in batch.now.buffers.now) page.items) }
    ensures stop { IfErr result (ScanStops plan.now batch.now.rows (bytes_in batch.now.buffers.now)) }
{
    let array = array_in(alloc, plan, batch)?;
    let values = values_of(alloc, plan, &array)?;
    column_page(alloc, &values)
}

/// The rows of the batch in the buffers at which the plan's expression is true, as a column in buffers. Stops
/// as a selection of rows does, and where the rows can't be laid out, as [`buffers_of`] refuses them.
pub(crate) fn filtered_column(
    alloc: Global,
    plan: &KeptPlan,
    batch: &GivenBatch<'_>,
) -> Result<Vec<u8>, CallError>
    ensures page { IfOk result (λ page. IsFilteredPage plan.now batch.now.rows (bytes_in batch.now.buffers.now) page.items) }
    ensures stop { IfErr result (FilterStops plan.now batch.now.rows (bytes_in batch.now.buffers.now)) }
{
    let DType::Bool(_) = plan.plan.tree().dtype() else {
        return Err(no_condition(alloc, plan));
    };
    let array = array_in(alloc, plan, batch)?;
    let rows = rows_of(alloc, plan, &array)?;
    match filter(alloc, &array, &rows) {
        Ok(kept) => column_page(alloc, &kept),
        Err(_) => Err(CallError::out_of_memory(alloc)),
    }
}

// The column's buffers, one behind the other.
fn column_page(alloc: Global, column: &Array) -> Result<Vec<u8>, CallError>
    ensures page { IfOk result (λ page. IsColumnOf column.now page.items) }
    ensures stop { IfErr result (λ stop. IsExhausted stop ⊎ IsBadData stop) }
{
    match buffers_of(alloc, column) {
        Ok(buffers) => match framed(alloc, column.len(), buffers.as_slice()) {
            Ok(page) => Ok(page),
            Err(_) => Err(CallError::out_of_memory(alloc)),
        },
        Err(error) => Err(layout_stop(alloc, &error)),
    }
}
