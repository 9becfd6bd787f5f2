// The rows of a batch at which a plan is true, as bytes.
ghost use Rattle.std.specs.Prelude.{◌≡◌, ◌<◌, ◌⊎◌, IfErr, IfOk, Ok, false, get_or, if◌then◌else◌, length, true};
ghost use Rattle.vx_fn.specs.Functions.{is_truth};
ghost use Rattle.vx_tree.specs.Trees.{node_type};
ghost use Rattle.vx_array_scan.specs.Selected.{IsSelection};
ghost use Rattle.vx_data_buffers.specs.Bytes.{bytes_in};
ghost use Rattle.vx_ffi_calls.specs.Stops.{IsExhausted};
ghost use Rattle.vx_ffi_plan.specs.Kept.{planned_tree, scope_of};
ghost use Rattle.vx_ffi_plan.specs.ScanStops.{IsFaultStop};
ghost use Rattle.vx_ffi_plan.specs.Selections.{IsSelectPage, SelectStops, selection};

use crate::batch::{GivenBatch, array_in, boxed};
use crate::kept::KeptPlan;
use crate::scan_stop::{fault_over, no_condition};
use std::alloc::{AllocError, Global};
use vx_array::Array;
use vx_array_loops::{Bits, tabulated};
use vx_array_scan::select_array;
use vx_dtype::DType;
use vx_ffi_calls::CallError;

/// At which rows of the batch in the buffers the plan's expression is true, as a byte for each: 1 where it
/// is, and 0 where it is false or null. Stops at an expression of another type than truth values; where the
/// buffers have no batch of so many rows of the plan's type, as [`array_of`](vx_data_buffers::array_of) refuses them; and at the first
/// fault of the expression on the batch.
pub(crate) fn selected(
    alloc: Global,
    plan: &KeptPlan,
    batch: &GivenBatch<'_>,
) -> Result<Vec<u8>, CallError>
    ensures page { IfOk result (λ page. IsSelectPage plan.now batch.now.rows (bytes_in batch.now.buffers.now) page.items) }
    ensures stop { IfErr result (SelectStops plan.now batch.now.rows (bytes_in batch.now.buffers.now)) }
{
    let DType::Bool(_) = plan.plan.tree().dtype() else {
        return Err(no_condition(alloc, plan));
    };
    let array = array_in(alloc, plan, batch)?;
    let rows = rows_of(alloc, plan, &array)?;
    match bytes_of(alloc, &rows) {
        Ok(bytes) => Ok(bytes),
        Err(_) => Err(CallError::out_of_memory(alloc)),
    }
}

// The rows of the batch at which the plan's tree is true. Stops at the first fault of the plan's expression.
pub(crate) fn rows_of(alloc: Global, kept: &KeptPlan, batch: &Array) -> Result<Box<Bits>, CallError>
    requires scope { batch.now.type ≡ scope_of kept.now }
    requires truths { is_truth (node_type (planned_tree kept.now)) ≡ true }
    ensures rows { IfOk result (λ rows. IsSelection (planned_tree kept.now) batch.now (Ok rows.value)) }
    ensures stop { IfErr result (λ stop. IsExhausted stop ⊎ IsFaultStop kept.now batch.now stop) }
{
    match select_array(alloc, batch, &kept.plan) {
        Ok(rows) => boxed(alloc, rows),
        Err(_) => Err(fault_over(alloc, kept, batch)),
    }
}

// A byte for each row.
fn bytes_of(alloc: Global, rows: &Bits) -> Result<Vec<u8>, AllocError>
    ensures { IfOk result (λ bytes. bytes.items ≡ selection rows.now) }
{
    tabulated(alloc, rows.len(), 0, |k| byte_at(rows, k))
}

// The byte of a row that is there.
#[inline(always)]
fn byte_at(rows: &Bits, k: usize) -> u8
    requires { k < length rows.now }
    ensures { result ≡ (if get_or rows.now k false then 1 else 0) }
{
    rows.get(k) as u8
}
