// A batch that a call is given, and what it asks of it.
ghost use Rattle.std.specs.Prelude.{◌≡◌, ◌⊎◌, IfErr, IfOk, Ok};
ghost use Rattle.vx_data_buffers.specs.Bytes.{bytes_in};
ghost use Rattle.vx_data_buffers.specs.Rows.{column_said};
ghost use Rattle.vx_ffi_calls.specs.Stops.{IsExhausted};
ghost use Rattle.vx_ffi_plan.specs.Kept.{scope_of};
ghost use Rattle.vx_ffi_plan.specs.ScanStops.{IsNoBatch};
ghost use Rattle.vx_value.specs.Views.{type_of};

use crate::kept::KeptPlan;
use crate::scan_stop::buffer_stop;
use std::alloc::Global;
use vx_array::Array;
use vx_data_buffers::{Buffer, array_of};
use vx_dtype::DType;
use vx_ffi_calls::CallError;

/// A batch, as a call is given it.
#[derive(Clone, Copy, Debug)]
pub struct GivenBatch<'a> {
    /// What is asked of it.
    pub asked: Asked,
    /// How many rows it has.
    pub rows: usize,
    /// The buffers of its column, as [`column_of`](vx_data_buffers::column_of) reads them.
    pub buffers: &'a [Buffer<'a>],
}

/// What a call asks of a batch.
#[derive(Clone, Copy, Debug, PartialEq, Eq)]
pub enum Asked {
    /// The value of the plan's expression at each row.
    Values,
    /// The rows at which it is true.
    Rows,
    /// The value of the plan's expression at each row, as a column in buffers.
    Column,
    /// The batch's rows at which it is true, as a column in buffers.
    Filtered,
}

// The type of the plan's batches.
pub(crate) fn scope(alloc: Global, plan: &KeptPlan) -> Result<DType, CallError>
    ensures scope { IfOk result (λ t. type_of t ≡ scope_of plan.now) }
    ensures stop { IfErr result IsExhausted }
{
    match plan.plan.scope().clone() {
        Ok(scope) => Ok(scope),
        Err(_) => Err(CallError::out_of_memory(alloc)),
    }
}

// The batch in the buffers.
pub(crate) fn array_in(
    alloc: Global,
    plan: &KeptPlan,
    batch: &GivenBatch<'_>,
) -> Result<Box<Array>, CallError>
    ensures batch { IfOk result (λ array. column_said (bytes_in batch.now.buffers.now) (scope_of plan.now) batch.now.rows ≡ Ok array.value) }
    ensures stop { IfErr result (λ stop. IsExhausted stop ⊎ IsNoBatch plan.now batch.now.rows (bytes_in batch.now.buffers.now) stop) }
{
    match array_of(alloc, scope(alloc, plan)?, batch.rows, batch.buffers) {
        Ok(array) => boxed(alloc, array),
        Err(error) => Err(buffer_stop(alloc, &error)),
    }
}

// What was read, behind a box.
pub(crate) fn boxed<T: Drop>(alloc: Global, read: T) -> Result<Box<T>, CallError>
    ensures same { IfOk result (λ b. b.value ≡ read) }
    ensures stop { IfErr result IsExhausted }
{
    match Box::new(alloc, read) {
        Ok(read) => Ok(read),
        Err(_) => Err(CallError::out_of_memory(alloc)),
    }
}
