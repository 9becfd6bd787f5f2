// The calls on a plan.
ghost use Rattle.std.specs.Prelude.{◌≡◌, IfErr, IfOk};
ghost use Rattle.vx_data_buffers.specs.Bytes.{bytes_in};
ghost use Rattle.vx_ffi_calls.specs.Stops.{IsExhausted};
ghost use Rattle.vx_ffi_plan.specs.Kept.{IsPathsPage, IsPlanTypePage, IsScopePage};
ghost use Rattle.vx_ffi_plan.specs.Held.{HeldEnds};
ghost use Rattle.vx_ffi_plan.specs.Batches.{BatchStops, IsBatchPage};

use crate::batch::{Asked, GivenBatch};
use crate::handle::PlanHandle;
use crate::kept::KeptPlan;
use crate::laid::{filtered_column, scanned_column};
use crate::paths::answer_paths;
use crate::scan::scanned;
use crate::scope::{answer_scope, answer_type};
use crate::select::selected;
use crate::stop::planless;
use crate::taken::taken;
use std::alloc::Global;
use vx_ffi_calls::{Answer, CallError, Status, ended};

/// Answers the paths that the handle's plan reads: [`answer_paths`]. Stops where it has none.
pub fn answer_held_paths(
    alloc: Global,
    plan: &mut PlanHandle,
    buffer: &mut [u8],
    answer: &mut Answer,
) -> Status
    ensures ends { HeldEnds IsPathsPage (λ _. IsExhausted) plan.old.plan buffer.old result buffer.new answer.new }
    ensures kept { plan.new.plan ≡ plan.old.plan }
{
    match taken(alloc, plan) {
        Some(kept) => {
            let status = answer_paths(alloc, kept.plan(), buffer, answer);
            *plan = PlanHandle::of(kept);
            status
        }
        None => ended(&Err(planless(alloc)), buffer, answer),
    }
}

/// Answers the type of the batches of the handle's plan: [`answer_scope`]. Stops where it has none.
pub fn answer_held_scope(
    alloc: Global,
    plan: &mut PlanHandle,
    buffer: &mut [u8],
    answer: &mut Answer,
) -> Status
    ensures ends { HeldEnds IsScopePage (λ _. IsExhausted) plan.old.plan buffer.old result buffer.new answer.new }
    ensures kept { plan.new.plan ≡ plan.old.plan }
{
    match taken(alloc, plan) {
        Some(kept) => {
            let status = answer_scope(alloc, kept.plan(), buffer, answer);
            *plan = PlanHandle::of(kept);
            status
        }
        None => ended(&Err(planless(alloc)), buffer, answer),
    }
}

/// Answers the type of the expression of the handle's plan: [`answer_type`]. Stops where it has none.
pub fn answer_held_type(
    alloc: Global,
    plan: &mut PlanHandle,
    buffer: &mut [u8],
    answer: &mut Answer,
) -> Status
    ensures ends { HeldEnds IsPlanTypePage (λ _. IsExhausted) plan.old.plan buffer.old result buffer.new answer.new }
    ensures kept { plan.new.plan ≡ plan.old.plan }
{
    match taken(alloc, plan) {
        Some(kept) => {
            let status = answer_type(alloc, kept.plan(), buffer, answer);
            *plan = PlanHandle::of(kept);
            status
        }
        None => ended(&Err(planless(alloc)), buffer, answer),
    }
}

/// Answers what the call asks of the handle's plan over the batch in the buffers: a line of JSON for each
/// value; a byte for each row, which is 1 where the expression is true; the values, or the rows where it is
/// true, as a column in buffers. Stops where the handle has no plan, and as reading the buffers, the plan's
/// expression or writing what is answered does.
pub fn answer_held_batch(
    alloc: Global,
    plan: &mut PlanHandle,
    batch: &GivenBatch<'_>,
    buffer: &mut [u8],
    answer: &mut Answer,
) -> Status
    ensures ends { HeldEnds (λ kept. IsBatchPage batch.now.asked kept batch.now.rows (bytes_in batch.now.buffers.now)) (λ kept. BatchStops batch.now.asked kept batch.now.rows (bytes_in batch.now.buffers.now)) plan.old.plan buffer.old result buffer.new answer.new }
    ensures kept { plan.new.plan ≡ plan.old.plan }
{
    match taken(alloc, plan) {
        Some(kept) => {
            let status = ended(&page_of(alloc, kept.plan(), batch), buffer, answer);
            *plan = PlanHandle::of(kept);
            status
        }
        None => ended(&Err(planless(alloc)), buffer, answer),
    }
}

// The page of what the call asks of the batch.
fn page_of(alloc: Global, plan: &KeptPlan, batch: &GivenBatch<'_>) -> Result<Vec<u8>, CallError>
    ensures page { IfOk result (λ page. IsBatchPage batch.now.asked plan.now batch.now.rows (bytes_in batch.now.buffers.now) page.items) }
    ensures stop { IfErr result (BatchStops batch.now.asked plan.now batch.now.rows (bytes_in batch.now.buffers.now)) }
{
    match batch.asked {
        Asked::Values => scanned(alloc, plan, batch),
        Asked::Rows => selected(alloc, plan, batch),
        Asked::Column => scanned_column(alloc, plan, batch),
        Asked::Filtered => filtered_column(alloc, plan, batch),
    }
}
