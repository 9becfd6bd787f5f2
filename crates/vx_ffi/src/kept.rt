// Calls on a plan that the caller keeps.
ghost use Rattle.std.specs.Prelude.{◌≡◌, None};
ghost use Rattle.vx_data_buffers.specs.Bytes.{bytes_in};
ghost use Rattle.vx_ffi_calls.specs.Stops.{IsExhausted};
ghost use Rattle.vx_ffi_plan.specs.Columns.{FilterStops, IsColumnPage, IsFilteredPage};
ghost use Rattle.vx_ffi_plan.specs.Kept.{IsPathsPage, IsPlanTypePage, IsScanPage, IsScopePage};
ghost use Rattle.vx_ffi_plan.specs.ScanStops.{ScanStops};
ghost use Rattle.vx_ffi_plan.specs.Selections.{IsSelectPage, SelectStops};
ghost use Rattle.vx_ffi_plan.specs.Held.{HeldEndsWith, NewEndsWith, ShareEndsWith};

use std::alloc::Global;
use vx_data_buffers::Buffer;
use vx_ffi_calls::{Answer, GivenQuery};
use vx_ffi_plan::{
    Asked, GivenBatch, PlanHandle, answer_held_batch, answer_held_paths, answer_held_scope,
    answer_held_type, answer_new, free_plan, share_plan,
};

/// Makes the plan of the expression over batches of the schema's type: [`answer_new`].
#[unsafe(no_mangle)]
pub extern "C" fn vx_plan_new(
    alloc: Global,
    expression: &[u8],
    schema: &[u8],
    plan: &mut PlanHandle,
    buffer: &mut [u8],
    answer: &mut Answer,
) -> u32
    ensures { NewEndsWith expression.now schema.now plan.new.plan buffer.old result buffer.new answer.new }
{
    let query = GivenQuery { expression, schema };
    answer_new(alloc, &query, plan, buffer, answer).number()
}

/// Answers the paths that the plan reads, as JSON on one line: [`answer_held_paths`].
#[unsafe(no_mangle)]
pub extern "C" fn vx_plan_paths(
    alloc: Global,
    plan: &mut PlanHandle,
    buffer: &mut [u8],
    answer: &mut Answer,
) -> u32
    ensures ends { HeldEndsWith IsPathsPage (λ _. IsExhausted) plan.old.plan buffer.old result buffer.new answer.new }
    ensures kept { plan.new.plan ≡ plan.old.plan }
{
    answer_held_paths(alloc, plan, buffer, answer).number()
}

/// Answers the type of the plan's batches, as source text on a line: [`answer_held_scope`].
#[unsafe(no_mangle)]
pub extern "C" fn vx_plan_scope(
    alloc: Global,
    plan: &mut PlanHandle,
    buffer: &mut [u8],
    answer: &mut Answer,
) -> u32
    ensures ends { HeldEndsWith IsScopePage (λ _. IsExhausted) plan.old.plan buffer.old result buffer.new answer.new }
    ensures kept { plan.new.plan ≡ plan.old.plan }
{
    answer_held_scope(alloc, plan, buffer, answer).number()
}

/// Answers the type of the plan's expression, as source text on a line: [`answer_held_type`].
#[unsafe(no_mangle)]
pub extern "C" fn vx_plan_type(
    alloc: Global,
    plan: &mut PlanHandle,
    buffer: &mut [u8],
    answer: &mut Answer,
) -> u32
    ensures ends { HeldEndsWith IsPlanTypePage (λ _. IsExhausted) plan.old.plan buffer.old result buffer.new answer.new }
    ensures kept { plan.new.plan ≡ plan.old.plan }
{
    answer_held_type(alloc, plan, buffer, answer).number()
}

/// Answers what the plan's expression means at each row of the batch in the buffers, as a line of JSON
/// each: [`answer_held_batch`].
#[unsafe(no_mangle)]
pub extern "C" fn vx_plan_scan(
    alloc: Global,
    plan: &mut PlanHandle,
    rows: usize,
    buffers: &[Buffer<'_>],
    buffer: &mut [u8],
    answer: &mut Answer,
) -> u32
    ensures ends { HeldEndsWith (λ kept. IsScanPage kept rows (bytes_in buffers.now)) (λ kept. ScanStops kept rows (bytes_in buffers.now)) plan.old.plan buffer.old result buffer.new answer.new }
    ensures kept { plan.new.plan ≡ plan.old.plan }
{
    let batch = GivenBatch {
        asked: Asked::Values,
        rows,
        buffers,
    };
    answer_held_batch(alloc, plan, &batch, buffer, answer).number()
}

/// Answers at which rows of the batch in the buffers the plan's expression is true, as a byte for each: 1
/// where it is, else 0: [`answer_held_batch`].
#[unsafe(no_mangle)]
pub extern "C" fn vx_plan_select(
    alloc: Global,
    plan: &mut PlanHandle,
    rows: usize,
    buffers: &[Buffer<'_>],
    buffer: &mut [u8],
    answer: &mut Answer,
) -> u32
    ensures ends { HeldEndsWith (λ kept. IsSelectPage kept rows (bytes_in buffers.now)) (λ kept. SelectStops kept rows (bytes_in buffers.now)) plan.old.plan buffer.old result buffer.new answer.new }
    ensures kept { plan.new.plan ≡ plan.old.plan }
{
    let batch = GivenBatch {
        asked: Asked::Rows,
        rows,
        buffers,
    };
    answer_held_batch(alloc, plan, &batch, buffer, answer).number()
}

/// Answers what the plan's expression means at each row of the batch in the buffers, as a column in buffers:
/// [`answer_held_batch`].
#[unsafe(no_mangle)]
pub extern "C" fn vx_plan_scan_column(
    alloc: Global,
    plan: &mut PlanHandle,
    rows: usize,
    buffers: &[Buffer<'_>],
    buffer: &mut [u8],
    answer: &mut Answer,
) -> u32
    ensures ends { HeldEndsWith (λ kept. IsColumnPage kept rows (bytes_in buffers.now)) (λ kept. ScanStops kept rows (bytes_in buffers.now)) plan.old.plan buffer.old result buffer.new answer.new }
    ensures kept { plan.new.plan ≡ plan.old.plan }
{
    let batch = GivenBatch {
        asked: Asked::Column,
        rows,
        buffers,
    };
    answer_held_batch(alloc, plan, &batch, buffer, answer).number()
}

/// Answers the rows of the batch in the buffers at which the plan's expression is true, as a column in
/// buffers: [`answer_held_batch`].
#[unsafe(no_mangle)]
pub extern "C" fn vx_plan_filter_column(
    alloc: Global,
    plan: &mut PlanHandle,
    rows: usize,
    buffers: &[Buffer<'_>],
    buffer: &mut [u8],
    answer: &mut Answer,
) -> u32
    ensures ends { HeldEndsWith (λ kept. IsFilteredPage kept rows (bytes_in buffers.now)) (λ kept. FilterStops kept rows (bytes_in buffers.now)) plan.old.plan buffer.old result buffer.new answer.new }
    ensures kept { plan.new.plan ≡ plan.old.plan }
{
    let batch = GivenBatch {
        asked: Asked::Filtered,
        rows,
        buffers,
    };
    answer_held_batch(alloc, plan, &batch, buffer, answer).number()
}

/// Makes the other a handle of the same plan: [`share_plan`].
#[unsafe(no_mangle)]
pub extern "C" fn vx_plan_share(alloc: Global, plan: &mut PlanHandle, other: &mut PlanHandle) -> u32
    ensures ends { ShareEndsWith plan.old.plan result other.new.plan }
    ensures kept { plan.new.plan ≡ plan.old.plan }
{
    share_plan(alloc, plan, other).number()
}

/// Lets go of the plan, if there is one: [`free_plan`].
#[unsafe(no_mangle)]
pub extern "C" fn vx_plan_free(alloc: Global, plan: &mut PlanHandle)
    ensures { plan.new.plan ≡ None }
{
    free_plan(alloc, plan);
}
