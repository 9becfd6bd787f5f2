// The calls that make a plan, and let go of one.
ghost use Rattle.std.specs.Prelude.{◌≡◌, IfErr, IfOk, None};
ghost use Rattle.vx_command_pages.specs.Inputs.{IsCommandError};
ghost use Rattle.vx_ffi_calls.specs.Stops.{Stops};
ghost use Rattle.vx_ffi_plan.specs.Held.{NewEnds};
ghost use Rattle.vx_ffi_plan.specs.Kept.{IsKept};

use crate::batch::boxed;
use crate::handle::PlanHandle;
use crate::kept::kept_plan;
use crate::shared::SharedPlan;
use std::alloc::Global;
use vx_ffi_calls::{Answer, CallError, GivenQuery, Status, ended};

/// Lets go of the plan that the handle has, and makes that of the expression over batches of the
/// schema's type, which it has then. Answers the empty text. Stops at what can't be read, and at the
/// first refusal, as [`kept_plan`] does; then the handle has none.
pub fn answer_new(
    alloc: Global,
    query: &GivenQuery<'_>,
    plan: &mut PlanHandle,
    buffer: &mut [u8],
    answer: &mut Answer,
) -> Status
    ensures { NewEnds query.now.expression.now query.now.schema.now plan.new.plan buffer.old result buffer.new answer.new }
{
    free_plan(alloc, plan);
    match shared_plan(alloc, query) {
        Ok(kept) => {
            *plan = PlanHandle::of(kept);
            ended(&Ok(Vec::new(alloc)), buffer, answer)
        }
        Err(stop) => ended(&Err(stop), buffer, answer),
    }
}

// The plan, which one handle has at first.
fn shared_plan(alloc: Global, query: &GivenQuery<'_>) -> Result<Box<SharedPlan>, CallError>
    ensures kept { IfOk result (λ plan. IsKept query.now.expression.now query.now.schema.now plan.value) }
    ensures stop { IfErr result (Stops (IsCommandError query.now.expression.now query.now.schema.now) query.now.expression.now query.now.schema.now) }
{
    let kept = kept_plan(alloc, query)?;
    match SharedPlan::new(alloc, Box::into_inner(kept)) {
        Ok(plan) => boxed(alloc, plan),
        Err(_) => Err(CallError::out_of_memory(alloc)),
    }
}

/// Lets go of the plan that the handle has, if any.
pub fn free_plan(alloc: Global, plan: &mut PlanHandle)
    ensures { plan.new.plan ≡ None }
{
    *plan = PlanHandle::none(alloc);
}
