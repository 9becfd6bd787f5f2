// The call that shares a plan.
ghost use Rattle.std.specs.Prelude.{◌≡◌, IfOk};
ghost use Rattle.vx_ffi_plan.specs.Held.{ShareEnds};

use crate::handle::PlanHandle;
use crate::made::free_plan;
use crate::shared::SharedPlan;
use crate::taken::taken;
use std::alloc::{AllocError, Global};
use vx_ffi_calls::Status;

/// Lets go of the plan that the other handle has, which has that of the first one then, as this does still:
/// the plan isn't copied, and is freed with its last handle. Answers `NoPlan` where the first has none, and
/// `OutOfMemory` for want of it; then the other has none.
pub fn share_plan(alloc: Global, plan: &mut PlanHandle, other: &mut PlanHandle) -> Status
    ensures ends { ShareEnds plan.old.plan result other.new.plan }
    ensures kept { plan.new.plan ≡ plan.old.plan }
{
    free_plan(alloc, other);
    let Some(kept) = taken(alloc, plan) else {
        return Status::NoPlan;
    };
    let made = another(alloc, &kept);
    *plan = PlanHandle::of(kept);
    match made {
        Ok(shared) => {
            *other = PlanHandle::of(shared);
            Status::Answered
        }
        Err(_) => Status::OutOfMemory,
    }
}

// Another owner of the plan, behind a box.
fn another(alloc: Global, plan: &SharedPlan) -> Result<Box<SharedPlan>, AllocError>
    ensures { IfOk result (λ shared. shared.value ≡ plan.now) }
{
    Ok(Box::new(alloc, plan.share()?)?)
}
