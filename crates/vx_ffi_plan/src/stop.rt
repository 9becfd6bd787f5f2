// What stops a call on a handle without a plan.
ghost use Rattle.vx_ffi_plan.specs.Held.{IsPlanless};

use std::alloc::Global;
use vx_ffi_calls::{CallError, Place, Status};

/// The stop where there is no plan.
pub(crate) fn planless(alloc: Global) -> CallError
    ensures { IsPlanless result }
{
    let message = format_args!("error: there is no plan: vx_plan_new makes one");
    CallError::new(alloc, Status::NoPlan, Place::nowhere(), &message)
}
