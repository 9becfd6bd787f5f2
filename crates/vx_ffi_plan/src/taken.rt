// Plans out of handles.
ghost use Rattle.std.specs.Prelude.{◌≡◌, None, option_map};

use crate::handle::PlanHandle;
use crate::shared::SharedPlan;
use std::alloc::Global;
use std::mem;

/// The plan that the handle has, which has none then.
pub(crate) fn taken(alloc: Global, plan: &mut PlanHandle) -> Option<Box<SharedPlan>>
    ensures plan { option_map (λ kept. kept.value) result ≡ plan.old.plan }
    ensures none { plan.new.plan ≡ None }
{
    mem::replace(plan, PlanHandle::none(alloc)).into_option()
}
