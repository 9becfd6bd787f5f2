// A plan as a program in another language keeps it.
ghost use Rattle.std.specs.Prelude.{◌≡◌, Option, Some, None};
ghost use Rattle.std.specs.Option.{option_map};
ghost use Rattle.vx_ffi_plan.specs.declared.kept.KeptPlan.{KeptPlan};
ghost use Rattle.vx_ffi_plan.specs.Handles.{plan_coded, plan_owns};

mod parts;

use crate::shared::SharedPlan;
use parts::Parts;
use std::alloc::Global;
use std::marker::Model;
use std::ptr;

/// A plan that a program in another language keeps between calls, or none. For C it is a struct of one
/// pointer, `struct { void *at; }`, which is null where there is no plan. Such a program starts with null,
/// and hands each call the handle as the call before left it. Dropping a handle frees its plan.
#[repr(C)]
pub struct PlanHandle {
    at: *mut (),
    alloc: Global,
    pub ghost plan: { Option KeptPlan } by { plan_coded },
}

impl Model for PlanHandle {
    ghost also_owns = { λ h. plan_owns h.alloc h.at h.plan };
}

impl Drop for PlanHandle {
    fn drop(self) {
        let _plan = self.into_option();
    }
}

impl PlanHandle {
    /// A handle of no plan.
    pub fn none(alloc: Global) -> PlanHandle
        ensures { result.plan ≡ None }
    {
        PlanHandle {
            at: ptr::null_mut(),
            alloc,
        }
    }

    /// A handle of the plan, which stays where it is.
    pub fn of(plan: Box<SharedPlan>) -> PlanHandle
        ensures { result.plan ≡ Some plan.value }
    {
        PlanHandle::of_parts(Parts::of(plan))
    }

    fn of_parts(parts: Parts<SharedPlan, Global>) -> PlanHandle
        ensures { result.plan ≡ Some parts.value }
    {
        let Parts { ptr, alloc } = parts;
        PlanHandle {
            at: ptr as *mut (),
            alloc,
        }
    }

    /// The plan, where there is one. `Some` exactly where the pointer isn't null.
    pub fn into_option(self) -> Option<Box<SharedPlan>>
        ensures { option_map (λ b. b.value) result ≡ self.plan }
    {
        let PlanHandle { at, alloc } = self;
        if at.is_null() {
            return None;
        }
        Some(unsafe { Box::from_raw(alloc, at as *mut SharedPlan) })
    }
}
