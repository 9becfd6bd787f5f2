// A plan that several handles may have.
ghost use Rattle.std.specs.Prelude.{◌≡◌, IfOk};

use crate::kept::KeptPlan;
use std::alloc::{AllocError, Global};
use std::marker::Model;
use std::sync::Arc;

/// A plan that several handles may have, each on a thread of its own. It is freed with the last of them.
#[derive(Drop)]
pub struct SharedPlan {
    plan: Arc<KeptPlan>,
}

impl Model for SharedPlan {
    ghost use Rattle.vx_ffi_plan.specs.declared.kept.KeptPlan.{KeptPlan};
    ghost use Rattle.vx_ffi_plan.specs.contracts.kept.KeptPlan as kept;

    ghost Value = { KeptPlan };

    ghost view = { λ s. s.plan.value };

    ghost coded = { kept.the_row.coded };
}

impl SharedPlan {
    /// The plan, which has no other owner yet.
    pub fn new(alloc: Global, plan: KeptPlan) -> Result<SharedPlan, AllocError>
        ensures { IfOk result (λ shared. shared ≡ plan) }
    {
        match Arc::new(alloc, plan) {
            Ok(plan) => Ok(SharedPlan { plan }),
            Err(_) => Err(AllocError),
        }
    }

    /// The plan itself.
    pub fn plan(&self) -> &KeptPlan
        ensures { result.now ≡ self.now }
    {
        &self.plan
    }

    /// Another owner of the plan, which isn't copied: a count goes up.
    pub fn share(&self) -> Result<SharedPlan, AllocError>
        ensures { IfOk result (λ shared. shared ≡ self.now) }
    {
        Ok(SharedPlan {
            plan: self.plan.clone()?,
        })
    }
}
