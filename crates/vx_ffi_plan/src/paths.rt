// The call that tells the paths of a plan.
ghost use Rattle.std.specs.Prelude.{IfErr, IfOk};
ghost use Rattle.vx_ffi_calls.specs.Endings.{EndsCall};
ghost use Rattle.vx_ffi_calls.specs.Stops.{IsExhausted};
ghost use Rattle.vx_ffi_plan.specs.Kept.{IsPathsPage};

use crate::kept::KeptPlan;
use std::alloc::Global;
use vx_command_pages::paths_page;
use vx_ffi_calls::{Answer, CallError, Status, ended};

/// Answers the paths that the plan reads, as JSON on one line, each as an array of its names. Stops
/// only where memory runs out.
pub fn answer_paths(
    alloc: Global,
    plan: &KeptPlan,
    buffer: &mut [u8],
    answer: &mut Answer,
) -> Status
    ensures { EndsCall (IsPathsPage plan.now) IsExhausted buffer.old result buffer.new answer.new }
{
    ended(&paths_of(alloc, plan), buffer, answer)
}

fn paths_of(alloc: Global, plan: &KeptPlan) -> Result<Vec<u8>, CallError>
    ensures prints { IfOk result (λ page. IsPathsPage plan.now page.items) }
    ensures stop { IfErr result IsExhausted }
{
    match paths_page(alloc, plan.plan.paths()) {
        Ok(page) => Ok(page.into_bytes()),
        Err(_) => Err(CallError::out_of_memory(alloc)),
    }
}
