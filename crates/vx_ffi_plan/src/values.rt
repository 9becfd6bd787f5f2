// What a plan gives of a batch.
ghost use Rattle.std.specs.Prelude.{◌≡◌, ◌⊎◌, IfErr, IfOk, Ok};
ghost use Rattle.vx_value.specs.Views.{type_of};
ghost use Rattle.vx_tree.specs.Views.{bound_of};
ghost use Rattle.vx_query_split.specs.Division.{parts_of};
ghost use Rattle.vx_scan.specs.Scans.{Scanned};
ghost use Rattle.vx_ffi_calls.specs.Stops.{IsExhausted};
ghost use Rattle.vx_ffi_plan.specs.Kept.{IsScanOf, scope_of};
ghost use Rattle.vx_ffi_plan.specs.ScanStops.{IsFaultStop};

use crate::batch::boxed;
use crate::kept::KeptPlan;
use crate::scan_stop::fault_over;
use std::alloc::Global;
use vx_array::Array;
use vx_array_projection::ArrayPlanReader;
use vx_array_scan::scan_array;
use vx_dtype::VortexResult;
use vx_ffi_calls::CallError;
use vx_scan::ScanPlan;

/// What the plan gives of the batch, which is of its type, in each row. Stops at the first fault of
/// the plan's expression on the batch.
pub(crate) fn values_of(
    alloc: Global,
    kept: &KeptPlan,
    batch: &Array,
) -> Result<Box<Array>, CallError>
    requires { batch.now.type ≡ scope_of kept.now }
    ensures scanned { IfOk result (λ values. IsScanOf kept.now batch.now values.value) }
    ensures stop { IfErr result (λ stop. IsExhausted stop ⊎ IsFaultStop kept.now batch.now stop) }
{
    match scan_of(alloc, &kept.plan, batch) {
        Ok(values) => boxed(alloc, values),
        Err(_) => Err(fault_over(alloc, kept, batch)),
    }
}

fn scan_of(alloc: Global, plan: &ScanPlan, batch: &Array) -> VortexResult<Array>
    requires { batch.now.type ≡ type_of plan.now.scope }
    ensures { IfOk result (λ values. Scanned (type_of plan.now.scope) (bound_of plan.now.tree) plan.now.paths (parts_of plan.now.split) batch.now (Ok values)) }
{
    let reader = ArrayPlanReader::new(batch, plan.paths());
    scan_array(alloc, &reader, plan)
}
