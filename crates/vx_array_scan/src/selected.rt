// The rows of an array at which a plan's source is true.
ghost use Rattle.std.specs.Prelude.{◌≡◌, ◌≢◌, IsErrOf, false, true};
ghost use Rattle.vx_dtype.specs.declared.error.VortexError.TheVariants.{NotBool, ScopeMismatch};
ghost use Rattle.vx_fn.specs.Functions.{is_truth};
ghost use Rattle.vx_tree.specs.Trees.{node_type};
ghost use Rattle.vx_tree.specs.Views.{bound_of};
ghost use Rattle.vx_value.specs.Views.{type_of};
ghost use Rattle.vx_array_scan.specs.Selected.{AreValues, IsSelection};

use crate::truths::true_rows;
use std::alloc::Global;
use vx_array::Array;
use vx_array_eval::apply_array;
use vx_array_loops::Bits;
use vx_dtype::{DType, VortexError, VortexResult};
use vx_scan::ScanPlan;

/// The rows of the batch at which the plan's source is true, null taken as false.
///
/// Where the source of the plan faults nowhere on the batch, the answer has the batch's length, and in each
/// row whether the source is true there. It is made of the values of the plan's tree, as [`apply_array`]
/// gives them.
///
/// Refuses with `ScopeMismatch` (12) exactly where the batch is of another type than the plan's; else
/// with `NotBool` (7) exactly where the plan's tree is of another type than bool; else with the tree's
/// first fault on the batch (13 to 15 and 20), exactly where there is one; and with `OutOfMemory` (1).
pub fn select_array(alloc: Global, batch: &Array, plan: &ScanPlan) -> VortexResult<Bits>
    ensures mismatch { batch.now.type ≢ type_of plan.now.scope → IsErrOf result ScopeMismatch }
    ensures not_bool { batch.now.type ≡ type_of plan.now.scope → is_truth (node_type (bound_of plan.now.tree)) ≡ false → IsErrOf result NotBool }
    ensures rows { batch.now.type ≡ type_of plan.now.scope → is_truth (node_type (bound_of plan.now.tree)) ≡ true →
        IsSelection (bound_of plan.now.tree) batch.now result }
{
    if *batch.dtype() != *plan.scope() {
        return Err(VortexError::ScopeMismatch);
    }
    if !is_bool(plan.tree().dtype()) {
        return Err(VortexError::NotBool);
    }
    selected(alloc, batch, plan)
}

pub(crate) fn is_bool(dtype: &DType) -> bool
    ensures { result ≡ is_truth (type_of dtype.now) }
{
    matches!(dtype, DType::Bool(_))
}

fn selected(alloc: Global, batch: &Array, plan: &ScanPlan) -> VortexResult<Bits>
    requires { batch.now.type ≡ type_of plan.now.scope }
    ensures { IsSelection (bound_of plan.now.tree) batch.now result }
{
    let values = evaluated(alloc, batch, plan)?;
    Ok(true_rows(alloc, values.lanes())?)
}

// The values of the plan's tree over the batch.
fn evaluated(alloc: Global, batch: &Array, plan: &ScanPlan) -> VortexResult<Array>
    requires { batch.now.type ≡ type_of plan.now.scope }
    ensures { AreValues (bound_of plan.now.tree) batch.now result }
{
    // (what it promises is that the rows fit)
    let _ = batch.lanes();
    apply_array(alloc, batch, plan.tree())
}
