// A planned query over what is read of a batch.
ghost use Rattle.std.specs.Prelude.{◌≡◌, ◌≢◌, IsErrOf};
ghost use Rattle.vx_dtype.specs.Returns.{ReturnsOrOom};
ghost use Rattle.vx_dtype.specs.declared.error.VortexError.TheVariants.{ScopeMismatch};
ghost use Rattle.vx_projection.specs.Kept.{kept_batch};
ghost use Rattle.vx_projection.specs.Readers.{AreJust};
ghost use Rattle.vx_scan.specs.Scans.{HasTypeOf, IsRefusedWhere, KeepsMeaning, Scanned, planned_evaluation};
ghost use Rattle.vx_query_split.specs.Division.{parts_of};
ghost use Rattle.vx_tree.specs.Views.{bound_of};
ghost use Rattle.vx_value.specs.Paths.{minimal_paths};
ghost use Rattle.vx_value.specs.Views.{type_of};

use crate::planned::ScanPlan;
use std::alloc::Global;
use vx_dtype::{VortexError, VortexResult};
use vx_eval::apply_bound;
use vx_projection::PathReader;
use vx_query_split::evaluate_split;
use vx_value::Column;

/// What the plan's tree gives over the reader's batch, of which the plan's paths alone are read: the
/// partitions over what was read, joined, and the root over them, where the plan has a split, and
/// else the tree.
///
/// The answer has the tree's type. Where the source of the plan faults nowhere on the batch, it has
/// the batch's length, and in each row the source's meaning there. Asks a reader that allows just the
/// plan's paths, where its batch is of the plan's type.
///
/// Refuses with `ScopeMismatch` (12) exactly where the batch is of another type than the plan's. Else
/// with a fault (13 to 15 and 20) exactly where the plan's tree faults on the batch: that of the
/// first partition that faults, else the root's over the joined column, or without a split the
/// tree's. And with `OutOfMemory` (1).
pub fn scan<R: PathReader>(alloc: Global, reader: &R, plan: &ScanPlan) -> VortexResult<Column>
    requires allowed { (R.batch reader.now).type ≡ type_of plan.now.scope → AreJust (R.allowed reader.now) (minimal_paths plan.now.paths) }
    ensures mismatch { (R.batch reader.now).type ≢ type_of plan.now.scope → IsErrOf result ScopeMismatch }
    ensures evaluated { (R.batch reader.now).type ≡ type_of plan.now.scope →
        ReturnsOrOom (λ c. c) result (planned_evaluation (parts_of plan.now.split) (bound_of plan.now.tree) (kept_batch (minimal_paths plan.now.paths) (R.batch reader.now))) }
    ensures meaning { (R.batch reader.now).type ≡ type_of plan.now.scope → KeepsMeaning (bound_of plan.now.tree) (R.batch reader.now) result }
    ensures faults { (R.batch reader.now).type ≡ type_of plan.now.scope → IsRefusedWhere (bound_of plan.now.tree) (R.batch reader.now) result }
    ensures typed { (R.batch reader.now).type ≡ type_of plan.now.scope → HasTypeOf (bound_of plan.now.tree) result }
{
    scan_to_end(alloc, reader, plan)
}

// The same, whose promises are one fact: there are four ways to end, and each keeps all.
fn scan_to_end<R: PathReader>(alloc: Global, reader: &R, plan: &ScanPlan) -> VortexResult<Column>
    requires allowed { (R.batch reader.now).type ≡ type_of plan.now.scope → AreJust (R.allowed reader.now) (minimal_paths plan.now.paths) }
    ensures { Scanned (type_of plan.now.scope) (bound_of plan.now.tree) plan.now.paths (parts_of plan.now.split) (R.batch reader.now) result }
{
    let dtype = reader.dtype();
    if *dtype != *plan.scope() {
        return Err(VortexError::ScopeMismatch);
    }
    let batch = reader.read(alloc, plan.paths())?;
    match plan.split() {
        Some(split) => evaluate_split(alloc, &batch, split),
        None => apply_bound(alloc, &batch, plan.tree()),
    }
}
