// The rows of a chunk at which a plan's source is true, read only where its statistics leave them open.
ghost use Rattle.std.specs.Prelude.{◌≡◌, ◌≢◌, IsErrOf, IfErr, IfOk, map, replicate, true, false};
ghost use Rattle.vx_dtype.specs.declared.error.VortexError.TheVariants.{NotBool, OutOfMemory, ScopeMismatch};
ghost use Rattle.vx_fn.specs.Functions.{is_truth};
ghost use Rattle.vx_fn.specs.Values.{is_true};
ghost use Rattle.vx_projection.specs.Readers.{AreJust};
ghost use Rattle.vx_tree.specs.Trees.{node_type};
ghost use Rattle.vx_tree.specs.Views.{bound_of};
ghost use Rattle.vx_value.specs.Paths.{minimal_paths};
ghost use Rattle.vx_value.specs.Views.{type_of};
ghost use Rattle.vx_prune_tree.specs.Stats.{Describes};
ghost use Rattle.vx_prune_tree.specs.Verdicts.{verdict_in};
ghost use Rattle.vx_prune_tree.specs.declared.verdicts.Verdict.TheVariants.{Unknown};
ghost use Rattle.vx_prune.specs.Selected.{IsRefusedWhereUnsure, IsSureWithout, SelectsRows};

use crate::scanned::scan_array;
use crate::selected::is_bool;
use crate::truths::{repeated, true_rows};
use std::alloc::Global;
use vx_array::Array;
use vx_array_loops::Bits;
use vx_array_projection::ArrayReader;
use vx_dtype::{VortexError, VortexResult};
use vx_prune_tree::{ChunkStats, Verdict, verdict};
use vx_scan::ScanPlan;

/// The rows of the reader's batch at which the plan's source is true, null taken as false. Nothing is
/// read where the statistics make the verdict sure: then no row is meant, or every row.
///
/// Where the statistics describe the batch and the source of the plan faults nowhere on it, the answer
/// has the batch's length, and in each row whether the source is true there. Asks a reader that allows
/// just the plan's paths, where its batch is of the plan's type, the plan's tree is of type bool and the
/// verdict isn't sure.
///
/// Refuses with `ScopeMismatch` (12) exactly where the batch is of another type than the plan's; else
/// with `NotBool` (7) exactly where the plan's tree is of another type than bool; else, where the
/// verdict isn't sure, as [`scan_array`] does; and with `OutOfMemory` (1).
pub fn select_rows_array<R: ArrayReader>(
    alloc: Global,
    reader: &R,
    plan: &ScanPlan,
    stats: &ChunkStats,
) -> VortexResult<Bits>
    requires allowed { (R.batch reader.now).type ≡ type_of plan.now.scope → is_truth (node_type (bound_of plan.now.tree)) ≡ true →
        verdict_in stats.now (bound_of plan.now.tree) ≡ Unknown → AreJust (R.allowed reader.now) (minimal_paths plan.now.paths) }
    ensures mismatch { (R.batch reader.now).type ≢ type_of plan.now.scope → IsErrOf result ScopeMismatch }
    ensures not_bool { (R.batch reader.now).type ≡ type_of plan.now.scope → is_truth (node_type (bound_of plan.now.tree)) ≡ false → IsErrOf result NotBool }
    ensures rows { (R.batch reader.now).type ≡ type_of plan.now.scope → is_truth (node_type (bound_of plan.now.tree)) ≡ true →
        Describes stats.now (R.batch reader.now).type (R.batch reader.now).rows → SelectsRows (bound_of plan.now.tree) (R.batch reader.now) result }
    ensures faults { (R.batch reader.now).type ≡ type_of plan.now.scope → is_truth (node_type (bound_of plan.now.tree)) ≡ true →
        IsRefusedWhereUnsure stats.now (bound_of plan.now.tree) (R.batch reader.now) result }
    ensures sure { (R.batch reader.now).type ≡ type_of plan.now.scope → is_truth (node_type (bound_of plan.now.tree)) ≡ true → IsSureWithout stats.now (bound_of plan.now.tree) result }
{
    let dtype = reader.dtype();
    if *dtype != *plan.scope() {
        return Err(VortexError::ScopeMismatch);
    }
    if !is_bool(plan.tree().dtype()) {
        return Err(VortexError::NotBool);
    }
    match verdict(plan.tree(), stats) {
        Verdict::NoRow => all_rows(alloc, stats.rows(), false),
        Verdict::EveryRow => all_rows(alloc, stats.rows(), true),
        Verdict::Unknown => match scan_array(alloc, reader, plan) {
            Ok(values) => rows_of(alloc, &values),
            Err(e) => Err(e),
        },
    }
}

// So many rows that are alike.
fn all_rows(alloc: Global, count: usize, meant: bool) -> VortexResult<Bits>
    ensures rows { IfOk result (λ rows. rows ≡ replicate count meant) }
    ensures memory { IfErr result (λ e. e ≡ OutOfMemory) }
{
    Ok(repeated(alloc, meant, count)?)
}

// The rows at which the array is true.
fn rows_of(alloc: Global, values: &Array) -> VortexResult<Bits>
    ensures rows { IfOk result (λ rows. rows ≡ map is_true values.now.rows) }
    ensures memory { IfErr result (λ e. e ≡ OutOfMemory) }
{
    Ok(true_rows(alloc, values.lanes())?)
}
