// The rows of a chunk of which a predicate is true, read only where its statistics leave them open.
ghost use Rattle.std.specs.Prelude.{◌≡◌, ◌≢◌, IsErrOf, IfErr, IfOk, map, replicate, true, false};
ghost use Rattle.vx_dtype.specs.declared.error.VortexError.TheVariants.{NotBool, OutOfMemory, ScopeMismatch};
ghost use Rattle.vx_fn.specs.Functions.{is_truth};
ghost use Rattle.vx_fn.specs.Values.{is_true};
ghost use Rattle.vx_projection.specs.Readers.{AreJust};
ghost use Rattle.vx_tree.specs.Trees.{node_type};
ghost use Rattle.vx_tree.specs.Views.{bound_of};
ghost use Rattle.vx_value.specs.Paths.{minimal_paths};
ghost use Rattle.vx_value.specs.Views.{type_of, value_of};
ghost use Rattle.vx_prune_tree.specs.Stats.{Describes};
ghost use Rattle.vx_prune_tree.specs.Verdicts.{verdict_in};
ghost use Rattle.vx_prune_tree.specs.declared.verdicts.Verdict.TheVariants.{Unknown};
ghost use Rattle.vx_prune.specs.Selected.{IsRefusedWhereUnsure, IsSureWithout, SelectsRows};

use std::alloc::Global;
use vx_dtype::{DType, VortexError, VortexResult};
use vx_eval_masks::RowMask;
use vx_projection::PathReader;
use vx_prune_tree::{ChunkStats, Verdict, verdict};
use vx_scan::{ScanPlan, scan};
use vx_value::{Column, Value};

/// The rows of the reader's batch at which the plan's source is true, null taken as false. Nothing is
/// read where the statistics make the verdict sure: then no row is meant, or every row.
///
/// Where the statistics describe the batch and the source of the plan faults nowhere on it, the mask
/// has the batch's length, and in each row whether the source is true there. Asks a reader that
/// allows just the plan's paths, where its batch is of the plan's type, the plan's tree is of type bool
/// and the verdict isn't sure.
///
/// Refuses with `ScopeMismatch` (12) exactly where the batch is of another type than the plan's; else
/// with `NotBool` (7) exactly where the plan's tree is of another type than bool; else, where the
/// verdict isn't sure, as [`scan`] does; and with `OutOfMemory` (1).
pub fn select_rows<R: PathReader>(
    alloc: Global,
    reader: &R,
    plan: &ScanPlan,
    stats: &ChunkStats,
) -> VortexResult<RowMask>
    requires allowed { (R.batch reader.now).type ≡ type_of plan.now.scope → is_truth (node_type (bound_of plan.now.tree)) ≡ true →
        verdict_in stats.now (bound_of plan.now.tree) ≡ Unknown → AreJust (R.allowed reader.now) (minimal_paths plan.now.paths) }
    ensures mismatch { (R.batch reader.now).type ≢ type_of plan.now.scope → IsErrOf result ScopeMismatch }
    ensures not_bool { (R.batch reader.now).type ≡ type_of plan.now.scope → is_truth (node_type (bound_of plan.now.tree)) ≡ false → IsErrOf result NotBool }
    ensures rows { (R.batch reader.now).type ≡ type_of plan.now.scope → is_truth (node_type (bound_of plan.now.tree)) ≡ true →
        Describes stats.now (R.batch reader.now).type (R.batch reader.now).rows → SelectsRows (bound_of plan.now.tree) (R.batch reader.now) result }
    ensures faults { (R.batch reader.now).type ≡ type_of plan.now.scope → is_truth (node_type (bound_of plan.now.tree)) ≡ true →
        IsRefusedWhereUnsure stats.now (bound_of plan.now.tree) (R.batch reader.now) result }
    ensures sure { (R.batch reader.now).type ≡ type_of plan.now.scope → is_truth (node_type (bound_of plan.now.tree)) ≡ true → IsSureWithout stats.now (bound_of plan.now.tree) result }
{
    let dtype = reader.dtype();
    if *dtype != *plan.scope() {
        return Err(VortexError::ScopeMismatch);
    }
    if !is_bool(plan.tree().dtype()) {
        return Err(VortexError::NotBool);
    }
    match verdict(plan.tree(), stats) {
        Verdict::NoRow => all_rows(alloc, stats.rows(), false),
        Verdict::EveryRow => all_rows(alloc, stats.rows(), true),
        Verdict::Unknown => match scan(alloc, reader, plan) {
            Ok(column) => true_rows(alloc, &column),
            Err(e) => Err(e),
        },
    }
}

fn is_bool(dtype: &DType) -> bool
    ensures { result ≡ is_truth (type_of dtype.now) }
{
    matches!(dtype, DType::Bool(_))
}

// The mask that is alike at so many rows.
fn all_rows(alloc: Global, rows: usize, meant: bool) -> VortexResult<RowMask>
    ensures mask { IfOk result (λ m. m ≡ replicate rows meant) }
    ensures memory { IfErr result (λ e. e ≡ OutOfMemory) }
{
    Ok(RowMask::new(Vec::from_elem(alloc, meant, rows)?))
}

// The rows at which the column is true.
fn true_rows(alloc: Global, column: &Column) -> VortexResult<RowMask>
    ensures mask { IfOk result (λ m. m ≡ map is_true column.now.rows) }
    ensures memory { IfErr result (λ e. e ≡ OutOfMemory) }
{
    let rows = column.rows();
    let mut bits = Vec::with_capacity(alloc, rows.len())?;
    for row in rows {
        bits.push(is_true(row))?;
    }
    Ok(RowMask::new(bits))
}

fn is_true(value: &Value) -> bool
    ensures { result ≡ is_true (value_of value.now) }
{
    match value {
        Value::Bool(truth) => *truth,
        _ => false,
    }
}
