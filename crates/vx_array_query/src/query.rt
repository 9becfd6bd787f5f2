// A query over an array as one run.
ghost use Rattle.std.specs.Prelude.{◌≡◌, Ok, Err};
ghost use Rattle.vx_dtype.specs.declared.error.VortexError.{VortexError};
ghost use Rattle.vx_query.specs.Queries.{FaultsAlone, IsRefusedWith, Runs, RunsPassed};
ghost use Rattle.vx_query_split.specs.Sources.{IsBound, IsMeantBy};
ghost use Rattle.vx_tree.specs.Faults.{HasNoFault};
ghost use Rattle.vx_tree.specs.Trees.{BoundTree, typed, Over, WellTyped};
ghost use Rattle.vx_tree.specs.Views.{bound_of, tree_of};
ghost use Rattle.vx_value.specs.Types.{LogicalType};

use crate::split::run_split;
use std::alloc::Global;
use vx_array::Array;
use vx_array_eval::apply_array;
use vx_dtype::VortexResult;
use vx_rewrite::{Pass, run_passes};
use vx_tree::{BoundExpression, Expression};

/// The rows of a query over columns in typed buffers, as `run_query` of `vx_query` gives them over a
/// column: the source is bound to the batch's type, rewritten by the passes in their order, and
/// evaluated over the batch. With `split`, over a struct, the tree is split by the fields of the scope
/// that its nodes read where these cover it; then the partitions are optimized, each is evaluated, and
/// the root over their results, which share their buffers.
///
/// Where the source faults nowhere on the batch, the answer has the batch's length, and in each row
/// the source's meaning there, whatever the passes are and however it is split.
///
/// Refuses with the source's first refusal (2 to 11, but 3) exactly where it has no type over the
/// batch's, and with `OutOfMemory` (1); a source that faults on the batch may be refused with
/// `AddOverflow` (13), `CastNull` (14), `BadFill` (15) or `DivisionByZero` (20), too.
pub fn run_query_array(
    alloc: Global,
    source: &Expression,
    batch: &Array,
    passes: &[Pass],
    split: bool,
) -> VortexResult<Array>
    ensures refusal { (refusal : VortexError) → typed (tree_of source.now) batch.now.type ≡ Err refusal → IsRefusedWith refusal result }
    ensures meaning { (b : BoundTree) → IsBound (tree_of source.now) batch.now.type b → HasNoFault b batch.now.rows → IsMeantBy (tree_of source.now) batch.now result }
    ensures faults { (t : LogicalType) → typed (tree_of source.now) batch.now.type ≡ Ok t → FaultsAlone result }
    ensures run { (b : BoundTree) → IsBound (tree_of source.now) batch.now.type b → RunsPassed passes.now split b batch.now result }
{
    // (what it promises is that the rows fit)
    let _lanes = batch.lanes();
    let bound = source.bind(alloc, batch.dtype())?;
    let tree = run_passes(alloc, bound, passes)?;
    let answer = run_tree(alloc, &tree, batch, split);
    drop(tree);
    answer
}

// What the tree gives over the batch, split where that is asked and the batch is of structs.
fn run_tree(
    alloc: Global,
    tree: &BoundExpression,
    batch: &Array,
    split: bool,
) -> VortexResult<Array>
    requires well_typed { WellTyped (bound_of tree.now) }
    requires over { Over (bound_of tree.now) batch.now.type }
    ensures { Runs split (bound_of tree.now) batch.now result }
{
    if split {
        run_split(alloc, tree, batch)
    } else {
        apply_array(alloc, batch, tree)
    }
}
