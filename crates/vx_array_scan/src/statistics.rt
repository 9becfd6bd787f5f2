// Statistics that are read off an array.
ghost use Rattle.std.specs.Prelude.{IfOk};
ghost use Rattle.vx_dtype.specs.Returns.{ReturnsOrOom};
ghost use Rattle.vx_projection.specs.Lost.{first_lost, unless_lost};
ghost use Rattle.vx_prune_tree.specs.Reading.{facts_along};
ghost use Rattle.vx_prune_tree.specs.Stats.{Describes};
ghost use Rattle.vx_value.specs.Paths.{minimal_paths};

use std::alloc::Global;
use vx_array::Array;
use vx_array_projection::read_referenced_array;
use vx_dtype::VortexResult;
use vx_prune_tree::ChunkStats;
use vx_value::FieldPathSet;

/// What the batch has along the paths of [`FieldPathSet::iter`], in their order, as [`ChunkStats::of`] says
/// of a column: its number of rows, and of each path how many of the values along it are null, and the least
/// and the greatest of the others.
///
/// Makes a value of each row, in which what no path leads to is a default, and reads each once for each path.
///
/// Refuses the first path that leads nowhere in the batch's type: with `NoSuchField` (5) and the
/// name where there is no field of it, and with `NotAStruct` (4) where it goes on in another type
/// than a struct; and with `OutOfMemory` (1).
pub fn stats_of_array(
    alloc: Global,
    batch: &Array,
    paths: &FieldPathSet,
) -> VortexResult<ChunkStats>
    ensures read { ReturnsOrOom (λ stats. stats) result (unless_lost (first_lost (minimal_paths paths.now) batch.now.type) (facts_along batch.now.type (minimal_paths paths.now) batch.now.rows)) }
    ensures describes { IfOk result (λ stats. Describes stats batch.now.type batch.now.rows) }
{
    // (what it promises is that the rows fit)
    let _ = batch.lanes();
    let read = read_referenced_array(alloc, batch, paths)?;
    let column = read.to_column(alloc)?;
    ChunkStats::of(alloc, &column, paths)
}
