// Arrays of which only what lies along some paths is kept.
ghost use Rattle.std.specs.Prelude.{◌≡◌, Ok};
ghost use Rattle.vx_value.specs.Returns.{ReturnsOrOom};
ghost use Rattle.vx_value.specs.Paths.{minimal_paths};
ghost use Rattle.vx_projection.specs.Kept.{kept_batch};

use crate::kept::kept_along;
use std::alloc::Global;
use vx_array::Array;
use vx_dtype::VortexResult;
use vx_projection::along::lent;
use vx_projection::read_referenced;
use vx_value::FieldPathSet;

/// The rows with the values along the paths of [`FieldPathSet::iter`] alone, null structs on the way among
/// them, and a default in place of all others, as [`read_referenced`] gives them.
///
/// Where the structs on the way are in buffers, what is kept stays in the same buffers, and what isn't is
/// one value, so it costs nothing a row. Else each row is copied. Refuses with `OutOfMemory` (1) alone.
pub fn read_referenced_array(
    alloc: Global,
    batch: &Array,
    paths: &FieldPathSet,
) -> VortexResult<Array>
    ensures { ReturnsOrOom (λ a. a) result (Ok (kept_batch (minimal_paths paths.now) batch.now)) }
{
    let along = lent(alloc, paths)?;
    match kept_along(alloc, batch.dtype(), along, batch.lanes())? {
        Some(lanes) => {
            let dtype = batch.dtype().clone()?;
            Ok(Array::new(dtype, lanes))
        }
        None => by_rows(alloc, batch, paths),
    }
}

// The same, row by row.
fn by_rows(alloc: Global, batch: &Array, paths: &FieldPathSet) -> VortexResult<Array>
    ensures { ReturnsOrOom (λ a. a) result (Ok (kept_batch (minimal_paths paths.now) batch.now)) }
{
    let column = batch.to_column(alloc)?;
    let kept = read_referenced(alloc, &column, paths)?;
    Array::from_column(alloc, &kept)
}
