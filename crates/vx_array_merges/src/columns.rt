// Arrays as columns of values.
ghost use Rattle.std.specs.Prelude.{Ok};
ghost use Rattle.vx_dtype.specs.Returns.{ReturnsOrOom};

use std::alloc::Global;
use vx_array::Array;
use vx_dtype::VortexResult;
use vx_eval::RowMask;
use vx_value::Column;

/// The column of each array's rows. Copies them, and refuses with `OutOfMemory` (1) alone.
pub fn columns_of(alloc: Global, arrays: &[Array]) -> VortexResult<Vec<Column>>
    ensures { ReturnsOrOom (λ columns. columns.items) result (Ok arrays.now) }
{
    let mut columns = Vec::with_capacity(alloc, arrays.len())?;
    for array in arrays {
        columns.push(array.to_column(alloc)?)?;
    }
    Ok(columns)
}

/// The same, each beside its mask.
pub fn branches_of(
    alloc: Global,
    branches: &[(RowMask, Array)],
) -> VortexResult<Vec<(RowMask, Column)>>
    ensures { ReturnsOrOom (λ columns. columns.items) result (Ok branches.now) }
{
    let mut columns = Vec::with_capacity(alloc, branches.len())?;
    for branch in branches {
        columns.push((branch.0.clone()?, branch.1.to_column(alloc)?))?;
    }
    Ok(columns)
}
