// Arrays merged by the masks that a caller gives.
ghost use Rattle.std.specs.Prelude.{◌≡◌, IfOk, IfSome, Ok, length};
ghost use Rattle.vx_dtype.specs.Returns.{ReturnsOrOom};
ghost use Rattle.vx_value.specs.Columns.{batch};
ghost use Rattle.vx_value.specs.Fits.{IsBatch};
ghost use Rattle.vx_value.specs.Views.{type_of};
ghost use Rattle.vx_eval_masks.specs.Merges.{EachMask};
ghost use Rattle.vx_eval.specs.Choices.{EachBatch};
ghost use Rattle.vx_eval.specs.Columns.{each_row, AllLong};
ghost use Rattle.vx_eval.specs.FirstMerged.{masks_in, columns_in, InSomeMask, first_merged};

use crate::chosen::chosen;
use crate::columns::branches_of;
use crate::turns::masks_in_turn;
use std::alloc::{AllocError, Global};
use vx_array::Array;
use vx_array_build::from_column;
use vx_dtype::{DType, VortexResult};
use vx_eval::{RowMask, merge_compact, merge_runs};

/// At each row the value of the first array whose mask is true there, as an array of the type and
/// of as many rows; the last mask is that of the last array. Asks masks and arrays of one length, each
/// row in one of the masks, and values of the type. Refuses with `OutOfMemory` (1) alone. Truth
/// values, whole numbers, texts and bytes in buffers are written over each other, a word of a mask
/// at a time; others are merged as columns, each run of a mask as a whole.
pub fn merge_runs_array(
    alloc: Global,
    branches: &[(RowMask, Array)],
    rest: &RowMask,
    otherwise: &Array,
    dtype: &DType,
) -> VortexResult<Array>
    requires masks { EachMask (length rest.now) (masks_in branches.now) }
    requires columns { AllLong (length rest.now) (columns_in branches.now) }
    requires last { length otherwise.now.rows ≡ length rest.now }
    requires some { InSomeMask branches.now rest.now }
    requires fit { EachBatch (type_of dtype.now) (columns_in branches.now) }
    requires last_fit { IsBatch (type_of dtype.now) otherwise.now.rows }
    ensures { ReturnsOrOom (λ a. a) result (Ok (batch (type_of dtype.now) (each_row (length rest.now) (first_merged branches.now otherwise.now.rows)))) }
{
    if let Some(array) = merged(alloc, rest.len(), branches, otherwise, dtype)? {
        return Ok(array);
    }
    let columns = branches_of(alloc, branches)?;
    let last = otherwise.to_column(alloc)?;
    let column = merge_runs(alloc, columns.as_slice(), rest, &last, dtype)?;
    from_column(alloc, &column)
}

/// The same; what isn't in such buffers is merged one row of a mask after another: for masks of many
/// short runs.
pub fn merge_compact_array(
    alloc: Global,
    branches: &[(RowMask, Array)],
    rest: &RowMask,
    otherwise: &Array,
    dtype: &DType,
) -> VortexResult<Array>
    requires masks { EachMask (length rest.now) (masks_in branches.now) }
    requires columns { AllLong (length rest.now) (columns_in branches.now) }
    requires last { length otherwise.now.rows ≡ length rest.now }
    requires some { InSomeMask branches.now rest.now }
    requires fit { EachBatch (type_of dtype.now) (columns_in branches.now) }
    requires last_fit { IsBatch (type_of dtype.now) otherwise.now.rows }
    ensures { ReturnsOrOom (λ a. a) result (Ok (batch (type_of dtype.now) (each_row (length rest.now) (first_merged branches.now otherwise.now.rows)))) }
{
    if let Some(array) = merged(alloc, rest.len(), branches, otherwise, dtype)? {
        return Ok(array);
    }
    let columns = branches_of(alloc, branches)?;
    let last = otherwise.to_column(alloc)?;
    let column = merge_compact(alloc, columns.as_slice(), rest, &last, dtype)?;
    from_column(alloc, &column)
}

// The same of that many rows, where there is a fast way.
fn merged(
    alloc: Global,
    count: usize,
    branches: &[(RowMask, Array)],
    otherwise: &Array,
    dtype: &DType,
) -> Result<Option<Array>, AllocError>
    requires masks { EachMask count (masks_in branches.now) }
    requires columns { AllLong count (columns_in branches.now) }
    requires last { length otherwise.now.rows ≡ count }
    requires fit { EachBatch (type_of dtype.now) (columns_in branches.now) }
    requires last_fit { IsBatch (type_of dtype.now) otherwise.now.rows }
    ensures { IfOk result (λ found. IfSome found (λ a. a ≡ batch (type_of dtype.now) (each_row count (first_merged branches.now otherwise.now.rows)))) }
{
    let below = masks_in_turn(alloc, branches, otherwise)?;
    chosen(alloc, count, dtype, below.as_slice())
}
