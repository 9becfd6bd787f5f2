// Columns merged by the masks that a caller gives.
ghost use Rattle.std.specs.Prelude.{◌≡◌, Ok, IfOk, IfErr, length, map, true, ◌++◌, ◌∷◌, []};
ghost use Rattle.std.proofs.Math.ListN.{replicate};
ghost use Rattle.vx_dtype.specs.Returns.{ReturnsOrOom};
ghost use Rattle.vx_dtype.specs.declared.error.VortexError.TheVariants.{OutOfMemory};
ghost use Rattle.vx_value.specs.Columns.{batch};
ghost use Rattle.vx_value.specs.Fits.{IsBatch};
ghost use Rattle.vx_value.specs.Views.{type_of};
ghost use Rattle.vx_eval_masks.specs.Masks.{both, but};
ghost use Rattle.vx_eval_masks.specs.Merges.{EachMask, claimed};
ghost use Rattle.vx_eval.specs.Choices.{EachBatch};
ghost use Rattle.vx_eval.specs.Columns.{rows_view, rows_views, each_row, AllLong};
ghost use Rattle.vx_eval.specs.FirstMerged.{masks_in, columns_in, InSomeMask, first_merged};

use crate::merging::merged;
use crate::rows::Rows;
use std::alloc::{AllocError, Global};
use vx_dtype::{DType, VortexResult};
use vx_eval_masks::{Merging, RowMask};
use vx_value::Column;

/// At each row the value of the first column whose mask is true there, as a column of the type and
/// of as many rows; the last mask is that of the last column. Each run of a mask is put in its
/// place as a whole, and a column that has every row is shared. Asks masks and columns of one
/// length, each row in one of the masks, and values of the type. Refuses with `OutOfMemory` (1)
/// alone.
pub fn merge_runs(
    alloc: Global,
    branches: &[(RowMask, Column)],
    rest: &RowMask,
    otherwise: &Column,
    dtype: &DType,
) -> VortexResult<Column>
    requires masks { EachMask (length rest.now) (masks_in branches.now) }
    requires columns { AllLong (length rest.now) (columns_in branches.now) }
    requires last { length otherwise.now.rows ≡ length rest.now }
    requires some { InSomeMask branches.now rest.now }
    requires fit { EachBatch (type_of dtype.now) (columns_in branches.now) }
    requires last_fit { IsBatch (type_of dtype.now) otherwise.now.rows }
    ensures { ReturnsOrOom (λ c. c) result (Ok (batch (type_of dtype.now) (each_row (length rest.now) (first_merged branches.now otherwise.now.rows)))) }
{
    merge(alloc, Merging::Runs, branches, rest, otherwise)?.into_column(alloc, dtype)
}

/// The same, one row of a mask after another: for masks of many short runs.
pub fn merge_compact(
    alloc: Global,
    branches: &[(RowMask, Column)],
    rest: &RowMask,
    otherwise: &Column,
    dtype: &DType,
) -> VortexResult<Column>
    requires masks { EachMask (length rest.now) (masks_in branches.now) }
    requires columns { AllLong (length rest.now) (columns_in branches.now) }
    requires last { length otherwise.now.rows ≡ length rest.now }
    requires some { InSomeMask branches.now rest.now }
    requires fit { EachBatch (type_of dtype.now) (columns_in branches.now) }
    requires last_fit { IsBatch (type_of dtype.now) otherwise.now.rows }
    ensures { ReturnsOrOom (λ c. c) result (Ok (batch (type_of dtype.now) (each_row (length rest.now) (first_merged branches.now otherwise.now.rows)))) }
{
    merge(alloc, Merging::Compact, branches, rest, otherwise)?.into_column(alloc, dtype)
}

// The rows of either of them.
fn merge<'a>(
    alloc: Global,
    merging: Merging,
    branches: &'a [(RowMask, Column)],
    rest: &RowMask,
    otherwise: &'a Column,
) -> VortexResult<Rows<'a>>
    requires masks { EachMask (length rest.now) (masks_in branches.now) }
    requires columns { AllLong (length rest.now) (columns_in branches.now) }
    requires last { length otherwise.now.rows ≡ length rest.now }
    requires some { InSomeMask branches.now rest.now }
    ensures rows { IfOk result (λ out. rows_view out ≡ each_row (length rest.now) (first_merged branches.now otherwise.now.rows)) }
    ensures memory { IfErr result (λ e. e ≡ OutOfMemory) }
{
    let masks = own_rows(alloc, branches, rest)?;
    let values = lent(alloc, branches, otherwise)?;
    merged(alloc, rest.len(), merging, masks, values)
}

// Of each mask the rows that are in none before it.
fn own_rows(
    alloc: Global,
    branches: &[(RowMask, Column)],
    rest: &RowMask,
) -> Result<Vec<RowMask>, AllocError>
    requires { EachMask (length rest.now) (masks_in branches.now) }
    ensures { IfOk result (λ masks. masks.items ≡ claimed (replicate (length rest.now) true) (masks_in branches.now ++ rest.now ∷ [])) }
{
    let mut masks = Vec::new(alloc);
    let mut left = RowMask::new(vec![in alloc; true; rest.len()]?);
    for branch in branches {
        masks.push(claimed_copy(&branch.0, &mut left)?)?;
    }
    masks.push(claimed_copy(rest, &mut left)?)?;
    Ok(masks)
}

// Of the rows that are left those of the mask; they are taken out of the rest.
fn claimed_copy(mask: &RowMask, left: &mut RowMask) -> Result<RowMask, AllocError>
    requires { length mask.now ≡ length left.old }
    ensures own { IfOk result (λ copy. copy ≡ both mask.now left.old) }
    ensures left { IfOk result (λ _. left.new ≡ but left.old mask.now) }
{
    let mut copy = mask.clone()?;
    copy.claim(left);
    Ok(copy)
}

// The columns, lent, with the last one behind them.
fn lent<'a>(
    alloc: Global,
    branches: &'a [(RowMask, Column)],
    otherwise: &'a Column,
) -> Result<Vec<Rows<'a>>, AllocError>
    ensures { IfOk result (λ columns. rows_views columns.items ≡ columns_in branches.now ++ otherwise.now.rows ∷ []) }
{
    let mut columns = Vec::new(alloc);
    for branch in branches {
        columns.push(Rows::of(&branch.1))?;
    }
    columns.push(Rows::of(otherwise))?;
    Ok(columns)
}
