// Masks of rows, and columns merged by them.
ghost use Rattle.std.specs.Prelude.{◌≡◌, ◌<◌, ℕ, IfOk, IsTrue, true, false, ◌||◌, length, get_or};
ghost use Rattle.vx_eval_masks.specs.Merges.{EachMask};
ghost use Rattle.vx_eval.specs.Choices.{EachBatch};
ghost use Rattle.vx_eval.specs.Columns.{AllLong};
ghost use Rattle.vx_eval.specs.FirstMerged.{columns_in, masks_in};
ghost use Rattle.vx_value.specs.Fits.{IsBatch};
ghost use Rattle.vx_value.specs.Views.{type_of};

use std::alloc::{AllocError, Global};
use std::test::Fail;
use vx_array::Array;
use vx_array_build::from_column;
use vx_array_merges::{merge_compact_array, merge_runs_array};
use vx_dtype::laws::types_are_equal_exactly;
use vx_eval::{RowMask, merge_compact, merge_runs, prefer_runs};
use vx_test_support::{column, i32_type, reads};
use vx_tree::Nullability::NonNullable;
use vx_tree::{Column, DType, VortexError, VortexResult};

/// The mask of a text of `t` and `f`.
pub fn mask(alloc: Global, text: &str) -> Result<RowMask, AllocError> {
    let mut bits = Vec::new(alloc);
    for letter in text.chars() {
        bits.push(letter == 't')?;
    }
    Ok(RowMask::new(bits))
}

/// Whether the mask has that text.
pub fn is_mask(mask: &RowMask, text: &str) -> bool {
    text.len() == mask.len()
        && text
            .bytes()
            .zip(mask.as_slice().iter())
            .all(|(letter, bit)| (letter == b't') == *bit)
}

#[test]
fn masks_say_what_they_hold(rt: HostRuntime) -> Result<(), Fail> {
    let alloc = rt.alloc();
    let rows = RowMask::new(vec![in alloc; true, true, false, true]?);
    assert!(rt; rows.len() == 4 && !rows.is_empty() && rows.count() == 3);
    assert!(rt; rows.get(0) && !rows.get(2) && !rows.is_all());
    assert!(rt; rows.runs(alloc)?.as_slice() == [(0, 2), (3, 4)].as_slice());
    assert!(rt; rows.indices(alloc)?.as_slice() == [0, 1, 3].as_slice());
    assert!(rt; rows.runs_within(2) == Some(2) && rows.runs_within(1).is_none());
    assert!(rt; rows.run_end(0) == 2 && rows.run_end(3) == 4);
    Ok(())
}

#[test]
fn masks_are_joined_row_by_row(rt: HostRuntime) -> Result<(), Fail> {
    let alloc = rt.alloc();
    let rows = RowMask::new(vec![in alloc; true, true, false, true]?);
    let mut others = RowMask::new(vec![in alloc; true, false, true, true]?);
    assert!(rt; is_mask(&rows.and(alloc, &others)?, "tfft"));
    assert!(rt; is_mask(&rows.and_not(alloc, &others)?, "ftff"));
    let mut own = rows.clone()?;
    assert!(rt; own == rows && own != others);
    own.claim(&mut others);
    assert!(rt; is_mask(&own, "tfft") && is_mask(&others, "fftf"));
    Ok(())
}

#[test]
fn a_mask_of_no_rows_has_no_run(rt: HostRuntime) -> Result<(), Fail> {
    let alloc = rt.alloc();
    let none = RowMask::new(Vec::new(alloc));
    assert!(rt; none.is_empty() && none.is_all() && none.count() == 0);
    assert!(rt; none.runs(alloc)?.is_empty() && none.indices(alloc)?.is_empty());
    assert!(rt; none.runs_within(0) == Some(0));
    Ok(())
}

/// Whether runs are preferred for branches with these masks.
fn prefers(alloc: Global, masks: &[&str], rows: usize) -> Result<bool, Fail> {
    let mut branches = Vec::new(alloc);
    for text in masks {
        branches.push((mask(alloc, text)?, column(alloc, "i32", "")?))?;
    }
    Ok(prefer_runs(branches.as_slice(), rows)?)
}

#[test]
fn runs_are_preferred_where_they_are_few(rt: HostRuntime) -> Result<(), Fail> {
    let alloc = rt.alloc();
    assert!(rt; !prefers(alloc, &["tftf"], 4)?);
    assert!(rt; !prefers(alloc, &["tftf"], 511)?);
    assert!(rt; prefers(alloc, &["tftf"], 512)?);
    assert!(rt; prefers(alloc, &["ttffff", "ffttff", "fffftt"], 6)?);
    assert!(rt; prefers(alloc, &[], 0)?);
    Ok(())
}

/// Two masks with the columns beside them, and those of the other rows.
#[derive(Drop)]
pub struct Masked {
    pub branches: [(RowMask, Column); 2],
    pub rest: RowMask,
    pub otherwise: Column,
}

/// Of five rows the first two are of the first column, and the fourth of the second.
pub fn sample(alloc: Global) -> Result<Masked, Fail> {
    Ok(Masked {
        branches: [
            (mask(alloc, "ttfff")?, column(alloc, "i32", "1 2 3 4 5")?),
            (
                mask(alloc, "ffftf")?,
                column(alloc, "i32", "10 20 30 40 50")?,
            ),
        ],
        rest: mask(alloc, "fftft")?,
        otherwise: column(alloc, "i32", "100 200 300 400 500")?,
    })
}

/// By which call columns are merged.
#[derive(Clone, Copy)]
pub enum By {
    Runs,
    Compact,
}

/// What holds the rows that are merged.
#[derive(Clone, Copy)]
pub enum Over {
    Columns,
    Buffers,
    Boxes,
}

/// The columns, or arrays of their rows, merged by that call, if they are as it asks.
pub fn merged(alloc: Global, by: By, over: Over, of: &Masked) -> Option<VortexResult<Column>> {
    let dtype = i32_type(NonNullable);
    let count = of.rest.len();
    let [first, second] = &of.branches;
    let is_ready = is_branch(&first.0, &first.1, count, &dtype)
        && is_branch(&second.0, &second.1, count, &dtype)
        && is_branch(&of.rest, &of.otherwise, count, &dtype);
    if !is_ready || !covers(&of.rest, &first.0, &second.0) {
        return None;
    }
    Some(match (over, by) {
        (Over::Columns, By::Runs) => {
            merge_runs(alloc, &of.branches, &of.rest, &of.otherwise, &dtype)
        }
        (Over::Columns, By::Compact) => {
            merge_compact(alloc, &of.branches, &of.rest, &of.otherwise, &dtype)
        }
        _ => merged_arrays(alloc, by, over, of, &dtype),
    })
}

// The rows of arrays, merged by that call.
fn merged_arrays(
    alloc: Global,
    by: By,
    over: Over,
    of: &Masked,
    dtype: &DType,
) -> VortexResult<Column>
    requires masks { EachMask (length of.now.rest) (masks_in of.now.branches) }
    requires columns { AllLong (length of.now.rest) (columns_in of.now.branches) }
    requires last { length of.now.otherwise.rows ≡ length of.now.rest }
    requires fit { EachBatch (type_of dtype.now) (columns_in of.now.branches) }
    requires last_fit { IsBatch (type_of dtype.now) of.now.otherwise.rows }
{
    let [first, second] = &of.branches;
    let branches = [
        (first.0.clone()?, array(alloc, over, &first.1)?),
        (second.0.clone()?, array(alloc, over, &second.1)?),
    ];
    if !covers(&of.rest, &branches[0].0, &branches[1].0) {
        return Err(VortexError::LengthMismatch);
    }
    let otherwise = array(alloc, over, &of.otherwise)?;
    let merged = match by {
        By::Runs => merge_runs_array(alloc, &branches, &of.rest, &otherwise, dtype)?,
        By::Compact => merge_compact_array(alloc, &branches, &of.rest, &otherwise, dtype)?,
    };
    merged.to_column(alloc)
}

// The array of a column's rows, boxed or in buffers.
fn array(alloc: Global, over: Over, column: &Column) -> VortexResult<Array>
    ensures { IfOk result (λ a. a ≡ column.now) }
{
    match over {
        Over::Boxes => Array::from_column(alloc, column),
        _ => from_column(alloc, column),
    }
}

// Whether mask and column have so many rows, and the column is of the type.
fn is_branch(mask: &RowMask, column: &Column, count: usize, dtype: &DType) -> bool
    ensures { IsTrue result → (length mask.now ≡ count) × (length column.now.rows ≡ count) × IsBatch (type_of dtype.now) column.now.rows }
{
    mask.len() == count && column.len() == count && is_of(column, dtype)
}

// Whether the column is of that type; then its rows are.
fn is_of(column: &Column, dtype: &DType) -> bool
    ensures { IsTrue result → IsBatch (type_of dtype.now) column.now.rows }
{
    let _rows = column.rows();
    types_are_equal_exactly(column.dtype(), dtype)
}

// Whether each row is in one of the masks.
fn covers(rest: &RowMask, first: &RowMask, second: &RowMask) -> bool
    requires first { length first.now ≡ length rest.now }
    requires second { length second.now ≡ length rest.now }
    ensures { IsTrue result → (k : ℕ) → k < length rest.now → (get_or rest.now k false || (get_or first.now k false || (get_or second.now k false || false))) ≡ true }
{
    for i in 0..rest.len() {
        if !(rest.get(i) || first.get(i) || second.get(i)) {
            return false;
        }
    }
    true
}

#[test]
fn both_merges_give_the_first_match(rt: HostRuntime) -> Result<(), Fail> {
    let alloc = rt.alloc();
    let of = sample(alloc)?;
    for by in [By::Runs, By::Compact] {
        for over in [Over::Columns, Over::Buffers, Over::Boxes] {
            let Some(answer) = merged(alloc, by, over, &of) else {
                return Err(Fail::new("not as the calls ask"));
            };
            assert!(rt; reads(&answer?, "[1i32, 2i32, 300i32, 40i32, 500i32]"));
        }
    }
    Ok(())
}
