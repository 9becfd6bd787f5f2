// Choices between columns: the value beside the first condition that is true, by masks.
ghost use Rattle.std.specs.Prelude.{◌≡◌, ⊤, ℕ, Bool, true, IfOk, IfErr, MatchOption, option_map, length, map, List, [], ◌∷◌};
ghost use Rattle.std.proofs.Math.ListN.{replicate};
ghost use Rattle.vx_value.specs.Types.{LogicalType};
ghost use Rattle.vx_dtype.specs.declared.error.VortexError.TheVariants.{OutOfMemory};
ghost use Rattle.vx_fn.specs.Functions as functions;
ghost use Rattle.vx_fn.specs.Values as values;
ghost use Rattle.vx_eval_masks.specs.Masks.{both, but};
ghost use Rattle.vx_eval_masks.specs.Merges.{claimed, unclaimed};
ghost use Rattle.vx_eval.specs.Columns.{rows_view, rows_views, row_at, each_row, AllLong, Evaluates};
ghost use Rattle.vx_eval.specs.Choices.{conditions_in, values_in, alone, truths};

use crate::merging::{merged, written};
use crate::rows::Rows;
use std::alloc::{AllocError, Global};
use vx_dtype::VortexResult;
use vx_eval_masks::{RowMask, preferred};

/// A CASE over its conditions and values in turn, with ELSE last. Refuses with `OutOfMemory` (1)
/// alone.
pub fn case_when<'a>(alloc: Global, count: usize, columns: Vec<Rows<'a>>) -> VortexResult<Rows<'a>>
    requires { AllLong count (rows_views columns.items) }
    ensures { (pairs : ℕ) (has_else : Bool) (ts : List LogicalType) → Evaluates (functions.case_when pairs has_else) ts count (rows_views columns.entry.items) result }
{
    first_true(alloc, count, columns)
}

/// The values of one column where the mask is true, and else those of the other. Refuses with
/// `OutOfMemory` (1) alone.
pub fn zip<'a>(
    alloc: Global,
    count: usize,
    if_true: Rows<'a>,
    if_false: Rows<'a>,
    mask: Rows<'a>,
) -> VortexResult<Rows<'a>>
    requires if_true { length (rows_view if_true) ≡ count }
    requires if_false { length (rows_view if_false) ≡ count }
    requires mask { length (rows_view mask) ≡ count }
    ensures { (ts : List LogicalType) → Evaluates functions.zip ts count (rows_view if_true.entry ∷ rows_view if_false.entry ∷ rows_view mask.entry ∷ []) result }
{
    first_true(alloc, count, vec![in alloc; mask, if_true, if_false]?)
}

/// Of conditions and values in turn, at each row the value beside the first condition that is true
/// there, else that of a last column that stands alone, else null. A column of values that takes
/// every row is answered as it is. Else what is owned is moved, and of what is lent only the chosen
/// values are copied; a last column that is owned stays where it stands, and the others are written
/// over it. Refuses with `OutOfMemory` (1) alone.
pub fn first_true<'a>(alloc: Global, count: usize, columns: Vec<Rows<'a>>) -> VortexResult<Rows<'a>>
    requires { AllLong count (rows_views columns.items) }
    ensures rows { IfOk result (λ out. rows_view out ≡ each_row count (λ k. values.first_true (row_at (rows_views columns.entry.items) k))) }
    ensures memory { IfErr result (λ e. e ≡ OutOfMemory) }
{
    let Branches {
        mut masks,
        mut values,
        rest,
        last,
    } = split(alloc, count, columns)?;
    match last {
        None => {
            let merging = preferred(masks.as_slice(), count);
            merged(alloc, count, merging, masks, values)
        }
        Some(Rows::Owned(rows)) => written(rows, masks, values),
        Some(column) => {
            let merging = preferred(masks.as_slice(), count);
            masks.push(rest)?;
            values.push(column)?;
            merged(alloc, count, merging, masks, values)
        }
    }
}

// Columns of values, each beside the mask of the rows that are its own, the rows that are left, and
// the column for them.
#[derive(Drop)]
struct Branches<'a> {
    masks: Vec<RowMask>,
    values: Vec<Rows<'a>>,
    rest: RowMask,
    last: Option<Rows<'a>>,
}

// Each condition as the mask of the rows at which it is true and none before it, beside its values.
fn split<'a>(
    alloc: Global,
    count: usize,
    columns: Vec<Rows<'a>>,
) -> Result<Branches<'a>, AllocError>
    requires { AllLong count (rows_views columns.items) }
    ensures masks { IfOk result (λ b. b.masks.items ≡ claimed (replicate count true) (truths (conditions_in (rows_views columns.entry.items)))) }
    ensures rest { IfOk result (λ b. b.rest ≡ unclaimed (replicate count true) (truths (conditions_in (rows_views columns.entry.items)))) }
    ensures values { IfOk result (λ b. rows_views b.values.items ≡ values_in (rows_views columns.entry.items)) }
    ensures last { IfOk result (λ b. option_map rows_view b.last ≡ alone (rows_views columns.entry.items)) }
{
    let mut masks = Vec::new(alloc);
    let mut values = Vec::new(alloc);
    let mut rest = RowMask::new(vec![in alloc; true; count]?);
    let mut columns = columns.into_iter();
    while let Some(condition) = columns.next() {
        match columns.next() {
            Some(column) => {
                masks.push(own_rows(alloc, condition, &mut rest)?)?;
                values.push(column)?;
            }
            None => {
                return Ok(Branches {
                    masks,
                    values,
                    rest,
                    last: Some(condition),
                });
            }
        }
    }
    Ok(Branches {
        masks,
        values,
        rest,
        last: None,
    })
}

// Of the rows that are left those at which the condition is true; they are taken out of the rest.
#[tactic(auto, using(crate::proofs::Trues::claim_long, crate::proofs::Trues::claim_own, crate::proofs::Trues::claim_left))]
fn own_rows(alloc: Global, condition: Rows, rest: &mut RowMask) -> Result<RowMask, AllocError>
    requires { length (rows_view condition) ≡ length rest.old }
    ensures own { IfOk result (λ mask. mask ≡ both (map values.is_true (rows_view condition.entry)) rest.old) }
    ensures left { IfOk result (λ _. rest.new ≡ but rest.old (map values.is_true (rows_view condition.entry))) }
{
    let mask = condition.true_rows(alloc, rest);
    drop(condition);
    let mut mask = mask?;
    mask.claim(rest);
    Ok(mask)
}
