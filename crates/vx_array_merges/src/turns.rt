// Conditions and values in turn.
ghost use Rattle.std.specs.Prelude.{◌≡◌, IfOk, Some, length, map, option_map};
ghost use Rattle.vx_value.specs.Types.{bool};
ghost use Rattle.vx_array.specs.Rows.{lanes_each, lanes_rows};
ghost use Rattle.vx_eval.specs.Choices.{in_turn, rows_in};
ghost use Rattle.vx_eval.specs.FirstMerged.{columns_in, masks_in};
ghost use Rattle.vx_array_merges.specs.Turns.{truths_in};

use std::alloc::{AllocError, Global};
use vx_array::{Array, BitPart, Lanes, Validity};
use vx_array_loops::Bits;
use vx_eval::RowMask;

/// The lanes of conditions and values in turn, with ELSE last. Asks a value column for each condition.
pub fn in_turn(
    alloc: Global,
    conditions: &[Array],
    values: &[Array],
    otherwise: Option<&Array>,
) -> Result<Vec<Lanes>, AllocError>
    requires { length values.now ≡ length conditions.now }
    ensures { IfOk result (λ v. lanes_each v.items ≡ in_turn (rows_in conditions.now) (rows_in values.now) (option_map (λ a. a.now.rows) otherwise.entry)) }
{
    let mut lanes = Vec::new(alloc);
    for i in 0..conditions.len() {
        lanes.push(conditions[i].lanes().clone()?)?;
        lanes.push(values[i].lanes().clone()?)?;
    }
    if let Some(array) = otherwise {
        lanes.push(array.lanes().clone()?)?;
    }
    Ok(lanes)
}

/// The same, where masks are the conditions and the last array is ELSE.
pub fn masks_in_turn(
    alloc: Global,
    branches: &[(RowMask, Array)],
    otherwise: &Array,
) -> Result<Vec<Lanes>, AllocError>
    ensures { IfOk result (λ v. lanes_each v.items ≡ in_turn (truths_in (masks_in branches.now)) (columns_in branches.now) (Some otherwise.now.rows)) }
{
    let mut lanes = Vec::new(alloc);
    for branch in branches {
        lanes.push(truths_of(alloc, &branch.0)?)?;
        lanes.push(branch.1.lanes().clone()?)?;
    }
    lanes.push(otherwise.lanes().clone()?)?;
    Ok(lanes)
}

// The mask's truth values.
fn truths_of(alloc: Global, mask: &RowMask) -> Result<Lanes, AllocError>
    ensures { IfOk result (λ lanes. lanes_rows lanes ≡ map bool mask.now) }
{
    let bits = Bits::from_bools(alloc, mask.as_slice())?;
    Ok(Lanes::Bools(BitPart::new(alloc, bits)?, Validity::All))
}
