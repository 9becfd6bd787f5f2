// Masks: the rows at which a condition is true.
ghost use Rattle.std.specs.Prelude.{◌≡◌, IfOk, IfSome, length};
ghost use Rattle.vx_value.specs.Views.{value_of};
ghost use Rattle.vx_fn.specs.Values as values;
ghost use Rattle.vx_array.specs.Rows.{lanes_rows};
ghost use Rattle.vx_array_kernels.specs.Choices.{IsMask, masked_rows};
ghost use Rattle.vx_array_kernels.specs.Found.{Finds, IsLong};

use crate::pair::Pair;
use crate::truths::{same_rows, valid_rows};
use std::alloc::{AllocError, Global};
use vx_array::{BitPart, Lanes, Validity};
use vx_array_loops::Bits;
use vx_value::Value;

/// Of so many rows of a condition, those at which it is true and not null. There is an answer where it has
/// truth values in bits, or is one value in all rows.
pub fn mask_of(alloc: Global, count: usize, condition: &Lanes) -> Result<Option<Bits>, AllocError>
    requires { length (lanes_rows condition.now) ≡ count }
    ensures { IfOk result (λ found. IfSome found (λ mask. IsMask mask (lanes_rows condition.now))) }
{
    match condition {
        Lanes::Bools(bits, validity) => {
            let mut mask = valid_rows(alloc, count, validity)?;
            mask.and_with(&bits.first(alloc, count)?);
            Ok(Some(mask))
        }
        Lanes::Same(value, _) => Ok(Some(same_rows(alloc, count, is_true(value.as_ref()))?)),
        _ => Ok(None),
    }
}

// Whether the value is true.
fn is_true(value: &Value) -> bool
    ensures { result ≡ values.is_true (value_of value.now) }
{
    match value {
        Value::Bool(truth) => *truth,
        _ => false,
    }
}

/// The first column's values where the condition is true, and null elsewhere. There is an answer where the
/// condition has truth values in bits, or is one value in all rows, and the values are in buffers.
pub fn mask(alloc: Global, pair: Pair) -> Result<Option<Lanes>, AllocError>
    requires { IsLong pair }
    ensures { Finds (masked_rows pair.entry.count (lanes_rows pair.entry.lhs.now) (lanes_rows pair.entry.rhs.now)) result }
{
    let Some(mask) = mask_of(alloc, pair.count, pair.rhs)? else {
        return Ok(None);
    };
    let validity = Validity::Rows(BitPart::new(alloc, mask)?);
    pair.lhs.masked(alloc, &validity)
}
