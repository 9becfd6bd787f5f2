// Constants one after another.
ghost use Rattle.std.specs.Prelude.{◌≡◌, IfOk, IfSome};
ghost use Rattle.std.proofs.Math.ListN.{replicate};
ghost use Rattle.vx_value.specs.StructColumns.{EachFit};
ghost use Rattle.vx_value.specs.Views.{value_of};
ghost use Rattle.vx_array.specs.Rows.{lanes_rows};
ghost use Rattle.vx_array_build.specs.Parts.{rows_of_parts};

use std::alloc::AllocError;
use vx_array::{Array, Lanes};
use vx_value::Value;

// The rows of the parts as a constant, where each part is one of the same value.
pub(crate) fn same_rows(parts: &[Array]) -> Result<Option<Lanes>, AllocError>
    ensures rows { IfOk result (λ found. IfSome found (λ lanes. lanes_rows lanes ≡ rows_of_parts parts.now)) }
    ensures fit { IfOk result (λ found. IfSome found (λ _. EachFit parts.now)) }
{
    let Some(first) = parts.first() else {
        return Ok(None);
    };
    let Lanes::Same(value, _) = first.lanes() else {
        return Ok(None);
    };
    match count_of(parts, value.as_ref()) {
        Some(count) => Ok(Some(Lanes::Same(value.clone()?, count))),
        None => Ok(None),
    }
}

// How many rows the parts have together, where each part is a constant of that value.
fn count_of(parts: &[Array], value: &Value) -> Option<usize>
    ensures rows { IfSome result (λ count. rows_of_parts parts.now ≡ replicate count (value_of value.now)) }
    ensures fit { IfSome result (λ _. EachFit parts.now) }
{
    let mut count: usize = 0;
    for i in 0..parts.len() {
        let Some(more) = count_in(parts[i].lanes(), value) else {
            return None;
        };
        let Some(sum) = more.checked_add(count) else {
            return None;
        };
        count = sum;
    }
    Some(count)
}

// The number of rows of a constant of that value.
fn count_in(lanes: &Lanes, value: &Value) -> Option<usize>
    ensures { IfSome result (λ count. lanes_rows lanes.now ≡ replicate count (value_of value.now)) }
{
    match lanes {
        Lanes::Same(other, count) => {
            if *other.as_ref() == *value {
                return Some(*count);
            }
            None
        }
        _ => None,
    }
}
